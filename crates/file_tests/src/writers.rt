//! What no command reaches of the writers: where samples lie in the SNES's sound memory, and names of VAG files.

use snes_directory::{LayFault, lay_out};
use std::test::*;
use vag_writer::{VagFault, write_vag};

// Two samples that fill the memory to its last byte, and a block more.
#[test]
fn lays_out(rt: HostRuntime) -> Result<(), Fail> {
    let layout = lay_out(rt.alloc(), 512, &[4096, 3128])
        .ok()
        .ok_or("a layout")?;
    assert_eq!(rt; layout.total, 65_536);
    assert_eq!(rt; layout.starts.as_slice(), [520, 37_384].as_slice());
    assert!(rt;
        lay_out(rt.alloc(), 512, &[4096, 3129]).err() == Some(LayFault::ImageFull { total: 65_545 })
    );
    assert!(rt; lay_out(rt.alloc(), 500, &[1]).err() == Some(LayFault::BadBase { base: 500 }));
    Ok(())
}

// A name in a VAG file has 16 bytes.
#[test]
fn names_are_short(rt: HostRuntime) {
    let long = write_vag(rt.alloc(), "seventeen letters", 32_000, &[]).err();
    assert!(rt; long == Some(VagFault::NameLong { len: 17 }));
}
