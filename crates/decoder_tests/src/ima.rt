ghost use Rattle.std.specs.Prelude.{◌<◌, IsTrue};
ghost use Rattle.ima_machine.specs.Ima.{is_ima_state};

mod boxes;
mod floors;
mod nearest;
mod table;

use adpcm_nums::clamp16;
use ima_machine::{Ima, ImaFault, check_head, code_at, first_at, head_at};
use machine_core::{Machine, State};
use std::test::*;

/// A state of an output and a step index.
fn state(last: i32, index: u8) -> State
    requires { index < 89 }
    ensures { IsTrue (is_ima_state result) }
{
    State {
        a: clamp16(i64::from(last)),
        b: i32::from(index),
    }
}

#[test]
fn decodes_as_another_decoder(rt: HostRuntime) -> Result<(), Fail> {
    let ima = Ima::new(12).ok_or("twelve bytes")?;
    for (bytes, outputs) in table::ROWS.iter() {
        let mut out = [0; 17];
        assert_eq!(rt; ima.decode_block(bytes, &mut out), Ok(()));
        assert_eq!(rt; out, *outputs, "at {bytes:?}");
    }
    Ok(())
}

#[test]
fn steps(rt: HostRuntime) -> Result<(), Fail> {
    let ima = Ima::new(8).ok_or("eight bytes")?;
    assert_eq!(rt; ima.step(3, 1, 7, state(0, 0)), state(11, 8));
    assert_eq!(rt; ima.step(3, 8, 7, state(32767, 88)), state(32767, 88));
    // At the first place neither the output nor the index before it counts.
    assert_eq!(rt; ima.step(3, 0, 7, state(32767, 88)), state(-32761, 3));
    Ok(())
}

#[test]
fn blocks(rt: HostRuntime) -> Result<(), Fail> {
    let ima = Ima::new(8).ok_or("eight bytes")?;
    let mut bytes = [0; 8];
    ima.spell_block(-2, 5, &[1, 2, 3, 4, 5, 6, 7, 8], &mut bytes);
    assert_eq!(rt; bytes, [0xFE, 0xFF, 5, 0, 0x21, 0x43, 0x65, 0x87]);
    assert_eq!(rt; head_at(&bytes, 0), 5);
    assert_eq!(rt; first_at(&bytes, 0), 32766);
    assert_eq!(rt; code_at(&bytes, 0, 7), 8);
    let mut out = [7; 9];
    for (head, fault) in [
        ([89, 1], ImaFault::BadIndex { index: 89 }),
        ([88, 1], ImaFault::BadReserved { value: 1 }),
    ] {
        let bad = [0, 0, head[0], head[1], 0, 0, 0, 0];
        assert_eq!(rt; check_head(&bad, 0), Err(fault));
        assert_eq!(rt; ima.decode_block(&bad, &mut out), Err(fault));
        assert_eq!(rt; out, [7; 9]);
    }
    Ok(())
}
