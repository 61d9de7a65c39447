//! Hosts over the files of the runtime and over files in memory that never fail.

use host_files::{Host, HostFault, RealHost, SteadyHost};
use std::test::Fail;

#[test]
fn a_real_host_keeps_files(rt: HostRuntime) -> Result<(), Fail> {
    let mut host = RealHost::new(&rt);
    let bytes: [u8; 4] = [0, 13, 10, 255];
    host.store("other", b"longer than that")
        .map_err(|_| "store")?;
    host.store("kept", &bytes).map_err(|_| "store")?;
    host.store("other", b"short").map_err(|_| "store")?;
    let whole = host.fetch(rt.alloc(), "kept", 32).map_err(|_| "fetch")?;
    assert_eq!(rt; whole.as_slice(), bytes.as_slice());
    let front = host.fetch(rt.alloc(), "kept", 1).map_err(|_| "fetch")?;
    assert_eq!(rt; front.as_slice(), [0, 13].as_slice());
    let other = host.fetch(rt.alloc(), "other", 32).map_err(|_| "fetch")?;
    assert_eq!(rt; other.as_slice(), b"short".as_slice());
    host.say(b"said \xC3\xA9\n").map_err(|_| "say")?;
    Ok(())
}

#[test]
fn a_real_host_reads_past_its_buffer(rt: HostRuntime) -> Result<(), Fail> {
    let mut long = Vec::new(rt.alloc());
    for i in 0..9_000u32 {
        long.push((i % 251) as u8)?;
    }
    let mut host = RealHost::new(&rt);
    host.store("long", long.as_slice()).map_err(|_| "store")?;
    let whole = host.fetch(rt.alloc(), "long", 9_000).map_err(|_| "fetch")?;
    assert_eq!(rt; whole.as_slice(), long.as_slice());
    let front = host.fetch(rt.alloc(), "long", 8_192).map_err(|_| "fetch")?;
    assert_eq!(rt; front.len(), 8_193);
    assert!(rt; long.starts_with(front.as_slice()));
    Ok(())
}

#[test]
fn a_real_host_takes_no_folder_for_a_file(rt: HostRuntime) {
    let mut host = RealHost::new(&rt);
    assert!(rt; matches!(host.fetch(rt.alloc(), ".", 32), Err(HostFault::Failed)));
    assert_eq!(rt; host.store(".", b"bytes"), Err(HostFault::Failed));
    assert!(rt; matches!(host.fetch(rt.alloc(), "absent", 32), Err(HostFault::Failed)));
}

#[test]
fn a_steady_host_keeps_the_newest_bytes(rt: HostRuntime) -> Result<(), Fail> {
    let mut host = SteadyHost::new(rt.alloc());
    host.put("name", b"old").map_err(|_| "put")?;
    host.store("name", b"newer").map_err(|_| "store")?;
    let front = host.fetch(rt.alloc(), "name", 2).map_err(|_| "fetch")?;
    assert_eq!(rt; front.as_slice(), b"new".as_slice());
    let absent = host.fetch(rt.alloc(), "absent", 2).map_err(|_| "fetch")?;
    assert!(rt; absent.is_empty());
    host.say(b"one ").map_err(|_| "say")?;
    host.say(b"two").map_err(|_| "say")?;
    assert_eq!(rt; host.said(), b"one two".as_slice());
    assert_eq!(rt; host.file("name").ok_or("no file")?, b"newer".as_slice());
    assert!(rt; host.file("absent").is_none());
    Ok(())
}
