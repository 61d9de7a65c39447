ghost use Rattle.std.specs.Prelude.{◌≡◌, ℕ, ◌+◌, ◌-◌, ◌^◌, ◌<◌, ◌≤◌, length, min, IfOk};

use crate::host::{Host, HostFault};
use std::alloc::Global;
use std::fs;
use std::io::{Print, Read, Write};
use std::rt::Files;

/// The files of the runtime and its standard output. It tells nothing of what they hold.
///
/// This is the trusted edge of the program: what the disk and the console do with the bytes is
/// not in any clause. Reads and writes go on by at least one byte a turn until all is done, so
/// every call ends.
#[derive(Drop)]
pub struct RealHost<'a, R> {
    rt: &'a R,
    faults: u64,
    calls: u64,
}

impl<'a, R: Files + Print> RealHost<'a, R> {
    /// A host over a runtime that has counted nothing yet.
    pub fn new(rt: &'a R) -> RealHost<'a, R>
        ensures faults { result.faults ≡ 0 }
        ensures calls { result.calls ≡ 0 }
    {
        RealHost {
            rt,
            faults: 0,
            calls: 0,
        }
    }

    /// Counts a failure.
    fn fail(&mut self) -> HostFault
        ensures result { result ≡ HostFault.Failed }
        ensures faults { self.new.faults ≡ min (self.old.faults + 1) (2 ^ 64 - 1) }
        ensures later { self.old.faults ≤ self.new.faults }
        ensures calls { self.new.calls ≡ self.old.calls }
    {
        self.faults = self.faults.saturating_add(1);
        HostFault::Failed
    }
}

/// The first `most + 1` bytes of a reader, or all of them; a read of no bytes is their end.
fn read_front<F: Read>(alloc: Global, file: &mut F, most: u64) -> Result<Vec<u8>, HostFault>
    requires { most < 2 ^ 32 }
    ensures { IfOk result (λ v. length v.items ≤ most + 1) }
{
    let want = most as usize + 1;
    let mut bytes = Vec::new(alloc);
    let mut buf = [0u8; 4096];
    while bytes.len() < want {
        let room = (want - bytes.len()).min(4096);
        let Ok(count) = file.read(&mut buf[..room]) else {
            return Err(HostFault::Failed);
        };
        if count == 0 {
            break;
        }
        if bytes.extend_from_slice(&buf[..count]).is_err() {
            return Err(HostFault::NoMemory);
        }
    }
    Ok(bytes)
}

/// Writes all of the bytes, and says whether that went well. To take none of them is a failure.
fn write_whole<W: Write>(out: &mut W, bytes: &[u8]) -> bool {
    let mut done = 0;
    while done < bytes.len() {
        let Ok(count) = out.write(&bytes[done..]) else {
            return false;
        };
        if count == 0 {
            return false;
        }
        done += count;
    }
    true
}

/// Prints all of the bytes, and says whether that went well. To take none of them is a failure.
fn print_whole<R: Print>(rt: &R, bytes: &[u8]) -> bool {
    let mut done = 0;
    while done < bytes.len() {
        let Ok(count) = rt.write_some(&bytes[done..]) else {
            return false;
        };
        if count == 0 {
            return false;
        }
        done += count;
    }
    true
}

impl<'a, R: Files + Print> Host for RealHost<'a, R> {
    ghost use Rattle.std.specs.Prelude.{None};

    ghost world = { λ h. record { files = None; said = None; faults = h.faults; calls = h.calls } };

    fn fetch(&mut self, alloc: Global, name: &str, most: u64) -> Result<Vec<u8>, HostFault> {
        self.calls = self.calls.saturating_add(1);
        let Ok(mut file) = fs::open(self.rt, name) else {
            return Err(self.fail());
        };
        match read_front(alloc, &mut file, most) {
            Ok(bytes) => Ok(bytes),
            Err(HostFault::Failed) => Err(self.fail()),
            Err(HostFault::NoMemory) => Err(HostFault::NoMemory),
        }
    }

    fn store(&mut self, name: &str, bytes: &[u8]) -> Result<(), HostFault> {
        self.calls = self.calls.saturating_add(1);
        let Ok(mut file) = fs::create(self.rt, name) else {
            return Err(self.fail());
        };
        if write_whole(&mut file, bytes) {
            Ok(())
        } else {
            Err(self.fail())
        }
    }

    fn say(&mut self, bytes: &[u8]) -> Result<(), HostFault> {
        self.calls = self.calls.saturating_add(1);
        if print_whole(self.rt, bytes) {
            Ok(())
        } else {
            Err(self.fail())
        }
    }
}
