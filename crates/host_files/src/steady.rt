ghost use Rattle.std.specs.Prelude.{◌≡◌, ℕ, ◌+◌, List, [], OnOk, OnErr, Option, option_copied, option_map};
ghost use Rattle.std.specs.FinMap as map;
ghost use Rattle.std.specs.Ordering.{nat_cmp};
ghost use Rattle.std.specs.Cmp.Lexicographic.{slice_cmp};
ghost use Rattle.host_files.specs.Memory.{entries_of};
ghost use Rattle.host_files.specs.Outside.{raised};

use crate::host::{Host, HostFault};
use adpcm_nums::NoMemory;
use std::alloc::Global;
use std::collections::VecDeque;
use std::marker::Model;

/// Files in memory that never fail: its count of failures is the constant 0.
///
/// They are kept as the list of all writes, the newest first.
#[derive(Drop)]
pub struct SteadyHost {
    alloc: Global,
    writes: VecDeque<(String, Vec<u8>)>,
    said: Vec<u8>,
    calls: u64,
}

impl Model for SteadyHost {
    ghost use Rattle.host_files.specs.Memory.{Held, held_code, entries_of};
    ghost use Rattle.std.specs.FinMap as finite;

    ghost Value = { Held };

    ghost coded = { held_code };

    ghost view = { λ h. record { files = finite.from_entries (entries_of h.writes.items); said = h.said.items; calls = h.calls } };
}

impl SteadyHost {
    /// A host with no files, that has said nothing.
    pub fn new(alloc: Global) -> SteadyHost
        ensures files { result.files ≡ map.empty }
        ensures said { result.said ≡ [] }
        ensures calls { result.calls ≡ 0 }
    {
        SteadyHost {
            alloc,
            writes: VecDeque::new(alloc),
            said: Vec::new(alloc),
            calls: 0,
        }
    }

    /// Sets a file, and counts no call. A refusal changes nothing.
    pub fn put(&mut self, name: &str, bytes: &[u8]) -> Result<(), NoMemory>
        ensures ok { OnOk result (self.new ≡ record self.old { files = map.insert self.old.files name.now bytes.now }) }
        ensures err { OnErr result (self.new ≡ self.old) }
    {
        let Ok(name) = String::from_str(self.alloc, name) else {
            return Err(NoMemory);
        };
        let Ok(bytes) = Vec::from_slice(self.alloc, bytes) else {
            return Err(NoMemory);
        };
        match self.writes.push_front((name, bytes)) {
            Ok(()) => Ok(()),
            Err(_) => Err(NoMemory),
        }
    }

    /// The bytes of a file, where it is there.
    pub fn file(&self, name: &str) -> Option<&[u8]>
        ensures { option_copied result ≡ map.get self.now.files name.now }
    {
        newest(&self.writes, name)
    }

    /// How many calls were made.
    pub(crate) fn count(&self) -> u64
        ensures { result ≡ self.now.calls }
    {
        self.calls
    }

    /// Counts a call that does nothing.
    pub(crate) fn skip(&mut self)
        ensures { self.new ≡ record self.old { calls = raised 1 self.old.calls } }
    {
        self.calls = self.calls.saturating_add(1);
    }

    /// What has been said.
    pub fn said(&self) -> &[u8]
        ensures { result.now ≡ self.now.said }
    {
        self.said.as_slice()
    }
}

/// The bytes of the newest write of a name.
fn newest<'a>(writes: &'a VecDeque<(String, Vec<u8>)>, name: &str) -> Option<&'a [u8]>
    ensures { option_copied result ≡ map.find (slice_cmp nat_cmp) name.now (entries_of writes.now.items) }
{
    for (held, bytes) in writes {
        if held.as_str() == name {
            return Some(bytes.as_slice());
        }
    }
    None
}

impl Host for SteadyHost {
    ghost use Rattle.std.specs.Prelude.{Some};

    ghost world = { λ h. record { files = Some h.files; said = Some h.said; faults = 0; calls = h.calls } };

    fn fetch(&mut self, alloc: Global, name: &str, most: u64) -> Result<Vec<u8>, HostFault> {
        self.calls = self.calls.saturating_add(1);
        match self.file(name) {
            None => Ok(Vec::new(alloc)),
            Some(bytes) => {
                let count = (most + 1).min(bytes.len() as u64) as usize;
                match Vec::from_slice(alloc, &bytes[..count]) {
                    Ok(copy) => Ok(copy),
                    Err(_) => Err(HostFault::NoMemory),
                }
            }
        }
    }

    fn store(&mut self, name: &str, bytes: &[u8]) -> Result<(), HostFault> {
        self.calls = self.calls.saturating_add(1);
        match self.put(name, bytes) {
            Ok(()) => Ok(()),
            Err(_) => Err(HostFault::NoMemory),
        }
    }

    fn say(&mut self, bytes: &[u8]) -> Result<(), HostFault> {
        self.calls = self.calls.saturating_add(1);
        match self.said.extend_from_slice(bytes) {
            Ok(()) => Ok(()),
            Err(_) => Err(HostFault::NoMemory),
        }
    }
}
