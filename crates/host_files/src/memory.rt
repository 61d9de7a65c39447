ghost use Rattle.std.specs.Prelude.{◌≡◌, ◌≢◌, ◌↔◌, ◌⊎◌, ℕ, ◌+◌, ◌^◌, ◌<◌, ◌≤◌, List, [], ◌++◌, length, take, IfOk, OnOk, OnErr, IsNone, IsTrue, Some, option_copied};
ghost use Rattle.std.specs.FinMap as map;
ghost use Rattle.std.specs.List.{Contains};
ghost use Rattle.host_files.specs.Memory.{one_failed};
ghost use Rattle.host_files.specs.Outside.{content_of, GrowsByFront, raised};

use crate::host::{Host, HostFault};
use crate::steady::SteadyHost;
use adpcm_nums::NoMemory;
use std::alloc::Global;
use std::marker::Model;

/// Files in memory that fail at the calls whose numbers are listed, and at a fetch of a file that is not there.
///
/// Calls of [`Host`] are numbered from 0. A failed call raises the two counts and changes nothing else; any other leaves the
/// count of failures. No call changes the list.
#[derive(Drop)]
pub struct MemoryHost {
    inner: SteadyHost,
    fails: Vec<u64>,
    faults: u64,
}

impl Model for MemoryHost {
    ghost use Rattle.host_files.specs.Memory.{Failing, failing_code};

    ghost Value = { Failing };

    ghost coded = { failing_code };

    ghost view = { λ h. record { held = h.inner; fails = h.fails.items; faults = h.faults } };
}

impl MemoryHost {
    /// A host with no files, that has said nothing and fails at the calls of these numbers.
    pub fn new(alloc: Global, fails: Vec<u64>) -> MemoryHost
        ensures files { result.held.files ≡ map.empty }
        ensures said { result.held.said ≡ [] }
        ensures calls { result.held.calls ≡ 0 }
        ensures fails { result.fails ≡ fails.items }
        ensures faults { result.faults ≡ 0 }
    {
        MemoryHost {
            inner: SteadyHost::new(alloc),
            fails,
            faults: 0,
        }
    }

    /// Sets a file, and counts no call. A refusal changes nothing.
    pub fn put(&mut self, name: &str, bytes: &[u8]) -> Result<(), NoMemory>
        ensures ok { OnOk result (self.new ≡ record self.old { held = record self.old.held { files = map.insert self.old.held.files name.now bytes.now } }) }
        ensures err { OnErr result (self.new ≡ self.old) }
    {
        self.inner.put(name, bytes)
    }

    /// The bytes of a file, where it is there.
    pub fn file(&self, name: &str) -> Option<&[u8]>
        ensures { option_copied result ≡ map.get self.now.held.files name.now }
    {
        self.inner.file(name)
    }

    /// What has been said.
    pub fn said(&self) -> &[u8]
        ensures { result.now ≡ self.now.held.said }
    {
        self.inner.said()
    }

    /// How often a call has failed.
    pub fn faults(&self) -> u64
        ensures { result ≡ self.now.faults }
    {
        self.faults
    }

    /// Whether the next call is one of those that fail.
    fn is_due(&self) -> bool
        ensures { IsTrue result ↔ Contains self.now.fails self.now.held.calls }
    {
        self.fails.contains(&self.inner.count())
    }

    /// Counts a call that fails.
    fn fail(&mut self) -> HostFault
        ensures result { result ≡ HostFault.Failed }
        ensures changed { self.new ≡ one_failed self.old }
    {
        self.inner.skip();
        self.faults = self.faults.saturating_add(1);
        HostFault::Failed
    }
}

impl Host for MemoryHost {
    ghost world = { λ h. record { files = Some h.held.files; said = Some h.held.said; faults = h.faults; calls = h.held.calls } };

    fn fetch(&mut self, alloc: Global, name: &str, most: u64) -> Result<Vec<u8>, HostFault>
        requires { most < 2 ^ 32 }
        ensures bound { IfOk result (λ v. length v.items ≤ most + 1) }
        ensures content { IfOk result (λ v. v.items ≡ take (most + 1) (content_of self.old.held.files name.now)) }
        ensures files { self.new.held.files ≡ self.old.held.files }
        ensures said { self.new.held.said ≡ self.old.held.said }
        ensures faults { self.old.faults ≤ self.new.faults }
        ensures calls { self.new.held.calls ≡ raised 1 self.old.held.calls }
        ensures failed { (result ≡ Err HostFault.Failed) ↔ (Contains self.old.fails self.old.held.calls ⊎ IsNone (map.get self.old.held.files name.now)) }
        ensures changed { result ≡ Err HostFault.Failed → self.new ≡ one_failed self.old }
        ensures quiet { result ≢ Err HostFault.Failed → self.new.faults ≡ self.old.faults }
        ensures fails { self.new.fails ≡ self.old.fails }
    {
        if self.is_due() || self.inner.file(name).is_none() {
            return Err(self.fail());
        }
        self.inner.fetch(alloc, name, most)
    }

    fn store(&mut self, name: &str, bytes: &[u8]) -> Result<(), HostFault>
        ensures ok { OnOk result (self.new.held.files ≡ map.insert self.old.held.files name.now bytes.now) }
        ensures err { OnErr result (map.remove self.new.held.files name.now ≡ map.remove self.old.held.files name.now) }
        ensures said { self.new.held.said ≡ self.old.held.said }
        ensures faults { self.old.faults ≤ self.new.faults }
        ensures calls { self.new.held.calls ≡ raised 1 self.old.held.calls }
        ensures failed { (result ≡ Err HostFault.Failed) ↔ Contains self.old.fails self.old.held.calls }
        ensures changed { result ≡ Err HostFault.Failed → self.new ≡ one_failed self.old }
        ensures quiet { result ≢ Err HostFault.Failed → self.new.faults ≡ self.old.faults }
        ensures fails { self.new.fails ≡ self.old.fails }
    {
        if self.is_due() {
            return Err(self.fail());
        }
        self.inner.store(name, bytes)
    }

    fn say(&mut self, bytes: &[u8]) -> Result<(), HostFault>
        ensures ok { OnOk result (self.new.held.said ≡ self.old.held.said ++ bytes.now) }
        ensures err { OnErr result (GrowsByFront (Some self.old.held.said) (Some self.new.held.said) bytes.now) }
        ensures files { self.new.held.files ≡ self.old.held.files }
        ensures faults { self.old.faults ≤ self.new.faults }
        ensures calls { self.new.held.calls ≡ raised 1 self.old.held.calls }
        ensures failed { (result ≡ Err HostFault.Failed) ↔ Contains self.old.fails self.old.held.calls }
        ensures changed { result ≡ Err HostFault.Failed → self.new ≡ one_failed self.old }
        ensures quiet { result ≢ Err HostFault.Failed → self.new.faults ≡ self.old.faults }
        ensures fails { self.new.fails ≡ self.old.fails }
    {
        if self.is_due() {
            return Err(self.fail());
        }
        self.inner.say(bytes)
    }
}
