ghost use Rattle.std.specs.Prelude.{◌≡◌, ℕ, ◌+◌, ◌^◌, ◌≤◌, ◌<◌, List, Option, length, take, IfOk, IfSome, OnOk, OnErr};
ghost use Rattle.host_files.specs.Outside.{World, Files, content_of, stored, without, grown, GrowsByFront, raised, Rose};

use std::alloc::Global;
use thiserror::Error;

/// Why a call of a host gave nothing.
#[derive(Clone, Copy, Debug, PartialEq, Eq, Error)]
pub enum HostFault {
    /// The outside failed, and the host has counted that.
    #[error("the host failed")]
    Failed,
    /// There was no memory for the answer.
    #[error("out of memory")]
    NoMemory,
}

/// Files by name, a place to say lines, and counts of failures and of calls.
///
/// A host may tell what it holds, or not; the clauses on content hold of one that tells. Each
/// count stops at its last value, `2^64 - 1`.
pub trait Host {
    /// What the host tells, and its counts.
    ghost world: { Self → World };

    /// The first `most + 1` bytes of a file, or all of it where it is shorter.
    ///
    /// So an answer of more than `most` bytes shows that the file is longer than `most`. A file
    /// that is not there counts as empty, or is answered by [`HostFault::Failed`].
    fn fetch(&mut self, alloc: Global, name: &str, most: u64) -> Result<Vec<u8>, HostFault>
        requires { most < 2 ^ 32 }
        ensures bound { IfOk result (λ v. length v.items ≤ most + 1) }
        ensures content { IfOk result (λ v. IfSome (world self.old).files (λ f. v.items ≡ take (most + 1) (content_of f name.now))) }
        ensures files { (world self.new).files ≡ (world self.old).files }
        ensures said { (world self.new).said ≡ (world self.old).said }
        ensures faults { (world self.old).faults ≤ (world self.new).faults }
        ensures failed { result ≡ Err HostFault.Failed → Rose (world self.old).faults (world self.new).faults }
        ensures calls { (world self.new).calls ≡ raised 1 (world self.old).calls };

    /// Sets a file to these bytes. After a refusal the file's bytes are not known, and all other
    /// files are as they were.
    fn store(&mut self, name: &str, bytes: &[u8]) -> Result<(), HostFault>
        ensures ok { OnOk result ((world self.new).files ≡ stored (world self.old).files name.now bytes.now) }
        ensures err { OnErr result (without name.now (world self.new).files ≡ without name.now (world self.old).files) }
        ensures said { (world self.new).said ≡ (world self.old).said }
        ensures faults { (world self.old).faults ≤ (world self.new).faults }
        ensures failed { result ≡ Err HostFault.Failed → Rose (world self.old).faults (world self.new).faults }
        ensures calls { (world self.new).calls ≡ raised 1 (world self.old).calls };

    /// Says the bytes, after all that has been said. After a refusal a front of them was said.
    fn say(&mut self, bytes: &[u8]) -> Result<(), HostFault>
        ensures ok { OnOk result ((world self.new).said ≡ grown (world self.old).said bytes.now) }
        ensures err { OnErr result (GrowsByFront (world self.old).said (world self.new).said bytes.now) }
        ensures files { (world self.new).files ≡ (world self.old).files }
        ensures faults { (world self.old).faults ≤ (world self.new).faults }
        ensures failed { result ≡ Err HostFault.Failed → Rose (world self.old).faults (world self.new).faults }
        ensures calls { (world self.new).calls ≡ raised 1 (world self.old).calls };
}
