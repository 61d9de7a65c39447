ghost use Rattle.std.specs.Prelude.{◌≡◌, ◌+◌, ◌≤◌, ◌<◌, ◌^◌, length, take, IfOk, Some};
ghost use Rattle.host_files.specs.Outside.{Files, content_of};
ghost use Rattle.command_plan.specs.Read.{whole_read, Reads};
ghost use Rattle.command_plan.specs.Reading.{fetched, status_of};
ghost use Rattle.command_plan.specs.Steps.{Keeps, ReadsTo};

use command_faults::{InputFault, Status, fetch_failed, input_refused};
use host_files::{Host, HostFault};
use std::alloc::Global;

/// The first `most + 1` bytes of a file, or all of it where it is shorter.
pub fn fetch_front<H: Host>(
    alloc: Global,
    host: &mut H,
    name: &str,
    most: u64,
) -> Result<Vec<u8>, Status>
    requires { most < 2 ^ 32 }
    ensures bound { IfOk result (λ v. length v.items ≤ most + 1) }
    ensures keeps { Keeps (H.world host.old) (H.world host.new) (status_of result) }
    ensures told { (files : Files) → (H.world host.old).files ≡ Some files →
        ReadsTo (fetched name.now) (H.world host.old) (H.world host.new) result (λ v. v.items ≡ take (most + 1) (content_of files name.now)) }
{
    match host.fetch(alloc, name, most) {
        Ok(bytes) => Ok(bytes),
        Err(HostFault::Failed) => Err(fetch_failed(alloc, name)),
        Err(HostFault::NoMemory) => Err(Status::Memory),
    }
}

/// The bytes of a file of at most `most` bytes. A longer file is refused with the fault that is handed in.
pub fn fetch_whole<H: Host>(
    alloc: Global,
    host: &mut H,
    name: &str,
    most: u64,
    too_long: InputFault,
) -> Result<Vec<u8>, Status>
    requires { most < 2 ^ 32 }
    ensures keeps { Keeps (H.world host.old) (H.world host.new) (status_of result) }
    ensures told { (files : Files) → (H.world host.old).files ≡ Some files →
        Reads (λ v. v.items) (whole_read files name.now most too_long) (H.world host.old) (H.world host.new) result }
{
    let bytes = fetch_front(alloc, host, name, most)?;
    if bytes.len() as u64 > most {
        return Err(input_refused(alloc, name, too_long));
    }
    Ok(bytes)
}
