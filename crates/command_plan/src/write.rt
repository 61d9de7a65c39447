ghost use Rattle.command_plan.specs.Reading.{status_of};
ghost use Rattle.command_plan.specs.Steps.{Comes, Keeps, writing, StoresTo};

use command_faults::{HostCall, Status, store_failed};
use host_files::{Host, HostFault, NamedFile};
use std::alloc::Global;

/// Stores the files in order, and then says the line.
pub fn write_out<H: Host>(alloc: Global, host: &mut H, writes: &[NamedFile], line: &str) -> Status
    ensures keeps { Keeps (H.world host.old) (H.world host.new) result }
    ensures told { Comes (writing writes.now line.now) (H.world host.old) (H.world host.new) result }
{
    match store_all(alloc, host, writes) {
        Err(status) => status,
        Ok(()) => match host.say(line.as_bytes()) {
            Ok(()) => Status::Done,
            Err(HostFault::Failed) => Status::Device { at: HostCall::Say },
            Err(HostFault::NoMemory) => Status::Memory,
        },
    }
}

/// Stores the files in order.
fn store_all<H: Host>(alloc: Global, host: &mut H, writes: &[NamedFile]) -> Result<(), Status>
    ensures keeps { Keeps (H.world host.old) (H.world host.new) (status_of result) }
    ensures told { StoresTo writes.now (H.world host.old) (H.world host.new) result }
{
    for write in writes {
        let name = write.name.as_str();
        match host.store(name, write.bytes.as_slice()) {
            Ok(()) => {}
            Err(HostFault::Failed) => return Err(store_failed(alloc, name)),
            Err(HostFault::NoMemory) => return Err(Status::Memory),
        }
    }
    Ok(())
}
