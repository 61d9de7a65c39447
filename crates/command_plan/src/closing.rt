ghost use Rattle.std.specs.Prelude.{◌≡◌};
ghost use Rattle.command_plan.specs.Ending.{ending_of, has_line};
ghost use Rattle.command_plan.specs.Steps.{Told};

use command_faults::{HostCall, Status, status_line};
use host_files::{Host, HostFault};
use std::alloc::Global;

/// Whether a line of its own tells a status.
fn has_line(status: &Status) -> bool
    ensures { result ≡ has_line (ending_of status.now) }
{
    match status {
        Status::Done | Status::Memory => false,
        Status::Device { at: HostCall::Say } => false,
        _ => true,
    }
}

/// Says the line of a status, where it has one, as the last act of a command.
///
/// The status stays where the host fails at that. Where there is no memory for it, the answer is
/// [`Status::Memory`].
pub fn finish<H: Host>(alloc: Global, host: &mut H, status: Status) -> Status
    ensures { Told (has_line (ending_of status)) status (H.world host.old) (H.world host.new) result }
{
    if !has_line(&status) {
        return status;
    }
    let Ok(line) = status_line(alloc, &status) else {
        return Status::Memory;
    };
    match host.say(line.as_str().as_bytes()) {
        Ok(()) | Err(HostFault::Failed) => status,
        Err(HostFault::NoMemory) => Status::Memory,
    }
}
