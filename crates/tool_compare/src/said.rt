ghost use Rattle.std.specs.Prelude.{◌≤◌, [], All, length};
ghost use Rattle.report_text.specs.Listed.{report_of};
ghost use Rattle.command_plan.specs.Steps.{Comes, Keeps, writing};

use adpcm_nums::NoMemory;
use command_faults::Status;
use command_plan::write_out;
use host_files::Host;
use report_text::{Reported, report_of};
use std::alloc::Global;

/// Says what is told of some samples, of which no file is stored.
pub(crate) fn say_report<H: Host, R: Reported>(alloc: Global, host: &mut H, reports: &[R]) -> Status
    requires few { length reports.now ≤ 64 }
    requires bounds { All (λ report. R.bound report ≤ R.error report) reports.now }
    ensures keeps { Keeps (H.world host.old) (H.world host.new) result }
    ensures told { Comes (writing [] (report_of R.line reports.now 0)) (H.world host.old) (H.world host.new) result }
{
    match report_of(alloc, reports, 0) {
        Ok(line) => write_out(alloc, host, &[], line.as_str()),
        Err(NoMemory) => Status::Memory,
    }
}
