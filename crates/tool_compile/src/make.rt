ghost use Rattle.tool_compile.specs.Make.{make_course, IsMade, AnswersMake};
ghost use Rattle.command_plan.specs.Promise.{Reaches, Promises};
ghost use Rattle.command_plan.specs.Steps.{Keeps};

use crate::made::made_report;
use adpcm_nums::NoMemory;
use command_faults::Status;
use command_plan::{finish, write_out};
use host_files::Host;
use std::alloc::Global;

/// The command `make NUMBER`: compiles the test sound that the number gives as a sample of BRR, of SPU-ADPCM and of IMA
/// ADPCM, and says the report. It reads and stores nothing.
///
/// Loops are repeated to whole blocks, zeros come before the sound, a block of IMA ADPCM has 256 bytes, the beam has the
/// width 4, and the search may list 20,000 cells a sample (this project's own choice).
pub fn run_make<H: Host>(alloc: Global, host: &mut H, number: u32) -> Status
    // How the world stands, whatever the host did.
    ensures told { Promises make_course (IsMade number) (H.world host.old) (H.world host.new) result }
    // In the command's own words: each told error is just that of a list of blocks that may be stored, and no such list has an error below the told bound.
    ensures answer { AnswersMake number (H.world host.old) (H.world host.new) result }
    // These hold of a host that tells nothing, too.
    ensures keeps { Keeps (H.world host.old) (H.world host.new) result }
{
    let status = come_make(alloc, host, number);
    finish(alloc, host, status)
}

/// The command `make` up to the line of its status.
fn come_make<H: Host>(alloc: Global, host: &mut H, number: u32) -> Status
    ensures told { Reaches make_course (IsMade number) (H.world host.old) (H.world host.new) result }
    ensures keeps { Keeps (H.world host.old) (H.world host.new) result }
{
    match made_report(alloc, number) {
        Ok(line) => write_out(alloc, host, &[], line.as_str()),
        Err(NoMemory) => Status::Memory,
    }
}
