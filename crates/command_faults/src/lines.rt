ghost use Rattle.std.specs.Prelude.{◌≡◌, ◌++◌, IfOk};
ghost use Rattle.command_faults.specs.Lines.{call_parts, parts_of, fault_line};

use crate::cert_words::with_refusal;
use crate::fault_words::{with_fit, with_input, with_manifest};
use crate::row::{with_row, with_text, with_word};
use crate::status::{HostCall, Status};
use adpcm_nums::{NoMemory, Text};
use report_text::{LinePart, fault_line};
use std::alloc::Global;

/// A call of the host, and the file that it is about.
fn with_call(alloc: Global, parts: Vec<LinePart>, at: &HostCall) -> Result<Vec<LinePart>, NoMemory>
    ensures { IfOk result (λ all. all.items ≡ parts.items ++ call_parts at.now) }
{
    match at {
        HostCall::Fetch { name } => with_text(alloc, parts, "fetch", name.as_str()),
        HostCall::Store { name } => with_text(alloc, parts, "store", name.as_str()),
        HostCall::Say => with_word(alloc, parts, "say"),
    }
}

/// What follows the code in a status' line.
fn parts_of(alloc: Global, status: &Status) -> Result<Vec<LinePart>, NoMemory>
    ensures { IfOk result (λ parts. parts.items ≡ parts_of status.now) }
{
    let parts = Vec::new(alloc);
    match status {
        Status::Done | Status::Memory => Ok(parts),
        Status::Words => with_word(alloc, parts, "words"),
        Status::Manifest { fault } => {
            let parts = with_word(alloc, parts, "manifest")?;
            with_manifest(alloc, parts, fault)
        }
        Status::Input { name, fault } => {
            let parts = with_word(alloc, parts, name.as_str())?;
            with_input(alloc, parts, fault)
        }
        Status::Unfit { name, fault } => {
            let parts = with_word(alloc, parts, name.as_str())?;
            with_fit(alloc, parts, fault)
        }
        Status::Full { bank, total } => {
            let parts = with_word(alloc, parts, bank.as_str())?;
            with_row(alloc, parts, "ImageFull", &[*total])
        }
        Status::Refused { name, fault } => {
            let parts = with_word(alloc, parts, name.as_str())?;
            with_refusal(alloc, parts, fault)
        }
        Status::Device { at } => with_call(alloc, parts, at),
    }
}

/// The line of a status (this project's own choice).
#[tactic(auto, unfolding(crate::specs::Lines::fault_line))]
pub fn status_line(alloc: Global, status: &Status) -> Result<Text, NoMemory>
    ensures { IfOk result (λ line. line ≡ fault_line status.now) }
{
    let parts = parts_of(alloc, status)?;
    fault_line(alloc, status.code(), parts.as_slice())
}
