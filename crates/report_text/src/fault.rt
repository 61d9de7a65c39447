ghost use Rattle.std.specs.Prelude.{◌≡◌, ◌++◌, IfOk, string_bytes, codes};
ghost use Rattle.report_text.specs.Fault.{parts_text, fault_text};

use crate::part::LinePart;
use adpcm_nums::{NoMemory, Text};
use std::alloc::{AllocError, Global};

/// Adds each part to a line, after one space.
#[tactic(auto, unfolding(crate::specs::Fault::parts_text))]
fn push_parts(line: &mut String, parts: &[LinePart]) -> Result<(), AllocError>
    ensures { IfOk result (λ _. string_bytes line.new ≡ string_bytes line.old ++ parts_text parts.now) }
{
    for part in parts {
        write!(line, " {part}")?;
    }
    Ok(())
}

#[tactic(auto, unfolding(crate::specs::Fault::fault_text))]
fn fault_string(alloc: Global, code: u8, parts: &[LinePart]) -> Result<String, AllocError>
    ensures { IfOk result (λ line. string_bytes line ≡ fault_text code parts.now) }
{
    let mut line = format!(in alloc; "fault {code}")?;
    push_parts(&mut line, parts)?;
    line.push_str("\n")?;
    Ok(line)
}

/// The line of a fault: `fault`, the code that the program ends with, and each part in order after one space
/// (this project's own choice).
pub fn fault_line(alloc: Global, code: u8, parts: &[LinePart]) -> Result<Text, NoMemory>
    ensures { IfOk result (λ line. line ≡ fault_text code parts.now) }
{
    match fault_string(alloc, code, parts) {
        Ok(line) => Ok(Text::from_string(line)),
        Err(_) => Err(NoMemory),
    }
}
