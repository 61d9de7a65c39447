ghost use Rattle.std.specs.Prelude.{◌≡◌, ◌++◌, IfOk, string_bytes};
ghost use Rattle.tool_decompile.specs.EntryLines.{entry_line, entry_lines, settles_text, shown_of};

use adpcm_nums::{LoopAt, NoMemory, Text};
use decompile_core::{Recovered, Settles};
use report_text::LoopShown;
use std::alloc::{AllocError, Global};

/// A loop of samples, as it is shown.
fn shown_of(at: Option<LoopAt>) -> LoopShown
    ensures { result ≡ shown_of at }
{
    match at {
        None => LoopShown::NoLoop,
        Some(at) => LoopShown::Frames { at },
    }
}

/// Adds from which playing on a loop stays the same.
fn push_settles(lines: &mut String, settles: Settles) -> Result<(), AllocError>
    ensures { IfOk result (λ _. string_bytes lines.new ≡ string_bytes lines.old ++ settles_text settles) }
{
    match settles {
        Settles::NoLoop => lines.push_str("none"),
        Settles::From { playing } => write!(lines, "{playing}"),
        Settles::Unsettled => lines.push_str("unsettled"),
    }
}

/// Adds the line of an entry.
#[tactic(auto, unfolding(crate::specs::EntryLines::entry_line))]
fn push_entry(lines: &mut String, number: usize, entry: &Recovered) -> Result<(), AllocError>
    ensures { IfOk result (λ _. string_bytes lines.new ≡ string_bytes lines.old ++ entry_line number entry.now) }
{
    let frames = entry.samples.as_slice().len();
    let shown = shown_of(entry.loop_at);
    let trailing = entry.trailing;
    write!(
        lines,
        "entry {number} frames {frames} loop {shown} settles "
    )?;
    push_settles(lines, entry.settles)?;
    write!(lines, " trailing {trailing}\n")
}

/// The lines of all entries.
fn lines_of(alloc: Global, entries: &[Recovered]) -> Result<String, AllocError>
    ensures { IfOk result (λ lines. string_bytes lines ≡ entry_lines 0 entries.now) }
{
    let mut lines = String::new(alloc);
    for i in 0..entries.len() {
        push_entry(&mut lines, i, &entries[i])?;
    }
    Ok(lines)
}

/// The lines of the entries of a file, one for each: `entry I frames F loop X settles Y trailing T` (this project's own choice).
pub(crate) fn entry_lines(alloc: Global, entries: &[Recovered]) -> Result<Text, NoMemory>
    ensures { IfOk result (λ lines. lines ≡ entry_lines 0 entries.now) }
{
    match lines_of(alloc, entries) {
        Ok(lines) => Ok(Text::from_string(lines)),
        Err(_) => Err(NoMemory),
    }
}
