ghost use Rattle.std.specs.Prelude.{◌≡◌, ◌++◌, ◌≤◌, ℕ, List, length, All, IfOk, string_bytes};
ghost use Rattle.std.specs.List.{flat_map};
ghost use Rattle.report_text.specs.Report.{sample_line, bound_line};
ghost use Rattle.report_text.specs.Listed.{report_of};

use crate::report::{BoundReport, SampleReport, bound_line, done_line, sample_line};
use adpcm_nums::{NoMemory, Text};
use std::alloc::Global;

/// What a line of a report tells of.
pub trait Reported {
    /// Its line.
    ghost line: { Self → List ℕ };

    /// The error that the line tells, in squared 16-bit steps.
    ghost error: { Self → ℕ };

    /// The bound that the line tells, in squared 16-bit steps.
    ghost bound: { Self → ℕ };

    /// Its line.
    fn line(&self, alloc: Global) -> Result<Text, NoMemory>
        requires { bound self.now ≤ error self.now }
        ensures { IfOk result (λ text. text ≡ line self.now) };
}

impl Reported for SampleReport {
    ghost line = { sample_line };

    ghost error = { λ report. report.error };

    ghost bound = { λ report. report.bound };

    fn line(&self, alloc: Global) -> Result<Text, NoMemory> {
        sample_line(alloc, self)
    }
}

impl Reported for BoundReport {
    ghost line = { bound_line };

    ghost error = { λ report. report.error };

    ghost bound = { λ report. report.bound };

    fn line(&self, alloc: Global) -> Result<Text, NoMemory> {
        bound_line(alloc, self)
    }
}

/// Adds a text at the end of a line.
fn push_text(text: &mut String, more: &str) -> Result<(), NoMemory>
    ensures { IfOk result (λ _. string_bytes text.new ≡ string_bytes text.old ++ more.now) }
{
    match text.push_str(more) {
        Ok(()) => Ok(()),
        Err(_) => Err(NoMemory),
    }
}

/// The lines of some samples, one after another.
fn lines_of<R: Reported>(alloc: Global, items: &[R]) -> Result<String, NoMemory>
    requires { All (λ item. R.bound item ≤ R.error item) items.now }
    ensures { IfOk result (λ text. string_bytes text ≡ flat_map R.line items.now) }
{
    let mut text = String::new(alloc);
    for item in items {
        push_text(&mut text, item.line(alloc)?.as_str())?;
    }
    Ok(text)
}

/// What is told of some samples, of which so many files were stored: a line for each, and the line that ends the report (this
/// project's own choice).
#[tactic(auto, unfolding(crate::specs::Listed::report_of))]
pub fn report_of<R: Reported>(alloc: Global, items: &[R], files: u32) -> Result<Text, NoMemory>
    requires few { length items.now ≤ 64 }
    requires bounds { All (λ item. R.bound item ≤ R.error item) items.now }
    ensures { IfOk result (λ text. text ≡ report_of R.line items.now files) }
{
    let mut text = lines_of(alloc, items)?;
    let samples = items.len() as u32;
    push_text(&mut text, done_line(alloc, samples, files)?.as_str())?;
    Ok(Text::from_string(text))
}
