ghost use Rattle.std.specs.Prelude.{◌≡◌, ◌-◌, ◌≤◌, ◌++◌, IfOk, string_bytes};
ghost use Rattle.report_text.specs.Report.{
  head_text,
  error_text,
  levels_text,
  end_text,
  block_line,
  sample_line,
  bound_line,
  done_line,
};

use adpcm_nums::{LoopAt, NoMemory, Text};
use std::alloc::{AllocError, Global};
use std::fmt;

/// Where the loop of an encoded sample is, as it is printed.
#[derive(Clone, Copy, Debug, PartialEq, Eq)]
pub enum LoopShown {
    /// The sample plays once: `none`.
    NoLoop,
    /// The loop goes from this block to the last: its number, from 0 (BRR and SPU-ADPCM).
    Block {
        /// The number of the block.
        block: u32,
    },
    /// The loop goes from frame to frame: `START..END`, where the end is played (IMA ADPCM).
    Frames {
        /// The frames.
        at: LoopAt,
    },
}

impl fmt::Display for LoopShown {
    ghost use Rattle.std.specs.Prelude.{Some};
    ghost use Rattle.report_text.specs.Report.{shown_text};

    ghost output = { λ shown. Some (shown_text shown) };

    fn fmt<W: fmt::Write>(&self, f: &mut fmt::Formatter<W>) -> fmt::Result {
        match self {
            LoopShown::NoLoop => write!(f, "none"),
            LoopShown::Block { block } => write!(f, "{block}"),
            LoopShown::Frames { at } => {
                let start = at.start;
                let end = at.end;
                write!(f, "{start}..{end}")
            }
        }
    }
}

/// What is told of an encoded sample. The error and the bound are in squared 16-bit steps.
#[derive(Debug, Drop)]
pub struct SampleReport {
    /// The sample's name.
    pub name: Text,
    /// How many blocks it has.
    pub blocks: u32,
    /// Its loop.
    pub shown: LoopShown,
    /// The sum of its squared errors, padding included.
    pub error: u64,
    /// No encoding of the same shape has an error below this.
    pub bound: u64,
    /// How many of its segments were searched at level 0, at level 4, at level 8, and not at all.
    pub levels: [u32; 4],
}

/// What is told of the bound of a sample that is stored. The error and the bound are in squared 16-bit steps.
#[derive(Debug, Drop)]
pub struct BoundReport {
    /// The sample's name.
    pub name: Text,
    /// How many blocks it has.
    pub blocks: u32,
    /// Its loop.
    pub shown: LoopShown,
    /// The sum of the squared errors of what is stored, padding included.
    pub error: u64,
    /// No encoding of the same shape has an error below this.
    pub bound: u64,
}

/// How the line of a sample begins: a word, the sample's name, its blocks and its loop.
#[tactic(auto, unfolding(crate::specs::Report::head_text))]
fn head_string(
    alloc: Global,
    word: &str,
    name: &str,
    blocks: u32,
    shown: LoopShown,
) -> Result<String, AllocError>
    ensures { IfOk result (λ line. string_bytes line ≡ head_text word.now name.now blocks shown) }
{
    format!(in alloc; "{word} {name} blocks {blocks} loop {shown} ")
}

/// Adds an error, the bound that no error is below, and the gap between them.
#[tactic(auto, unfolding(crate::specs::Report::error_text))]
fn push_error(line: &mut String, error: u64, bound: u64) -> Result<(), AllocError>
    requires { bound ≤ error }
    ensures { IfOk result (λ _. string_bytes line.new ≡ string_bytes line.old ++ error_text error bound) }
{
    let gap = error - bound;
    write!(line, "error {error} bound {bound} gap {gap}")
}

/// Adds how many segments were searched at each level.
#[tactic(auto, unfolding(crate::specs::Report::levels_text))]
fn push_levels(line: &mut String, levels: [u32; 4]) -> Result<(), AllocError>
    ensures { IfOk result (λ _. string_bytes line.new ≡ string_bytes line.old ++ levels_text levels) }
{
    let [exact, fine, coarse, floor] = levels;
    write!(line, " levels {exact} {fine} {coarse} {floor}")
}

/// Ends a line, and tells before that nothing is left to gain, where the gap is 0.
#[tactic(auto, unfolding(crate::specs::Report::end_text))]
fn end_line(line: &mut String, gap: u64) -> Result<(), AllocError>
    ensures { IfOk result (λ _. string_bytes line.new ≡ string_bytes line.old ++ end_text gap) }
{
    line.push_str(if gap == 0 { " optimal\n" } else { "\n" })
}

/// Adds what the line of one block tells.
#[tactic(auto, unfolding(crate::specs::Report::block_line))]
fn push_block(line: &mut String, error: u64, bound: u64) -> Result<(), AllocError>
    requires { bound ≤ error }
    ensures { IfOk result (λ _. string_bytes line.new ≡ string_bytes line.old ++ block_line error bound) }
{
    push_error(line, error, bound)?;
    end_line(line, error - bound)
}

fn block_string(alloc: Global, error: u64, bound: u64) -> Result<String, AllocError>
    requires { bound ≤ error }
    ensures { IfOk result (λ line. string_bytes line ≡ block_line error bound) }
{
    let mut line = String::new(alloc);
    push_block(&mut line, error, bound)?;
    Ok(line)
}

#[tactic(auto, unfolding(crate::specs::Report::sample_line, crate::specs::Report::shape_text))]
fn sample_string(alloc: Global, report: &SampleReport) -> Result<String, AllocError>
    requires { report.now.bound ≤ report.now.error }
    ensures { IfOk result (λ line. string_bytes line ≡ sample_line report.now) }
{
    let mut line = head_string(
        alloc,
        "sample",
        report.name.as_str(),
        report.blocks,
        report.shown,
    )?;
    push_error(&mut line, report.error, report.bound)?;
    push_levels(&mut line, report.levels)?;
    end_line(&mut line, report.error - report.bound)?;
    Ok(line)
}

#[tactic(auto, unfolding(crate::specs::Report::bound_line))]
fn bound_string(alloc: Global, report: &BoundReport) -> Result<String, AllocError>
    requires { report.now.bound ≤ report.now.error }
    ensures { IfOk result (λ line. string_bytes line ≡ bound_line report.now) }
{
    let mut line = head_string(
        alloc,
        "bound",
        report.name.as_str(),
        report.blocks,
        report.shown,
    )?;
    push_block(&mut line, report.error, report.bound)?;
    Ok(line)
}

/// The line of one block: `error E bound V gap G`, and ` optimal` where the gap is 0 (this project's own choice).
pub fn block_line(alloc: Global, error: u64, bound: u64) -> Result<Text, NoMemory>
    requires { bound ≤ error }
    ensures { IfOk result (λ line. line ≡ block_line error bound) }
{
    match block_string(alloc, error, bound) {
        Ok(line) => Ok(Text::from_string(line)),
        Err(_) => Err(NoMemory),
    }
}

/// The line of an encoded sample:
/// `sample NAME blocks B loop X error E bound V gap G levels P Q R S`, and ` optimal` where the gap is 0
/// (this project's own choice).
pub fn sample_line(alloc: Global, report: &SampleReport) -> Result<Text, NoMemory>
    requires { report.now.bound ≤ report.now.error }
    ensures { IfOk result (λ line. line ≡ sample_line report.now) }
{
    match sample_string(alloc, report) {
        Ok(line) => Ok(Text::from_string(line)),
        Err(_) => Err(NoMemory),
    }
}

/// The line of the bound of a stored sample:
/// `bound NAME blocks B loop X error E bound V gap G`, and ` optimal` where the gap is 0 (this project's own choice).
pub fn bound_line(alloc: Global, report: &BoundReport) -> Result<Text, NoMemory>
    requires { report.now.bound ≤ report.now.error }
    ensures { IfOk result (λ line. line ≡ bound_line report.now) }
{
    match bound_string(alloc, report) {
        Ok(line) => Ok(Text::from_string(line)),
        Err(_) => Err(NoMemory),
    }
}

/// The line that ends a report: `done N samples M files`, where M files were stored (this project's own choice).
#[tactic(auto, unfolding(crate::specs::Report::done_line))]
pub fn done_line(alloc: Global, samples: u32, files: u32) -> Result<Text, NoMemory>
    ensures { IfOk result (λ line. line ≡ done_line samples files) }
{
    match format!(in alloc; "done {samples} samples {files} files\n") {
        Ok(line) => Ok(Text::from_string(line)),
        Err(_) => Err(NoMemory),
    }
}
