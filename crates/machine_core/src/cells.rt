ghost use Rattle.std.specs.Prelude.{◌≡◌, ◌≤◌, ◌^◌, pos, negsuc, ◌*ℤ◌, ◌≤ℤ◌, IsTrue};
ghost use Rattle.adpcm_nums.specs.Sample.{IsSample};
ghost use Rattle.adpcm_nums.specs.declared.span.Span.{Span as SpanOf};
ghost use Rattle.machine_core.specs.Boxes.{point_box};
ghost use Rattle.machine_core.specs.Cells.{Grid, is_level, run_of, run_span, cell_of, cell_box};

use crate::boxes::{Bx, Cell};
use crate::state::State;
use adpcm_nums::{Span, floor_shift};

/// The run of 2^level numbers that a number is in.
fn run_of(level: u32, x: i32) -> i32
    requires level { IsTrue (is_level level) }
    requires x { IsSample x }
    ensures { result ≡ run_of level x }
{
    floor_shift(i64::from(x), level) as i32
}

/// The cell that a state is in at a level, 0, 4 or 8; `cuts_b` says whether the second number is cut too, as in BRR and SPU-ADPCM.
pub fn cell_of(cuts_b: bool, level: u32, at: State) -> Cell
    requires level { IsTrue (is_level level) }
    requires a { IsSample at.a }
    requires b { IsSample at.b }
    ensures { (g : Grid) → g.cuts_b ≡ cuts_b → result ≡ cell_of g level at }
{
    let level_b = if cuts_b { level } else { 0 };
    Cell {
        a: run_of(level, at.a),
        b: run_of(level_b, at.b),
    }
}

/// How many numbers a run has.
#[tactic(auto, using(crate::proofs::CellSizes::width_small))]
fn width(level: u32) -> i32
    requires { level ≤ 8 }
    ensures value { result ≡ pos (2 ^ level) }
    ensures some { pos 1 ≤ℤ result }
    ensures small { result ≤ℤ pos 256 }
{
    1i32 << level
}

/// The first number of a run.
#[tactic(auto, using(crate::proofs::CellSizes::first_low, crate::proofs::CellSizes::first_high))]
fn run_first(level: u32, run: i32) -> i32
    requires level { level ≤ 8 }
    requires run { IsSample run }
    ensures value { result ≡ pos (2 ^ level) *ℤ run }
    ensures low { negsuc 8388607 ≤ℤ result }
    ensures high { result ≤ℤ pos 8388608 }
{
    width(level) * run
}

/// The numbers of a run.
fn run_span(level: u32, run: i32) -> Span
    requires level { level ≤ 8 }
    requires run { IsSample run }
    ensures { result ≡ run_span level run }
{
    let lo = run_first(level, run);
    let hi = lo + (width(level) - 1);
    Span { lo, hi }
}

/// The box of a cell's states.
pub fn cell_box(cuts_b: bool, level: u32, cell: Cell) -> Bx
    requires level { IsTrue (is_level level) }
    requires a { IsSample cell.a }
    requires b { IsSample cell.b }
    ensures { (g : Grid) → g.cuts_b ≡ cuts_b → result ≡ cell_box g level cell }
{
    let level_b = if cuts_b { level } else { 0 };
    Bx {
        a: run_span(level, cell.a),
        b: run_span(level_b, cell.b),
    }
}

/// The box of one state.
pub fn point_box(at: State) -> Bx
    ensures { result ≡ point_box at }
{
    Bx {
        a: Span { lo: at.a, hi: at.a },
        b: Span { lo: at.b, hi: at.b },
    }
}
