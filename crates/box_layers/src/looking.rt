ghost use Rattle.std.specs.Prelude.{◌≡◌, ◌<◌, ◌≤◌, ◌+◌, ℕ, ℤ, pos, ◌+ℤ◌, ◌≤ℤ◌, IsTrue, IfSome};
ghost use Rattle.adpcm_nums.specs.LeastValue.{least};
ghost use Rattle.machine_core.specs.Boxes.{low_corner, high_corner};
ghost use Rattle.machine_core.specs.Cells.{is_level};
ghost use Rattle.machine_core.specs.Floors.{top};
ghost use Rattle.box_layers.specs.Cells.{IsAscending, value_of};
ghost use Rattle.box_layers.specs.Looking.{IsCornered, cell_near, ended, least_listed, look_over, see_of, span_count, worth};
ghost use Rattle.box_layers.specs.Pairs.{cells_in, cells_of};

use crate::cell_list::{CellList, seek, taken_at};
use crate::layer::Layer;
use machine_core::{Bx, Cell, Machine, State, boxes_meet_cells, states_have_cells};

/// What a look over cells has seen.
#[derive(Clone, Copy, Debug, PartialEq, Eq)]
pub struct Seen {
    /// The least value that is listed.
    pub best: u64,
    /// Whether all cells are listed.
    pub all: bool,
}

fn shifted(x: i32, n: u64) -> i32
    requires { (x +ℤ pos n) ≤ℤ pos 2147483647 }
    ensures { result ≡ x +ℤ pos n }
{
    (i64::from(x) + n as i64) as i32
}

/// The number of rows of cells between two corners.
fn rows_of(low: Cell, high: Cell) -> u64
    requires { low.a ≤ℤ high.a }
    ensures value { result ≡ span_count low.a high.a }
    ensures fits { (n : ℕ) → n < result → (low.a +ℤ pos n) ≤ℤ high.a }
{
    (i64::from(high.a) - i64::from(low.a)) as u64 + 1
}

/// The number of cells in a row.
fn columns_of(low: Cell, high: Cell) -> u64
    requires { low.b ≤ℤ high.b }
    ensures value { result ≡ span_count low.b high.b }
    ensures fits { (n : ℕ) → n < result → (low.b +ℤ pos n) ≤ℤ high.b }
{
    (i64::from(high.b) - i64::from(low.b)) as u64 + 1
}

fn near(low: Cell, x: u64, y: u64) -> Cell
    requires a { (low.a +ℤ pos x) ≤ℤ pos 2147483647 }
    requires b { (low.b +ℤ pos y) ≤ℤ pos 2147483647 }
    ensures { result ≡ cell_near low x y }
{
    Cell {
        a: shifted(low.a, x),
        b: shifted(low.b, y),
    }
}

/// What is seen with one more cell, which is listed or not.
fn see(seen: Seen, listed: Option<u64>) -> Seen
    ensures value { result ≡ see_of seen listed }
    ensures small { result.best ≤ top }
{
    match listed {
        Some(value) => Seen {
            best: seen.best.min(value),
            all: seen.all,
        },
        None => Seen {
            best: seen.best,
            all: false,
        },
    }
}

/// What is seen with the cells of a row: its first cell is searched for, and the others follow it.
#[tactic(auto, unfolding(adpcm_nums::specs::LeastValue::least))]
fn see_row<L: CellList>(list: &L, low: Cell, x: u64, width: u64, seen: Seen) -> Seen
    requires ascends { IsAscending (L.listed list.now) }
    requires a { (low.a +ℤ pos x) ≤ℤ pos 2147483647 }
    requires b { (y : ℕ) → y < width → (low.b +ℤ pos y) ≤ℤ pos 2147483647 }
    requires some { 0 < width }
    ensures small { result.best ≤ top }
    ensures seen { (r : ℕ) → ended result r ≡ least width (worth (L.listed list.now) low x r) (ended seen r) }
{
    let mut seen = seen;
    let mut at = seek(list, near(low, x, 0));
    for y in 0..width {
        let (listed, next) = taken_at(list, near(low, x, y), at);
        seen = see(seen, listed);
        at = next;
    }
    seen
}

/// What is seen of the cells between two corners.
#[tactic(auto, unfolding(adpcm_nums::specs::LeastValue::least))]
fn see_cells<L: CellList>(list: &L, low: Cell, high: Cell) -> Seen
    requires ascends { IsAscending (L.listed list.now) }
    requires corners { IsCornered low high }
    ensures { (r : ℕ) → r ≤ top → ended result r ≡ least_listed low high (value_of (L.listed list.now)) r }
{
    let width = columns_of(low, high);
    let mut seen = Seen {
        best: u64::MAX,
        all: true,
    };
    for x in 0..rows_of(low, high) {
        seen = see_row(list, low, x, width, seen);
    }
    seen
}

/// The state of a box's least numbers.
fn least_state(bx: Bx) -> State
    ensures { result ≡ low_corner bx }
{
    State {
        a: bx.a.lo,
        b: bx.b.lo,
    }
}

/// The state of a box's greatest numbers.
fn greatest_state(bx: Bx) -> State
    ensures { result ≡ high_corner bx }
{
    State {
        a: bx.a.hi,
        b: bx.b.hi,
    }
}

/// What is seen of the cells that a box meets: from it follows the least that they are worth, whatever one that is not listed is worth.
pub fn see_box<M: Machine, L: CellList>(machine: &M, level: u32, list: &L, bx: Bx) -> Seen
    requires level { IsTrue (is_level level) }
    requires ascends { IsAscending (L.listed list.now) }
    requires low { IsTrue ((M.rules machine.now).decoder.is_state (low_corner bx)) }
    requires high { IsTrue ((M.rules machine.now).decoder.is_state (high_corner bx)) }
    ensures { (r : ℕ) → r ≤ top → ended result r ≡ look_over (M.rules machine.now) level (value_of (L.listed list.now)) r bx }
{
    states_have_cells();
    boxes_meet_cells();
    let low = machine.cell_of(level, least_state(bx));
    let high = machine.cell_of(level, greatest_state(bx));
    see_cells(list, low, high)
}

/// The same, in a layer that may not be there: then no cell is listed.
pub fn see_ahead<M: Machine, L: CellList>(machine: &M, level: u32, list: &Option<L>, bx: Bx) -> Seen
    requires level { IsTrue (is_level level) }
    requires ascends { IsAscending (cells_in (λ l. L.listed l) list.now) }
    requires low { IsTrue ((M.rules machine.now).decoder.is_state (low_corner bx)) }
    requires high { IsTrue ((M.rules machine.now).decoder.is_state (high_corner bx)) }
    ensures { (r : ℕ) → r ≤ top → ended result r ≡ look_over (M.rules machine.now) level (value_of (cells_in (λ l. L.listed l) list.now)) r bx }
{
    match list {
        Some(list) => see_box(machine, level, list, bx),
        None => Seen {
            best: u64::MAX,
            all: false,
        },
    }
}

/// The least that the cells which a box meets are worth: the value that is listed, or `rest` where none is.
///
/// Where there is no layer, no cell is listed. The corners of the box are states.
pub fn look<M: Machine>(machine: &M, level: u32, layer: Option<Layer<'_>>, rest: u64, bx: Bx) -> u64
    requires level { IsTrue (is_level level) }
    requires ascends { IsAscending (cells_of layer) }
    requires low { IsTrue ((M.rules machine.now).decoder.is_state (low_corner bx)) }
    requires high { IsTrue ((M.rules machine.now).decoder.is_state (high_corner bx)) }
    ensures { result ≡ look_over (M.rules machine.now) level (value_of (cells_of layer.entry)) rest bx }
{
    let seen = see_ahead(machine, level, &layer, bx);
    if seen.all {
        seen.best
    } else {
        seen.best.min(rest)
    }
}
