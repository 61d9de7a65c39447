ghost use Rattle.std.specs.Prelude.{◌≡◌, ℕ, suc, ◌+◌, ◌%◌, ◌*◌, ◌<◌, ◌≤◌, ℤ, pos, ◌+ℤ◌, ◌≤ℤ◌, IsTrue, OnOk, Err, vec_len, length, List, [], true};
ghost use Rattle.box_layers.specs.Looking.{IsCornered, span_count};
ghost use Rattle.machine_core.specs.Boxes.{low_corner, high_corner};
ghost use Rattle.machine_core.specs.Cells.{IsBetween, cell_of, is_level};
ghost use Rattle.machine_core.specs.Rules.{grid};
ghost use Rattle.machine_core.specs.declared.boxes.Cell.{Cell};
ghost use Rattle.open_cells.specs.declared.node.Halt.TheVariants.{Many};
ghost use Rattle.open_cells.specs.Nodes.{HasNode, Keeps, IsTooMany};
ghost use Rattle.open_cells.specs.Reach.{IsNewOrOld};

use crate::node::{Halt, Node};
use crate::sorting::add;
use machine_core::{Bx, Cell, Machine, State};
use std::alloc::Global;

/// How many numbers there are from one to another.
pub fn span(low: i32, high: i32) -> u64
    ensures { result ≡ span_count low high }
{
    (i64::from(high) - i64::from(low)).unsigned_abs() + 1
}

/// A number between two.
pub fn near_at(low: i32, high: i32, x: u64) -> i32
    requires order { low ≤ℤ high }
    requires x { x < span_count low high }
    ensures { result ≡ low +ℤ pos x }
{
    (i64::from(low) + x as i64) as i32
}

/// Adds a node for each cell of a row.
fn add_row(
    alloc: Global,
    made: &mut Vec<Node>,
    lane: u32,
    a: i32,
    low: i32,
    high: i32,
    cost: u64,
    room: u32,
) -> Result<(), Halt>
    requires { low ≤ℤ high }
    ensures kept { OnOk result (Keeps made.old.items made.new.items) }
    ensures covers { OnOk result ((y : ℕ) → y < span_count low high → HasNode made.new.items lane (record { a = a; b = low +ℤ pos y }) cost) }
    ensures from { IsNewOrOld (record { a = a; b = low }) (record { a = a; b = high }) lane cost made.old.items made.new.items }
    ensures many { result ≡ Err Many → IsTooMany room made.new.items }
{
    for y in 0..span(low, high) {
        let node = Node {
            lane,
            cell: Cell {
                a,
                b: near_at(low, high, y),
            },
            cost,
        };
        match add(alloc, made, node, room) {
            Ok(_) => {}
            Err(e) => return Err(e),
        }
    }
    Ok(())
}

/// Adds a node for each cell between two corners.
pub fn add_box(
    alloc: Global,
    made: &mut Vec<Node>,
    lane: u32,
    low: Cell,
    high: Cell,
    cost: u64,
    room: u32,
) -> Result<(), Halt>
    requires { IsCornered low high }
    ensures kept { OnOk result (Keeps made.old.items made.new.items) }
    ensures covers { OnOk result ((c : Cell) → IsBetween low high c → HasNode made.new.items lane c cost) }
    ensures from { IsNewOrOld low high lane cost made.old.items made.new.items }
    ensures many { result ≡ Err Many → IsTooMany room made.new.items }
{
    for x in 0..span(low.a, high.a) {
        let a = near_at(low.a, high.a, x);
        match add_row(alloc, made, lane, a, low.b, high.b, cost, room) {
            Ok(_) => {}
            Err(e) => return Err(e),
        }
    }
    Ok(())
}

/// The cell of a box's low corner.
pub fn low_cell<M: Machine>(machine: &M, level: u32, bx: Bx) -> Cell
    requires level { IsTrue (is_level level) }
    requires state { IsTrue ((M.rules machine.now).decoder.is_state (low_corner bx)) }
    ensures { result ≡ cell_of (grid (M.rules machine.now)) level (low_corner bx) }
{
    machine.cell_of(
        level,
        State {
            a: bx.a.lo,
            b: bx.b.lo,
        },
    )
}

/// The cell of a box's high corner.
pub fn high_cell<M: Machine>(machine: &M, level: u32, bx: Bx) -> Cell
    requires level { IsTrue (is_level level) }
    requires state { IsTrue ((M.rules machine.now).decoder.is_state (high_corner bx)) }
    ensures { result ≡ cell_of (grid (M.rules machine.now)) level (high_corner bx) }
{
    machine.cell_of(
        level,
        State {
            a: bx.a.hi,
            b: bx.b.hi,
        },
    )
}
