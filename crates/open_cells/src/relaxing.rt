ghost use Rattle.std.specs.Prelude.{◌≡◌, ℕ, suc, ◌+◌, ◌%◌, ◌*◌, ◌<◌, ◌≤◌, ℤ, pos, ◌+ℤ◌, ◌≤ℤ◌, IsTrue, OnOk, Err, vec_len, length, List, [], true};
ghost use Rattle.machine_core.specs.Blocks.{first_only};
ghost use Rattle.machine_core.specs.Cells.{is_cell};
ghost use Rattle.machine_core.specs.Floors.{may_take};
ghost use Rattle.machine_core.specs.Rules.{grid};
ghost use Rattle.block_steps.specs.Tables.{IsSpot};
ghost use Rattle.open_cells.specs.Paths.{IsStep};
ghost use Rattle.open_cells.specs.Reach.{HasVisited, IsMade, IsSearch, IsNext, IsOpen, AreOpen, Reaches, ReachesAll, ReachesBySymbols, ReachesByHeads, image_at, AreBoxes, AreSteps};

use crate::corners::{add_box, high_cell, low_cell};
use crate::node::{Halt, Node};
use crate::search::Search;
use block_steps::{Spot, lane_head, lane_of, rest_of, symbols_within, takes, target_at};
use machine_core::{Cell, Machine, Piece, Pieces};
use std::alloc::Global;

/// The pieces of a cell's image under a head and a symbol.
pub fn pieces_of<M: Machine>(
    machine: &M,
    s: &Search<'_>,
    at: Spot,
    cell: Cell,
    head: u32,
    sym: u32,
) -> Pieces
    requires search { IsSearch (M.rules machine.now) s.now }
    requires at { IsSpot (M.rules machine.now) at }
    requires within { at.index < s.now.end }
    requires cell { IsTrue (is_cell (grid (M.rules machine.now)) s.now.level cell) }
    requires head { head < (M.rules machine.now).decoder.heads }
    requires sym { sym < (M.rules machine.now).decoder.symbols (at.index % (M.rules machine.now).decoder.samples) }
    ensures { result ≡ image_at (M.rules machine.now) s.now at.index cell head sym }
{
    let bx = machine.cell_box(s.level, cell);
    let target = target_at(s.targets, at.index);
    machine.box_step(head, at.place, sym, bx, target)
}

/// Adds the cells that a piece of a node's image meets, where paths through them may still come to a lesser sum.
fn add_piece<M: Machine>(
    alloc: Global,
    machine: &M,
    s: &Search<'_>,
    at: Spot,
    next: Spot,
    lane: u32,
    x: Node,
    q: Piece,
    made: &mut Vec<Node>,
) -> Result<(), Halt>
    requires search { IsSearch (M.rules machine.now) s.now }
    requires next { IsNext (M.rules machine.now) s.now at next }
    requires bx { IsTrue ((M.rules machine.now).is_box next.place q.bx) }
    requires x { IsOpen (M.rules machine.now) s.now at.index x }
    requires step { IsStep (M.rules machine.now) s.now.targets.now s.now.level at.index x.lane x.cell q lane }
    requires made { AreOpen (M.rules machine.now) s.now (suc at.index) made.old.items }
    ensures made { IsMade (M.rules machine.now) s.now (suc at.index) result made.new.items }
    ensures visited { OnOk result (HasVisited (M.rules machine.now) s.now (suc at.index) made.old.items made.new.items (Reaches (M.rules machine.now) s.now at.index x q lane)) }
{
    let rest = rest_of(
        machine, s.targets, s.blocks, s.rows, s.later, next, lane, q.bx,
    );
    let cost = x.cost.saturating_add(q.cost);
    if cost.saturating_add(rest) >= s.most {
        return Ok(());
    }
    let low = low_cell(machine, s.level, q.bx);
    let high = high_cell(machine, s.level, q.bx);
    add_box(alloc, made, lane, low, high, cost, s.room)
}

/// The same for each of a list of pieces.
fn add_pieces<M: Machine>(
    alloc: Global,
    machine: &M,
    s: &Search<'_>,
    at: Spot,
    next: Spot,
    lane: u32,
    x: Node,
    pieces: &[Piece],
    made: &mut Vec<Node>,
) -> Result<(), Halt>
    requires search { IsSearch (M.rules machine.now) s.now }
    requires next { IsNext (M.rules machine.now) s.now at next }
    requires boxes { AreBoxes (M.rules machine.now) next.place pieces.now }
    requires x { IsOpen (M.rules machine.now) s.now at.index x }
    requires steps { AreSteps (M.rules machine.now) s.now at.index x lane pieces.now }
    requires made { AreOpen (M.rules machine.now) s.now (suc at.index) made.old.items }
    ensures made { IsMade (M.rules machine.now) s.now (suc at.index) result made.new.items }
    ensures visited { OnOk result (HasVisited (M.rules machine.now) s.now (suc at.index) made.old.items made.new.items (ReachesAll (M.rules machine.now) s.now at.index x pieces.now lane)) }
{
    for q in pieces {
        match add_piece(alloc, machine, s, at, next, lane, x, *q, made) {
            Ok(_) => {}
            Err(e) => return Err(e),
        }
    }
    Ok(())
}

/// Adds what the steps from a node under one head reach.
fn add_symbols<M: Machine>(
    alloc: Global,
    machine: &M,
    s: &Search<'_>,
    at: Spot,
    next: Spot,
    head: u32,
    x: Node,
    made: &mut Vec<Node>,
) -> Result<(), Halt>
    requires search { IsSearch (M.rules machine.now) s.now }
    requires at { IsSpot (M.rules machine.now) at }
    requires next { IsNext (M.rules machine.now) s.now at next }
    requires head { head < (M.rules machine.now).decoder.heads }
    requires takes { may_take (M.rules machine.now) first_only at.index x.lane head ≡ true }
    requires cell { IsTrue (is_cell (grid (M.rules machine.now)) s.now.level x.cell) }
    requires x { IsOpen (M.rules machine.now) s.now at.index x }
    requires made { AreOpen (M.rules machine.now) s.now (suc at.index) made.old.items }
    ensures made { IsMade (M.rules machine.now) s.now (suc at.index) result made.new.items }
    ensures visited { OnOk result (HasVisited (M.rules machine.now) s.now (suc at.index) made.old.items made.new.items (ReachesBySymbols (M.rules machine.now) s.now at.index x head ((M.rules machine.now).decoder.symbols (at.index % (M.rules machine.now).decoder.samples)))) }
{
    let lane = lane_of(machine, next, head);
    let slack = s.most.saturating_sub(1).saturating_sub(x.cost);
    let (first, end) = symbols_within(machine, s.targets, at, slack);
    for sym in first..end {
        let pieces = pieces_of(machine, s, at, x.cell, head, sym);
        match add_pieces(
            alloc,
            machine,
            s,
            at,
            next,
            lane,
            x,
            pieces.list.as_slice(),
            made,
        ) {
            Ok(_) => {}
            Err(e) => return Err(e),
        }
    }
    Ok(())
}

/// Adds what the steps from a node reach.
fn add_heads<M: Machine>(
    alloc: Global,
    machine: &M,
    s: &Search<'_>,
    at: Spot,
    next: Spot,
    x: Node,
    made: &mut Vec<Node>,
) -> Result<(), Halt>
    requires search { IsSearch (M.rules machine.now) s.now }
    requires at { IsSpot (M.rules machine.now) at }
    requires next { IsNext (M.rules machine.now) s.now at next }
    requires x { IsOpen (M.rules machine.now) s.now at.index x }
    requires made { AreOpen (M.rules machine.now) s.now (suc at.index) made.old.items }
    ensures made { IsMade (M.rules machine.now) s.now (suc at.index) result made.new.items }
    ensures visited { OnOk result (HasVisited (M.rules machine.now) s.now (suc at.index) made.old.items made.new.items (ReachesByHeads (M.rules machine.now) s.now at.index x (M.rules machine.now).decoder.heads)) }
{
    for h in 0..machine.heads() {
        if takes(machine, at, x.lane, h) {
            match add_symbols(alloc, machine, s, at, next, h, x, made) {
                Ok(_) => {}
                Err(e) => return Err(e),
            }
        }
    }
    Ok(())
}

/// The same, at a later place by one head of the node's lane alone: the others lead alike.
pub fn add_node<M: Machine>(
    alloc: Global,
    machine: &M,
    s: &Search<'_>,
    at: Spot,
    next: Spot,
    x: Node,
    made: &mut Vec<Node>,
) -> Result<(), Halt>
    requires search { IsSearch (M.rules machine.now) s.now }
    requires at { IsSpot (M.rules machine.now) at }
    requires next { IsNext (M.rules machine.now) s.now at next }
    requires x { IsOpen (M.rules machine.now) s.now at.index x }
    requires made { AreOpen (M.rules machine.now) s.now (suc at.index) made.old.items }
    ensures made { IsMade (M.rules machine.now) s.now (suc at.index) result made.new.items }
    ensures visited { OnOk result (HasVisited (M.rules machine.now) s.now (suc at.index) made.old.items made.new.items (ReachesByHeads (M.rules machine.now) s.now at.index x (M.rules machine.now).decoder.heads)) }
{
    if at.place == 0 {
        return add_heads(alloc, machine, s, at, next, x, made);
    }
    match lane_head(machine, at, x.lane) {
        Some(head) => add_symbols(alloc, machine, s, at, next, head, x, made),
        None => Ok(()),
    }
}
