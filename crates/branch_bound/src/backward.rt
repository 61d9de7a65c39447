ghost use Rattle.std.specs.Prelude.{◌≡◌, ℕ, suc, ◌+◌, ◌-◌, ◌%◌, ◌*◌, ◌<◌, ◌≤◌, ◌^◌, IsTrue, IfOk, length, map, min};
ghost use Rattle.block_steps.specs.Tables.{HoldLater, HoldRows, IsSpot};
ghost use Rattle.bound_cert.specs.Filed.{IsFiled};
ghost use Rattle.machine_core.specs.Cells.{is_level};
ghost use Rattle.machine_core.specs.Floors.{block_targets};
ghost use Rattle.open_cells.specs.Counts.{nodes_at};
ghost use Rattle.open_cells.specs.Nodes.{IsRising};
ghost use Rattle.open_cells.specs.Paths.{FitTargets};
ghost use Rattle.open_cells.specs.Reach.{IsFront, IsSearch};
ghost use Rattle.branch_bound.specs.Worth.{AreValued, IsHere, valued};

use crate::finding::worth_at;
use adpcm_nums::NoMemory;
use block_steps::{Spot, fill_rows, targets_in};
use bumpalo::Bump;
use machine_core::Machine;
use open_cells::{Node, SampleCells, Search};
use std::alloc::Global;

/// The cells of a front with what they are worth.
fn value_layer<M: Machine>(
    alloc: Global,
    machine: &M,
    s: &Search<'_>,
    at: Spot,
    front: &[Node],
    next: &[Node],
) -> Result<Vec<Node>, NoMemory>
    requires search { IsSearch (M.rules machine.now) s.now }
    requires at { IsHere (M.rules machine.now) s.now at }
    requires front { IsFront (M.rules machine.now) s.now.targets.now s.now.blocks s.now.level s.now.most at.index front.now }
    requires rising { IsRising next.now }
    ensures values { IfOk result (λ v. v.items ≡ map (valued (M.rules machine.now) s.now.targets.now s.now.blocks s.now.level s.now.most at.index next.now) front.now) }
{
    let mut values = Vec::new(alloc);
    for x in front {
        let worth = worth_at(machine, s, at, x.lane, x.cell, next);
        let node = Node {
            lane: x.lane,
            cell: x.cell,
            cost: worth,
        };
        match values.push(node) {
            Ok(_) => {}
            Err(_) => return Err(NoMemory),
        }
    }
    Ok(values)
}

/// Fills the tables of a block, unless they hold it.
pub fn ready_for<M: Machine>(
    machine: &M,
    targets: &[i32],
    blocks: u32,
    block: u32,
    held: u32,
    rows: &mut [u64],
)
    requires fit { FitTargets (M.rules machine.now) blocks targets.now }
    requires small { blocks * (M.rules machine.now).decoder.samples < 2 ^ 31 }
    requires room { (M.rules machine.now).decoder.heads * (M.rules machine.now).floor_len < 2 ^ 31 }
    requires block { block < blocks }
    requires rows { length rows.old ≡ (M.rules machine.now).decoder.heads * (M.rules machine.now).floor_len }
    requires held { held < blocks → HoldRows (M.rules machine.now) (block_targets (M.rules machine.now) targets.now held) rows.old }
    ensures held { HoldRows (M.rules machine.now) (block_targets (M.rules machine.now) targets.now block) rows.new }
    ensures rows { length rows.new ≡ (M.rules machine.now).decoder.heads * (M.rules machine.now).floor_len }
{
    if held != block {
        let samples = machine.block_samples();
        fill_rows(machine, targets_in(targets, samples, blocks, block), rows);
    }
}

/// A sample with its block and place.
pub fn spot_at<M: Machine>(machine: &M, i: u32) -> Spot
    ensures index { result.index ≡ i }
    ensures spot { IsSpot (M.rules machine.now) result }
{
    let samples = machine.block_samples();
    Spot {
        index: i,
        block: i / samples,
        place: i % samples,
    }
}

/// All layers with what their cells are worth, in an arena.
pub fn all_values<'a, M: Machine>(
    alloc: Global,
    arena: &'a Bump,
    machine: &M,
    targets: &[i32],
    rows: &mut [u64],
    later: &[u64],
    blocks: u32,
    level: u32,
    most: u64,
    fronts: &SampleCells<'_>,
) -> Result<SampleCells<'a>, NoMemory>
    requires level { IsTrue (is_level level) }
    requires fit { FitTargets (M.rules machine.now) blocks targets.now }
    requires small { blocks * (M.rules machine.now).decoder.samples < 2 ^ 31 }
    requires filed { IsFiled (M.rules machine.now) }
    requires room { (M.rules machine.now).decoder.heads * (M.rules machine.now).floor_len < 2 ^ 31 }
    requires later { HoldLater (M.rules machine.now) targets.now blocks later.now }
    requires rows { length rows.old ≡ (M.rules machine.now).decoder.heads * (M.rules machine.now).floor_len }
    requires size { length fronts.now ≡ blocks * (M.rules machine.now).decoder.samples }
    requires fronts { (i : ℕ) → i < blocks * (M.rules machine.now).decoder.samples → IsFront (M.rules machine.now) targets.now blocks level most i (nodes_at fronts.now i) }
    ensures values { IfOk result (λ v. AreValued (M.rules machine.now) targets.now blocks level most fronts.now v) }
    ensures rows { length rows.new ≡ (M.rules machine.now).decoder.heads * (M.rules machine.now).floor_len }
{
    let end = blocks * machine.block_samples();
    let mut values = SampleCells::new(alloc);
    let mut next = Vec::new(alloc);
    let mut held = blocks;
    for k in 0..end {
        let at = spot_at(machine, end - 1 - k);
        ready_for(machine, targets, blocks, at.block, held, rows);
        held = at.block;
        let s = Search {
            targets,
            rows: &*rows,
            later,
            blocks,
            end,
            level,
            most,
            room: 0,
        };
        let front = match fronts.row(alloc, at.index as usize) {
            Ok(v) => v,
            Err(e) => return Err(e),
        };
        let layer = match value_layer(alloc, machine, &s, at, front.as_slice(), next.as_slice()) {
            Ok(v) => v,
            Err(e) => return Err(e),
        };
        match values.push(arena, layer.as_slice()) {
            Ok(_) => {}
            Err(e) => return Err(e),
        }
        next = layer;
    }
    values.turn();
    Ok(values)
}
