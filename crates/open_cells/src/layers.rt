ghost use Rattle.std.specs.Prelude.{◌≡◌, suc, ◌*◌, ◌<◌, ◌≤◌, ◌^◌, IsTrue, IfOk, Err, vec_len, length};
ghost use Rattle.block_steps.specs.Tables.{IsSpot, HoldLater, HoldRows};
ghost use Rattle.bound_cert.specs.Filed.{IsFiled};
ghost use Rattle.machine_core.specs.Cells.{is_level};
ghost use Rattle.machine_core.specs.Floors.{block_targets};
ghost use Rattle.open_cells.specs.declared.node.Halt.TheVariants.{Many};
ghost use Rattle.open_cells.specs.Counts.{IsMany, AreFronts, IsOverflow};
ghost use Rattle.open_cells.specs.Paths.{FitTargets};
ghost use Rattle.open_cells.specs.Reach.{IsFront, IsSearch, IsCurrent, IsLayer};

use crate::node::{Halt, Node};
use crate::sample_cells::SampleCells;
use crate::search::Search;
use crate::stepping::next_layer;
use adpcm_nums::NoMemory;
use block_steps::{Spot, fill_rows, next_spot, targets_in};
use bumpalo::Bump;
use machine_core::{Machine, State};
use std::alloc::Global;

/// The layer before the first sample: the start's cell, where the floor of the whole is below what has to be beaten.
fn first_layer<M: Machine>(
    alloc: Global,
    machine: &M,
    targets: &[i32],
    later: &[u64],
    blocks: u32,
    level: u32,
    most: u64,
) -> Result<Vec<Node>, NoMemory>
    requires level { IsTrue (is_level level) }
    requires later { HoldLater (M.rules machine.now) targets.now blocks later.now }
    ensures front { IfOk result (λ v. IsFront (M.rules machine.now) targets.now blocks level most 0 v.items) }
{
    let mut layer = Vec::new(alloc);
    if later[0] < most {
        let node = Node {
            lane: 65535,
            cell: machine.cell_of(level, State { a: 0, b: 0 }),
            cost: 0,
        };
        match layer.push(node) {
            Ok(_) => {}
            Err(_) => return Err(NoMemory),
        }
    }
    Ok(layer)
}

/// Fills the rows of floors of a sample's block, at the block's first sample.
pub fn ready<M: Machine>(machine: &M, targets: &[i32], blocks: u32, at: Spot, rows: &mut [u64])
    requires fit { FitTargets (M.rules machine.now) blocks targets.now }
    requires small { blocks * (M.rules machine.now).decoder.samples < 2 ^ 31 }
    requires room { (M.rules machine.now).decoder.heads * (M.rules machine.now).floor_len < 2 ^ 31 }
    requires at { IsSpot (M.rules machine.now) at }
    requires within { at.index < blocks * (M.rules machine.now).decoder.samples }
    requires rows { length rows.old ≡ (M.rules machine.now).decoder.heads * (M.rules machine.now).floor_len }
    requires held { 0 < at.place → HoldRows (M.rules machine.now) (block_targets (M.rules machine.now) targets.now at.block) rows.old }
    ensures held { HoldRows (M.rules machine.now) (block_targets (M.rules machine.now) targets.now at.block) rows.new }
    ensures rows { length rows.new ≡ (M.rules machine.now).decoder.heads * (M.rules machine.now).floor_len }
{
    if at.place == 0 {
        let samples = machine.block_samples();
        fill_rows(
            machine,
            targets_in(targets, samples, blocks, at.block),
            rows,
        );
    }
}

/// The layer before the next sample.
fn grown<M: Machine>(
    alloc: Global,
    machine: &M,
    s: &Search<'_>,
    at: Spot,
    front: &[Node],
) -> Result<Vec<Node>, Halt>
    requires search { IsSearch (M.rules machine.now) s.now }
    requires at { IsCurrent (M.rules machine.now) s.now at }
    requires front { IsLayer (M.rules machine.now) s.now at.index front.now }
    ensures layer { IfOk result (λ v. IsLayer (M.rules machine.now) s.now (suc at.index) v.items) }
    ensures few { IfOk result (λ v. vec_len v ≤ s.now.room) }
    ensures many { result ≡ Err Many → IsOverflow (M.rules machine.now) s.now.targets.now s.now.blocks s.now.level s.now.most s.now.room (suc at.index) }
{
    let mut made = Vec::new(alloc);
    match next_layer(alloc, machine, s, at, front, &mut made) {
        Ok(_) => Ok(made),
        Err(e) => Err(e),
    }
}

/// All layers of a level, in an arena, or word that there are more cells than the share.
pub fn all_layers<'a, M: Machine>(
    alloc: Global,
    arena: &'a Bump,
    machine: &M,
    targets: &[i32],
    rows: &mut [u64],
    later: &[u64],
    blocks: u32,
    level: u32,
    most: u64,
    share: u32,
) -> Result<SampleCells<'a>, Halt>
    requires level { IsTrue (is_level level) }
    requires blocks { 0 < blocks }
    requires fit { FitTargets (M.rules machine.now) blocks targets.now }
    requires small { blocks * (M.rules machine.now).decoder.samples < 2 ^ 31 }
    requires filed { IsFiled (M.rules machine.now) }
    requires room { (M.rules machine.now).decoder.heads * (M.rules machine.now).floor_len < 2 ^ 31 }
    requires later { HoldLater (M.rules machine.now) targets.now blocks later.now }
    requires rows { length rows.old ≡ (M.rules machine.now).decoder.heads * (M.rules machine.now).floor_len }
    ensures few { IfOk result (λ v. AreFronts (M.rules machine.now) targets.now blocks level most share v) }
    ensures many { result ≡ Err Many → IsMany (M.rules machine.now) targets.now blocks level most share }
    ensures rows { length rows.new ≡ (M.rules machine.now).decoder.heads * (M.rules machine.now).floor_len }
{
    let end = blocks * machine.block_samples();
    let mut front = match first_layer(alloc, machine, targets, later, blocks, level, most) {
        Ok(v) => v,
        Err(_) => return Err(Halt::NoMemory),
    };
    if front.len() > share as usize {
        return Err(Halt::Many);
    }
    let mut count = front.len() as u32;
    let mut layers = SampleCells::new(alloc);
    match layers.push(arena, front.as_slice()) {
        Ok(_) => {}
        Err(_) => return Err(Halt::NoMemory),
    }
    let mut at = Spot {
        index: 0,
        block: 0,
        place: 0,
    };
    for i in 1..end {
        ready(machine, targets, blocks, at, rows);
        let s = Search {
            targets,
            rows: &*rows,
            later,
            blocks,
            end,
            level,
            most,
            room: share - count,
        };
        let made = match grown(alloc, machine, &s, at, front.as_slice()) {
            Ok(v) => v,
            Err(e) => return Err(e),
        };
        count += made.len() as u32;
        match layers.push(arena, made.as_slice()) {
            Ok(_) => {}
            Err(_) => return Err(Halt::NoMemory),
        }
        front = made;
        at = next_spot(machine, at);
    }
    Ok(layers)
}
