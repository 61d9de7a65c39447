ghost use Rattle.std.specs.Prelude.{◌≡◌, ◌<◌, ◌≤◌, ◌+◌, ◌*◌, ◌^◌, ℕ, IsTrue, false, length, min};
ghost use Rattle.machine_core.specs.Floors.{floor_in, block_floor, rest, block_targets, top};
ghost use Rattle.adpcm_nums.specs.Sample.{AreSamples};
ghost use Rattle.block_steps.specs.Plans.{IsNext, IsPlan};
ghost use Rattle.block_steps.specs.Tables.{IsSpot, IsLeader, HoldFirst, HoldRows, HoldLater, row};
ghost use Rattle.machine_core.specs.Blocks.{first_only};

use crate::plan::Plan;
use crate::spots::Spot;
use crate::stepping::{lane_head, targets_in};
use machine_core::{Bx, Machine, rule_at};

/// Whether a head is the first of its lane behind a block's first place.
fn leads<M: Machine>(machine: &M, head: u32) -> bool
    requires head { head < (M.rules machine.now).decoder.heads }
    requires places { 1 < (M.rules machine.now).decoder.samples }
    ensures { result ≡ false → IsLeader (M.rules machine.now) head → ⊥ }
{
    let lane = machine.lane(head, 1);
    for h in 0..head {
        if machine.lane(h, 1) == lane {
            return false;
        }
    }
    true
}

/// Fills in a head's row, where it leads its lane.
fn fill_row<M: Machine>(machine: &M, targets: &[i32], rows: &mut [u64], head: u32, len: u32)
    requires targets { length targets.now ≡ (M.rules machine.now).decoder.samples }
    requires places { 1 < (M.rules machine.now).decoder.samples }
    requires range { AreSamples targets.now }
    requires len { len ≡ (M.rules machine.now).floor_len }
    requires head { head < (M.rules machine.now).decoder.heads }
    requires rows { length rows.old ≡ (M.rules machine.now).decoder.heads * len }
    requires small { (M.rules machine.now).decoder.heads * len < 2 ^ 31 }
    requires filled { HoldFirst (M.rules machine.now) targets.now rows.old head }
    ensures { HoldFirst (M.rules machine.now) targets.now rows.new (head + 1) }
{
    if leads(machine, head) {
        let from = head as usize * len as usize;
        machine.fill_floor(head, targets, &mut rows[from..from + len as usize]);
    }
}

/// Fills in a row for each head that leads its lane; a block of one place needs none.
pub fn fill_rows<M: Machine>(machine: &M, targets: &[i32], rows: &mut [u64])
    requires targets { length targets.now ≡ (M.rules machine.now).decoder.samples }
    requires range { AreSamples targets.now }
    requires rows { length rows.old ≡ (M.rules machine.now).decoder.heads * (M.rules machine.now).floor_len }
    requires small { (M.rules machine.now).decoder.heads * (M.rules machine.now).floor_len < 2 ^ 31 }
    ensures { HoldRows (M.rules machine.now) targets.now rows.new }
{
    if machine.block_samples() < 2 {
        return;
    }
    let len = machine.floor_len();
    for h in 0..machine.heads() {
        fill_row(machine, targets, rows, h, len);
    }
}

/// Fills in the rows of a block, where they are not those of this block.
pub fn refill<M: Machine>(
    machine: &M,
    targets: &[i32],
    blocks: u32,
    block: u32,
    filled: u32,
    rows: &mut [u64],
)
    requires count { length targets.now ≡ blocks * (M.rules machine.now).decoder.samples }
    requires block { block < blocks }
    requires range { AreSamples targets.now }
    requires small { blocks * (M.rules machine.now).decoder.samples < 2 ^ 31 }
    requires room { (M.rules machine.now).decoder.heads * (M.rules machine.now).floor_len < 2 ^ 31 }
    requires rows { length rows.old ≡ (M.rules machine.now).decoder.heads * (M.rules machine.now).floor_len }
    requires filled { filled < blocks → HoldRows (M.rules machine.now) (block_targets (M.rules machine.now) targets.now filled) rows.old }
    ensures { HoldRows (M.rules machine.now) (block_targets (M.rules machine.now) targets.now block) rows.new }
{
    if block != filled {
        let samples = machine.block_samples();
        fill_rows(machine, targets_in(targets, samples, blocks, block), rows);
    }
}

/// A head's row.
fn row_of(rows: &[u64], heads: u32, len: u32, head: u32) -> &[u64]
    requires head { head < heads }
    requires rows { length rows.now ≡ heads * len }
    requires small { heads * len < 2 ^ 31 }
    ensures value { result.now ≡ row rows.now len head }
    ensures length { length result.now ≡ len }
{
    let from = head as usize * len as usize;
    &rows[from..from + len as usize]
}

/// The floor under the rest of a sample's block, behind the block's first sample: heads of one lane have one floor, so the first one tells.
fn rest_one<M: Machine>(
    machine: &M,
    targets: &[i32],
    rows: &[u64],
    at: Spot,
    lane: u32,
    bx: Bx,
) -> u64
    requires at { IsSpot (M.rules machine.now) at }
    requires rows { HoldRows (M.rules machine.now) (block_targets (M.rules machine.now) targets.now at.block) rows.now }
    requires room { (M.rules machine.now).decoder.heads * (M.rules machine.now).floor_len < 2 ^ 31 }
    requires inside { 0 < at.place }
    requires bx { IsTrue ((M.rules machine.now).is_box at.place bx) }
    ensures { result ≡ floor_in (M.rules machine.now) first_only targets.now at.index lane bx }
{
    match lane_head(machine, at, lane) {
        Some(head) => {
            let row = row_of(rows, machine.heads(), machine.floor_len(), head);
            machine.floor_at(head, at.place, bx, row)
        }
        None => u64::MAX,
    }
}

/// What is under all that comes from a sample on.
pub fn rest_of<M: Machine>(
    machine: &M,
    targets: &[i32],
    blocks: u32,
    rows: &[u64],
    later: &[u64],
    at: Spot,
    lane: u32,
    bx: Bx,
) -> u64
    requires at { IsSpot (M.rules machine.now) at }
    requires within { at.block < blocks }
    requires rows { 0 < at.place → HoldRows (M.rules machine.now) (block_targets (M.rules machine.now) targets.now at.block) rows.now }
    requires room { (M.rules machine.now).decoder.heads * (M.rules machine.now).floor_len < 2 ^ 31 }
    requires later { HoldLater (M.rules machine.now) targets.now blocks later.now }
    requires bx { IsTrue ((M.rules machine.now).is_box at.place bx) }
    ensures { result ≡ min top (rest (M.rules machine.now) first_only targets.now blocks at.index lane bx) }
{
    if at.place == 0 {
        later[at.block as usize]
    } else {
        rest_one(machine, targets, rows, at, lane, bx).saturating_add(later[at.block as usize + 1])
    }
}

/// The same, by what a plan has.
pub fn rest_at<M: Machine>(machine: &M, plan: &Plan<'_>, at: Spot, lane: u32, bx: Bx) -> u64
    requires plan { IsPlan (M.rules machine.now) plan.now }
    requires at { IsNext (M.rules machine.now) plan.now at }
    requires bx { IsTrue ((M.rules machine.now).is_box at.place bx) }
    ensures { result ≡ min top (rest (M.rules machine.now) first_only plan.now.targets.now plan.now.blocks at.index lane bx) }
{
    rest_of(
        machine,
        plan.targets,
        plan.blocks,
        plan.rows,
        plan.later,
        at,
        lane,
        bx,
    )
}

/// The floor of a block.
fn floor_of<M: Machine>(machine: &M, targets: &[i32], blocks: u32, block: u32) -> u64
    requires count { length targets.now ≡ blocks * (M.rules machine.now).decoder.samples }
    requires block { block < blocks }
    requires small { blocks * (M.rules machine.now).decoder.samples < 2 ^ 31 }
    requires range { AreSamples targets.now }
    ensures { result ≡ block_floor (M.rules machine.now) first_only targets.now block }
{
    let window = targets_in(targets, machine.block_samples(), blocks, block);
    machine.block_floor(rule_at(block), window)
}

/// Fills in what the floors come to from each block on.
pub fn fill_later<M: Machine>(machine: &M, targets: &[i32], blocks: u32, later: &mut [u64])
    requires count { length targets.now ≡ blocks * (M.rules machine.now).decoder.samples }
    requires small { blocks * (M.rules machine.now).decoder.samples < 2 ^ 31 }
    requires range { AreSamples targets.now }
    requires later { blocks + 1 ≤ length later.old }
    ensures { HoldLater (M.rules machine.now) targets.now blocks later.new }
{
    later[blocks as usize] = 0;
    for k in 0..blocks {
        let block = blocks - 1 - k;
        let floor = floor_of(machine, targets, blocks, block);
        later[block as usize] = floor.saturating_add(later[block as usize + 1]);
    }
}
