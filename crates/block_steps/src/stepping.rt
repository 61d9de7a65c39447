ghost use Rattle.std.specs.Prelude.{◌≡◌, ℕ, ◌<◌, ◌≤◌, ◌+◌, ◌*◌, ◌^◌, suc, pos, length, slice_index_or, slice_range, IfSome, None, true, false};
ghost use Rattle.adpcm_nums.specs.Sample.{IsSample, AreSamples};
ghost use Rattle.box_layers.specs.Certificates.{lane_at};
ghost use Rattle.machine_core.specs.Blocks.{first_only};
ghost use Rattle.machine_core.specs.Floors.{may_take};
ghost use Rattle.block_steps.specs.Tables.{IsSpot};

use crate::spots::Spot;
use machine_core::{Machine, rule_at};

/// Whether a head may be taken at a sample in a lane.
pub fn takes<M: Machine>(machine: &M, at: Spot, lane: u32, head: u32) -> bool
    requires at { IsSpot (M.rules machine.now) at }
    requires head { head < (M.rules machine.now).decoder.heads }
    ensures { result ≡ may_take (M.rules machine.now) first_only at.index lane head }
{
    if at.place == 0 {
        machine.allows(head, rule_at(at.block))
    } else {
        machine.lane(head, at.place) == lane
    }
}

/// The next sample.
pub fn next_spot<M: Machine>(machine: &M, at: Spot) -> Spot
    requires at { IsSpot (M.rules machine.now) at }
    requires small { at.index < 2 ^ 31 }
    ensures index { result.index ≡ suc at.index }
    ensures spot { IsSpot (M.rules machine.now) result }
    ensures same_block { 0 < result.place → result.block ≡ at.block }
{
    if at.place + 1 < machine.block_samples() {
        Spot {
            index: at.index + 1,
            block: at.block,
            place: at.place + 1,
        }
    } else {
        Spot {
            index: at.index + 1,
            block: at.block + 1,
            place: 0,
        }
    }
}

/// The lane before a sample of a block with this head.
pub fn lane_of<M: Machine>(machine: &M, at: Spot, head: u32) -> u32
    requires at { IsSpot (M.rules machine.now) at }
    requires head { head < (M.rules machine.now).decoder.heads }
    ensures { result ≡ lane_at (M.rules machine.now) head at.index }
{
    if at.place == 0 {
        65535
    } else {
        machine.lane(head, at.place)
    }
}

/// The target of a sample.
pub fn target_at(targets: &[i32], i: u32) -> i32
    requires within { i < length targets.now }
    requires range { AreSamples targets.now }
    ensures value { result ≡ slice_index_or targets.now i (pos 0) }
    ensures sample { IsSample result }
{
    targets[i as usize]
}

/// The targets of a block.
pub fn targets_in(targets: &[i32], samples: u32, blocks: u32, block: u32) -> &[i32]
    requires count { length targets.now ≡ blocks * samples }
    requires block { block < blocks }
    requires small { blocks * samples < 2 ^ 31 }
    requires range { AreSamples targets.now }
    ensures value { result.now ≡ slice_range targets.now (block * samples) (block * samples + samples) }
    ensures count { length result.now ≡ samples }
    ensures range { AreSamples result.now }
{
    let from = block as usize * samples as usize;
    &targets[from..from + samples as usize]
}

/// The first head that may be taken at a sample in a lane.
pub fn lane_head<M: Machine>(machine: &M, at: Spot, lane: u32) -> Option<u32>
    requires at { IsSpot (M.rules machine.now) at }
    ensures some { IfSome result (λ h. (h < (M.rules machine.now).decoder.heads) × (may_take (M.rules machine.now) first_only at.index lane h ≡ true)) }
    ensures first { IfSome result (λ h. (k : ℕ) → k < h → may_take (M.rules machine.now) first_only at.index lane k ≡ false) }
    ensures none { result ≡ None → (k : ℕ) → k < (M.rules machine.now).decoder.heads → may_take (M.rules machine.now) first_only at.index lane k ≡ false }
{
    for h in 0..machine.heads() {
        if takes(machine, at, lane, h) {
            return Some(h);
        }
    }
    None
}

/// The symbols that may cost no more than `slack` at a sample: the first of them, and the one behind the last.
pub fn symbols_within<M: Machine>(machine: &M, targets: &[i32], at: Spot, slack: u64) -> (u32, u32)
    requires at { IsSpot (M.rules machine.now) at }
    requires within { at.index < length targets.now }
    requires range { AreSamples targets.now }
    ensures first { result.0 ≡ (M.rules machine.now).first_symbol at.place (slice_index_or targets.now at.index (pos 0)) slack }
    ensures end { result.1 ≡ suc ((M.rules machine.now).last_symbol at.place (slice_index_or targets.now at.index (pos 0)) slack) }
    ensures few { result.1 ≤ (M.rules machine.now).decoder.symbols at.place }
{
    let target = target_at(targets, at.index);
    let span = machine.symbol_span(at.place, target, slack);
    (span.lo.unsigned_abs(), span.hi.unsigned_abs() + 1)
}
