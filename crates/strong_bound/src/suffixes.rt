ghost use Rattle.std.specs.Prelude.{◌≡◌, ◌⊎◌, ◌≤◌, ◌<◌, ◌+◌, pos, length, get_or};
ghost use Rattle.adpcm_nums.specs.Sample.{AreSamples};
ghost use Rattle.strong_bound.specs.Quiet.{times_at, IsUnderRest, HoldsRests};

use crate::states::{Entry, under_states};
use linear_machine::LinearMachine;
use machine_core::State;

/// How often a place is counted where the first `twice` are counted twice.
#[tactic(auto, unfolding(crate::specs::Quiet::times_at))]
fn times(twice: u32, place: u32) -> u64
    ensures value { result ≡ times_at twice place }
    ensures some { 1 ≤ result }
{
    if place < twice { 2 } else { 1 }
}

/// The place behind two of a block, whose targets are those of the block.
fn entry_behind(targets: &[i32], twice: u32, place: u32) -> Entry
    requires within { place + 2 ≤ length targets.now }
    requires few { length targets.now ≤ 28 }
    requires targets { AreSamples targets.now }
    ensures place { result.place ≡ place + 2 }
    ensures last { result.aim.a ≡ get_or targets.now (place + 1) (pos 0) }
    ensures older { result.aim.b ≡ get_or targets.now place (pos 0) }
    ensures times { result.last ≡ times_at twice (place + 1) }
    ensures times_older { result.older ≡ times_at twice place }
    ensures counted { 1 ≤ result.last }
    ensures once { 1 ≤ result.older }
{
    let at = place as usize;
    Entry {
        place: place + 2,
        aim: State {
            a: targets[at + 1],
            b: targets[at],
        },
        last: times(twice, place + 1),
        older: times(twice, place),
    }
}

/// A bound under what any codes count from a place on, whatever the state: no less than what is known of it, and found from
/// the states whose two outputs stand at this place and the next, as far as `top`.
fn rest_from<M: LinearMachine>(
    machine: &M,
    head: u32,
    targets: &[i32],
    rests: &[u64],
    twice: u32,
    scale: i64,
    place: u32,
    nodes: u64,
    top: u64,
) -> u64
    requires head { head < (M.rules machine.now).decoder.heads }
    requires place { place + 2 ≤ (M.rules machine.now).decoder.samples }
    requires few { (M.rules machine.now).decoder.samples ≤ 28 }
    requires count { length targets.now ≡ (M.rules machine.now).decoder.samples }
    requires targets { AreSamples targets.now }
    requires size { length rests.now ≡ (M.rules machine.now).decoder.samples + 1 }
    requires rests { HoldsRests (M.rules machine.now).decoder targets.now twice head rests.now }
    requires scale { (scale ≡ pos 1) ⊎ (scale ≡ pos 2) }
    requires scale_is { scale ≡ pos (M.rules machine.now).decoder.scale }
    requires top { top ≤ 256 }
    ensures { IsUnderRest (M.rules machine.now).decoder targets.now twice head place result }
{
    let at = place as usize;
    let low = rests[at].max(rests[at + 1]);
    if low >= top {
        return low;
    }
    let entry = entry_behind(targets, twice, place);
    let found = under_states(
        machine, head, targets, rests, twice, scale, entry, nodes, top,
    );
    low.max(found)
}

/// Raises a table of such bounds from the block's end on: each place is gone on from with what is known of those behind it.
pub(crate) fn raise_rests<M: LinearMachine>(
    machine: &M,
    head: u32,
    targets: &[i32],
    twice: u32,
    scale: i64,
    nodes: u64,
    top: u64,
    table: &mut [u64],
)
    requires head { head < (M.rules machine.now).decoder.heads }
    requires some { 2 ≤ (M.rules machine.now).decoder.samples }
    requires few { (M.rules machine.now).decoder.samples ≤ 28 }
    requires count { length targets.now ≡ (M.rules machine.now).decoder.samples }
    requires targets { AreSamples targets.now }
    requires size { length table.old ≡ (M.rules machine.now).decoder.samples + 1 }
    requires rests { HoldsRests (M.rules machine.now).decoder targets.now twice head table.old }
    requires scale { (scale ≡ pos 1) ⊎ (scale ≡ pos 2) }
    requires scale_is { scale ≡ pos (M.rules machine.now).decoder.scale }
    requires top { top ≤ 256 }
    ensures size { length table.new ≡ (M.rules machine.now).decoder.samples + 1 }
    ensures rests { HoldsRests (M.rules machine.now).decoder targets.now twice head table.new }
{
    let mut place = machine.block_samples() - 1;
    while place > 0 {
        place -= 1;
        let rest = rest_from(
            machine, head, targets, table, twice, scale, place, nodes, top,
        );
        table[place as usize] = rest;
    }
}
