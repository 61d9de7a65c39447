ghost use Rattle.std.specs.Prelude.{◌≡◌, ◌≤◌, ◌<◌, ◌+◌, ℕ, IsTrue, length};
ghost use Rattle.adpcm_nums.specs.Sample.{IsSample, AreSamples};
ghost use Rattle.strong_bound.specs.Quiet.{twice_of, IsUnderStates};

use crate::rests::fill_rests;
use crate::states::{Entry, under_states};
use crate::suffixes::raise_rests;
use linear_machine::LinearMachine;
use machine_core::{HeadRule, State};

/// What a list may count in a quiet window, at most.
const QUIET: u64 = 256;

/// How many places of a block are counted twice, the first ones.
fn twice_of(samples: u32, leaving: bool) -> u32
    requires { 2 ≤ samples }
    ensures value { result ≡ twice_of leaving samples }
    ensures most { result ≤ samples }
{
    if leaving { samples - 2 } else { samples }
}

/// A bound, at most `top`, under what any codes count under a head, from whatever state: that from the states near `aim`.
fn under_head<M: LinearMachine>(
    machine: &M,
    head: u32,
    aim: State,
    targets: &[i32],
    twice: u32,
    nodes: u64,
    top: u64,
    table: &mut [u64],
    front: &mut [u64],
) -> u64
    requires head { head < (M.rules machine.now).decoder.heads }
    requires some { 2 ≤ (M.rules machine.now).decoder.samples }
    requires few { (M.rules machine.now).decoder.samples ≤ 28 }
    requires count { length targets.now ≡ (M.rules machine.now).decoder.samples }
    requires targets { AreSamples targets.now }
    requires twice { twice ≤ (M.rules machine.now).decoder.samples }
    requires last { IsSample aim.a }
    requires older { IsSample aim.b }
    requires table { length table.old ≡ (M.rules machine.now).decoder.samples + 1 }
    requires front { length front.old ≡ twice + 1 }
    requires top { top ≤ 256 }
    ensures most { result ≤ top }
    ensures under { IsUnderStates (M.rules machine.now).decoder aim targets.now twice head result }
{
    let windows = machine.windows(head);
    fill_rests(windows, targets, twice as usize, table, front);
    if table[0] >= top {
        return top;
    }
    let scale = windows.row.scale;
    raise_rests(machine, head, targets, twice, scale, nodes, top, table);
    let entry = Entry {
        place: 0,
        aim,
        last: 1,
        older: 1,
    };
    under_states(
        machine, head, targets, table, twice, scale, entry, nodes, top,
    )
}

/// The same under each head that the rule allows, with room for the tables lent.
fn under_heads<M: LinearMachine>(
    machine: &M,
    rule: HeadRule,
    aim: State,
    targets: &[i32],
    twice: u32,
    nodes: u64,
    top: u64,
    table: &mut [u64],
    front: &mut [u64],
) -> u64
    requires some { 2 ≤ (M.rules machine.now).decoder.samples }
    requires few { (M.rules machine.now).decoder.samples ≤ 28 }
    requires count { length targets.now ≡ (M.rules machine.now).decoder.samples }
    requires targets { AreSamples targets.now }
    requires twice { twice ≤ (M.rules machine.now).decoder.samples }
    requires last { IsSample aim.a }
    requires older { IsSample aim.b }
    requires table { length table.old ≡ (M.rules machine.now).decoder.samples + 1 }
    requires front { length front.old ≡ twice + 1 }
    requires top { top ≤ 256 }
    ensures most { result ≤ top }
    ensures under { (head : ℕ) → head < (M.rules machine.now).decoder.heads → IsTrue ((M.rules machine.now).decoder.allows head rule)
        → IsUnderStates (M.rules machine.now).decoder aim targets.now twice head result }
{
    let mut least = top;
    for head in 0..machine.heads() {
        if machine.allows(head, rule) {
            least = under_head(
                machine, head, aim, targets, twice, nodes, least, table, front,
            );
        }
    }
    least
}

/// A bound under what a block counts in a quiet window, whatever its codes, whichever of the heads that the rule allows it
/// has, and whatever the two outputs before it, whose errors against those of `aim` are counted once: each state near `aim`
/// is gone on from with the decoder's own steps.
///
/// `top` may be any number, best what a list is known to count. A window that is not quiet has the bound 0.
pub(crate) fn quiet_bound<M: LinearMachine>(
    machine: &M,
    rule: HeadRule,
    aim: State,
    targets: &[i32],
    leaving: bool,
    nodes: u64,
    top: u64,
) -> u64
    requires some { 2 ≤ (M.rules machine.now).decoder.samples }
    requires few { (M.rules machine.now).decoder.samples ≤ 28 }
    requires count { length targets.now ≡ (M.rules machine.now).decoder.samples }
    requires targets { AreSamples targets.now }
    requires last { IsSample aim.a }
    requires older { IsSample aim.b }
    ensures small { result ≤ 256 }
    ensures under { (head : ℕ) → head < (M.rules machine.now).decoder.heads → IsTrue ((M.rules machine.now).decoder.allows head rule)
        → IsUnderStates (M.rules machine.now).decoder aim targets.now (twice_of leaving (M.rules machine.now).decoder.samples) head result }
{
    if top > QUIET {
        return 0;
    }
    let samples = machine.block_samples();
    let twice = twice_of(samples, leaving);
    let mut table = [0u64; 29];
    let mut front = [0u64; 29];
    under_heads(
        machine,
        rule,
        aim,
        targets,
        twice,
        nodes,
        top,
        &mut table[..samples as usize + 1],
        &mut front[..twice as usize + 1],
    )
}
