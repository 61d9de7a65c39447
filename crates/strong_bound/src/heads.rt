ghost use Rattle.std.specs.Prelude.{◌≡◌, ◌≤◌, ◌<◌, ◌+◌, ◌^◌, ℕ, IsTrue, length};
ghost use Rattle.adpcm_nums.specs.Sample.{AreSamples};
ghost use Rattle.strong_bound.specs.Counted.{IsUnder};

use block_bounds::head_bound;
use linear_machine::LinearMachine;
use machine_core::HeadRule;

/// How a block's window is counted, and how far it is searched.
#[derive(Clone, Copy, Debug, PartialEq, Eq)]
pub struct Counting {
    /// How often the errors of the two places before the block are counted, at most twice.
    pub entering: u64,
    /// Whether the next block counts the last two places again. They are counted once then, and all others twice.
    pub leaving: bool,
    /// The rows that a search under a head goes on with from each place, at most.
    pub nodes: u64,
    ghost few: { entering ≤ 2 },
}

/// A bound, at most `top`, under what a block costs in its window under a head.
fn bound_under<M: LinearMachine>(
    machine: &M,
    head: u32,
    targets: &[i32],
    counting: Counting,
    top: u64,
) -> u64
    requires head { head < (M.rules machine.now).decoder.heads }
    requires few { (M.rules machine.now).decoder.samples ≤ 28 }
    requires count { length targets.now ≡ (M.rules machine.now).decoder.samples + 2 }
    requires targets { AreSamples targets.now }
    requires top { top ≤ 2 ^ 48 }
    ensures most { result ≤ top }
    ensures under { IsUnder ((M.linear machine.now).windows head) counting.leaving counting.entering targets.now result }
{
    head_bound(
        machine.windows(head),
        targets,
        counting.entering,
        counting.leaving,
        top,
        counting.nodes,
    )
}

/// The bound under a head that is tried before the others, where there is such a head and the rule allows it.
fn first_tried<M: LinearMachine>(
    machine: &M,
    rule: HeadRule,
    near: u32,
    targets: &[i32],
    counting: Counting,
    top: u64,
) -> u64
    requires few { (M.rules machine.now).decoder.samples ≤ 28 }
    requires count { length targets.now ≡ (M.rules machine.now).decoder.samples + 2 }
    requires targets { AreSamples targets.now }
    requires top { top ≤ 2 ^ 48 }
    ensures most { result ≤ top }
    ensures under { near < (M.rules machine.now).decoder.heads → IsTrue ((M.rules machine.now).decoder.allows near rule) → IsUnder ((M.linear machine.now).windows near) counting.leaving counting.entering targets.now result }
{
    if near >= machine.heads() {
        return top;
    }
    if !machine.allows(near, rule) {
        return top;
    }
    bound_under(machine, near, targets, counting, top)
}

/// The least bound so far and that under one more head, where the rule allows it and it is not the one tried first.
fn next_tried<M: LinearMachine>(
    machine: &M,
    rule: HeadRule,
    near: u32,
    head: u32,
    targets: &[i32],
    counting: Counting,
    least: u64,
) -> u64
    requires head { head < (M.rules machine.now).decoder.heads }
    requires few { (M.rules machine.now).decoder.samples ≤ 28 }
    requires count { length targets.now ≡ (M.rules machine.now).decoder.samples + 2 }
    requires targets { AreSamples targets.now }
    requires least { least ≤ 2 ^ 48 }
    requires tried { head ≡ near → IsTrue ((M.rules machine.now).decoder.allows head rule) → IsUnder ((M.linear machine.now).windows head) counting.leaving counting.entering targets.now least }
    ensures most { result ≤ least }
    ensures under { IsTrue ((M.rules machine.now).decoder.allows head rule) → IsUnder ((M.linear machine.now).windows head) counting.leaving counting.entering targets.now result }
{
    if head == near {
        return least;
    }
    if !machine.allows(head, rule) {
        return least;
    }
    bound_under(machine, head, targets, counting, least)
}

/// A bound, at most `top`, under what a block costs in its window, whatever its codes and whichever of the heads that the
/// rule allows it has.
///
/// The targets begin with those of the two places before the block. The head `near` is tried first: the less a block costs
/// under it, the sooner the other searches end.
pub fn block_bound_of<M: LinearMachine>(
    machine: &M,
    rule: HeadRule,
    near: u32,
    targets: &[i32],
    counting: Counting,
    top: u64,
) -> u64
    requires few { (M.rules machine.now).decoder.samples ≤ 28 }
    requires count { length targets.now ≡ (M.rules machine.now).decoder.samples + 2 }
    requires targets { AreSamples targets.now }
    requires top { top ≤ 2 ^ 48 }
    ensures most { result ≤ top }
    ensures owes { (head : ℕ) → head < (M.rules machine.now).decoder.heads → IsTrue ((M.rules machine.now).decoder.allows head rule)
        → IsUnder ((M.linear machine.now).windows head) counting.leaving counting.entering targets.now result }
{
    let mut least = first_tried(machine, rule, near, targets, counting, top);
    for head in 0..machine.heads() {
        least = next_tried(machine, rule, near, head, targets, counting, least);
    }
    least
}
