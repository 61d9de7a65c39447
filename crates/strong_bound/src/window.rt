ghost use Rattle.std.specs.Prelude.{◌≡◌, ◌≤◌, ◌<◌, ◌+◌, ◌*◌, ◌^◌, ℕ, pos, Bool, length, get_or};
ghost use Rattle.adpcm_nums.specs.Sample.{AreSamples};
ghost use Rattle.machine_core.specs.Blocks.{Blocks, IsLegal, rule_of, must_forget};
ghost use Rattle.machine_core.specs.Sums.{cost_at};
ghost use Rattle.strong_bound.specs.Counted.{counted, enters, is_left};

use crate::heads::{Counting, block_bound_of};
use crate::quiet::quiet_bound;
use linear_machine::LinearMachine;
use machine_core::{HeadRule, State, rule_for};

/// No window counts so much: at most 58 times 2^32.
const TOP: u64 = 1 << 40;

/// The targets of a first block, behind two places that hold nothing.
fn first_targets(targets: &[i32]) -> [i32; 30]
    requires few { length targets.now ≤ 28 }
    requires range { AreSamples targets.now }
    ensures count { length result ≡ 30 }
    ensures range { AreSamples result }
    ensures own { (j : ℕ) → j < length targets.now → get_or result (2 + j) (pos 0) ≡ get_or targets.now j (pos 0) }
{
    let mut list = [0i32; 30];
    for place in 0..targets.len() {
        list[place + 2] = targets[place];
    }
    list
}

/// A bound under what the window of the first block counts.
fn first_bound<M: LinearMachine>(
    machine: &M,
    rule: HeadRule,
    near: u32,
    targets: &[i32],
    nodes: u64,
) -> u64
    requires some { 2 ≤ (M.rules machine.now).decoder.samples }
    requires few { (M.rules machine.now).decoder.samples ≤ 28 }
    requires within { (M.rules machine.now).decoder.samples ≤ length targets.now }
    requires range { AreSamples targets.now }
    ensures most { result ≤ 2 ^ 40 }
    ensures below { (fixed : ℕ → Bool) (blocks : ℕ) (list : Blocks) → 0 < blocks → rule ≡ rule_of fixed 0 → IsLegal (M.rules machine.now).decoder blocks fixed list
        → result ≤ counted (M.rules machine.now).decoder.samples (cost_at (M.rules machine.now).decoder list targets.now) blocks 0 }
{
    let samples = machine.block_samples() as usize;
    let list = first_targets(&targets[..samples]);
    let counting = Counting {
        entering: 0,
        leaving: false,
        nodes,
    };
    block_bound_of(machine, rule, near, &list[..samples + 2], counting, TOP)
}

/// How often the two samples before a block are counted in its window.
fn entering(block: u32) -> u64
    ensures value { result ≡ enters block }
    ensures few { result ≤ 1 }
{
    match block {
        0 | 1 => 0,
        _ => 1,
    }
}

/// Whether the block after a later one counts its last two samples again.
fn leaving(blocks: u32, block: u32) -> bool
    requires block { 0 < block }
    requires within { block < blocks }
    ensures { result ≡ is_left blocks block }
{
    block + 1 < blocks
}

/// A bound under what the window of a later block counts, found by the search of rows.
fn rows_bound<M: LinearMachine>(
    machine: &M,
    rule: HeadRule,
    near: u32,
    targets: &[i32],
    blocks: u32,
    block: u32,
    nodes: u64,
) -> u64
    requires some { 2 ≤ (M.rules machine.now).decoder.samples }
    requires few { (M.rules machine.now).decoder.samples ≤ 28 }
    requires later { 0 < block }
    requires within { block < blocks }
    requires count { length targets.now ≡ blocks * (M.rules machine.now).decoder.samples }
    requires range { AreSamples targets.now }
    ensures most { result ≤ 2 ^ 40 }
    ensures below { (fixed : ℕ → Bool) (list : Blocks) → rule ≡ rule_of fixed block → IsLegal (M.rules machine.now).decoder blocks fixed list
        → result ≤ counted (M.rules machine.now).decoder.samples (cost_at (M.rules machine.now).decoder list targets.now) blocks block }
{
    let samples = machine.block_samples() as usize;
    let from = block as usize * samples;
    let window = &targets[from - 2..from + samples];
    let counting = Counting {
        entering: entering(block),
        leaving: leaving(blocks, block),
        nodes,
    };
    block_bound_of(machine, rule, near, window, counting, TOP)
}

/// A bound under what the window of a later block counts, found from each state before the block where the window is quiet.
/// Before the second block the states are not counted, so none is left out, and they are too many.
fn states_bound<M: LinearMachine>(
    machine: &M,
    rule: HeadRule,
    top: u64,
    targets: &[i32],
    blocks: u32,
    block: u32,
    nodes: u64,
) -> u64
    requires some { 2 ≤ (M.rules machine.now).decoder.samples }
    requires few { (M.rules machine.now).decoder.samples ≤ 28 }
    requires later { 0 < block }
    requires within { block < blocks }
    requires count { length targets.now ≡ blocks * (M.rules machine.now).decoder.samples }
    requires range { AreSamples targets.now }
    ensures most { result ≤ 2 ^ 40 }
    ensures below { (fixed : ℕ → Bool) (list : Blocks) → rule ≡ rule_of fixed block → IsLegal (M.rules machine.now).decoder blocks fixed list
        → result ≤ counted (M.rules machine.now).decoder.samples (cost_at (M.rules machine.now).decoder list targets.now) blocks block }
{
    if entering(block) == 0 {
        return 0;
    }
    let samples = machine.block_samples() as usize;
    let from = block as usize * samples;
    let own = &targets[from..from + samples];
    let aim = State {
        a: targets[from - 1],
        b: targets[from - 2],
    };
    let leaving = leaving(blocks, block);
    quiet_bound(machine, rule, aim, own, leaving, nodes, top)
}

/// A bound under what the window of a later block counts: the greater of both.
fn later_bound<M: LinearMachine>(
    machine: &M,
    rule: HeadRule,
    near: u32,
    top: u64,
    targets: &[i32],
    blocks: u32,
    block: u32,
    nodes: u64,
) -> u64
    requires some { 2 ≤ (M.rules machine.now).decoder.samples }
    requires few { (M.rules machine.now).decoder.samples ≤ 28 }
    requires later { 0 < block }
    requires within { block < blocks }
    requires count { length targets.now ≡ blocks * (M.rules machine.now).decoder.samples }
    requires range { AreSamples targets.now }
    ensures most { result ≤ 2 ^ 40 }
    ensures below { (fixed : ℕ → Bool) (list : Blocks) → rule ≡ rule_of fixed block → IsLegal (M.rules machine.now).decoder blocks fixed list
        → result ≤ counted (M.rules machine.now).decoder.samples (cost_at (M.rules machine.now).decoder list targets.now) blocks block }
{
    let rows = rows_bound(machine, rule, near, targets, blocks, block, nodes);
    let states = states_bound(machine, rule, top, targets, blocks, block, nodes);
    rows.max(states)
}

/// A bound under what the window of a block counts of every legal list. The head `near` is tried first; `top` is best what
/// a list is known to count there.
pub(crate) fn window_bound<M: LinearMachine>(
    machine: &M,
    loop_block: Option<u32>,
    near: u32,
    top: u64,
    targets: &[i32],
    blocks: u32,
    block: u32,
    nodes: u64,
) -> u64
    requires some { 2 ≤ (M.rules machine.now).decoder.samples }
    requires few { (M.rules machine.now).decoder.samples ≤ 28 }
    requires within { block < blocks }
    requires count { length targets.now ≡ blocks * (M.rules machine.now).decoder.samples }
    requires range { AreSamples targets.now }
    ensures most { result ≤ 2 ^ 40 }
    ensures below { (list : Blocks) → IsLegal (M.rules machine.now).decoder blocks (must_forget (M.rules machine.now).kind loop_block) list
        → result ≤ counted (M.rules machine.now).decoder.samples (cost_at (M.rules machine.now).decoder list targets.now) blocks block }
{
    let rule = rule_for(machine.kind(), loop_block, block);
    if block == 0 {
        first_bound(machine, rule, near, targets, nodes)
    } else {
        later_bound(machine, rule, near, top, targets, blocks, block, nodes)
    }
}
