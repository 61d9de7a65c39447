ghost use Rattle.std.specs.Prelude.{◌≡◌, ◌≤◌, ◌<◌, ◌+◌, ◌*◌, IsTrue, length};
ghost use Rattle.adpcm_nums.specs.Sample.{IsSample, AreSamples};

use linear_machine::LinearMachine;
use machine_core::{HeadRule, State, rule_for};

/// Where a head leads whose codes are taken one by one, each the nearest.
#[derive(Clone, Copy, Debug, PartialEq, Eq)]
pub(crate) struct Lead {
    /// The head.
    pub head: u32,
    /// The state after its block.
    pub state: State,
    /// What the block costs, in squared 16-bit steps; the greatest number where no head was tried.
    pub cost: u64,
}

/// Where a head leads from a state.
fn lead_of<M: LinearMachine>(machine: &M, head: u32, targets: &[i32], from: State) -> Lead
    requires head { head < (M.rules machine.now).decoder.heads }
    requires count { length targets.now ≡ (M.rules machine.now).decoder.samples }
    requires targets { AreSamples targets.now }
    requires from { IsTrue ((M.rules machine.now).decoder.is_state from) }
    ensures { IsTrue ((M.rules machine.now).decoder.is_state result.state) }
{
    let mut state = from;
    let mut cost = 0u64;
    for place in 0..machine.block_samples() {
        let taken = machine.take_nearest(head, place, state, targets[place as usize]);
        state = taken.state;
        cost = cost.saturating_add(taken.cost);
    }
    Lead { head, state, cost }
}

/// The first head that the rule allows and that leads on at the least cost. A bound under it is likely to be the least.
fn best_lead<M: LinearMachine>(machine: &M, rule: HeadRule, targets: &[i32], from: State) -> Lead
    requires count { length targets.now ≡ (M.rules machine.now).decoder.samples }
    requires targets { AreSamples targets.now }
    requires from { IsTrue ((M.rules machine.now).decoder.is_state from) }
    ensures { IsTrue ((M.rules machine.now).decoder.is_state result.state) }
{
    let mut best = Lead {
        head: 0,
        state: from,
        cost: u64::MAX,
    };
    for head in 0..machine.heads() {
        if machine.allows(head, rule) {
            let lead = lead_of(machine, head, targets, from);
            if lead.cost < best.cost {
                best = lead;
            }
        }
    }
    best
}

/// Where the block's best head leads.
pub(crate) fn block_lead<M: LinearMachine>(
    machine: &M,
    loop_block: Option<u32>,
    targets: &[i32],
    block: u32,
    from: State,
) -> Lead
    requires within { block * (M.rules machine.now).decoder.samples + (M.rules machine.now).decoder.samples ≤ length targets.now }
    requires targets { AreSamples targets.now }
    requires from { IsTrue ((M.rules machine.now).decoder.is_state from) }
    ensures { IsTrue ((M.rules machine.now).decoder.is_state result.state) }
{
    let samples = machine.block_samples() as usize;
    let first = block as usize * samples;
    let rule = rule_for(machine.kind(), loop_block, block);
    best_lead(machine, rule, &targets[first..first + samples], from)
}

/// The errors of the two outputs that a state holds.
fn entering_cost<M: LinearMachine>(machine: &M, from: State, older: i32, last: i32) -> u64
    requires from { IsTrue ((M.rules machine.now).decoder.is_state from) }
    requires older { IsSample older }
    requires last { IsSample last }
{
    let before = State {
        a: from.b,
        b: from.b,
    };
    let cost = machine.cost(from, last);
    if machine.is_state(before) {
        cost.saturating_add(machine.cost(before, older))
    } else {
        cost
    }
}

/// What a list counts in a block's window, at most, that comes to the block in a state and goes on at this cost.
pub(crate) fn window_cost<M: LinearMachine>(
    machine: &M,
    targets: &[i32],
    block: u32,
    from: State,
    cost: u64,
) -> u64
    requires within { block * (M.rules machine.now).decoder.samples + (M.rules machine.now).decoder.samples ≤ length targets.now }
    requires targets { AreSamples targets.now }
    requires from { IsTrue ((M.rules machine.now).decoder.is_state from) }
{
    let first = block as usize * machine.block_samples() as usize;
    let own = cost.saturating_mul(2);
    if first < 2 {
        return own;
    }
    own.saturating_add(entering_cost(machine, from, targets[first - 2], targets[first - 1]))
}
