ghost use Rattle.std.specs.Prelude.{◌≡◌, ◌≤◌, ◌*◌, length};
ghost use Rattle.adpcm_nums.specs.Sample.{AreSamples};
ghost use Rattle.machine_core.specs.Blocks.{Blocks, IsLegal, must_forget};
ghost use Rattle.machine_core.specs.Sums.{sum_of};

use crate::greedy::{block_lead, window_cost};
use crate::window::window_bound;
use adpcm_nums::MOST_SAMPLES;
use linear_machine::LinearMachine;
use machine_core::State;

/// A bound near the error of a sample of so many blocks with this loop block, or of a segment of one, in squared 16-bit
/// steps.
///
/// No legal list of blocks has a lower error. The search under a head goes on with at most `nodes` rows from each place of
/// a block.
pub fn strong_bound<M: LinearMachine>(
    machine: &M,
    loop_block: Option<u32>,
    targets: &[i32],
    blocks: u32,
    nodes: u64,
) -> u64
    requires some { 2 ≤ (M.rules machine.now).decoder.samples }
    requires few_samples { (M.rules machine.now).decoder.samples ≤ 28 }
    requires count { length targets.now ≡ blocks * (M.rules machine.now).decoder.samples }
    requires few { length targets.now ≤ MOST_SAMPLES }
    requires range { AreSamples targets.now }
    ensures bound { (list : Blocks) → IsLegal (M.rules machine.now).decoder blocks (must_forget (M.rules machine.now).kind loop_block) list
        → result ≤ sum_of (M.rules machine.now).decoder list targets.now blocks }
{
    let mut sum = 0;
    let mut state = State { a: 0, b: 0 };
    for block in 0..blocks {
        let lead = block_lead(machine, loop_block, targets, block, state);
        let top = window_cost(machine, targets, block, state, lead.cost);
        sum += window_bound(
            machine, loop_block, lead.head, top, targets, blocks, block, nodes,
        );
        state = lead.state;
    }
    sum.div_ceil(2)
}
