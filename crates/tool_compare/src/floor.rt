ghost use Rattle.std.specs.Prelude.{◌≡◌, ◌≤◌};
ghost use Rattle.machine_core.specs.Blocks.{Blocks, IsLegal, must_forget};
ghost use Rattle.machine_core.specs.Segments.{segment_floors};
ghost use Rattle.machine_core.specs.Sums.{sum_of};
ghost use Rattle.loop_fit.specs.Fit.{IsWhole};
ghost use Rattle.loop_fit.specs.Segments.{segments_of};

use loop_fit::Fitted;
use machine_core::{Machine, floor_of_blocks, floors_hold, segments_make_the_whole};

/// The floor under a fitted sound, in squared 16-bit steps.
pub(crate) fn floor_under<M: Machine>(machine: &M, fitted: &Fitted) -> u64
    requires whole { IsWhole (M.rules machine.now).decoder.samples fitted.now }
    ensures value { result ≡ segment_floors (M.rules machine.now) fitted.now.targets 0
        (segments_of (M.rules machine.now).kind fitted.now.blocks fitted.now.loop_block) }
    ensures below { (list : Blocks) → IsLegal (M.rules machine.now).decoder fitted.now.blocks (must_forget (M.rules machine.now).kind fitted.now.loop_block) list
        → result ≤ sum_of (M.rules machine.now).decoder list fitted.now.targets fitted.now.blocks }
{
    floors_hold();
    segments_make_the_whole();
    let targets = fitted.targets.as_slice();
    floor_of_blocks(machine, fitted.loop_block, targets, fitted.blocks)
}
