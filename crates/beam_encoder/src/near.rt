ghost use Rattle.std.specs.Prelude.{◌≡◌, ◌<◌, IsTrue};
ghost use Rattle.adpcm_nums.specs.Sample.{IsSample};
ghost use Rattle.machine_core.specs.Decoder.{cost_of};
ghost use Rattle.machine_core.specs.Nearest.{nearest_symbol};

use machine_core::{Machine, State, Taken};

/// One sample under a head, as near to its target as it can come: the first symbol of least cost, the state after it and its cost.
pub(crate) fn near<M: Machine>(machine: &M, head: u32, pos: u32, from: State, target: i32) -> Taken
    requires head { head < (M.rules machine.now).decoder.heads }
    requires pos { pos < (M.rules machine.now).decoder.samples }
    requires from { IsTrue ((M.rules machine.now).decoder.is_state from) }
    requires target { IsSample target }
    ensures symbol { result.symbol ≡ nearest_symbol (M.rules machine.now).decoder head pos from target }
    ensures state { result.state ≡ (M.rules machine.now).decoder.step head pos result.symbol from }
    ensures cost { result.cost ≡ cost_of (M.rules machine.now).decoder result.state target }
    ensures fits { IsTrue ((M.rules machine.now).decoder.is_state result.state) }
{
    machine.take_nearest(head, pos, from, target)
}
