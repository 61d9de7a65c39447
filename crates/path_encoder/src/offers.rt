ghost use Rattle.std.specs.Prelude.{◌≡◌, ◌<◌, IsTrue};
ghost use Rattle.adpcm_nums.specs.Sample.{IsSample};

use crate::taken::taken;
use machine_core::{Machine, State};

/// The six codes of IMA ADPCM that are worth while from a state: the two cheapest of those that lower the step index, and
/// for each size that raises it the sign towards the target.
pub(crate) fn offers<M: Machine>(machine: &M, place: u32, from: State, target: i32) -> [u32; 6]
    requires some { 0 < (M.rules machine.now).decoder.heads }
    requires place { place < (M.rules machine.now).decoder.samples }
    requires from { IsTrue ((M.rules machine.now).decoder.is_state from) }
    requires target { IsSample target }
{
    let sign = if target < from.a { 8 } else { 0 };
    let (first, other) = two_cheapest(machine, place, sign, from, target);
    [first, other, sign + 4, sign + 5, sign + 6, sign + 7]
}

/// What a code costs from a state, or the greatest number where the place has no such code.
fn cost_of_code<M: Machine>(machine: &M, place: u32, code: u32, from: State, target: i32) -> u64
    requires some { 0 < (M.rules machine.now).decoder.heads }
    requires place { place < (M.rules machine.now).decoder.samples }
    requires from { IsTrue ((M.rules machine.now).decoder.is_state from) }
    requires target { IsSample target }
{
    match taken(machine, 0, place, code, from, target) {
        Some(found) => found.cost,
        None => u64::MAX,
    }
}

/// The two cheapest of the codes that lower the step index: those towards the target, and the least step away from it.
fn two_cheapest<M: Machine>(
    machine: &M,
    place: u32,
    sign: u32,
    from: State,
    target: i32,
) -> (u32, u32)
    requires sign { sign < 9 }
    requires some { 0 < (M.rules machine.now).decoder.heads }
    requires place { place < (M.rules machine.now).decoder.samples }
    requires from { IsTrue ((M.rules machine.now).decoder.is_state from) }
    requires target { IsSample target }
{
    let (mut best, mut least) = (sign, cost_of_code(machine, place, sign, from, target));
    let (mut next, mut second) = (
        8 - sign,
        cost_of_code(machine, place, 8 - sign, from, target),
    );
    for size in 1..4u32 {
        let cost = cost_of_code(machine, place, sign + size, from, target);
        if cost < least {
            (next, second) = (best, least);
            (best, least) = (sign + size, cost);
        } else if cost < second {
            (next, second) = (sign + size, cost);
        }
    }
    (best, next)
}
