ghost use Rattle.std.specs.Prelude.{◌≡◌, ◌≤◌, ◌<◌, ◌+◌, ◌*◌, IsTrue, length};
ghost use Rattle.adpcm_nums.specs.Sample.{AreSamples};
ghost use Rattle.strong_bound.specs.Quiet.{times_at, IsUnderSymbols, HoldsRests};

use machine_core::{Machine, State};

/// What is counted with one more place, of which the first `twice` are counted twice.
#[tactic(auto, unfolding(crate::specs::Quiet::times_at))]
fn counted_with(paid: u64, cost: u64, twice: u32, place: u32) -> u64
    ensures { result ≤ paid + times_at twice place * cost }
{
    let once = paid.saturating_add(cost);
    if place < twice {
        once.saturating_add(cost)
    } else {
        once
    }
}

/// The least of `top` and of what any codes count from a place on, from a state, on top of what was counted before; or a
/// bound under it where the nodes are used up. Depth first, by the decoder's own steps.
///
/// `rests` holds at each place a bound under what any codes count from there on.
pub(crate) fn least_from<M: Machine>(
    machine: &M,
    head: u32,
    targets: &[i32],
    rests: &[u64],
    twice: u32,
    place: u32,
    from: State,
    paid: u64,
    top: u64,
    nodes: &mut u64,
) -> u64
    requires head { head < (M.rules machine.now).decoder.heads }
    requires place { place ≤ (M.rules machine.now).decoder.samples }
    requires count { length targets.now ≡ (M.rules machine.now).decoder.samples }
    requires targets { AreSamples targets.now }
    requires size { length rests.now ≡ (M.rules machine.now).decoder.samples + 1 }
    requires rests { HoldsRests (M.rules machine.now).decoder targets.now twice head rests.now }
    requires from { IsTrue ((M.rules machine.now).decoder.is_state from) }
    ensures most { result ≤ top }
    ensures under { IsUnderSymbols (M.rules machine.now).decoder targets.now twice head place from paid result }
{
    if *nodes == 0 || place == machine.block_samples() {
        return top.min(paid.saturating_add(rests[place as usize]));
    }
    *nodes -= 1;
    let mut least = top;
    for code in 0..machine.symbols(place) {
        let next = machine.step(head, place, code, from);
        let cost = machine.cost(next, targets[place as usize]);
        let counted = counted_with(paid, cost, twice, place);
        if counted.saturating_add(rests[place as usize + 1]) < least {
            least = least_from(
                machine,
                head,
                targets,
                rests,
                twice,
                place + 1,
                next,
                counted,
                least,
                nodes,
            );
        }
    }
    least
}
