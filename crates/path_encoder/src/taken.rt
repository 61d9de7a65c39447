ghost use Rattle.std.specs.Prelude.{◌≡◌, ◌<◌, Bool, IsTrue, IfSome};
ghost use Rattle.adpcm_nums.specs.Sample.{IsSample};
ghost use Rattle.machine_core.specs.declared.state.State.{State};

use machine_core::{Machine, State, Taken};

/// One sample with a given code: the state after it, and what it costs. There is none where the place has no such code.
pub(crate) fn taken<M: Machine>(
    machine: &M,
    head: u32,
    place: u32,
    code: u32,
    from: State,
    target: i32,
) -> Option<Taken>
    requires head { head < (M.rules machine.now).decoder.heads }
    requires place { place < (M.rules machine.now).decoder.samples }
    requires from { IsTrue ((M.rules machine.now).decoder.is_state from) }
    requires target { IsSample target }
    ensures { IfSome result (λ t. IsTrue ((M.rules machine.now).decoder.is_state t.state)) }
{
    if code >= machine.symbols(place) {
        return None;
    }
    let state = machine.step(head, place, code, from);
    let cost = machine.cost(state, target);
    Some(Taken {
        symbol: code,
        state,
        cost,
    })
}

/// The cheaper of two samples, the first of equal ones.
pub(crate) fn cheaper(first: Option<Taken>, other: Option<Taken>) -> Option<Taken>
    ensures { (fits : State → Bool) → IfSome first (λ t. IsTrue (fits t.state)) → IfSome other (λ t. IsTrue (fits t.state)) → IfSome result (λ t. IsTrue (fits t.state)) }
{
    match (first, other) {
        (Some(a), Some(b)) => Some(if b.cost < a.cost { b } else { a }),
        (Some(a), None) => Some(a),
        (None, other) => other,
    }
}
