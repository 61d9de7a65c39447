ghost use Rattle.std.specs.Prelude.{◌≡◌, ◌<◌, IsTrue, IfSome};
ghost use Rattle.adpcm_nums.specs.Sample.{IsSample};

use crate::taken::{cheaper, taken};
use machine_core::{Machine, State, Taken};

/// The code one above another, of codes that count from -8 to 7.
fn above(code: u32) -> Option<u32> {
    if code == 7 {
        None
    } else {
        Some((code % 16 + 1) % 16)
    }
}

/// The code one below another.
fn below(code: u32) -> Option<u32> {
    if code == 8 {
        None
    } else {
        Some((code % 16 + 15) % 16)
    }
}

/// The sample with a code beside the nearest, where there is one and it gives another output.
fn beside<M: Machine>(
    machine: &M,
    head: u32,
    place: u32,
    code: Option<u32>,
    from: State,
    target: i32,
    nearest: Taken,
) -> Option<Taken>
    requires head { head < (M.rules machine.now).decoder.heads }
    requires place { place < (M.rules machine.now).decoder.samples }
    requires from { IsTrue ((M.rules machine.now).decoder.is_state from) }
    requires target { IsSample target }
    ensures { IfSome result (λ t. IsTrue ((M.rules machine.now).decoder.is_state t.state)) }
{
    let code = code?;
    let found = taken(machine, head, place, code, from, target)?;
    if found.state.a == nearest.state.a {
        return None;
    }
    Some(found)
}

/// The cheaper of the samples with the codes beside the nearest, which give other outputs: nothing where none does.
pub(crate) fn next_nearest<M: Machine>(
    machine: &M,
    head: u32,
    place: u32,
    from: State,
    target: i32,
    nearest: Taken,
) -> Option<Taken>
    requires head { head < (M.rules machine.now).decoder.heads }
    requires place { place < (M.rules machine.now).decoder.samples }
    requires from { IsTrue ((M.rules machine.now).decoder.is_state from) }
    requires target { IsSample target }
    ensures { IfSome result (λ t. IsTrue ((M.rules machine.now).decoder.is_state t.state)) }
{
    let up = beside(
        machine,
        head,
        place,
        above(nearest.symbol),
        from,
        target,
        nearest,
    );
    let down = beside(
        machine,
        head,
        place,
        below(nearest.symbol),
        from,
        target,
        nearest,
    );
    cheaper(up, down)
}
