ghost use Rattle.std.specs.Prelude.{◌≡◌, ◌⊎◌, ◌≤◌, ◌<◌, ◌+◌, ◌*◌, pos, negsuc, ◌-ℤ◌, ◌*ℤ◌, ◌≤ℤ◌, IsTrue, length, get_or};
ghost use Rattle.adpcm_nums.specs.Nums.{square_of};
ghost use Rattle.adpcm_nums.specs.Sample.{IsSample, AreSamples};
ghost use Rattle.machine_core.specs.Decoder.{cost_of};
ghost use Rattle.strong_bound.specs.Quiet.{tried, far_cost, IsUnderSymbols, IsUnderLast, IsUnderEntry, HoldsRests, IsNear};

use crate::codes::least_from;
use adpcm_nums::{floor_div, multiple};
use linear_machine::LinearMachine;
use machine_core::State;

/// How codes are gone on with from a state.
#[derive(Clone, Copy)]
pub(crate) struct Entry {
    /// The place behind the state's two outputs.
    pub place: u32,
    /// The outputs that would meet their targets.
    pub aim: State,
    /// How often the error of the last output is counted.
    pub last: u64,
    /// How often the error of the output before it is counted.
    pub older: u64,
}

/// No more than what an output costs against a target.
pub(crate) fn missed(scale: i64, output: i32, target: i32) -> u64
    requires { (scale ≡ pos 1) ⊎ (scale ≡ pos 2) }
    ensures { result ≤ square_of (scale *ℤ output -ℤ target) }
{
    let error = multiple(scale, i64::from(output)) - i64::from(target);
    let size = error.unsigned_abs();
    size.saturating_mul(size)
}

/// The first of the outputs that are tried around a target.
fn first_near(scale: i64, target: i32) -> i32
    requires scale { (scale ≡ pos 1) ⊎ (scale ≡ pos 2) }
    requires target { IsSample target }
    ensures { IsNear scale target result }
{
    (floor_div(i64::from(target), scale) - 16) as i32
}

/// The first of the states around one, last output and older output.
fn corner_of(scale: i64, aim: State) -> State
    requires scale { (scale ≡ pos 1) ⊎ (scale ≡ pos 2) }
    requires last { IsSample aim.a }
    requires older { IsSample aim.b }
    ensures last { IsNear scale aim.a result.a }
    ensures older { IsNear scale aim.b result.b }
{
    State {
        a: first_near(scale, aim.a),
        b: first_near(scale, aim.b),
    }
}

/// A bound, at most `top`, under what any codes count from a state, where it is one, with the error of its last output,
/// on top of what was counted before.
fn under_state<M: LinearMachine>(
    machine: &M,
    head: u32,
    targets: &[i32],
    rests: &[u64],
    twice: u32,
    at: State,
    entry: Entry,
    paid: u64,
    nodes: u64,
    top: u64,
) -> u64
    requires head { head < (M.rules machine.now).decoder.heads }
    requires count { length targets.now ≡ (M.rules machine.now).decoder.samples }
    requires targets { AreSamples targets.now }
    requires size { length rests.now ≡ (M.rules machine.now).decoder.samples + 1 }
    requires rests { HoldsRests (M.rules machine.now).decoder targets.now twice head rests.now }
    requires place { entry.place ≤ (M.rules machine.now).decoder.samples }
    requires aim { IsSample entry.aim.a }
    ensures most { result ≤ top }
    ensures under { IsTrue ((M.rules machine.now).decoder.is_state at) → IsUnderSymbols (M.rules machine.now).decoder targets.now twice head entry.place at (paid + entry.last * cost_of (M.rules machine.now).decoder at entry.aim.a) result }
{
    if !machine.is_state(at) {
        return top;
    }
    let cost = machine.cost(at, entry.aim.a);
    let entering = paid.saturating_add(entry.last.saturating_mul(cost));
    if entering.saturating_add(rests[entry.place as usize]) >= top {
        return top;
    }
    let mut left = nodes;
    least_from(
        machine,
        head,
        targets,
        rests,
        twice,
        entry.place,
        at,
        entering,
        top,
        &mut left,
    )
}

/// The same from each of the last outputs around its target, behind one older output. `first` is the first of these states.
fn under_last<M: LinearMachine>(
    machine: &M,
    head: u32,
    targets: &[i32],
    rests: &[u64],
    twice: u32,
    first: State,
    entry: Entry,
    paid: u64,
    nodes: u64,
    top: u64,
) -> u64
    requires head { head < (M.rules machine.now).decoder.heads }
    requires count { length targets.now ≡ (M.rules machine.now).decoder.samples }
    requires targets { AreSamples targets.now }
    requires size { length rests.now ≡ (M.rules machine.now).decoder.samples + 1 }
    requires rests { HoldsRests (M.rules machine.now).decoder targets.now twice head rests.now }
    requires place { entry.place ≤ (M.rules machine.now).decoder.samples }
    requires aim { IsSample entry.aim.a }
    requires low { negsuc 65535 ≤ℤ first.a }
    requires high { first.a ≤ℤ pos 65535 }
    ensures most { result ≤ top }
    ensures under { IsUnderLast (M.rules machine.now).decoder targets.now twice head first entry paid tried result }
{
    if paid.saturating_add(rests[entry.place as usize]) >= top {
        return top;
    }
    let mut least = top;
    for step in 0..33u8 {
        let at = State {
            a: first.a + i32::from(step),
            b: first.b,
        };
        least = under_state(
            machine, head, targets, rests, twice, at, entry, paid, nodes, least,
        );
    }
    least
}

/// A bound, at most `top`, under what any codes count from whatever state, with the errors of its two outputs. States
/// further off come to `top` by their errors and the floors alone.
pub(crate) fn under_states<M: LinearMachine>(
    machine: &M,
    head: u32,
    targets: &[i32],
    rests: &[u64],
    twice: u32,
    scale: i64,
    entry: Entry,
    nodes: u64,
    top: u64,
) -> u64
    requires head { head < (M.rules machine.now).decoder.heads }
    requires count { length targets.now ≡ (M.rules machine.now).decoder.samples }
    requires targets { AreSamples targets.now }
    requires size { length rests.now ≡ (M.rules machine.now).decoder.samples + 1 }
    requires rests { HoldsRests (M.rules machine.now).decoder targets.now twice head rests.now }
    requires scale { (scale ≡ pos 1) ⊎ (scale ≡ pos 2) }
    requires scale_is { scale ≡ pos (M.rules machine.now).decoder.scale }
    requires place { entry.place ≤ (M.rules machine.now).decoder.samples }
    requires last { IsSample entry.aim.a }
    requires older { IsSample entry.aim.b }
    requires counted { 1 ≤ entry.last }
    requires once { 1 ≤ entry.older }
    requires near { top ≤ get_or rests.now entry.place 0 + far_cost scale }
    ensures most { result ≤ top }
    ensures under { IsUnderEntry (M.rules machine.now).decoder entry targets.now twice head result }
{
    let corner = corner_of(scale, entry.aim);
    let mut least = top;
    for step in 0..33u8 {
        let first = State {
            a: corner.a,
            b: corner.b + i32::from(step),
        };
        let error = missed(scale, first.b, entry.aim.b);
        let paid = entry.older.saturating_mul(error);
        least = under_last(
            machine, head, targets, rests, twice, first, entry, paid, nodes, least,
        );
    }
    least
}
