ghost use Rattle.std.specs.Prelude.{◌≡◌, ◌+◌, ◌<◌, ◌≤◌, ◌≤ℤ◌, ◌<ℤ◌, ◌-ℤ◌, ◌+ℤ◌, IsTrue, pos, unsigned_abs};
ghost use Rattle.adpcm_nums.specs.Least.{IsFirstLeast, first_least};
ghost use Rattle.adpcm_nums.specs.Sample.{IsSample};
ghost use Rattle.ima_machine.specs.Ima.{is_ima_state};
ghost use Rattle.ima_machine.specs.Steps.{distance_of};
ghost use Rattle.ima_machine.specs.Nearest.{later_cost, miss_away, miss_toward, rising_miss, falling_miss};
ghost use Rattle.ima_machine.specs.Ladder.{IsRaised, IsLastWithin};

use crate::steps::{distance, step_size};
use machine_core::State;

/// A code, or the one that is so much further on, if its distance is still within the gap.
fn raised(step: u32, gap: u32, code: u32, by: u32) -> u32
    requires step { step ≤ 32767 }
    requires code { code + by < 8 }
    ensures value { IsRaised (distance_of step) gap code by result }
    ensures range { result ≤ code + by }
{
    let next = code + by;
    if distance(step, next) <= gap {
        next
    } else {
        code
    }
}

/// The last of the first eight codes whose distance is within the gap, or the first of them.
fn last_within(step: u32, gap: u32) -> u32
    requires { step ≤ 32767 }
    ensures { IsLastWithin (distance_of step) gap result }
{
    let half = raised(step, gap, 0, 4);
    let quarter = raised(step, gap, half, 2);
    raised(step, gap, quarter, 1)
}

/// How far the output of a code toward the target is from it.
fn miss_toward(step: u32, gap: u32, room: u32, code: u32) -> u32
    requires { step ≤ 32767 }
    ensures { result ≡ miss_toward gap room (distance_of step code) }
{
    let distance = distance(step, code);
    gap.saturating_sub(distance) + distance.saturating_sub(gap).min(room)
}

/// How far the output of the code with the least distance away from the target is from it.
fn miss_away(step: u32, gap: u32, room: u32) -> u32
    requires step { step ≤ 32767 }
    requires gap { gap ≤ 65535 }
    ensures { result ≡ miss_away gap room (distance_of step 0) }
{
    (distance(step, 0) + gap).min(room)
}

/// The first of the eight codes toward the target that comes nearest to it.
fn nearest_toward(step: u32, gap: u32, room: u32) -> u32
    requires low { 7 ≤ step }
    requires high { step ≤ 32767 }
    requires gap { gap ≤ 65535 }
    ensures { IsFirstLeast (λ code. miss_toward gap room (distance_of step code)) 8 result }
{
    let code = last_within(step, gap);
    if code < 7 && miss_toward(step, gap, room, code + 1) < miss_toward(step, gap, room, code) {
        code + 1
    } else {
        code
    }
}

/// The code that comes nearest to a target that is not below the output before.
fn nearest_rising(step: u32, gap: u32, above: u32, below: u32) -> u32
    requires low { 7 ≤ step }
    requires high { step ≤ 32767 }
    requires gap { gap ≤ 65535 }
    ensures { IsFirstLeast (rising_miss step gap above below) 16 result }
{
    let code = nearest_toward(step, gap, above);
    if miss_away(step, gap, below) < miss_toward(step, gap, above, code) {
        8
    } else {
        code
    }
}

/// The code that comes nearest to a target that is not above the output before.
fn nearest_falling(step: u32, gap: u32, above: u32, below: u32) -> u32
    requires low { 7 ≤ step }
    requires high { step ≤ 32767 }
    requires gap { gap ≤ 65535 }
    ensures { IsFirstLeast (falling_miss step gap above below) 16 result }
{
    let code = nearest_toward(step, gap, below);
    if miss_toward(step, gap, below, code) < miss_away(step, gap, above) {
        8 + code
    } else {
        0
    }
}

/// How far one sample is above another that is not above it.
fn rise(from: i32, to: i32) -> u32
    requires from { IsSample from }
    requires to { IsSample to }
    requires order { from ≤ℤ to }
    ensures value { result ≡ unsigned_abs (to -ℤ from) }
    ensures small { result ≤ 65535 }
{
    (to - from) as u32
}

/// The first code of least cost.
///
/// Without clamping a code toward the target is never worse than one away from it. Outputs stay in 16 bits, so the code that
/// goes least far away can still be better near an end.
pub(crate) fn nearest_code(from: State, target: i32) -> u32
    requires from { IsTrue (is_ima_state from) }
    requires target { IsSample target }
    ensures value { result ≡ first_least (later_cost from target) 16 }
    ensures range { result < 16 }
{
    let step = step_size(from.b.unsigned_abs());
    let above = rise(target, 32767);
    let below = rise(-32768, target);
    if from.a <= target {
        nearest_rising(step, rise(from.a, target), above, below)
    } else {
        nearest_falling(step, rise(target, from.a), above, below)
    }
}
