ghost use Rattle.std.specs.Prelude.{◌≡◌, ◌≤◌, ◌^◌, pos, get_or};
ghost use Rattle.adpcm_nums.specs.Sample.{IsSample, AreSamples};
ghost use Rattle.window_floor.specs.Numbers.{row_of};
ghost use Rattle.window_floor.specs.Floor.{output_cost, shared_cost, clamped_floor, floor_of_window};

use crate::miss::{apart, at_sample, rho};
use crate::window::Window;
use adpcm_nums::square;

/// How far an output is from a target, squared.
pub(crate) fn cost(w: Window, output: i32, target: i32) -> u64
    requires output { IsSample output }
    requires target { IsSample target }
    ensures value { result ≡ output_cost (row_of w) output target }
    ensures small { result ≤ 2 ^ 34 }
{
    square(apart(w.scale, i64::from(output), i64::from(target)))
}

/// What a miss costs when three places share it as well as they can.
fn shared(w: Window, miss: u64) -> u64
    requires { miss ≤ 2 ^ 30 }
    ensures { result ≡ shared_cost (row_of w) miss }
{
    (miss * miss).div_ceil(w.norm.unsigned_abs())
}

/// The floor that a miss gives, where clamping gives one of two outputs at the last place.
pub(crate) fn floor_at(w: Window, miss: u64, ends: [i32; 2], target: i32) -> u64
    requires miss { miss ≤ 2 ^ 30 }
    requires ends { AreSamples ends }
    requires target { IsSample target }
    ensures value { result ≡ clamped_floor (row_of w) miss (get_or ends 0 (pos 0)) (get_or ends 1 (pos 0)) target }
    ensures small { result ≤ 2 ^ 34 }
{
    let clamped = cost(w, ends[0], target).min(cost(w, ends[1], target));
    shared(w, miss).min(clamped)
}

/// A floor under the squared errors of three places that a filter ties together, whatever came before them, or of two
/// where `w.cb` is 0 (this project's own choice).
///
/// `samples` are what the sixteen codes of the last place stand for, and `ends` are the outputs that clamping may give
/// there. The targets stand in the order of the places; where there are two places the first is 0.
pub fn linear_floor(w: Window, samples: &[i32; 16], ends: [i32; 2], targets: [i32; 3]) -> u64
    requires samples { AreSamples samples.now }
    requires ends { AreSamples ends }
    requires targets { AreSamples targets }
    ensures value { result ≡ floor_of_window (row_of w) samples.now ends targets }
    ensures small { result ≤ 2 ^ 34 }
{
    let rho = rho(w, targets[0], targets[1], targets[2]);
    floor_at(w, at_sample(w, rho, samples), ends, targets[2])
}
