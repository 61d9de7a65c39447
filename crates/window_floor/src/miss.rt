ghost use Rattle.std.specs.Prelude.{◌≡◌, ◌⊎◌, ◌≤◌, ◌^◌, ℤ, pos, negsuc, ◌≤ℤ◌, ◌*ℤ◌, ◌-ℤ◌, ◌+ℤ◌, unsigned_abs};
ghost use Rattle.adpcm_nums.specs.Sample.{IsSample, AreSamples};
ghost use Rattle.window_floor.specs.Numbers.{row_of};
ghost use Rattle.window_floor.specs.Miss.{rho_of, rounded_miss, wrapped_miss, least_miss};

use crate::window::Window;
use adpcm_nums::distance_in;

/// How far a wrap moves an output.
pub(crate) const WRAP: i32 = 32768;

/// `x * y` of small numbers.
fn times(x: i64, y: i32) -> i64
    requires x { unsigned_abs x ≤ 2 ^ 8 }
    requires y { unsigned_abs y ≤ 2 ^ 17 }
    ensures value { result ≡ x *ℤ y }
    ensures low { negsuc (2 ^ 25) ≤ℤ result }
    ensures high { result ≤ℤ pos (2 ^ 25) }
{
    x * i64::from(y)
}

/// `d * a + bias`.
fn filtered(w: Window, a: i32) -> i64
    requires { unsigned_abs a ≤ 2 ^ 17 }
    ensures value { result ≡ w.d *ℤ a +ℤ w.bias }
    ensures low { negsuc (2 ^ 26) ≤ℤ result }
    ensures high { result ≤ℤ pos (2 ^ 26) }
{
    times(w.d, a) + w.bias
}

/// `scale * value - target`, for a scale of 1 or 2.
pub(crate) fn apart(scale: i64, value: i64, target: i64) -> i64
    requires scale { (scale ≡ pos 1) ⊎ (scale ≡ pos 2) }
    requires value_low { negsuc (2 ^ 27) ≤ℤ value }
    requires value_high { value ≤ℤ pos (2 ^ 27) }
    requires target_low { negsuc (2 ^ 27) ≤ℤ target }
    requires target_high { target ≤ℤ pos (2 ^ 27) }
    ensures value { result ≡ scale *ℤ value -ℤ target }
    ensures low { negsuc (2 ^ 29) ≤ℤ result }
    ensures high { result ≤ℤ pos (2 ^ 29) }
{
    if scale == 1 {
        value - target
    } else {
        2 * value - target
    }
}

/// The least miss over the roundings.
pub(crate) fn at_rounding(w: Window, rho: i64, a: i32) -> u64
    requires rho_low { negsuc (2 ^ 27) ≤ℤ rho }
    requires rho_high { rho ≤ℤ pos (2 ^ 27) }
    requires a { unsigned_abs a ≤ 2 ^ 17 }
    ensures value { result ≡ rounded_miss (row_of w) rho a }
    ensures small { result ≤ 2 ^ 30 }
{
    distance_in(0, w.errs, w.scale, apart(w.scale, filtered(w, a), rho))
}

/// The least miss over the roundings and the wraps.
fn at_wrap(w: Window, rho: i64, sample: i32) -> u64
    requires rho_low { negsuc (2 ^ 27) ≤ℤ rho }
    requires rho_high { rho ≤ℤ pos (2 ^ 27) }
    requires sample { IsSample sample }
    ensures value { result ≡ wrapped_miss (row_of w) rho sample }
    ensures small { result ≤ 2 ^ 30 }
{
    let plain = at_rounding(w, rho, sample);
    if w.wraps {
        at_rounding(w, rho, sample - WRAP).min(plain.min(at_rounding(w, rho, sample + WRAP)))
    } else {
        plain
    }
}

/// The least miss over the roundings, the wraps and the sixteen samples.
pub(crate) fn at_sample(w: Window, rho: i64, samples: &[i32; 16]) -> u64
    requires rho_low { negsuc (2 ^ 27) ≤ℤ rho }
    requires rho_high { rho ≤ℤ pos (2 ^ 27) }
    requires samples { AreSamples samples.now }
    ensures value { result ≡ least_miss (row_of w) rho samples.now }
    ensures small { result ≤ 2 ^ 30 }
{
    let mut least = at_wrap(w, rho, samples[0]);
    for i in 0..15usize {
        least = least.min(at_wrap(w, rho, samples[i + 1]));
    }
    least
}

/// `x - y - z`.
fn less_two(x: i64, y: i64, z: i64) -> i64
    requires x_low { negsuc (2 ^ 25) ≤ℤ x }
    requires x_high { x ≤ℤ pos (2 ^ 25) }
    requires y_low { negsuc (2 ^ 25) ≤ℤ y }
    requires y_high { y ≤ℤ pos (2 ^ 25) }
    requires z_low { negsuc (2 ^ 25) ≤ℤ z }
    requires z_high { z ≤ℤ pos (2 ^ 25) }
    ensures value { result ≡ x -ℤ y -ℤ z }
    ensures low { negsuc (2 ^ 27) ≤ℤ result }
    ensures high { result ≤ℤ pos (2 ^ 27) }
{
    x - y - z
}

/// `d * x - ca * o - cb * r`.
pub(crate) fn rho(w: Window, r: i32, o: i32, x: i32) -> i64
    requires r { IsSample r }
    requires o { IsSample o }
    requires x { IsSample x }
    ensures value { result ≡ rho_of (row_of w) r o x }
    ensures low { negsuc (2 ^ 27) ≤ℤ result }
    ensures high { result ≤ℤ pos (2 ^ 27) }
{
    less_two(times(w.d, x), times(w.ca, o), times(w.cb, r))
}
