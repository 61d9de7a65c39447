ghost use Rattle.std.specs.Prelude.{◌≡◌, ◌⊎◌, ◌^◌, ◌+◌, ℤ, pos, negsuc, ◌*ℤ◌, ◌-ℤ◌, ◌≤ℤ◌};
ghost use Rattle.adpcm_nums.specs.Sample.{IsSample};
ghost use Rattle.window_floor.specs.Miss.{rho_of};
ghost use Rattle.window_floor.specs.Numbers.{row_of};

use window_floor::Window;

/// `x * t`, for a number of a filter and a sample.
pub(crate) fn times(x: i64, t: i32) -> i64
    requires x_low { negsuc (2 ^ 7) ≤ℤ x }
    requires x_high { x ≤ℤ pos (2 ^ 7) }
    requires t { IsSample t }
    ensures value { result ≡ x *ℤ t }
    ensures low { negsuc (2 ^ 22 + 2 ^ 16) ≤ℤ result }
    ensures high { result ≤ℤ pos (2 ^ 22 + 2 ^ 16) }
{
    x * i64::from(t)
}

/// `x - y - z`.
fn less_two(x: i64, y: i64, z: i64) -> i64
    requires x_low { negsuc (2 ^ 22 + 2 ^ 16) ≤ℤ x }
    requires x_high { x ≤ℤ pos (2 ^ 22 + 2 ^ 16) }
    requires y_low { negsuc (2 ^ 22 + 2 ^ 16) ≤ℤ y }
    requires y_high { y ≤ℤ pos (2 ^ 22 + 2 ^ 16) }
    requires z_low { negsuc (2 ^ 22 + 2 ^ 16) ≤ℤ z }
    requires z_high { z ≤ℤ pos (2 ^ 22 + 2 ^ 16) }
    ensures value { result ≡ x -ℤ y -ℤ z }
    ensures low { negsuc (2 ^ 23 + 2 ^ 22 + 2 ^ 18) ≤ℤ result }
    ensures high { result ≤ℤ pos (2 ^ 23 + 2 ^ 22 + 2 ^ 18) }
{
    x - y - z
}

/// What the targets make of a filter's equation: `d * x - ca * o - cb * r`.
pub(crate) fn rho(w: Window, r: i32, o: i32, x: i32) -> i64
    requires r { IsSample r }
    requires o { IsSample o }
    requires x { IsSample x }
    ensures value { result ≡ rho_of (row_of w) r o x }
    ensures low { negsuc (2 ^ 23 + 2 ^ 22 + 2 ^ 18) ≤ℤ result }
    ensures high { result ≤ℤ pos (2 ^ 23 + 2 ^ 22 + 2 ^ 18) }
{
    less_two(times(w.d, x), times(w.ca, o), times(w.cb, r))
}

/// The error of an output against a target.
pub(crate) fn error(scale: i64, y: i32, x: i32) -> i64
    requires scale { (scale ≡ pos 1) ⊎ (scale ≡ pos 2) }
    requires y { IsSample y }
    requires x { IsSample x }
    ensures value { result ≡ scale *ℤ y -ℤ x }
    ensures low { negsuc (2 ^ 17) ≤ℤ result }
    ensures high { result ≤ℤ pos (2 ^ 17) }
{
    if scale == 1 {
        i64::from(y) - i64::from(x)
    } else {
        2 * i64::from(y) - i64::from(x)
    }
}

/// `x * y`, for a number of a filter or a code, and a level less a wrap.
pub(crate) fn scaled(x: i64, y: i64) -> i64
    requires x_low { negsuc (2 ^ 7) ≤ℤ x }
    requires x_high { x ≤ℤ pos (2 ^ 7) }
    requires y_low { negsuc (2 ^ 17) ≤ℤ y }
    requires y_high { y ≤ℤ pos (2 ^ 17) }
    ensures value { result ≡ x *ℤ y }
    ensures low { negsuc (2 ^ 25) ≤ℤ result }
    ensures high { result ≤ℤ pos (2 ^ 25) }
{
    x * y
}

/// `scale * x - rho`, for an end of a row's interval.
pub(crate) fn end_at(scale: i64, x: i64, rho: i64) -> i64
    requires scale { (scale ≡ pos 1) ⊎ (scale ≡ pos 2) }
    requires x_low { negsuc (2 ^ 8) ≤ℤ x }
    requires x_high { x ≤ℤ pos (2 ^ 8) }
    requires rho_low { negsuc (2 ^ 23 + 2 ^ 22 + 2 ^ 18) ≤ℤ rho }
    requires rho_high { rho ≤ℤ pos (2 ^ 23 + 2 ^ 22 + 2 ^ 18) }
    ensures value { result ≡ scale *ℤ x -ℤ rho }
    ensures low { negsuc (2 ^ 24) ≤ℤ result }
    ensures high { result ≤ℤ pos (2 ^ 24) }
{
    if scale == 1 { x - rho } else { 2 * x - rho }
}
