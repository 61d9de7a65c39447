ghost use Rattle.std.specs.Prelude.{◌≡◌, ◌⊎◌, ◌≤◌, ◌^◌, ℤ, pos, negsuc, ◌≤ℤ◌, ◌*ℤ◌, ◌-ℤ◌, unsigned_abs};
ghost use Rattle.adpcm_nums.specs.Nums.{floor_of};
ghost use Rattle.adpcm_nums.specs.Nearest.{within_of, nearest_of, distance_of};

use crate::arithmetic::floor_shift;

/// The number of `lo..=hi` that is nearest to `x`.
fn within(lo: i64, hi: i64, x: i64) -> i64
    ensures { result ≡ within_of lo hi x }
{
    x.min(hi).max(lo)
}

/// `scale * y`, for a scale of 1 or 2.
pub fn multiple(scale: i64, y: i64) -> i64
    requires scale { (scale ≡ pos 1) ⊎ (scale ≡ pos 2) }
    requires low { negsuc (2 ^ 40) ≤ℤ y }
    requires high { y ≤ℤ pos (2 ^ 40) }
    ensures value { result ≡ scale *ℤ y }
    ensures low { negsuc (2 ^ 42) ≤ℤ result }
    ensures high { result ≤ℤ pos (2 ^ 42) }
{
    if scale == 1 { y } else { 2 * y }
}

/// `target / scale`, rounded toward minus infinity.
#[tactic(auto, using(crate::proofs::NearestLaws::floored_one))]
fn floored(target: i64, scale: i64) -> i64
    requires { (scale ≡ pos 1) ⊎ (scale ≡ pos 2) }
    ensures { result ≡ floor_of target (unsigned_abs scale) }
{
    if scale == 1 {
        target
    } else {
        floor_shift(target, 1)
    }
}

/// The number of `lo..=hi` whose multiple by the scale, which is 1 or 2, comes nearest to the target.
fn nearest(lo: i64, hi: i64, scale: i64, target: i64) -> i64
    requires scale { (scale ≡ pos 1) ⊎ (scale ≡ pos 2) }
    requires order { lo ≤ℤ hi }
    ensures value { result ≡ nearest_of lo hi scale target }
    ensures low { lo ≤ℤ result }
    ensures high { result ≤ℤ hi }
{
    within(lo, hi, floored(target, scale))
}

/// The least `|scale*y - target|` over the numbers y of `lo..=hi`, for a scale of 1 or 2.
pub fn distance_in(lo: i64, hi: i64, scale: i64, target: i64) -> u64
    requires scale { (scale ≡ pos 1) ⊎ (scale ≡ pos 2) }
    requires order { lo ≤ℤ hi }
    requires low { negsuc (2 ^ 40) ≤ℤ lo }
    requires high { hi ≤ℤ pos (2 ^ 40) }
    requires target_low { negsuc (2 ^ 40) ≤ℤ target }
    requires target_high { target ≤ℤ pos (2 ^ 40) }
    ensures value { result ≡ distance_of lo hi scale target }
    ensures least { (y : ℤ) → lo ≤ℤ y → y ≤ℤ hi → result ≤ unsigned_abs (scale *ℤ y -ℤ target) }
    ensures reached { (y : ℤ) × (lo ≤ℤ y) × (y ≤ℤ hi) × (result ≡ unsigned_abs (scale *ℤ y -ℤ target)) }
{
    (multiple(scale, nearest(lo, hi, scale, target)) - target).unsigned_abs()
}
