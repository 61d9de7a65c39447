ghost use Rattle.std.specs.Prelude.{◌≡◌, ◌⊎◌, ◌↔◌, IsTrue, ℤ, pos, negsuc, ◌+ℤ◌, ◌*ℤ◌, ◌≤ℤ◌, ◌<ℤ◌, ◌≤◌, ◌-ℤ◌, unsigned_abs};
ghost use Rattle.std.specs.Int.{int_min, int_max};
ghost use Rattle.adpcm_nums.specs.Nums.{floor_of};
ghost use Rattle.adpcm_nums.specs.Sample.{IsSample};
ghost use Rattle.adpcm_nums.specs.Ranges.{IsWithin};

use crate::miss::WRAP;
use adpcm_nums::{floor_div, multiple};

/// A uniform quantizer: its levels are `step * n` for each whole n from `low` to `high`, in the steps of a decoder's
/// samples.
#[derive(Clone, Copy, Debug, PartialEq, Eq)]
pub struct Quantizer {
    /// The distance from one level to the next, 1 to 4096.
    pub step: i64,
    /// The number of the lowest level, -8 to 0.
    pub low: i64,
    /// The number of the highest level, 0 to 7.
    pub high: i64,
    ghost step_is: { IsWithin step (pos 1) (pos 4096) },
    ghost low_is: { IsWithin low (negsuc 7) (pos 0) },
    ghost high_is: { IsWithin high (pos 0) (pos 7) },
}

/// `target / unit`, rounded to the nearest number.
fn rounded(target: i32, unit: i64) -> i64
    requires target { IsSample target }
    requires low { pos 1 ≤ℤ unit }
    requires high { unit ≤ℤ pos 8192 }
    ensures { result ≡ floor_of (pos 2 *ℤ target +ℤ unit) (unsigned_abs (pos 2 *ℤ unit)) }
{
    floor_div(2 * i64::from(target) + unit, 2 * unit)
}

impl Quantizer {
    /// The level of a number.
    pub(crate) fn level(self, n: i64) -> i32
        requires low { self.low ≤ℤ n }
        requires high { n ≤ℤ self.high }
        ensures value { result ≡ self.step *ℤ n }
        ensures range { IsSample result }
    {
        (self.step * n) as i32
    }

    /// The number of `low..=high` that is nearest to `n`.
    fn within(self, n: i64) -> i64
        ensures value { result ≡ int_max (int_min n self.high) self.low }
        ensures low { self.low ≤ℤ result }
        ensures high { result ≤ℤ self.high }
    {
        n.min(self.high).max(self.low)
    }

    /// The number of the highest level that is not above `x`, or of the lowest level.
    pub(crate) fn under(self, x: i64) -> i64
        ensures low { self.low ≤ℤ result }
        ensures high { result ≤ℤ self.high }
        ensures below { (result ≡ self.low) ⊎ ((self.step *ℤ result) ≤ℤ x) }
        ensures above { (result ≡ self.high) ⊎ (x <ℤ (self.step *ℤ (result +ℤ pos 1))) }
    {
        self.within(floor_div(x, self.step))
    }

    /// The number after `n`, or the highest.
    pub(crate) fn next(self, n: i64) -> i64
        requires low { self.low ≤ℤ n }
        requires high { n ≤ℤ self.high }
        ensures low { self.low ≤ℤ result }
        ensures high { result ≤ℤ self.high }
        ensures next { (result ≡ n +ℤ pos 1) ⊎ (n ≡ self.high) }
    {
        (n + 1).min(self.high)
    }

    /// The number of the level whose multiple by a scale, which is 1 or 2, comes nearest to a target.
    pub(crate) fn nearest(self, scale: i64, target: i32) -> i64
        requires scale { (scale ≡ pos 1) ⊎ (scale ≡ pos 2) }
        requires target { IsSample target }
        ensures low { self.low ≤ℤ result }
        ensures high { result ≤ℤ self.high }
        ensures nearest { (n : ℤ) → self.low ≤ℤ n → n ≤ℤ self.high
            → unsigned_abs (scale *ℤ (self.step *ℤ result) -ℤ target) ≤ unsigned_abs (scale *ℤ (self.step *ℤ n) -ℤ target) }
    {
        self.within(rounded(target, multiple(scale, self.step)))
    }

    /// Whether the levels span no more than a wrap.
    fn is_narrow(self) -> bool
        ensures { IsTrue result ↔ ((self.step *ℤ self.high) ≤ℤ (self.step *ℤ self.low +ℤ pos 32768)) }
    {
        self.level(self.high) <= self.level(self.low) + WRAP
    }

    /// Whether the lowest level lies between `x` and every level less a wrap.
    pub(crate) fn beats_lower(self, x: i64) -> bool
        ensures { IsTrue result ↔ (((self.step *ℤ self.high) ≤ℤ (self.step *ℤ self.low +ℤ pos 32768)) × ((self.step *ℤ self.low) ≤ℤ x)) }
    {
        self.is_narrow() && i64::from(self.level(self.low)) <= x
    }

    /// Whether the highest level lies between `x` and every level with a wrap added.
    pub(crate) fn beats_upper(self, x: i64) -> bool
        ensures { IsTrue result ↔ (((self.step *ℤ self.high) ≤ℤ (self.step *ℤ self.low +ℤ pos 32768)) × (x <ℤ (self.step *ℤ self.high))) }
    {
        self.is_narrow() && x < i64::from(self.level(self.high))
    }
}
