ghost use Rattle.std.specs.Prelude.{◌≡◌, ◌⊎◌, ◌≤◌, ◌^◌, ◌↔◌, IsTrue, ℤ, pos, ◌≤ℤ◌, ◌*ℤ◌, ◌-ℤ◌};
ghost use Rattle.adpcm_nums.specs.Nums.{square_of};
ghost use Rattle.adpcm_nums.specs.Sample.{IsSample};
ghost use Rattle.adpcm_nums.specs.Nearest.{distance_sq_of};

use crate::nearest::distance_in;

/// The whole numbers from `lo` to `hi`, both of them in it.
#[derive(Clone, Copy, Debug, PartialEq, Eq)]
pub struct Span {
    /// The least.
    pub lo: i32,
    /// The greatest.
    pub hi: i32,
    ghost order: { lo ≤ℤ hi },
}

impl Span {
    /// The least `(scale*y - target)²` over the numbers y of the span, for a scale of 1 or 2.
    pub fn distance_sq(self, scale: i32, target: i32) -> u64
        requires scale { (scale ≡ pos 1) ⊎ (scale ≡ pos 2) }
        requires lo { IsSample self.lo }
        requires hi { IsSample self.hi }
        requires target { IsSample target }
        ensures value { result ≡ distance_sq_of self.lo self.hi scale target }
        ensures least { (y : ℤ) → self.lo ≤ℤ y → y ≤ℤ self.hi → result ≤ square_of (scale *ℤ y -ℤ target) }
        ensures small { result ≤ 2 ^ 34 }
        ensures reached { (y : ℤ) × (self.lo ≤ℤ y) × (y ≤ℤ self.hi) × (result ≡ square_of (scale *ℤ y -ℤ target)) }
    {
        let distance = distance_in(
            i64::from(self.lo),
            i64::from(self.hi),
            i64::from(scale),
            i64::from(target),
        );
        distance * distance
    }

    /// Whether some number lies in both.
    pub fn meets(self, other: Span) -> bool
        ensures { IsTrue result ↔ ((y : ℤ) × (self.lo ≤ℤ y) × (y ≤ℤ self.hi) × (other.lo ≤ℤ y) × (y ≤ℤ other.hi)) }
    {
        self.lo <= other.hi && other.lo <= self.hi
    }
}

/// The span of 0 alone.
impl Default for Span {
    fn default() -> Span
        ensures lo { result.lo ≡ pos 0 }
        ensures hi { result.hi ≡ pos 0 }
    {
        Span { lo: 0, hi: 0 }
    }
}
