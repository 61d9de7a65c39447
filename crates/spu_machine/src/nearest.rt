ghost use Rattle.std.specs.Prelude.{◌≡◌, ◌^◌, ◌≤◌, ◌<◌, ℤ, pos, negsuc, ◌≤ℤ◌, ◌<ℤ◌, ◌*ℤ◌, ◌-ℤ◌, ◌+ℤ◌, ◌-◌, IsTrue};
ghost use Rattle.adpcm_nums.specs.Nums.{floor_of, square_of};
ghost use Rattle.adpcm_nums.specs.Sample.{IsSample};
ghost use Rattle.std.specs.Int.{int_min};
ghost use Rattle.adpcm_nums.specs.Nibbles.{nibble};
ghost use Rattle.adpcm_nums.specs.Nearest.{within_of};
ghost use Rattle.spu_machine.specs.Spu.{sample_of, acting_shift};
ghost use Rattle.spu_machine.specs.Predicted.{predicted_output, predicted_cost, nearest_predicted};

use crate::sample::{acting_shift, sample};
use adpcm_nums::{clamp16, nibbles_around, square};
use linear_machine::{CodeCosts, least_of_all, least_of_two};

/// How far an output is from a target, squared.
pub(crate) fn output_cost(output: i32, target: i32) -> u64
    requires output { IsSample output }
    requires target { IsSample target }
    ensures { result ≡ square_of (pos 1 *ℤ output -ℤ target) }
{
    square(i64::from(output) - i64::from(target))
}

/// The codes of a shift on top of a prediction, which are to come near a target.
#[derive(Clone, Copy)]
pub(crate) struct Codes {
    /// The shift.
    pub shift: u32,
    /// What the filter predicts.
    pub prediction: i64,
    /// The target, a sample of 16 bits.
    pub target: i32,
    ghost prediction_low: { negsuc 16777215 ≤ℤ prediction },
    ghost prediction_high: { prediction ≤ℤ pos 16777215 },
    ghost target_is: { IsSample target },
}

impl Codes {
    /// What comes before the output of a code is clamped.
    fn raw(self, code: u32) -> i64
        requires { code < 16 }
        ensures { result ≡ sample_of self.shift code +ℤ self.prediction }
    {
        sample(self.shift, code) + self.prediction
    }

    /// The output of a code.
    #[tactic(auto, unfolding(crate::specs::Predicted::predicted_output))]
    pub(crate) fn output(self, code: u32) -> i32
        requires { code < 16 }
        ensures value { result ≡ predicted_output self.shift self.prediction code }
        ensures range { IsSample result }
    {
        clamp16(self.raw(code))
    }

    /// The codes on either side of what is left of the target.
    fn around(self) -> (u32, u32)
        ensures below { nibble result.0 ≡ within_of (negsuc 7) (pos 7) (floor_of (self.target -ℤ self.prediction) (2 ^ (12 - acting_shift self.shift))) }
        ensures above { nibble result.1 ≡ int_min (nibble result.0 +ℤ pos 1) (pos 7) }
        ensures below_range { result.0 < 16 }
        ensures above_range { result.1 < 16 }
    {
        nibbles_around(
            12 - acting_shift(self.shift),
            i64::from(self.target) - self.prediction,
        )
    }

    /// Whether the output of a code is above the lowest one, before it is clamped.
    fn is_above_lowest(self, code: u32) -> bool
        requires { code < 16 }
        ensures { IsTrue result → negsuc 32767 <ℤ (sample_of self.shift code +ℤ self.prediction) }
    {
        self.raw(code) > -32768
    }

    /// Whether it is below the highest one.
    fn is_below_highest(self, code: u32) -> bool
        requires { code < 16 }
        ensures { IsTrue result → (sample_of self.shift code +ℤ self.prediction) <ℤ pos 32767 }
    {
        self.raw(code) < 32767
    }

    /// The first code of least cost: one of the two on either side of what is left of the target, where neither is clamped.
    #[tactic(auto, unfolding(crate::specs::Predicted::nearest_predicted))]
    pub(crate) fn nearest(self) -> u32
        ensures value { result ≡ nearest_predicted self.shift self.prediction self.target }
        ensures range { result < 16 }
    {
        let (below, above) = self.around();
        if self.is_above_lowest(below) && self.is_below_highest(above) {
            least_of_two(&self, below, above)
        } else {
            least_of_all(&self)
        }
    }
}

impl CodeCosts for Codes {
    ghost cost = { λ c. predicted_cost c.shift c.prediction c.target };

    #[tactic(auto, unfolding(crate::specs::Predicted::predicted_cost))]
    fn cost(&self, code: u32) -> u64 {
        output_cost(self.output(code), self.target)
    }
}
