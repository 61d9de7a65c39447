ghost use Rattle.std.specs.Prelude.{◌≡◌, ◌^◌, ◌≤◌, ◌<◌, ℤ, pos, negsuc, ◌≤ℤ◌, ◌*ℤ◌, ◌-ℤ◌, ◌+ℤ◌};
ghost use Rattle.adpcm_nums.specs.Nums.{square_of};
ghost use Rattle.adpcm_nums.specs.Sample.{IsSample};
ghost use Rattle.brr_machine.specs.Brr.{sample_of};
ghost use Rattle.brr_machine.specs.Predicted.{predicted_output, predicted_cost, nearest_predicted};

use crate::plain::{is_plain, nearest_plain};
use crate::sample::sample;
use adpcm_nums::{clamp16, square, wrap15};
use linear_machine::{CodeCosts, least_of_all};

/// How far twice an output is from a target, squared.
pub(crate) fn output_cost(output: i32, target: i32) -> u64
    requires low { negsuc 16383 ≤ℤ output }
    requires high { output ≤ℤ pos 16383 }
    requires target { IsSample target }
    ensures value { result ≡ square_of (pos 2 *ℤ output -ℤ target) }
    ensures bound { result ≤ 2 ^ 32 }
{
    square(2 * i64::from(output) - i64::from(target))
}

/// The codes of a shift on top of a prediction, which are to come near a target.
#[derive(Clone, Copy)]
pub(crate) struct Codes {
    /// The shift.
    pub shift: u32,
    /// What the filter predicts.
    pub prediction: i64,
    /// The target, a sample of 16 bits.
    pub target: i32,
    ghost shift_in_range: { shift < 16 },
    ghost prediction_low: { negsuc 1000000 ≤ℤ prediction },
    ghost prediction_high: { prediction ≤ℤ pos 1000000 },
    ghost target_is: { IsSample target },
}

impl Codes {
    /// What comes before the output of a code is clamped and wrapped.
    fn raw(self, code: u32) -> i64
        requires { code < 16 }
        ensures { result ≡ sample_of self.shift code +ℤ self.prediction }
    {
        sample(self.shift, code) + self.prediction
    }

    /// The output of a code.
    #[tactic(auto, unfolding(crate::specs::Predicted::predicted_output))]
    pub(crate) fn output(self, code: u32) -> i32
        requires { code < 16 }
        ensures value { result ≡ predicted_output self.shift self.prediction code }
        ensures low { negsuc 16383 ≤ℤ result }
        ensures high { result ≤ℤ pos 16383 }
    {
        wrap15(clamp16(self.raw(code)))
    }

    /// The first code of least cost.
    #[tactic(auto, unfolding(crate::specs::Predicted::nearest_predicted))]
    pub(crate) fn nearest(self) -> u32
        ensures value { result ≡ nearest_predicted self.shift self.prediction self.target }
        ensures range { result < 16 }
    {
        if is_plain(self) {
            nearest_plain(self)
        } else {
            least_of_all(&self)
        }
    }
}

impl CodeCosts for Codes {
    ghost cost = { λ c. predicted_cost c.shift c.prediction c.target };

    #[tactic(auto, unfolding(crate::specs::Predicted::predicted_cost))]
    fn cost(&self, code: u32) -> u64
        requires { code < 16 }
        ensures value { result ≡ predicted_cost self.now.shift self.now.prediction self.now.target code }
        ensures bound { result ≤ 2 ^ 32 }
    {
        output_cost(self.output(code), self.target)
    }
}
