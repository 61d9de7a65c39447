ghost use Rattle.std.specs.Prelude.{◌≡◌, ◌^◌, ◌<◌, ℤ, pos, negsuc, ◌≤ℤ◌, ◌*ℤ◌, ◌-ℤ◌, ◌+ℤ◌, IsTrue};
ghost use Rattle.brr_machine.specs.Predicted.{predicted_cost, nearest_predicted, IsPlain};

use crate::nearest::Codes;
use adpcm_nums::nibbles_around;
use linear_machine::least_of_two;

/// Whether it is plain that no code's output is clamped or wraps.
pub(crate) fn is_plain(codes: Codes) -> bool
    ensures { IsTrue result → IsPlain codes.shift codes.prediction }
{
    if codes.shift == 0 || codes.shift > 11 {
        return false;
    }
    let room = 16384 - 4 * (1i64 << codes.shift);
    -room <= codes.prediction && codes.prediction < room
}

/// What twice a code's sample has to come to.
fn left_of(codes: Codes) -> i64
    ensures { result ≡ codes.target -ℤ pos 2 *ℤ codes.prediction }
{
    i64::from(codes.target) - 2 * codes.prediction
}

/// The first code of least cost, where nothing is clamped and nothing wraps: its value is the quotient of what is left of
/// the target, or one more.
pub(crate) fn nearest_plain(codes: Codes) -> u32
    requires { IsPlain codes.shift codes.prediction }
    ensures value { result ≡ nearest_predicted codes.shift codes.prediction codes.target }
    ensures range { result < 16 }
{
    let (below, above) = nibbles_around(codes.shift, left_of(codes));
    least_of_two(&codes, below, above)
}
