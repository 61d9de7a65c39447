ghost use Rattle.std.specs.Prelude.{◌≡◌, ◌≤◌, ◌<◌, ◌-◌, ◌^◌, ℤ, pos, negsuc, ◌≤ℤ◌, ◌+ℤ◌, ◌-ℤ◌, ◌*ℤ◌, unsigned_abs};
ghost use Rattle.std.specs.Int.{int_min, int_max};
ghost use Rattle.adpcm_nums.specs.Nums.{floor_of, square_of};
ghost use Rattle.adpcm_nums.specs.Sample.{IsSample};
ghost use Rattle.window_floor.specs.Quantizer.{AreLevels};
ghost use Rattle.brr_machine.specs.Floors.{samples_under};

use adpcm_nums::{floor_div, square};
use window_floor::Quantizer;

/// The distance of the levels under a shift that is neither 0 nor above 12.
fn level_step(shift: u32) -> i64
    requires some { 1 ≤ shift }
    requires few { shift < 13 }
    ensures value { result ≡ pos (2 ^ (shift - 1)) }
    ensures low { pos 1 ≤ℤ result }
    ensures high { result ≤ℤ pos 4096 }
{
    1i64 << (shift - 1)
}

/// The levels that the sixteen codes stand for under a shift: at shift 0 two codes stand for each level, and from shift 13
/// on only the sign counts.
#[tactic(auto, using(crate::proofs::LevelLaws::levels_halved, crate::proofs::LevelLaws::levels_multiplied, crate::proofs::LevelLaws::levels_signed))]
pub(crate) fn quantizer(shift: u32) -> Quantizer
    requires { shift < 16 }
    ensures { AreLevels result.step result.low result.high (samples_under shift) }
{
    match shift {
        0 => Quantizer {
            step: 1,
            low: -4,
            high: 3,
        },
        1..=12 => Quantizer {
            step: level_step(shift),
            low: -8,
            high: 7,
        },
        _ => Quantizer {
            step: 2048,
            low: -1,
            high: 0,
        },
    }
}
