ghost use Rattle.std.specs.Prelude.{◌≡◌, ◌≤◌, ◌<◌, ◌-◌, ◌^◌, pos, negsuc, ◌≤ℤ◌};
ghost use Rattle.window_floor.specs.Quantizer.{AreLevels};
ghost use Rattle.spu_machine.specs.Spu.{acting_shift};
ghost use Rattle.spu_machine.specs.Floors.{samples_under};

use crate::sample::acting_shift;
use window_floor::Quantizer;

/// The distance of the levels under a shift that acts as itself.
fn level_step(shift: u32) -> i64
    requires { shift < 13 }
    ensures value { result ≡ pos (2 ^ (12 - shift)) }
    ensures low { pos 1 ≤ℤ result }
    ensures high { result ≤ℤ pos 4096 }
{
    1i64 << (12 - shift)
}

/// The levels that the sixteen codes stand for under a shift: a step for each unit of a code's value.
pub(crate) fn quantizer(shift: u32) -> Quantizer
    requires { shift < 16 }
    ensures { AreLevels result.step result.low result.high (samples_under shift) }
{
    Quantizer {
        step: level_step(acting_shift(shift)),
        low: -8,
        high: 7,
    }
}
