ghost use Rattle.std.specs.Prelude.{◌≡◌, pos, negsuc, ◌*ℤ◌, ◌-ℤ◌};
ghost use Rattle.adpcm_nums.specs.Sample.{IsSample};

use crate::steps::level_of;
use window_floor::Quantizer;

/// The least prediction that the highest level brings to the upper end of 16 bits.
pub(crate) fn upper_reach(levels: Quantizer) -> i32
    ensures value { result ≡ pos 32767 -ℤ levels.step *ℤ levels.high }
    ensures range { IsSample result }
{
    (32767 - level_of(levels.step, levels.high)) as i32
}

/// The greatest prediction that the lowest level brings to their lower end.
pub(crate) fn lower_reach(levels: Quantizer) -> i32
    ensures value { result ≡ negsuc 32767 -ℤ levels.step *ℤ levels.low }
    ensures range { IsSample result }
{
    (-32768 - level_of(levels.step, levels.low)) as i32
}
