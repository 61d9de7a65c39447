ghost use Rattle.std.specs.Prelude.{◌≡◌, ◌<◌, ℤ, pos, negsuc, ◌≤ℤ◌};
ghost use Rattle.spu_machine.specs.Spu.{acting_shift, sample_of};

use adpcm_nums::{floor_shift, nibble_value};

/// The shift that a shift acts as: itself up to 12, and 9 above, which is this project's own choice.
pub(crate) fn acting_shift(shift: u32) -> u32
    ensures value { result ≡ acting_shift shift }
    ensures small { result < 13 }
{
    if shift < 13 { shift } else { 9 }
}

/// What a code stands for under a shift (PSX-SPX, SPU ADPCM samples).
#[tactic(auto, unfolding(crate::specs::Spu::sample_of), using(adpcm_nums::proofs::FloorBounds::floor_above, adpcm_nums::proofs::FloorBounds::floor_below))]
pub(crate) fn sample(shift: u32, code: u32) -> i64
    requires { code < 16 }
    ensures value { result ≡ sample_of shift code }
    ensures low { negsuc 32767 ≤ℤ result }
    ensures high { result ≤ℤ pos 32767 }
{
    floor_shift(nibble_value(code) * 4096, acting_shift(shift))
}
