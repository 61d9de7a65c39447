ghost use Rattle.std.specs.Prelude.{◌≡◌, ◌<◌, ℤ, pos, negsuc, ◌≤ℤ◌};
ghost use Rattle.brr_machine.specs.Brr.{sample_of};

use adpcm_nums::{floor_shift, nibble_value};

/// What a code stands for under a shift (fullsnes, BRR samples). From shift 13 on only its sign counts, which is this
/// project's own choice.
#[tactic(auto, unfolding(crate::specs::Brr::sample_of))]
fn shifted(shift: u32, code: u32) -> i64
    requires shift { shift < 16 }
    requires code { code < 16 }
    ensures { result ≡ sample_of shift code }
{
    if shift < 13 {
        floor_shift(nibble_value(code) * (1i64 << shift), 1)
    } else if code < 8 {
        0
    } else {
        -2048
    }
}

/// The same, with what is known of its size.
#[tactic(auto, using(crate::specs::Laws::Samples::sample_low, crate::specs::Laws::Samples::sample_high))]
pub(crate) fn sample(shift: u32, code: u32) -> i64
    requires shift { shift < 16 }
    requires code { code < 16 }
    ensures value { result ≡ sample_of shift code }
    ensures low { negsuc 16383 ≤ℤ result }
    ensures high { result ≤ℤ pos 16383 }
{
    shifted(shift, code)
}
