ghost use Rattle.std.specs.Prelude.{◌≡◌, ◌<◌, ℤ, pos, negsuc, ◌≤ℤ◌, IsTrue};
ghost use Rattle.spu_machine.specs.Spu.{raw_of, output_of, is_spu_state};

use crate::filter::predict;
use crate::sample::sample;
use adpcm_nums::clamp16;
use machine_core::State;

/// What comes before the output is clamped to 16 bits.
#[tactic(auto, unfolding(crate::specs::Spu::raw_of))]
fn raw(head: u32, code: u32, o: i32, r: i32) -> i64
    requires head { head < 80 }
    requires code { code < 16 }
    requires o_low { negsuc 32767 ≤ℤ o }
    requires o_high { o ≤ℤ pos 32767 }
    requires r_low { negsuc 32767 ≤ℤ r }
    requires r_high { r ≤ℤ pos 32767 }
    ensures { result ≡ raw_of head code o r }
{
    sample(head % 16, code) + predict(head / 16, o, r)
}

/// The output of a code from a state, clamped to 16 bits (PSX-SPX, SPU ADPCM samples).
///
/// `head` is the shift, plus sixteen times the filter. The state after it is this output and `from.a`.
#[tactic(auto, unfolding(crate::specs::Spu::output_of))]
pub fn spu_output(head: u32, code: u32, from: State) -> i32
    requires head { head < 80 }
    requires code { code < 16 }
    requires state { IsTrue (is_spu_state from) }
    ensures value { result ≡ output_of head code from.a from.b }
    ensures low { negsuc 32767 ≤ℤ result }
    ensures high { result ≤ℤ pos 32767 }
{
    clamp16(raw(head, code, from.a, from.b))
}
