ghost use Rattle.std.specs.Prelude.{◌≡◌, ◌<◌, ℤ, pos, negsuc, ◌≤ℤ◌, IsTrue};
ghost use Rattle.machine_core.specs.Decoder.{Forgets};
ghost use Rattle.brr_machine.specs.Brr.{brr, raw_of, output_of, is_brr_state};

use crate::filter::predict;
use crate::sample::sample;
use adpcm_nums::{clamp16, wrap15};
use machine_core::State;

/// What comes before the output is clamped to 16 bits and wrapped to 15.
#[tactic(auto, unfolding(crate::specs::Brr::raw_of))]
pub(crate) fn raw(head: u32, code: u32, o: i32, r: i32) -> i64
    requires head { head < 64 }
    requires code { code < 16 }
    requires o_low { negsuc 16383 ≤ℤ o }
    requires o_high { o ≤ℤ pos 16383 }
    requires r_low { negsuc 16383 ≤ℤ r }
    requires r_high { r ≤ℤ pos 16383 }
    ensures { result ≡ raw_of head code o r }
{
    sample(head / 4, code) + predict(head % 4, o, r)
}

/// The output of a code from a state: clamped to 16 bits, then wrapped to 15 (fullsnes, BRR samples).
///
/// `head` is four times the shift, plus the filter. The state after it is this output and `from.a`.
#[tactic(auto, unfolding(crate::specs::Brr::output_of))]
pub fn brr_output(head: u32, code: u32, from: State) -> i32
    requires head { head < 64 }
    requires code { code < 16 }
    requires state { IsTrue (is_brr_state from) }
    ensures value { result ≡ output_of head code from.a from.b }
    ensures low { negsuc 16383 ≤ℤ result }
    ensures high { result ≤ℤ pos 16383 }
{
    wrap15(clamp16(raw(head, code, from.a, from.b)))
}

/// Under a head of filter 0 neither the outputs of a block nor the state after it depend on the state before it.
pub fn brr_forgets()
    ensures { Forgets brr }
{}
