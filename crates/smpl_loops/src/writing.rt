ghost use Rattle.std.specs.Prelude.{◌≡◌, ◌<◌};
ghost use Rattle.smpl_loops.specs.Sampler.{sampler_of};

use adpcm_nums::LoopAt;
use byteorder::{ByteOrder, LittleEndian};

/// The body of a `smpl` chunk with one loop, for a sound of this rate in frames per second.
///
/// The loop runs forward without end. The fields are those of the RIFF WAVE sampler chunk, and what stands
/// in them this project's own choice: the time of a frame in whole nanoseconds, 60, which is middle C, for
/// the unity note, and 0 for what is not known.
#[tactic(auto, unfolding(crate::specs::Sampler::sampler_of))]
pub fn sampler_body(rate: u32, at: LoopAt) -> [u8; 60]
    requires { 0 < rate }
    ensures { result ≡ sampler_of rate at }
{
    let period = 1_000_000_000 / rate;
    let fields = [
        0, 0, period, 60, 0, 0, 0, 1, 0, 0, 0, at.start, at.end, 0, 0,
    ];
    let mut body = [0; 60];
    LittleEndian::write_u32_into(&fields, &mut body);
    body
}
