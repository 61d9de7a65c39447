ghost use Rattle.std.specs.Prelude.{◌≡◌, length, IfOk};
ghost use Rattle.sample_gen.specs.Walk.{wave_of};

use crate::sound::frames;
use adpcm_nums::{Bytes, LoopAt, NoMemory};
use std::alloc::Global;
use wave_form::write_wave_loop;

/// The WAVE file of the frames that a number gives: 32,000 of them a second, the second half as the loop.
///
/// # Errors
/// Want of memory alone.
pub fn make_wave(alloc: Global, number: u32) -> Result<Bytes, NoMemory>
    ensures value { IfOk result (λ file. file ≡ wave_of number) }
    ensures size { IfOk result (λ file. length file ≡ 2160) }
{
    let samples = frames(alloc, number)?;
    let second_half = LoopAt {
        start: 512,
        end: 1023,
    };
    write_wave_loop(alloc, 32000, samples.as_slice(), second_half)
}
