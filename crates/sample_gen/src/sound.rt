ghost use Rattle.std.specs.Prelude.{◌≡◌, [], length, IfOk};
ghost use Rattle.adpcm_nums.specs.Sample.{IsSample, AreSamples};
ghost use Rattle.sample_gen.specs.Walk.{frames_after, frames_of};

use crate::walker::Walker;
use adpcm_nums::{NoMemory, Samples};
use std::alloc::Global;

/// The 1,024 frames that a number gives (this project's own choice).
///
/// # Errors
/// Want of memory alone.
pub fn frames(alloc: Global, number: u32) -> Result<Samples, NoMemory>
    ensures value { IfOk result (λ samples. samples ≡ frames_of number) }
    ensures count { IfOk result (λ samples. length samples ≡ 1024) }
    ensures range { IfOk result (λ samples. AreSamples samples) }
{
    take_frames(alloc, Walker { number, frame: 0 }, 1024)
}

/// The next `count` frames.
pub(crate) fn take_frames(alloc: Global, first: Walker, count: usize) -> Result<Samples, NoMemory>
    requires { IsSample first.frame }
    ensures value { IfOk result (λ samples. samples ≡ frames_after count first) }
    ensures count { IfOk result (λ samples. length samples ≡ count) }
    ensures range { IfOk result (λ samples. AreSamples samples) }
{
    let mut samples = no_samples(alloc, count)?;
    let mut walker = first;
    for _step in 0..count {
        walker = walker.after();
        samples.push(walker.frame)?;
    }
    Ok(samples)
}

// An empty list, with room for so many.
fn no_samples(alloc: Global, count: usize) -> Result<Samples, NoMemory>
    ensures { IfOk result (λ samples. samples ≡ []) }
{
    match Vec::with_capacity(alloc, count) {
        Ok(items) => Ok(Samples::from_vec(items)),
        Err(_) => Err(NoMemory),
    }
}
