ghost use Rattle.std.specs.Prelude.{◌≤◌, length, IfOk};
ghost use Rattle.adpcm_nums.specs.Outcome.{Gives};
ghost use Rattle.adpcm_nums.specs.Sample.{AreSamples};
ghost use Rattle.wave_form.specs.declared.fault.WaveFault.TheVariants.{NoMemory};
ghost use Rattle.wave_form.specs.Reading.{read_of};

use crate::chunk_walk::walk;
use crate::fault::WaveFault;
use crate::format::{Format, choose_channel};
use crate::frames::read_channel;
use crate::wave::Wave;
use adpcm_nums::Bytes;
use std::alloc::Global;

/// Reads one channel of a WAVE file, with its rate and its sampler (RIFF WAVE; tag 1, or tag 0xFFFE with the
/// sub-format of PCM).
///
/// Channels count from 0, and none need be given where there is one. A sample of 8 bits counts from 128 and
/// is widened to 16 (this project's own choice). Bytes after the last whole frame are dropped. Nothing is
/// allocated before the whole of the file's layout has been tested.
///
/// # Errors
/// The first fault, in the order in which [`WaveFault`] lists them; the first three after `NotWave` come at
/// each chunk in turn.
#[tactic(auto, unfolding(crate::specs::Reading::read_of))]
pub fn read_wave(alloc: Global, bytes: &[u8], channel: Option<u32>) -> Result<Wave, WaveFault>
    // The sound, or the first fault, unless there is no memory.
    ensures exact { Gives NoMemory (λ wave. wave) result (read_of bytes.now channel) }
    // What every sound keeps.
    ensures some_rate { IfOk result (λ wave. 1 ≤ wave.rate) }
    ensures low_rate { IfOk result (λ wave. wave.rate ≤ 1000000) }
    ensures range { IfOk result (λ wave. AreSamples wave.samples) }
    ensures count { IfOk result (λ wave. length wave.samples ≤ length bytes.now) }
{
    let chunks = walk(bytes)?;
    let fmt = chunks.fmt.ok_or(WaveFault::NoFmt)?;
    let format = Format::read(fmt.bytes_in(bytes))?;
    let channel = choose_channel(format.channels, channel)?;
    let pcm = chunks.pcm.ok_or(WaveFault::NoData)?;
    let samples = read_channel(alloc, pcm.bytes_in(bytes), format, channel)?;
    let sampler = match chunks.smpl {
        Some(smpl) => Some(Bytes::copy_of(alloc, smpl.bytes_in(bytes))?),
        None => None,
    };
    Ok(Wave {
        rate: format.rate,
        samples,
        sampler,
    })
}
