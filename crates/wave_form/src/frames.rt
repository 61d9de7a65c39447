ghost use Rattle.std.specs.Prelude.{◌≡◌, ◌≤◌, ◌<◌, ◌+◌, ◌/◌, length, drop, Ok, IfOk};
ghost use Rattle.adpcm_nums.specs.Sample.{IsSample, AreSamples};
ghost use Rattle.adpcm_nums.specs.Outcome.{Gives};
ghost use Rattle.wave_form.specs.declared.fault.WaveFault.TheVariants.{NoMemory};
ghost use Rattle.wave_form.specs.Format.{width_of, FormatFits};
ghost use Rattle.wave_form.specs.Frames.{sample_of, samples_at, channel_samples};

use crate::fault::WaveFault;
use crate::format::{Depth, Format};
use adpcm_nums::Samples;
use byteorder::{ByteOrder, LittleEndian};
use std::alloc::Global;

/// The samples of one channel in all whole frames of a `data` body.
pub(crate) fn read_channel(
    alloc: Global,
    bytes: &[u8],
    format: Format,
    channel: u32,
) -> Result<Samples, WaveFault>
    requires fits { FormatFits format }
    requires below { channel < format.channels }
    ensures exact { Gives NoMemory (λ samples. samples) result (Ok (channel_samples format channel bytes.now)) }
    ensures range { IfOk result AreSamples }
    ensures count { IfOk result (λ samples. length samples ≤ length bytes.now) }
{
    let width = format.depth.width();
    let size = format.channels as usize * width;
    read_samples(alloc, bytes, size, channel as usize * width, format.depth)
}

// The samples that stand `place` bytes into each frame of `size` bytes.
fn read_samples(
    alloc: Global,
    bytes: &[u8],
    size: usize,
    place: usize,
    depth: Depth,
) -> Result<Samples, WaveFault>
    requires { place + width_of depth ≤ size }
    ensures exact { Gives NoMemory (λ samples. samples) result (Ok (samples_at size place depth (length bytes.now / size) bytes.now)) }
    ensures range { IfOk result AreSamples }
    ensures count { IfOk result (λ samples. length samples ≤ length bytes.now) }
{
    let mut samples = Samples::from_vec(Vec::with_capacity(alloc, bytes.len() / size)?);
    for frame in bytes.chunks_exact(size) {
        samples.push(read_sample(frame, place, depth))?;
    }
    Ok(samples)
}

// The sample that stands at a place of a frame.
fn read_sample(frame: &[u8], place: usize, depth: Depth) -> i32
    requires { place + width_of depth ≤ length frame.now }
    ensures value { result ≡ sample_of depth (drop place frame.now) }
    ensures range { IsSample result }
{
    let bytes = &frame[place..];
    match depth {
        Depth::Eight => (i32::from(bytes[0]) - 128) * 256,
        Depth::Sixteen => i32::from(LittleEndian::read_i16(bytes)),
    }
}
