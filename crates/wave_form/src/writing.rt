ghost use Rattle.std.specs.Prelude.{◌≡◌, ◌≤◌, ◌<◌, ◌+◌, ◌*◌, ◌++◌, ◌^◌, length, flat_map, OnOk, IfOk};
ghost use Rattle.adpcm_nums.specs.Sample.{IsSample, AreSamples};
ghost use Rattle.wave_form.specs.Riff.{riff_head, chunk_bytes};
ghost use Rattle.wave_form.specs.Written.{fmt_chunk, data_chunk, sound_chunks, sample_bytes, wave_file, wave_loop_file};

use crate::riff::{put_chunk, put_chunk_head, put_riff_head, put_u16, put_u32};
use adpcm_nums::{Bytes, LoopAt, NoMemory};
use byteorder::{ByteOrder, LittleEndian};
use smpl_loops::sampler_body;
use std::alloc::{AllocError, Global};

/// The WAVE file of a sound of one channel, in 16 bits and at this rate in frames per second.
///
/// The file has a `fmt ` chunk of 16 bytes and a `data` chunk, and nothing else (RIFF WAVE). It is written once,
/// into memory that is taken once.
///
/// # Errors
/// Want of memory alone.
pub fn write_wave(alloc: Global, rate: u32, samples: &[i32]) -> Result<Bytes, NoMemory>
    requires some_rate { 1 ≤ rate }
    requires low_rate { rate ≤ 1000000 }
    requires count { length samples.now ≤ 2 ^ 24 }
    requires range { AreSamples samples.now }
    ensures value { IfOk result (λ file. file ≡ wave_file rate samples.now) }
    ensures size { IfOk result (λ file. length file ≡ 44 + 2 * length samples.now) }
{
    match sound_file(alloc, rate, samples, 0) {
        Ok(file) => Ok(Bytes::from_vec(file)),
        Err(_) => Err(NoMemory),
    }
}

/// The WAVE file of a sound with a loop: that of [`write_wave`], with a `smpl` chunk of 60 bytes at its end.
///
/// # Errors
/// Want of memory alone.
pub fn write_wave_loop(
    alloc: Global,
    rate: u32,
    samples: &[i32],
    at: LoopAt,
) -> Result<Bytes, NoMemory>
    requires some_rate { 1 ≤ rate }
    requires low_rate { rate ≤ 1000000 }
    requires count { length samples.now ≤ 2 ^ 24 }
    requires range { AreSamples samples.now }
    requires forward { at.start ≤ at.end }
    requires inside { at.end < length samples.now }
    ensures value { IfOk result (λ file. file ≡ wave_loop_file rate samples.now at) }
    ensures size { IfOk result (λ file. length file ≡ 112 + 2 * length samples.now) }
{
    match loop_file(alloc, rate, samples, at) {
        Ok(file) => Ok(Bytes::from_vec(file)),
        Err(_) => Err(NoMemory),
    }
}

// A sound's file and the chunk of its loop.
fn loop_file(alloc: Global, rate: u32, samples: &[i32], at: LoopAt) -> Result<Vec<u8>, AllocError>
    requires some_rate { 1 ≤ rate }
    requires low_rate { rate ≤ 1000000 }
    requires count { length samples.now ≤ 2 ^ 24 }
    requires range { AreSamples samples.now }
    ensures { IfOk result (λ file. file.items ≡ wave_loop_file rate samples.now at) }
{
    let mut out = sound_file(alloc, rate, samples, 68)?;
    put_chunk(&mut out, b"smpl", &sampler_body(rate, at))?;
    Ok(out)
}

// A sound's file, of which `more` bytes of chunks are still to be written.
fn sound_file(alloc: Global, rate: u32, samples: &[i32], more: u32) -> Result<Vec<u8>, AllocError>
    requires rate { rate ≤ 1000000 }
    requires count { length samples.now ≤ 2 ^ 24 }
    requires range { AreSamples samples.now }
    requires more { more ≤ 68 }
    ensures { IfOk result (λ file. file.items ≡ riff_head (32 + length samples.now * 2 + more) ++ flat_map chunk_bytes (sound_chunks rate samples.now)) }
{
    let size = samples.len() as u32 * 2;
    let mut out = Vec::with_capacity(alloc, 44 + size as usize + more as usize)?;
    put_riff_head(&mut out, 32 + size + more)?;
    put_fmt(&mut out, rate)?;
    put_data(&mut out, samples)?;
    Ok(out)
}

// Appends the `fmt ` chunk of 16 bits in one channel.
#[tactic(auto, unfolding(crate::specs::Riff::chunk_bytes, crate::specs::Written::fmt_body))]
fn put_fmt(out: &mut Vec<u8>, rate: u32) -> Result<(), AllocError>
    requires { rate ≤ 1000000 }
    ensures { OnOk result (out.new.items ≡ out.old.items ++ chunk_bytes (fmt_chunk rate)) }
{
    put_chunk_head(out, b"fmt ", 16)?;
    put_u16(out, 1)?;
    put_u16(out, 1)?;
    put_u32(out, rate)?;
    put_u32(out, rate * 2)?;
    put_u16(out, 2)?;
    put_u16(out, 16)
}

// Appends the `data` chunk, of two bytes a sample.
#[tactic(auto, unfolding(crate::specs::Riff::chunk_bytes))]
fn put_data(out: &mut Vec<u8>, samples: &[i32]) -> Result<(), AllocError>
    requires count { length samples.now ≤ 2 ^ 24 }
    requires range { AreSamples samples.now }
    ensures { OnOk result (out.new.items ≡ out.old.items ++ chunk_bytes (data_chunk samples.now)) }
{
    put_chunk_head(out, b"data", samples.len() as u32 * 2)?;
    for &sample in samples {
        put_sample(out, sample)?;
    }
    Ok(())
}

// Appends a sample as a signed number of two bytes.
fn put_sample(out: &mut Vec<u8>, sample: i32) -> Result<(), AllocError>
    requires { IsSample sample }
    ensures { OnOk result (out.new.items ≡ out.old.items ++ sample_bytes sample) }
{
    let mut bytes = [0; 2];
    LittleEndian::write_i16(&mut bytes, sample as i16);
    out.extend_from_slice(&bytes)
}
