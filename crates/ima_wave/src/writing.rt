ghost use Rattle.std.specs.Prelude.{◌≡◌, ◌≤◌, ◌<◌, ◌+◌, ◌*◌, ◌/◌, ◌%◌, ◌++◌, ◌^◌, ℕ, length, flat_map, OnOk, IfOk};
ghost use Rattle.wave_form.specs.Riff.{chunk_bytes};
ghost use Rattle.ima_machine.specs.Ima.{samples_in};
ghost use Rattle.ima_wave.specs.Files.{IsImaFile};
ghost use Rattle.ima_wave.specs.Written.{layout_body, fmt_chunk, fact_chunk, data_chunk, loop_chunks, ima_file};

use crate::file::ImaFile;
use adpcm_nums::{Bytes, LoopAt, NoMemory};
use smpl_loops::sampler_body;
use std::alloc::{AllocError, Global};
use wave_form::{put_chunk, put_chunk_head, put_riff_head, put_u16, put_u32};

/// How many bytes a second are heard, on average.
fn bytes_per_second(rate: u32, align: u32) -> u32
    requires rate { rate ≤ 1000000 }
    requires some { 8 ≤ align }
    requires few { align ≤ 1024 }
    ensures { result ≡ rate * align / samples_in align }
{
    rate * align / (2 * (align - 4) + 1)
}

/// Appends how blocks of so many bytes are laid out.
#[tactic(auto, unfolding(crate::specs::Written::layout_body))]
fn put_layout(out: &mut Vec<u8>, align: u32) -> Result<(), AllocError>
    requires some { 8 ≤ align }
    requires few { align ≤ 1024 }
    ensures { OnOk result (out.new.items ≡ out.old.items ++ layout_body align) }
{
    put_u16(out, align as u16)?;
    put_u16(out, 4)?;
    put_u16(out, 2)?;
    put_u16(out, (2 * (align - 4) + 1) as u16)
}

/// Appends the `fmt ` chunk.
fn put_fmt(out: &mut Vec<u8>, rate: u32, align: u32) -> Result<(), AllocError>
    requires rate { rate ≤ 1000000 }
    requires some { 8 ≤ align }
    requires few { align ≤ 1024 }
    ensures { OnOk result (out.new.items ≡ out.old.items ++ chunk_bytes (fmt_chunk rate align)) }
{
    put_chunk_head(out, b"fmt ", 20)?;
    put_u16(out, 17)?;
    put_u16(out, 1)?;
    put_u32(out, rate)?;
    put_u32(out, bytes_per_second(rate, align))?;
    put_layout(out, align)?;
    Ok(())
}

/// Appends the chunk of the frames.
#[tactic(auto, unfolding(wave_form::specs::Riff::chunk_bytes))]
fn put_fact(out: &mut Vec<u8>, frames: u32) -> Result<(), AllocError>
    ensures { OnOk result (out.new.items ≡ out.old.items ++ chunk_bytes (fact_chunk frames)) }
{
    put_chunk_head(out, b"fact", 4)?;
    put_u32(out, frames)
}

/// Appends the chunk of a loop, where there is one.
fn put_loop(out: &mut Vec<u8>, rate: u32, at: Option<LoopAt>) -> Result<(), AllocError>
    requires { 1 ≤ rate }
    ensures { OnOk result (out.new.items ≡ out.old.items ++ flat_map chunk_bytes (loop_chunks rate at)) }
{
    match at {
        Some(at) => put_chunk(out, b"smpl", &sampler_body(rate, at)),
        None => Ok(()),
    }
}

/// The bytes of the chunk of a loop.
fn loop_size(at: Option<LoopAt>) -> u32
    ensures value { (rate : ℕ) → result ≡ length (flat_map chunk_bytes (loop_chunks rate at)) }
    ensures small { result ≤ 68 }
{
    match at {
        Some(_) => 68,
        None => 0,
    }
}

/// The bytes of the chunks of a file with so many bytes of blocks.
fn chunks_size(len: u32, at: Option<LoopAt>) -> u32
    requires { len < 2 ^ 30 }
    ensures value { (rate : ℕ) → result ≡ 48 + (len + len % 2) + length (flat_map chunk_bytes (loop_chunks rate at)) }
    ensures small { result < 2 ^ 31 }
{
    48 + (len + len % 2) + loop_size(at)
}

/// The bytes of a file.
fn file_bytes(alloc: Global, file: &ImaFile) -> Result<Vec<u8>, AllocError>
    requires file { IsImaFile file.now }
    requires small { length file.now.blocks < 2 ^ 30 }
    ensures { IfOk result (λ bytes. bytes.items ≡ ima_file file.now) }
{
    let blocks = file.blocks.as_slice();
    let size = chunks_size(blocks.len() as u32, file.at);
    let mut out = Vec::with_capacity(alloc, 12 + size as usize)?;
    put_riff_head(&mut out, size)?;
    put_fmt(&mut out, file.rate, file.align)?;
    put_fact(&mut out, file.frames)?;
    put_chunk(&mut out, b"data", blocks)?;
    put_loop(&mut out, file.rate, file.at)?;
    Ok(out)
}

/// Writes a WAVE file of IMA ADPCM: a `fmt ` chunk of 20 bytes, the frames in `fact`, the blocks in `data`, and where there is
/// a loop a `smpl` of 60 bytes (IMA recommended practices, 1992; RIFF WAVE). It is written once, into memory that is taken once.
///
/// The bytes per second are rounded down. The blocks have fewer than 2^30 bytes.
///
/// # Errors
/// Want of memory alone.
pub fn write_ima(alloc: Global, file: &ImaFile) -> Result<Bytes, NoMemory>
    requires file { IsImaFile file.now }
    requires small { length file.now.blocks < 2 ^ 30 }
    ensures { IfOk result (λ bytes. bytes ≡ ima_file file.now) }
{
    match file_bytes(alloc, file) {
        Ok(bytes) => Ok(Bytes::from_vec(bytes)),
        Err(_) => Err(NoMemory),
    }
}
