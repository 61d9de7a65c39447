ghost use Rattle.std.specs.Prelude.{◌≡◌, ◌++◌, ◌+◌, ◌*◌, ◌^◌, ◌<◌, ◌≤◌, All, OnOk, IfOk, length, map};
ghost use Rattle.std.specs.List.{flat_map, sum_by};
ghost use Rattle.byteorder.specs.Endian.{little_bytes};
ghost use Rattle.adpcm_nums.specs.Outcome.{Gives};
ghost use Rattle.snes_directory.specs.Part.{IsPart, blocks_of, loop_address};
ghost use Rattle.snes_directory.specs.Spelling.{block_bytes, directory_bytes, entry_bytes, header_bytes, image_file, memory_bytes, rate_bytes, written_image};
ghost use Rattle.snes_directory.specs.declared.fault.LayFault.TheVariants.{NoMemory as OutOfMemory};

use crate::as_part::AsPart;
use crate::fault::LayFault;
use crate::layout::memory_end;
use adpcm_nums::Bytes;
use byteorder::{ByteOrder, LittleEndian};
use std::alloc::{AllocError, Global};

/// Two bytes more, the lowest first.
fn put_u16(out: &mut Vec<u8>, n: u16) -> Result<(), AllocError>
    ensures { OnOk result (out.new.items ≡ out.old.items ++ little_bytes 2 n) }
{
    let mut bytes = [0u8; 2];
    LittleEndian::write_u16(&mut bytes, n);
    out.extend_from_slice(&bytes)
}

/// Four bytes more, the lowest first.
fn put_u32(out: &mut Vec<u8>, n: u32) -> Result<(), AllocError>
    ensures { OnOk result (out.new.items ≡ out.old.items ++ little_bytes 4 n) }
{
    let mut bytes = [0u8; 4];
    LittleEndian::write_u32(&mut bytes, n);
    out.extend_from_slice(&bytes)
}

/// What stands in front of a file.
#[tactic(auto, unfolding(crate::specs::Spelling::header_bytes))]
fn put_header(out: &mut Vec<u8>, base: u32, entries: u16, len: u32) -> Result<(), AllocError>
    ensures { OnOk result (out.new.items ≡ out.old.items ++ header_bytes base entries len) }
{
    out.extend_from_slice(b"SNBI")?;
    put_u16(out, 1)?;
    put_u16(out, entries)?;
    put_u32(out, base)?;
    put_u32(out, len)
}

/// An entry of the directory: the address of a sample's first block, and of the one after its last.
#[tactic(auto, unfolding(crate::specs::Spelling::entry_bytes))]
fn put_entry<P: AsPart>(out: &mut Vec<u8>, start: u32, part: &P) -> Result<(), AllocError>
    requires start { start < 65536 }
    requires again { loop_address start (P.part part.now).loop_block < 65536 }
    ensures { OnOk result (out.new.items ≡ out.old.items ++ entry_bytes start (P.part part.now)) }
{
    let again = match part.loop_block() {
        Some(block) => start + 9 * block,
        None => start,
    };
    put_u16(out, start as u16)?;
    put_u16(out, again as u16)
}

/// The number of all blocks.
fn all_blocks<P: AsPart>(parts: &[P]) -> u64
    requires few { length parts.now ≤ 64 }
    requires parts { All IsPart (map P.part parts.now) }
    ensures value { result ≡ sum_by blocks_of (map P.part parts.now) }
    ensures high { result < 2 ^ 40 }
{
    let mut all = 0u64;
    for part in parts {
        all += part.blocks().len() as u64 / 9;
    }
    all
}

/// The rates of all samples.
fn put_rates<P: AsPart>(out: &mut Vec<u8>, parts: &[P]) -> Result<(), AllocError>
    ensures { OnOk result (out.new.items ≡ out.old.items ++ flat_map rate_bytes (map P.part parts.now)) }
{
    for part in parts {
        put_u32(out, part.rate())?;
    }
    Ok(())
}

/// The directory of samples that lie one behind the other, from the first address on.
fn put_directory<P: AsPart>(out: &mut Vec<u8>, first: u32, parts: &[P]) -> Result<(), AllocError>
    requires parts { All IsPart (map P.part parts.now) }
    requires room { first + length (block_bytes (map P.part parts.now)) ≤ 65536 }
    ensures { OnOk result (out.new.items ≡ out.old.items ++ directory_bytes first (map P.part parts.now)) }
{
    let mut start = first;
    for part in parts {
        put_entry(out, start, part)?;
        start += part.blocks().len() as u32;
    }
    Ok(())
}

/// The blocks of all samples.
fn put_blocks<P: AsPart>(out: &mut Vec<u8>, parts: &[P]) -> Result<(), AllocError>
    ensures { OnOk result (out.new.items ≡ out.old.items ++ block_bytes (map P.part parts.now)) }
{
    for part in parts {
        out.extend_from_slice(part.blocks())?;
    }
    Ok(())
}

/// The bytes of an image whose memory has this length.
#[tactic(auto, unfolding(crate::specs::Spelling::image_file))]
fn put_image<P: AsPart>(
    alloc: Global,
    base: u32,
    len: u32,
    parts: &[P],
) -> Result<Vec<u8>, AllocError>
    requires few { length parts.now ≤ 64 }
    requires parts { All IsPart (map P.part parts.now) }
    requires length { len ≡ length (memory_bytes base (map P.part parts.now)) }
    requires room { base + len ≤ 65536 }
    ensures { IfOk result (λ file. file.items ≡ image_file base (map P.part parts.now)) }
{
    let entries = parts.len() as u32;
    let mut out = Vec::with_capacity(alloc, (16 + 4 * entries + len) as usize)?;
    put_header(&mut out, base, entries as u16, len)?;
    put_rates(&mut out, parts)?;
    put_directory(&mut out, base + 4 * entries, parts)?;
    put_blocks(&mut out, parts)?;
    Ok(out)
}

/// Writes the image file of these samples, which lie behind their directory, in order and with nothing between (the
/// directory and the blocks are the console's, by fullsnes; the file round them is this project's own choice).
///
/// `base` is the address of the directory. The file is refused as `lay_out` refuses its blocks. Each part has whole
/// blocks, the end flag on its last one alone, and a loop block exactly where that one repeats. So a file has at most
/// 65,808 bytes.
#[tactic(auto, unfolding(crate::specs::Spelling::written_image))]
pub fn write_image<P: AsPart>(alloc: Global, base: u32, parts: &[P]) -> Result<Bytes, LayFault>
    requires some { 1 ≤ length parts.now }
    requires few { length parts.now ≤ 64 }
    requires parts { All IsPart (map P.part parts.now) }
    ensures value { Gives OutOfMemory (λ file. file) result (written_image base (map P.part parts.now)) }
    ensures short { IfOk result (λ file. length file ≤ 16 + 4 * 64 + 65536) }
{
    let entries = parts.len() as u32;
    let total = memory_end(base, u64::from(entries), all_blocks(parts))?;
    let len = total as u32 - base;
    let file = put_image(alloc, base, len, parts)?;
    Ok(Bytes::from_vec(file))
}
