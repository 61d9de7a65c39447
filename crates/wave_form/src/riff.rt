ghost use Rattle.std.specs.Prelude.{◌≡◌, ◌<◌, ◌+◌, ◌++◌, ◌^◌, length, OnOk};
ghost use Rattle.byteorder.specs.Endian.{little_bytes};
ghost use Rattle.wave_form.specs.Riff.{riff_head, chunk_head, chunk_bytes};

use byteorder::{ByteOrder, LittleEndian};
use std::alloc::AllocError;

/// Appends a number of two bytes, the lower one first.
pub fn put_u16(out: &mut Vec<u8>, n: u16) -> Result<(), AllocError>
    ensures { OnOk result (out.new.items ≡ out.old.items ++ little_bytes 2 n) }
{
    let mut bytes = [0; 2];
    LittleEndian::write_u16(&mut bytes, n);
    out.extend_from_slice(&bytes)
}

/// Appends a number of four bytes, the lowest one first.
pub fn put_u32(out: &mut Vec<u8>, n: u32) -> Result<(), AllocError>
    ensures { OnOk result (out.new.items ≡ out.old.items ++ little_bytes 4 n) }
{
    let mut bytes = [0; 4];
    LittleEndian::write_u32(&mut bytes, n);
    out.extend_from_slice(&bytes)
}

/// Appends the twelve bytes before the chunks of a WAVE file; the chunks take `len` bytes.
pub fn put_riff_head(out: &mut Vec<u8>, len: u32) -> Result<(), AllocError>
    requires { 4 + len < 2 ^ 32 }
    ensures { OnOk result (out.new.items ≡ out.old.items ++ riff_head len) }
{
    out.extend_from_slice(b"RIFF")?;
    put_u32(out, 4 + len)?;
    out.extend_from_slice(b"WAVE")
}

/// Appends the head of a chunk: its id, and the size of its body in bytes.
pub fn put_chunk_head(out: &mut Vec<u8>, id: &[u8; 4], size: u32) -> Result<(), AllocError>
    ensures { OnOk result (out.new.items ≡ out.old.items ++ chunk_head id.now size) }
{
    out.extend_from_slice(id)?;
    put_u32(out, size)
}

/// Appends a chunk: its head, its body, and a zero after an odd body.
#[tactic(auto, unfolding(crate::specs::Riff::chunk_bytes))]
pub fn put_chunk(out: &mut Vec<u8>, id: &[u8; 4], body: &[u8]) -> Result<(), AllocError>
    requires { length body.now < 2 ^ 32 }
    ensures { OnOk result (out.new.items ≡ out.old.items ++ chunk_bytes (record { id = id.now; body = body.now })) }
{
    put_chunk_head(out, id, body.len() as u32)?;
    out.extend_from_slice(body)?;
    if body.len() % 2 == 1 {
        out.push(0)?;
    }
    Ok(())
}
