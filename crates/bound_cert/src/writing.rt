ghost use Rattle.std.specs.Prelude.{◌≡◌, ◌≤◌, ◌<◌, ◌++◌, ◌∷◌, [], ◌^◌, ◌≤ℤ◌, pos, negsuc, length, OnOk, IfOk, ℕ, slice_get, Some};
ghost use Rattle.std.specs.Int.{w16, cast_unsigned};
ghost use Rattle.byteorder.specs.Endian.{little_bytes};
ghost use Rattle.bound_cert.specs.Content.{Layer, Plain};
ghost use Rattle.bound_cert.specs.Small.{SmallCell, SmallCells, SmallLayer, SmallSegment};
ghost use Rattle.bound_cert.specs.Spelling.{cell_bytes, key_bytes, layer_bytes, front_bytes, segment_bytes, cert_bytes};

use crate::parts::{LayerCells, SegmentCert};
use crate::ranges::number_of;
use adpcm_nums::{Bytes, NoMemory};
use box_layers::{CellValue, Key};
use byteorder::{ByteOrder, LittleEndian};
use machine_core::Kind;
use std::alloc::{AllocError, Global};

fn put_u16(out: &mut Vec<u8>, n: u32) -> Result<(), AllocError>
    requires { n < 65536 }
    ensures { OnOk result (out.new.items ≡ out.old.items ++ little_bytes 2 n) }
{
    let mut bytes = [0u8; 2];
    LittleEndian::write_u16(&mut bytes, n as u16);
    out.extend_from_slice(&bytes)
}

fn put_two(out: &mut Vec<u8>, a: u8, b: u8) -> Result<(), AllocError>
    ensures { OnOk result (out.new.items ≡ out.old.items ++ a ∷ b ∷ []) }
{
    out.extend_from_slice(&[a, b])
}

fn put_i16(out: &mut Vec<u8>, z: i32) -> Result<(), AllocError>
    requires low { negsuc 32767 ≤ℤ z }
    requires high { z ≤ℤ pos 32767 }
    ensures { OnOk result (out.new.items ≡ out.old.items ++ little_bytes 2 (cast_unsigned w16 z)) }
{
    let mut bytes = [0u8; 2];
    LittleEndian::write_i16(&mut bytes, z as i16);
    out.extend_from_slice(&bytes)
}

fn put_u32(out: &mut Vec<u8>, n: u32) -> Result<(), AllocError>
    ensures { OnOk result (out.new.items ≡ out.old.items ++ little_bytes 4 n) }
{
    let mut bytes = [0u8; 4];
    LittleEndian::write_u32(&mut bytes, n);
    out.extend_from_slice(&bytes)
}

fn put_u64(out: &mut Vec<u8>, n: u64) -> Result<(), AllocError>
    ensures { OnOk result (out.new.items ≡ out.old.items ++ little_bytes 8 n) }
{
    let mut bytes = [0u8; 8];
    LittleEndian::write_u64(&mut bytes, n);
    out.extend_from_slice(&bytes)
}

#[tactic(auto, unfolding(crate::specs::Spelling::cell_bytes))]
fn put_cell(out: &mut Vec<u8>, x: CellValue) -> Result<(), AllocError>
    requires { SmallCell x }
    ensures { OnOk result (out.new.items ≡ out.old.items ++ cell_bytes x) }
{
    put_i16(out, x.cell.a)?;
    put_i16(out, x.cell.b)?;
    put_u64(out, x.value)?;
    Ok(())
}

#[tactic(auto, unfolding(crate::specs::Spelling::key_bytes))]
fn put_key(out: &mut Vec<u8>, k: Key) -> Result<(), AllocError>
    requires block { k.block < 65536 }
    requires place { k.place < 65536 }
    requires lane { k.lane < 65536 }
    ensures { OnOk result (out.new.items ≡ out.old.items ++ key_bytes k) }
{
    put_u16(out, k.block)?;
    put_u16(out, k.place)?;
    put_u16(out, k.lane)
}

#[tactic(auto, unfolding(crate::specs::Spelling::layer_bytes))]
fn put_layer(out: &mut Vec<u8>, x: &LayerCells) -> Result<(), AllocError>
    requires { SmallLayer x.now }
    ensures { OnOk result (out.new.items ≡ out.old.items ++ layer_bytes x.now) }
{
    let cells = x.cells();
    put_key(out, x.key())?;
    put_u32(out, cells.len() as u32)?;
    for &c in cells {
        put_cell(out, c)?;
    }
    Ok(())
}

#[tactic(auto, unfolding(crate::specs::Spelling::front_bytes))]
fn put_front(
    out: &mut Vec<u8>,
    blocks: u32,
    level: u32,
    bound: u64,
    count: u32,
) -> Result<(), AllocError>
    requires blocks { blocks < 65536 }
    requires level { level < 256 }
    ensures { OnOk result (out.new.items ≡ out.old.items ++ front_bytes blocks level bound count) }
{
    put_u16(out, blocks)?;
    put_two(out, level as u8, 0)?;
    put_u64(out, bound)?;
    put_u32(out, count)
}

#[tactic(auto, unfolding(crate::specs::Spelling::segment_bytes))]
fn put_segment(out: &mut Vec<u8>, x: &SegmentCert) -> Result<(), AllocError>
    requires { SmallSegment x.now }
    ensures { OnOk result (out.new.items ≡ out.old.items ++ segment_bytes x.now) }
{
    let layers = x.layers();
    put_front(out, x.blocks(), x.level(), x.bound(), layers.len() as u32)?;
    for layer in layers {
        put_layer(out, layer)?;
    }
    Ok(())
}

#[tactic(auto, unfolding(crate::specs::Spelling::cert_bytes))]
fn put_all(out: &mut Vec<u8>, kind: Kind, segments: &[SegmentCert]) -> Result<(), AllocError>
    requires count { length segments.now < 65536 }
    requires each { (k : ℕ) (y : Plain) → slice_get segments.now k ≡ Some y → SmallSegment y }
    ensures { OnOk result (out.new.items ≡ out.old.items ++ cert_bytes kind segments.now) }
{
    out.extend_from_slice(b"ADBC")?;
    put_two(out, 1, number_of(kind) as u8)?;
    put_u16(out, segments.len() as u32)?;
    for segment in segments {
        put_segment(out, segment)?;
    }
    Ok(())
}

/// The bytes of a certificate of these segments, in the order of their blocks.
///
/// What the grammar lets stand can be written (`writable_is_small`), and reads back (`written_is_read`).
pub fn write_cert(alloc: Global, kind: Kind, segments: &[SegmentCert]) -> Result<Bytes, NoMemory>
    requires count { length segments.now < 65536 }
    requires each { (k : ℕ) (y : Plain) → slice_get segments.now k ≡ Some y → SmallSegment y }
    ensures { IfOk result (λ b. b ≡ cert_bytes kind segments.now) }
{
    let mut out = Vec::new(alloc);
    match put_all(&mut out, kind, segments) {
        Ok(()) => Ok(Bytes::from_vec(out)),
        Err(_) => Err(NoMemory),
    }
}
