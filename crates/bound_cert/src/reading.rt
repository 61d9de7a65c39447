ghost use Rattle.std.specs.Prelude.{◌≡◌, ◌≤◌, ◌<◌, ◌+◌, ◌^◌, length, None, IfOk};
ghost use Rattle.bound_cert.specs.Grammar.{cell_of, head_of, front_of, file_of};
ghost use Rattle.bound_cert.specs.Scan.{cells_scan, layer_scan, layers_scan, segment_scan, segments_scan, read_scan};

use crate::fault::CertFault;
use crate::fields::{cell_in, key_in, u16_in, u32_in, u64_in};
use crate::ranges::{
    cell_is_fit, cell_is_next, is_level_number, key_is_fit, key_is_next, number_of,
};
use crate::shape::{CertShape, Limits};
use box_layers::Key;
use machine_core::{Cell, Kind};

#[tactic(auto, unfolding(crate::specs::Grammar::cell_of))]
fn cell_read(limits: Limits, bytes: &[u8], at: usize, last: Option<Cell>) -> Result<Cell, CertFault>
    requires { at < 2 ^ 40 }
    ensures exact { result ≡ cell_of limits bytes.now at last }
    ensures within { IfOk result (λ _. at + 12 ≤ length bytes.now) }
{
    if bytes.len() < at + 2 {
        return Err(CertFault::Short { at: at as u64 });
    }
    if bytes.len() < at + 4 {
        return Err(CertFault::Short { at: at as u64 + 2 });
    }
    if bytes.len() < at + 12 {
        return Err(CertFault::Short { at: at as u64 + 4 });
    }
    let cell = cell_in(bytes, at);
    let value = u64_in(bytes, at + 4);
    if !(cell_is_fit(limits.kind, limits.level, cell) && value < 1152921504606846976) {
        return Err(CertFault::CellRange { at: at as u64 });
    }
    if !cell_is_next(last, cell) {
        return Err(CertFault::CellOrder { at: at as u64 });
    }
    Ok(cell)
}

// The cells of a layer: the place after them.
fn cells_read(limits: Limits, bytes: &[u8], start: usize, count: u32) -> Result<usize, CertFault>
    requires small { length bytes.now < 2 ^ 31 }
    requires start { start ≤ length bytes.now }
    ensures exact { result ≡ cells_scan limits bytes.now start count None }
    ensures within { IfOk result (λ end. end ≤ length bytes.now) }
{
    let mut at = start;
    let mut last = None;
    for _i in 0..count {
        match cell_read(limits, bytes, at, last) {
            Ok(cell) => {
                last = Some(cell);
                at += 12;
            }
            Err(fault) => return Err(fault),
        }
    }
    Ok(at)
}

#[tactic(auto, unfolding(crate::specs::Grammar::head_of))]
fn head_read(limits: Limits, bytes: &[u8], at: usize, last: Option<Key>) -> Result<Key, CertFault>
    requires { at < 2 ^ 40 }
    ensures exact { result ≡ head_of limits bytes.now at last }
    ensures within { IfOk result (λ _. at + 10 ≤ length bytes.now) }
{
    if bytes.len() < at + 2 {
        return Err(CertFault::Short { at: at as u64 });
    }
    if bytes.len() < at + 4 {
        return Err(CertFault::Short { at: at as u64 + 2 });
    }
    if bytes.len() < at + 6 {
        return Err(CertFault::Short { at: at as u64 + 4 });
    }
    if bytes.len() < at + 10 {
        return Err(CertFault::Short { at: at as u64 + 6 });
    }
    let key = key_in(bytes, at);
    if !key_is_fit(limits, key) || u32_in(bytes, at + 6) == 0 {
        return Err(CertFault::LayerRange { at: at as u64 });
    }
    if !key_is_next(last, key) {
        return Err(CertFault::LayerOrder { at: at as u64 });
    }
    Ok(key)
}

// A layer: its key, and the place after it.
#[tactic(auto, unfolding(crate::specs::Scan::layer_scan))]
fn layer_read(
    limits: Limits,
    bytes: &[u8],
    at: usize,
    last: Option<Key>,
) -> Result<(Key, usize), CertFault>
    requires small { length bytes.now < 2 ^ 31 }
    requires at { at ≤ length bytes.now }
    ensures exact { result ≡ layer_scan limits bytes.now at last }
    ensures within { IfOk result (λ r. r.1 ≤ length bytes.now) }
{
    match head_read(limits, bytes, at, last) {
        Ok(key) => match cells_read(limits, bytes, at + 10, u32_in(bytes, at + 6)) {
            Ok(end) => Ok((key, end)),
            Err(fault) => Err(fault),
        },
        Err(fault) => Err(fault),
    }
}

// The layers of a segment: the place after them.
fn layers_read(limits: Limits, bytes: &[u8], start: usize, count: u32) -> Result<usize, CertFault>
    requires small { length bytes.now < 2 ^ 31 }
    requires start { start ≤ length bytes.now }
    ensures exact { result ≡ layers_scan limits bytes.now start count None }
    ensures within { IfOk result (λ end. end ≤ length bytes.now) }
{
    let mut at = start;
    let mut last = None;
    for _i in 0..count {
        match layer_read(limits, bytes, at, last) {
            Ok((key, end)) => {
                last = Some(key);
                at = end;
            }
            Err(fault) => return Err(fault),
        }
    }
    Ok(at)
}

#[tactic(auto, unfolding(crate::specs::Grammar::front_of))]
fn front_read(blocks: u32, bytes: &[u8], at: usize) -> Result<u32, CertFault>
    requires { at < 2 ^ 40 }
    ensures exact { result ≡ front_of blocks bytes.now at }
    ensures within { IfOk result (λ _. at + 16 ≤ length bytes.now) }
{
    if bytes.len() < at + 2 {
        return Err(CertFault::Short { at: at as u64 });
    }
    let have = u16_in(bytes, at);
    if have != blocks {
        return Err(CertFault::ShapeDiffers {
            have: u64::from(have),
            need: u64::from(blocks),
        });
    }
    if bytes.len() < at + 3 {
        return Err(CertFault::Short { at: at as u64 + 2 });
    }
    let level = u32::from(bytes[at + 2]);
    if !is_level_number(level) {
        return Err(CertFault::BadLevel {
            level: u64::from(level),
        });
    }
    if bytes.len() < at + 4 {
        return Err(CertFault::Short { at: at as u64 + 3 });
    }
    if bytes[at + 3] != 0 {
        return Err(CertFault::BadZero { at: at as u64 + 3 });
    }
    if bytes.len() < at + 12 {
        return Err(CertFault::Short { at: at as u64 + 4 });
    }
    if bytes.len() < at + 16 {
        return Err(CertFault::Short { at: at as u64 + 12 });
    }
    if level == 255 && u32_in(bytes, at + 12) != 0 {
        return Err(CertFault::LayerRange { at: at as u64 + 12 });
    }
    Ok(level)
}

#[tactic(auto, unfolding(crate::specs::Scan::segment_scan))]
fn segment_read(
    kind: Kind,
    samples: u32,
    blocks: u32,
    bytes: &[u8],
    at: usize,
) -> Result<usize, CertFault>
    requires small { length bytes.now < 2 ^ 31 }
    requires at { at ≤ length bytes.now }
    ensures exact { result ≡ segment_scan kind samples blocks bytes.now at }
    ensures within { IfOk result (λ end. end ≤ length bytes.now) }
{
    match front_read(blocks, bytes, at) {
        Ok(level) => {
            let limits = Limits {
                kind,
                samples,
                blocks,
                level,
            };
            layers_read(limits, bytes, at + 16, u32_in(bytes, at + 12))
        }
        Err(fault) => Err(fault),
    }
}

// The segments of a certificate: the place after them, which is the end.
fn segments_read(
    kind: Kind,
    samples: u32,
    segments: &[u32],
    bytes: &[u8],
    start: usize,
) -> Result<usize, CertFault>
    requires small { length bytes.now < 2 ^ 31 }
    requires start { start ≤ length bytes.now }
    ensures { result ≡ segments_scan kind samples segments.now bytes.now start }
{
    let mut at = start;
    for &blocks in segments {
        match segment_read(kind, samples, blocks, bytes, at) {
            Ok(end) => at = end,
            Err(fault) => return Err(fault),
        }
    }
    if at < bytes.len() {
        return Err(CertFault::Trailing { at: at as u64 });
    }
    Ok(at)
}

#[tactic(auto, unfolding(crate::specs::Grammar::file_of))]
fn file_read(kind: Kind, count: usize, bytes: &[u8]) -> Result<usize, CertFault>
    ensures exact { result ≡ file_of kind count bytes.now }
    ensures within { IfOk result (λ _. 8 ≤ length bytes.now) }
{
    if bytes.len() < 4 || &bytes[..4] != b"ADBC".as_slice() {
        return Err(CertFault::BadMagic);
    }
    if bytes.len() < 5 {
        return Err(CertFault::Short { at: 4 });
    }
    if bytes[4] != 1 {
        return Err(CertFault::BadVersion {
            version: u64::from(bytes[4]),
        });
    }
    if bytes.len() < 6 {
        return Err(CertFault::Short { at: 5 });
    }
    let have = u32::from(bytes[5]);
    let need = number_of(kind);
    if have != need {
        return Err(CertFault::ShapeDiffers {
            have: u64::from(have),
            need: u64::from(need),
        });
    }
    if bytes.len() < 8 {
        return Err(CertFault::Short { at: 6 });
    }
    let have = u16_in(bytes, 6) as usize;
    if have != count {
        return Err(CertFault::ShapeDiffers {
            have: have as u64,
            need: count as u64,
        });
    }
    Ok(count)
}

/// Whether the bytes are a certificate of this shape, or the first fault.
#[tactic(auto, unfolding(crate::specs::Scan::read_scan))]
pub fn whole_read(bytes: &[u8], shape: &CertShape<'_>) -> Result<usize, CertFault>
    requires { length bytes.now < 2 ^ 31 }
    ensures { result ≡ read_scan shape.now.kind shape.now.block_samples shape.now.segments.now bytes.now }
{
    match file_read(shape.kind, shape.segments.len(), bytes) {
        Ok(_) => segments_read(shape.kind, shape.block_samples, shape.segments, bytes, 8),
        Err(fault) => Err(fault),
    }
}
