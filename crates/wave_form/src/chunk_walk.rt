ghost use Rattle.std.specs.Prelude.{◌≡◌, ◌≤◌, ◌+◌, [], ◌∷◌, length, false, is_some, IfOk};
ghost use Rattle.wave_form.specs.Heads.{head_at, heads_of, place_after};
ghost use Rattle.wave_form.specs.Walk.{chunks_of, first_of, head_fault, first_fault, unless, walk_of, AllLieIn};

use crate::chunks::Chunks;
use crate::fault::WaveFault;
use byteorder::{ByteOrder, LittleEndian};

/// Where the bodies of a WAVE file's chunks lie (RIFF WAVE). Nothing is copied.
///
/// The chunks may stand in any order, and others among them are passed over. The size in the file's head is
/// not looked at, a rest of fewer than 8 bytes is no chunk, and the last pad byte may be missing (this
/// project's own choice, as many writers leave files so).
///
/// # Errors
/// `NotRiff` and `NotWave`, and then at each chunk in order `Streaming`, `Truncated` and `DataTwice`.
#[tactic(auto, unfolding(crate::specs::Walk::walk_of))]
pub fn walk(bytes: &[u8]) -> Result<Chunks, WaveFault>
    // The chunks, or the first fault.
    ensures exact { result ≡ walk_of bytes.now }
    // The bodies lie in the file.
    ensures within { IfOk result (λ chunks. AllLieIn (length bytes.now) chunks) }
{
    if bytes.len() < 4 || &bytes[..4] != b"RIFF".as_slice() {
        return Err(WaveFault::NotRiff);
    }
    if bytes.len() < 12 || &bytes[8..12] != b"WAVE".as_slice() {
        return Err(WaveFault::NotWave);
    }
    walk_chunks(bytes)
}

// The chunks from place 12 on.
fn walk_chunks(file: &[u8]) -> Result<Chunks, WaveFault>
    requires { 12 ≤ length file.now }
    ensures exact { result ≡ unless (first_fault (length file.now) false (heads_of file.now)) (chunks_of (heads_of file.now)) }
    ensures within { IfOk result (λ chunks. AllLieIn (length file.now) chunks) }
{
    let mut seen = Chunks::none();
    let mut at = 12;
    while at + 8 <= file.len() {
        let (more, next) = walk_chunk(file, at, seen)?;
        seen = more;
        at = next;
    }
    Ok(seen)
}

// The chunks seen so far with the one at a place, and the place after it.
#[tactic(auto, unfolding(crate::specs::Walk::head_fault))]
fn walk_chunk(file: &[u8], at: usize, seen: Chunks) -> Result<(Chunks, usize), WaveFault>
    requires { at + 8 ≤ length file.now }
    ensures { let head = head_at file.now at in
        result ≡ unless (head_fault (length file.now) (is_some seen.pcm) head) (first_of seen (chunks_of (head ∷ [])), place_after head) }
{
    let (id, size) = read_head(file, at);
    let is_data = id == b"data".as_slice();
    let data_before = seen.pcm.is_some();
    if is_data && size == 0xFFFF_FFFF {
        return Err(WaveFault::Streaming);
    }
    let end = at + 8 + size as usize;
    if file.len() < end {
        return Err(WaveFault::Truncated { at: at as u64 });
    }
    if is_data && data_before {
        return Err(WaveFault::DataTwice);
    }
    let chunk = Chunks::one(id, at as u64, size);
    Ok((seen.or(chunk), end + size as usize % 2))
}

// The id and the size of the chunk whose head stands at a place.
fn read_head(file: &[u8], at: usize) -> (&[u8], u32)
    requires { at + 8 ≤ length file.now }
    ensures id { result.0.now ≡ (head_at file.now at).id }
    ensures size { result.1 ≡ (head_at file.now at).size }
{
    let (_, rest) = file.split_at(at);
    (&rest[..4], LittleEndian::read_u32(&rest[4..]))
}
