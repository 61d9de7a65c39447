ghost use Rattle.std.specs.Prelude.{◌≡◌, ◌<◌, ◌≤◌, ℕ, List, get_or, length, All, IfOk, IfErr, OnOk, OnErr};
ghost use Rattle.spu_machine.specs.Spelling.{IsSpelled, code_in, filter_in, spelling};

use crate::stored::{code_at, flags_at, head_at};
use thiserror::Error;

/// One block: a head, flags, and 28 4-bit codes (PSX-SPX, SPU ADPCM samples).
#[derive(Clone, Copy, Debug, PartialEq, Eq)]
pub struct SpuBlock {
    /// The shift, plus sixteen times the filter: bits 6 to 0 of the first byte.
    pub head: u32,
    /// Bit 0 ends the sample, bit 1 repeats it, bit 2 is where it goes on: bits 2 to 0 of the second byte.
    pub flags: u8,
    /// One code a sample.
    pub codes: [u8; 28],
    ghost head_in_range: { head < 80 },
    ghost flags_in_range: { flags < 8 },
    ghost codes_in_range: { All (λ c. c < 16) codes },
}

/// There is no filter of this number: there are five, from 0 on.
#[derive(Clone, Copy, Debug, PartialEq, Eq, Error)]
#[error("there is no filter {filter}")]
pub struct BadFilter {
    /// That number, 5 to 7: bits 6 to 4 of the first byte.
    pub filter: u8,
}

/// The sixteen bytes of a block (PSX-SPX, SPU ADPCM samples): the head, the flags, then two codes a byte, the earlier one
/// in the low half. The bits that do not count are 0.
pub fn spell_block(block: &SpuBlock) -> [u8; 16]
    ensures { result ≡ spelling block.now.head block.now.flags block.now.codes }
{
    let mut bytes = [0u8; 16];
    bytes[0] = block.head as u8;
    bytes[1] = block.flags;
    for i in 0..14 {
        bytes[i + 2] = block.codes[2 * i] + 16 * block.codes[2 * i + 1];
    }
    bytes
}

/// The codes of a block that sixteen bytes spell.
fn read_codes(bytes: &[u8; 16]) -> [u8; 28]
    ensures value { (k : ℕ) → k < 28 → get_or result k 0 ≡ code_in bytes.now 0 k }
    ensures range { All (λ c. c < 16) result }
{
    let mut codes = [0u8; 28];
    for place in 0..28 {
        codes[place] = code_at(bytes, 0, place);
    }
    codes
}

/// The block that sixteen bytes spell (PSX-SPX, SPU ADPCM samples). Bit 7 of the first byte and bits 7 to 3 of the second
/// do not count, which is this project's own choice.
///
/// # Errors
/// A filter of 5 to 7.
pub fn read_block(bytes: &[u8; 16]) -> Result<SpuBlock, BadFilter>
    ensures spelled { IfOk result (λ block. IsSpelled block.head block.flags block.codes bytes.now) }
    // Whatever fields they spell are the fields of the block.
    ensures only { IfOk result (λ block. (head flags : ℕ) (codes : List ℕ) → length codes ≡ 28 → All (λ c. c < 16) codes → IsSpelled head flags codes bytes.now → (block.head ≡ head) × (block.flags ≡ flags) × (block.codes ≡ codes)) }
    ensures known { OnOk result (filter_in bytes.now 0 < 5) }
    ensures refused { OnErr result (5 ≤ filter_in bytes.now 0) }
    ensures told { IfErr result (λ fault. fault.filter ≡ filter_in bytes.now 0) }
{
    let head = head_at(bytes, 0);
    if head >= 80 {
        return Err(BadFilter {
            filter: (head / 16) as u8,
        });
    }
    Ok(SpuBlock {
        head,
        flags: flags_at(bytes, 0),
        codes: read_codes(bytes),
    })
}
