ghost use Rattle.std.specs.Prelude.{◌≡◌, ◌<◌, ℕ, List, length, All};
ghost use Rattle.brr_machine.specs.Spelling.{spelling};

use crate::stored::{code_at, flags_at, head_at};

/// One block: a header and sixteen 4-bit codes (fullsnes, BRR samples).
#[derive(Clone, Copy, Debug, PartialEq, Eq)]
pub struct BrrBlock {
    /// Four times the shift, plus the filter: bits 7 to 2 of the header.
    pub head: u32,
    /// Bit 0 ends the sample, bit 1 repeats it: bits 1 and 0 of the header.
    pub flags: u8,
    /// One code a sample.
    pub codes: [u8; 16],
    ghost head_in_range: { head < 64 },
    ghost flags_in_range: { flags < 4 },
    ghost codes_in_range: { All (λ c. c < 16) codes },
}

/// The nine bytes of a block (fullsnes, BRR samples): the header, then two codes a byte, the earlier one in the high
/// half.
pub fn spell_block(block: &BrrBlock) -> [u8; 9]
    ensures { result ≡ spelling block.now.head block.now.flags block.now.codes }
{
    let mut bytes = [0u8; 9];
    bytes[0] = (4 * block.head) as u8 + block.flags;
    for i in 0..8 {
        bytes[i + 1] = 16 * block.codes[2 * i] + block.codes[2 * i + 1];
    }
    bytes
}

/// The block that nine bytes spell: each nine bytes spell exactly one (fullsnes, BRR samples).
pub fn read_block(bytes: &[u8; 9]) -> BrrBlock
    ensures spelled { bytes.now ≡ spelling result.head result.flags result.codes }
    // Whatever fields in range spell these bytes are the fields of the block.
    ensures only { (head flags : ℕ) (codes : List ℕ) → flags < 4 → length codes ≡ 16 → All (λ c. c < 16) codes → bytes.now ≡ spelling head flags codes → (result.head ≡ head) × (result.flags ≡ flags) × (result.codes ≡ codes) }
{
    let mut codes = [0u8; 16];
    for place in 0..16 {
        codes[place] = code_at(bytes, 0, place);
    }
    BrrBlock {
        head: head_at(bytes, 0),
        flags: flags_at(bytes, 0),
        codes,
    }
}
