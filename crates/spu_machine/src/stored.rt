ghost use Rattle.std.specs.Prelude.{◌≡◌, ◌+◌, ◌<◌, ◌≤◌, length};
ghost use Rattle.spu_machine.specs.Spelling.{head_in, flags_in, code_in};

use adpcm_nums::nibble_at;

/// The head of the block that stands at an address, in bytes: bits 6 to 0 of its first byte (PSX-SPX, SPU ADPCM samples).
///
/// It is the shift, plus sixteen times the filter; from 80 on it is no head of the decoder.
pub fn head_at(memory: &[u8], address: usize) -> u32
    requires { address + 16 ≤ length memory.now }
    ensures value { result ≡ head_in memory.now address }
    ensures range { result < 128 }
{
    u32::from(memory[address]) % 128
}

/// Its flags: bits 2 to 0 of its second byte.
pub fn flags_at(memory: &[u8], address: usize) -> u8
    requires { address + 16 ≤ length memory.now }
    ensures value { result ≡ flags_in memory.now address }
    ensures range { result < 8 }
{
    memory[address + 1] % 8
}

/// Its code at a place from 0 to 27: two codes a byte, the earlier one in the low half.
pub fn code_at(memory: &[u8], address: usize, place: usize) -> u8
    requires memory { address + 16 ≤ length memory.now }
    requires place { place < 28 }
    ensures value { result ≡ code_in memory.now address place }
    ensures range { result < 16 }
{
    nibble_at(memory, address + 2, place)
}
