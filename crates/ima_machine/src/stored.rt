ghost use Rattle.std.specs.Prelude.{◌≡◌, ◌+◌, ◌/◌, ◌<◌, ◌≤◌, length};
ghost use Rattle.ima_machine.specs.Spelling.{head_in, first_in, code_in};

use adpcm_nums::nibble_at;
use byteorder::{ByteOrder, LittleEndian};

/// The head of the block that stands at an address, in bytes: its third byte (IMA recommended practices, 1992).
///
/// It is the step index that the block begins with; from 89 on it is no head of the decoder.
pub fn head_at(memory: &[u8], address: usize) -> u32
    requires { address + 4 ≤ length memory.now }
    ensures value { result ≡ head_in memory.now address }
    ensures range { result < 256 }
{
    u32::from(memory[address + 2])
}

/// Its first symbol: its first two bytes as a signed number, low byte first, plus 32768.
pub fn first_at(memory: &[u8], address: usize) -> u32
    requires { address + 4 ≤ length memory.now }
    ensures value { result ≡ first_in memory.now address }
    ensures range { result < 65536 }
{
    (u32::from(LittleEndian::read_u16(&memory[address..])) + 32768) % 65536
}

/// Its code number k, from 0 on, of the bytes behind its first four: two codes a byte, the earlier one in the low half.
pub fn code_at(memory: &[u8], address: usize, k: usize) -> u8
    requires { address + 4 + k / 2 < length memory.now }
    ensures value { result ≡ code_in memory.now address k }
    ensures range { result < 16 }
{
    nibble_at(memory, address + 4, k)
}
