ghost use Rattle.std.specs.Prelude.{◌≡◌, ◌+◌, ◌<◌, ◌≤◌, length};
ghost use Rattle.brr_machine.specs.Spelling.{head_in, flags_in, code_in};

/// The head of the block that stands at an address, in bytes: bits 7 to 2 of its header (fullsnes, BRR samples).
pub fn head_at(memory: &[u8], address: usize) -> u32
    requires { address + 9 ≤ length memory.now }
    ensures value { result ≡ head_in memory.now address }
    ensures range { result < 64 }
{
    u32::from(memory[address]) / 4
}

/// Its flags: bits 1 and 0 of its header.
pub fn flags_at(memory: &[u8], address: usize) -> u8
    requires { address + 9 ≤ length memory.now }
    ensures value { result ≡ flags_in memory.now address }
    ensures range { result < 4 }
{
    memory[address] % 4
}

/// Its code at a place from 0 to 15: two codes a byte, the earlier one in the high half.
pub fn code_at(memory: &[u8], address: usize, place: usize) -> u8
    requires memory { address + 9 ≤ length memory.now }
    requires place { place < 16 }
    ensures value { result ≡ code_in memory.now address place }
    ensures range { result < 16 }
{
    let byte = memory[address + 1 + place / 2];
    if place % 2 == 0 { byte / 16 } else { byte % 16 }
}
