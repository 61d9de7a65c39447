ghost use Rattle.std.specs.Prelude.{◌≡◌, ◌≤◌, ◌<◌, ◌+◌, ◌^◌, ◌≤ℤ◌, pos, negsuc, length};
ghost use Rattle.bound_cert.specs.Places.{u16_at, i16_at, u32_at, u64_at, cell_at, value_at, key_at};

use box_layers::{CellValue, Key};
use byteorder::{ByteOrder, LittleEndian};
use machine_core::Cell;

/// The number of two bytes at a place, low byte first. The bytes must reach that far; nothing is refused (this project's own file).
#[tactic(auto, unfolding(crate::specs::Places::u16_at))]
pub fn u16_in(bytes: &[u8], at: usize) -> u32
    requires { at + 2 ≤ length bytes.now }
    ensures value { result ≡ u16_at bytes.now at }
    ensures small { result < 65536 }
{
    u32::from(LittleEndian::read_u16(&bytes[at..]))
}

/// The signed number of two bytes at a place, low byte first.
#[tactic(auto, unfolding(crate::specs::Places::i16_at))]
pub fn i16_in(bytes: &[u8], at: usize) -> i32
    requires { at + 2 ≤ length bytes.now }
    ensures value { result ≡ i16_at bytes.now at }
    ensures low { negsuc 32767 ≤ℤ result }
    ensures high { result ≤ℤ pos 32767 }
{
    i32::from(LittleEndian::read_i16(&bytes[at..]))
}

/// The number of four bytes at a place, low byte first.
#[tactic(auto, unfolding(crate::specs::Places::u32_at))]
pub fn u32_in(bytes: &[u8], at: usize) -> u32
    requires { at + 4 ≤ length bytes.now }
    ensures { result ≡ u32_at bytes.now at }
{
    LittleEndian::read_u32(&bytes[at..])
}

/// The number of eight bytes at a place, low byte first.
#[tactic(auto, unfolding(crate::specs::Places::u64_at))]
pub fn u64_in(bytes: &[u8], at: usize) -> u64
    requires { at + 8 ≤ length bytes.now }
    ensures { result ≡ u64_at bytes.now at }
{
    LittleEndian::read_u64(&bytes[at..])
}

/// The cell whose two numbers, two bytes each, stand at a place.
pub fn cell_in(bytes: &[u8], at: usize) -> Cell
    requires { at + 4 ≤ length bytes.now }
    ensures { result ≡ cell_at bytes.now at }
{
    Cell {
        a: i16_in(bytes, at),
        b: i16_in(bytes, at + 2),
    }
}

/// The cell at a place with its value, in squared 16-bit steps: twelve bytes.
pub fn value_in(bytes: &[u8], at: usize) -> CellValue
    requires { at + 12 ≤ length bytes.now }
    ensures { result ≡ value_at bytes.now at }
{
    CellValue {
        cell: cell_in(bytes, at),
        value: u64_in(bytes, at + 4),
    }
}

/// The key of the layer at a place: block, place and lane, two bytes each.
pub fn key_in(bytes: &[u8], at: usize) -> Key
    requires { at + 6 ≤ length bytes.now }
    ensures { result ≡ key_at bytes.now at }
{
    Key {
        block: u16_in(bytes, at),
        place: u16_in(bytes, at + 2),
        lane: u16_in(bytes, at + 4),
    }
}
