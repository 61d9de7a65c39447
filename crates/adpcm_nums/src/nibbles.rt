ghost use Rattle.std.specs.Prelude.{◌≡◌, ◌⊎◌, ◌+◌, ◌/◌, ◌^◌, ◌<◌, ◌≤◌, ℕ, ℤ, pos, negsuc, ◌+ℤ◌, ◌≤ℤ◌, length};
ghost use Rattle.std.specs.Int.{int_min};
ghost use Rattle.adpcm_nums.specs.Nums.{floor_of};
ghost use Rattle.adpcm_nums.specs.Nearest.{within_of};
ghost use Rattle.adpcm_nums.specs.Picks.{first_of_two};
ghost use Rattle.adpcm_nums.specs.Nibbles.{nibble, nibble_in};

use crate::arithmetic::floor_shift;

/// The signed value of a 4-bit code.
pub fn nibble_value(code: u32) -> i64
    requires { code < 16 }
    ensures value { result ≡ nibble code }
    ensures low { negsuc 7 ≤ℤ result }
    ensures high { result ≤ℤ pos 7 }
{
    if code < 8 {
        i64::from(code)
    } else {
        i64::from(code) - 16
    }
}

/// The code of a signed value.
fn nibble_code(value: i64) -> u32
    requires low { negsuc 7 ≤ℤ value }
    requires high { value ≤ℤ pos 7 }
    ensures value { nibble result ≡ value }
    ensures range { result < 16 }
{
    if value < 0 {
        (value + 16) as u32
    } else {
        value as u32
    }
}

/// The value whose multiple by `2^shift` is the last that is not above `wanted`, or the end of the values.
fn value_below(shift: u32, wanted: i64) -> i64
    requires { shift ≤ 32 }
    ensures value { result ≡ within_of (negsuc 7) (pos 7) (floor_of wanted (2 ^ shift)) }
    ensures low { negsuc 7 ≤ℤ result }
    ensures high { result ≤ℤ pos 7 }
{
    floor_shift(wanted, shift).min(7).max(-8)
}

/// The value after it, or the last value.
fn value_after(value: i64) -> i64
    requires low { negsuc 7 ≤ℤ value }
    requires high { value ≤ℤ pos 7 }
    ensures value { result ≡ int_min (value +ℤ pos 1) (pos 7) }
    ensures low { negsuc 7 ≤ℤ result }
    ensures high { result ≤ℤ pos 7 }
{
    (value + 1).min(7)
}

/// The two codes whose multiples by `2^shift` lie on either side of `wanted`: that of the last value that is not above it,
/// or of an end of the values, and that of the value after it, or of the last.
pub fn nibbles_around(shift: u32, wanted: i64) -> (u32, u32)
    requires { shift ≤ 32 }
    ensures below { nibble result.0 ≡ within_of (negsuc 7) (pos 7) (floor_of wanted (2 ^ shift)) }
    ensures above { nibble result.1 ≡ int_min (nibble result.0 +ℤ pos 1) (pos 7) }
    ensures below_range { result.0 < 16 }
    ensures above_range { result.1 < 16 }
{
    let below = value_below(shift, wanted);
    (nibble_code(below), nibble_code(value_after(below)))
}

/// The one of two numbers that costs less, or the first of them.
pub fn cheaper(a: u32, b: u32, at_a: u64, at_b: u64) -> u32
    ensures value { (f : ℕ → ℕ) → at_a ≡ f a → at_b ≡ f b → result ≡ first_of_two f a b }
    ensures either { (result ≡ a) ⊎ (result ≡ b) }
{
    if at_b < at_a {
        b
    } else if at_a < at_b {
        a
    } else {
        a.min(b)
    }
}

/// The 4-bit code at a place, from 0 on, of those that begin at a byte: two codes a byte, the earlier one in the low half.
pub fn nibble_at(memory: &[u8], begin: usize, place: usize) -> u8
    requires { begin + place / 2 < length memory.now }
    ensures value { result ≡ nibble_in memory.now begin place }
    ensures range { result < 16 }
{
    let byte = memory[begin + place / 2];
    if place % 2 == 0 { byte % 16 } else { byte / 16 }
}
