ghost use Rattle.std.specs.Prelude.{◌≡◌, ◌<◌, ◌≤◌, ◌^◌, IsTrue, ℤ, pos, negsuc, ◌+ℤ◌, ◌≤ℤ◌, unsigned_abs};
ghost use Rattle.adpcm_nums.specs.Nums.{clamp16_of};
ghost use Rattle.ima_machine.specs.Steps.{difference_of, next_index};
ghost use Rattle.adpcm_nums.specs.Sample.{IsSample};
ghost use Rattle.ima_machine.specs.Ima.{first_state, later_state, is_ima_state};
ghost use Rattle.ima_machine.specs.Spelling.{symbol_of};

use crate::steps::{difference, next_index};
use adpcm_nums::clamp16;
use machine_core::State;

/// The state after a block's first sample: its symbol is the output, counted from the least, and its head the index.
#[tactic(auto, unfolding(crate::specs::Ima::first_state))]
pub(crate) fn first_state(head: u32, symbol: u32) -> State
    requires head { head < 89 }
    requires symbol { symbol < 65536 }
    ensures value { result ≡ first_state head symbol }
    ensures range { IsTrue (is_ima_state result) }
{
    State {
        a: symbol as i32 - 32768,
        b: head as i32,
    }
}

/// The output after a code, before it is clamped.
fn unclamped(code: u32, from: State) -> i64
    requires { IsTrue (is_ima_state from) }
    ensures { result ≡ from.a +ℤ difference_of (unsigned_abs from.b) code }
{
    i64::from(from.a) + difference(from.b.unsigned_abs(), code)
}

/// The output after a code.
pub(crate) fn later_output(code: u32, from: State) -> i32
    requires { IsTrue (is_ima_state from) }
    ensures value { result ≡ clamp16_of (from.a +ℤ difference_of (unsigned_abs from.b) code) }
    ensures low { negsuc 32767 ≤ℤ result }
    ensures high { result ≤ℤ pos 32767 }
{
    clamp16(unclamped(code, from))
}

/// The index after a code.
fn later_index(code: u32, from: State) -> i32
    requires { IsTrue (is_ima_state from) }
    ensures value { result ≡ pos (next_index (unsigned_abs from.b) code) }
    ensures low { pos 0 ≤ℤ result }
    ensures high { result ≤ℤ pos 88 }
{
    next_index(from.b.unsigned_abs(), code) as i32
}

/// The state after a code.
#[tactic(auto, unfolding(crate::specs::Ima::later_state))]
pub(crate) fn later_state(code: u32, from: State) -> State
    requires { IsTrue (is_ima_state from) }
    ensures value { result ≡ later_state code from }
    ensures range { IsTrue (is_ima_state result) }
{
    State {
        a: later_output(code, from),
        b: later_index(code, from),
    }
}

/// The symbol of a target as a block's first output.
pub(crate) fn own_symbol(target: i32) -> u32
    requires { IsSample target }
    ensures value { pos result ≡ target +ℤ pos 32768 }
    ensures symbol { result ≡ symbol_of target }
    ensures range { result < 65536 }
{
    (target + 32768) as u32
}
