ghost use Rattle.std.specs.Prelude.{◌≡◌, ◌+◌, ◌-◌, ◌^◌, ◌<◌, ◌≤◌};
ghost use Rattle.loop_fit.specs.Align.{block_loop, frame_loop, loop_length, loop_target, front_of, unroll_of};

use crate::rule::Start;
use adpcm_nums::LoopAt;
use machine_core::Kind;

/// The loop that has to lie on whole blocks.
pub(crate) fn block_loop(kind: Kind, at: Option<LoopAt>) -> Option<LoopAt>
    ensures { result ≡ block_loop kind at }
{
    match kind {
        Kind::Brr => at,
        Kind::Spu => at,
        Kind::Ima => None,
    }
}

/// The loop that stays at its frames.
pub(crate) fn frame_loop(kind: Kind, at: Option<LoopAt>) -> Option<LoopAt>
    ensures { result ≡ frame_loop kind at }
{
    match kind {
        Kind::Brr => None,
        Kind::Spu => None,
        Kind::Ima => at,
    }
}

/// The frames of a loop.
pub(crate) fn loop_length(at: LoopAt) -> u32
    requires ordered { at.start ≤ at.end }
    requires small { at.end < 2 ^ 32 - 1 }
    ensures { result ≡ loop_length at }
{
    at.end - at.start + 1
}

/// The first target of the loop.
pub(crate) fn loop_target(block: u32, at: LoopAt) -> u64
    requires { 0 < block }
    ensures value { result ≡ loop_target block at }
    ensures high { result < at.start + block }
{
    u64::from(at.start).next_multiple_of(u64::from(block))
}

/// The zeros before the sound.
pub(crate) fn front(start: Start, block: u32, at: LoopAt) -> u32
    requires { 0 < block }
    ensures { result ≡ front_of start block at }
{
    match start {
        Start::Front => (loop_target(block, at) - u64::from(at.start)) as u32,
        Start::Rotate => 0,
    }
}

/// The least number of rounds that take whole blocks: as many as a block has samples always do.
pub(crate) fn unrolled(block: u32, len: u32) -> u32
    requires { 0 < block }
    ensures value { result ≡ unroll_of block len }
    ensures high { result ≤ block }
{
    for rounds in 1..block {
        if u64::from(rounds) * u64::from(len) % u64::from(block) == 0 {
            return rounds;
        }
    }
    block
}
