ghost use Rattle.std.specs.Prelude.{◌≡◌, ◌+◌, ◌*◌, ◌^◌, ◌<◌, ◌≤◌, IsTrue, IfSome, length};
ghost use Rattle.adpcm_nums.specs.First.{first_where};
ghost use Rattle.adpcm_nums.specs.Sample.{AreSamples};
ghost use Rattle.machine_core.specs.Blocks.{IsInRange, must_forget, step_at};
ghost use Rattle.machine_core.specs.Decoder.{miss};
ghost use Rattle.machine_core.specs.Sums.{sum_of};
ghost use Rattle.player_model.specs.Stored.{blocks_in};
ghost use Rattle.bank_check.specs.Shape.{is_unruled};

use crate::fields::Fields;
use machine_core::{State, rule_for};

/// The state after sample `i` of the blocks that stand in a memory from an address on.
fn step_in<C: Fields>(
    codec: &C,
    memory: &[u8],
    start: u32,
    blocks: u32,
    i: u32,
    from: State,
) -> State
    requires within { start + (C.format codec.now).size * blocks ≤ length memory.now }
    requires small { length memory.now < 2 ^ 31 }
    requires in_range { IsInRange (C.rules codec.now).decoder blocks (blocks_in (C.rules codec.now).decoder (C.format codec.now) memory.now start blocks) }
    requires i { i < blocks * (C.rules codec.now).decoder.samples }
    requires from { IsTrue ((C.rules codec.now).decoder.is_state from) }
    ensures value { result ≡ step_at (C.rules codec.now).decoder (blocks_in (C.rules codec.now).decoder (C.format codec.now) memory.now start blocks) i from }
    ensures fits { IsTrue ((C.rules codec.now).decoder.is_state result) }
{
    let samples = codec.block_samples();
    let address = start as usize + codec.block_size() as usize * (i / samples) as usize;
    let place = i % samples;
    let head = codec.head_at(memory, address);
    let symbol = codec.symbol_at(memory, address, place);
    codec.step(head, place, symbol, from)
}

/// What sample `i` costs, from the state after it.
fn cost_at<C: Fields>(codec: &C, targets: &[i32], i: usize, at: State) -> u64
    requires i { i < length targets.now }
    requires range { AreSamples targets.now }
    requires at { IsTrue ((C.rules codec.now).decoder.is_state at) }
    ensures { result ≡ miss (C.rules codec.now).decoder targets.now i at }
{
    codec.cost(at, targets[i])
}

/// The exact error of the blocks that stand in a memory from an address on, in squared 16-bit steps.
pub(crate) fn stored_error<C: Fields>(
    codec: &C,
    memory: &[u8],
    start: u32,
    blocks: u32,
    targets: &[i32],
) -> u64
    requires within { start + (C.format codec.now).size * blocks ≤ length memory.now }
    requires small { length memory.now < 2 ^ 31 }
    requires in_range { IsInRange (C.rules codec.now).decoder blocks (blocks_in (C.rules codec.now).decoder (C.format codec.now) memory.now start blocks) }
    requires count { length targets.now ≡ blocks * (C.rules codec.now).decoder.samples }
    requires few { length targets.now ≤ 262144 }
    requires range { AreSamples targets.now }
    ensures { result ≡ sum_of (C.rules codec.now).decoder (blocks_in (C.rules codec.now).decoder (C.format codec.now) memory.now start blocks) targets.now blocks }
{
    let mut sum = 0;
    let mut state = State { a: 0, b: 0 };
    for i in 0..targets.len() {
        state = step_in(codec, memory, start, blocks, i as u32, state);
        sum += cost_at(codec, targets, i, state);
    }
    sum
}

/// Whether the block at an address has a head that a rule does not allow.
fn is_unruled_at<C: Fields>(
    codec: &C,
    memory: &[u8],
    start: u32,
    blocks: u32,
    loop_block: Option<u32>,
    b: u32,
) -> bool
    requires within { start + (C.format codec.now).size * blocks ≤ length memory.now }
    requires small { length memory.now < 2 ^ 31 }
    requires in_range { IsInRange (C.rules codec.now).decoder blocks (blocks_in (C.rules codec.now).decoder (C.format codec.now) memory.now start blocks) }
    requires b { b < blocks }
    ensures { result ≡ is_unruled (C.rules codec.now).decoder (must_forget (C.rules codec.now).kind loop_block) (blocks_in (C.rules codec.now).decoder (C.format codec.now) memory.now start blocks) b }
{
    let address = start as usize + codec.block_size() as usize * b as usize;
    let rule = rule_for(codec.kind(), loop_block, b);
    !codec.allows(codec.head_at(memory, address), rule)
}

/// The first of the blocks that must forget what was played before it and has a head that does not.
#[tactic(auto, using(adpcm_nums::proofs::FirstLaws::none_at_zero, adpcm_nums::proofs::FirstLaws::none_more, adpcm_nums::proofs::FirstLaws::first_found))]
pub(crate) fn first_unruled<C: Fields>(
    codec: &C,
    memory: &[u8],
    start: u32,
    blocks: u32,
    loop_block: Option<u32>,
) -> Option<u32>
    requires within { start + (C.format codec.now).size * blocks ≤ length memory.now }
    requires small { length memory.now < 2 ^ 31 }
    requires in_range { IsInRange (C.rules codec.now).decoder blocks (blocks_in (C.rules codec.now).decoder (C.format codec.now) memory.now start blocks) }
    ensures { result ≡ first_where (is_unruled (C.rules codec.now).decoder (must_forget (C.rules codec.now).kind loop_block) (blocks_in (C.rules codec.now).decoder (C.format codec.now) memory.now start blocks)) blocks }
{
    for b in 0..blocks {
        if is_unruled_at(codec, memory, start, blocks, loop_block, b) {
            return Some(b);
        }
    }
    None
}
