ghost use Rattle.std.specs.Prelude.{◌≡◌, ◌<◌, ◌++◌, [], IsTrue, IfOk, OnOk, map};
ghost use Rattle.std.specs.List.{range_with_len};
ghost use Rattle.beam_encoder.specs.Near.{IsBlock, AreTargets, near_state, near_symbol, near_sum};
ghost use Rattle.beam_encoder.specs.Walk.{AreHeads, walk_list, walk_sum, list_of};

use crate::near::near;
use adpcm_nums::{NoMemory, Words32};
use machine_core::{Choice, Machine, State};
use std::alloc::Global;

/// No numbers yet, with room for so many.
fn with_room(alloc: Global, count: usize) -> Result<Words32, NoMemory>
    ensures { IfOk result (λ words. words ≡ []) }
{
    match Vec::with_capacity(alloc, count) {
        Ok(items) => Ok(Words32::from_vec(items)),
        Err(_) => Err(NoMemory),
    }
}

/// Adds a block's symbols under a head, each the nearest to its target, and gives the state after the block and its cost.
fn push_block<M: Machine>(
    machine: &M,
    head: u32,
    block: &[i32],
    from: State,
    symbols: &mut Words32,
) -> Result<(State, u64), NoMemory>
    requires head { head < (M.rules machine.now).decoder.heads }
    requires block { IsBlock (M.rules machine.now).decoder block.now }
    requires from { IsTrue ((M.rules machine.now).decoder.is_state from) }
    ensures state { IfOk result (λ r. r.0 ≡ near_state (M.rules machine.now).decoder head block.now from (M.rules machine.now).decoder.samples) }
    ensures cost { IfOk result (λ r. r.1 ≡ near_sum (M.rules machine.now).decoder head block.now from (M.rules machine.now).decoder.samples) }
    ensures symbols { OnOk result (symbols.new ≡ symbols.old ++
        map (near_symbol (M.rules machine.now).decoder head block.now from) (range_with_len 0 (M.rules machine.now).decoder.samples)) }
{
    let mut state = from;
    let mut sum = 0;
    for pos in 0..machine.block_samples() {
        let target = block[pos as usize];
        let taken = near(machine, head, pos, state, target);
        state = taken.state;
        sum += taken.cost;
        symbols.push(taken.symbol)?;
    }
    Ok((state, sum))
}

/// The choice that heads lead to: at each place the first symbol of least cost.
pub(crate) fn spelled<M: Machine>(
    alloc: Global,
    machine: &M,
    targets: &[i32],
    blocks: u32,
    heads: Words32,
) -> Result<Choice, NoMemory>
    requires targets { AreTargets (M.rules machine.now).decoder blocks targets.now }
    requires heads { AreHeads (M.rules machine.now).decoder blocks heads }
    ensures list { IfOk result (λ choice. list_of choice ≡ walk_list (M.rules machine.now).decoder heads targets.now blocks) }
    ensures sum { IfOk result (λ choice. choice.sum ≡ walk_sum (M.rules machine.now).decoder heads targets.now blocks) }
{
    let samples = machine.block_samples() as usize;
    let mut symbols = with_room(alloc, targets.len())?;
    let mut state = State { a: 0, b: 0 };
    let mut sum = 0;
    for b in 0..blocks {
        let first = b as usize * samples;
        let block = &targets[first..first + samples];
        let head = heads.as_slice()[b as usize];
        let (after, cost) = push_block(machine, head, block, state, &mut symbols)?;
        state = after;
        sum += cost;
    }
    Ok(Choice {
        heads,
        symbols,
        sum,
    })
}
