ghost use Rattle.std.specs.Prelude.{◌≡◌, ◌<◌, ◌≤◌, IfOk, get_or};
ghost use Rattle.machine_core.specs.Blocks.{IsLegal, first_only};
ghost use Rattle.machine_core.specs.Sums.{sum_of};
ghost use Rattle.beam_encoder.specs.Near.{AreTargets};
ghost use Rattle.beam_encoder.specs.Kept.{root, kept, prefix};
ghost use Rattle.beam_encoder.specs.Walk.{walk_list, list_of};
ghost use Rattle.beam_encoder.specs.Beam.{AreWhole, block_count, beam_list, beam_sum};

use crate::layers::{heads_of, layers};
use crate::spell::spelled;
use adpcm_nums::NoMemory;
use machine_core::{Choice, Machine};
use std::alloc::Global;

/// The number of blocks that targets make.
fn block_count<M: Machine>(machine: &M, targets: &[i32]) -> u32
    requires { AreWhole (M.rules machine.now).decoder targets.now }
    ensures { result ≡ block_count (M.rules machine.now).decoder targets.now }
{
    targets.len() as u32 / machine.block_samples()
}

/// The choice of a beam for so many blocks.
fn beam_of_blocks<M: Machine>(
    alloc: Global,
    machine: &M,
    targets: &[i32],
    blocks: u32,
    width: u32,
) -> Result<Choice, NoMemory>
    requires targets { AreTargets (M.rules machine.now).decoder blocks targets.now }
    requires some { 0 < width }
    requires few { width ≤ 64 }
    ensures least { IfOk result (λ choice. choice.sum ≡ (get_or (kept (M.rules machine.now).decoder width targets.now blocks) 0 root).sum) }
    ensures list { IfOk result (λ choice. list_of choice ≡ walk_list (M.rules machine.now).decoder (prefix (M.rules machine.now).decoder width targets.now blocks 0) targets.now blocks) }
    ensures sum { IfOk result (λ choice. choice.sum ≡ sum_of (M.rules machine.now).decoder (list_of choice) targets.now blocks) }
    ensures legal { IfOk result (λ choice. IsLegal (M.rules machine.now).decoder blocks first_only (list_of choice)) }
{
    let history = layers(alloc, machine, targets, blocks, width)?;
    let heads = heads_of(alloc, &history, blocks)?;
    let choice = spelled(alloc, machine, targets, blocks, heads)?;
    Ok(choice)
}

/// The choice of the beam of a width for the targets of one segment, which are whole blocks (this project's own choice).
///
/// It begins with the empty prefix. For each block, each prefix that is kept, in order, is extended by each head that the
/// rule allows, in the order of their numbers, with the first symbol of least cost at each place. Then the `width` prefixes
/// of least sum stay, those of equal sums in the order in which they were made. The choice is the first in the end, with its
/// sum in squared 16-bit steps. The first block's head must forget what was played before it. `width` is 1 to 64; a greater
/// width does not always give a smaller sum.
///
/// It refuses only for want of memory.
pub fn beam<M: Machine>(
    alloc: Global,
    machine: &M,
    targets: &[i32],
    width: u32,
) -> Result<Choice, NoMemory>
    requires targets { AreWhole (M.rules machine.now).decoder targets.now }
    requires some { 0 < width }
    requires few { width ≤ 64 }
    ensures list { IfOk result (λ choice. list_of choice ≡ beam_list (M.rules machine.now).decoder width targets.now) }
    ensures least { IfOk result (λ choice. choice.sum ≡ beam_sum (M.rules machine.now).decoder width targets.now) }
    ensures sum { IfOk result (λ choice. choice.sum ≡ sum_of (M.rules machine.now).decoder (list_of choice) targets.now (block_count (M.rules machine.now).decoder targets.now)) }
    ensures legal { IfOk result (λ choice. IsLegal (M.rules machine.now).decoder (block_count (M.rules machine.now).decoder targets.now) first_only (list_of choice)) }
{
    let blocks = block_count(machine, targets);
    beam_of_blocks(alloc, machine, targets, blocks, width)
}
