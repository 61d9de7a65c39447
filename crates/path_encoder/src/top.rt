ghost use Rattle.std.specs.Prelude.{◌≡◌, ◌<◌, ◌≤◌, IfOk};
ghost use Rattle.beam_encoder.specs.Near.{AreTargets};
ghost use Rattle.path_encoder.specs.Better.{IsChoice};

use crate::by_codes::layers;
use crate::by_index::by_index;
use crate::played::{is_legal, played};
use crate::traced::{Proposal, traced};
use adpcm_nums::NoMemory;
use machine_core::{Choice, Kind, Machine};
use std::alloc::Global;

/// What the paths propose for a segment of blocks of codes, where they find something that costs less than what is known.
fn proposed_by_codes<M: Machine>(
    alloc: Global,
    machine: &M,
    targets: &[i32],
    blocks: u32,
    width: u32,
    known: u64,
) -> Result<Option<Proposal>, NoMemory>
    requires targets { AreTargets (M.rules machine.now).decoder blocks targets.now }
    requires width { 0 < width }
{
    let samples = machine.block_samples();
    if samples < 2 || samples > 32 {
        return Ok(None);
    }
    let layers = layers(alloc, machine, targets, blocks, width as usize, known)?;
    traced(alloc, layers.as_slice(), blocks, samples)
}

/// What the paths propose for a segment, by the kind of its blocks.
fn proposed<M: Machine>(
    alloc: Global,
    machine: &M,
    targets: &[i32],
    blocks: u32,
    width: u32,
    known: u64,
) -> Result<Option<Proposal>, NoMemory>
    requires targets { AreTargets (M.rules machine.now).decoder blocks targets.now }
    requires width { 0 < width }
{
    match machine.kind() {
        Kind::Ima => by_index(alloc, machine, targets, width as usize, known),
        Kind::Brr | Kind::Spu => {
            proposed_by_codes(alloc, machine, targets, blocks, width, known)
        }
    }
}

/// The better of what is known and of what one round of paths proposes.
fn better<M: Machine>(
    alloc: Global,
    machine: &M,
    targets: &[i32],
    blocks: u32,
    width: u32,
    known: Choice,
) -> Result<Choice, NoMemory>
    requires targets { AreTargets (M.rules machine.now).decoder blocks targets.now }
    requires width { 0 < width }
    requires known { IsChoice (M.rules machine.now).decoder blocks targets.now known }
    ensures choice { IfOk result (IsChoice (M.rules machine.now).decoder blocks targets.now) }
    ensures below { IfOk result (λ choice. choice.sum ≤ known.sum) }
{
    let proposal = match proposed(alloc, machine, targets, blocks, width, known.sum)? {
        Some(proposal) => proposal,
        None => return Ok(known),
    };
    let (heads, symbols) = (proposal.heads, proposal.symbols);
    if !is_legal(machine, blocks, heads.as_slice(), symbols.as_slice()) {
        return Ok(known);
    }
    let sum = played(
        machine,
        targets,
        blocks,
        heads.as_slice(),
        symbols.as_slice(),
    );
    if sum < known.sum {
        Ok(Choice {
            heads,
            symbols,
            sum,
        })
    } else {
        Ok(known)
    }
}

/// The best of several rounds, which keep 1, 4, 16 and at last `most` lists: a round is quicker where the one before it knew a
/// small sum.
fn rounds<M: Machine>(
    alloc: Global,
    machine: &M,
    targets: &[i32],
    blocks: u32,
    most: u32,
    known: Choice,
) -> Result<Choice, NoMemory>
    requires targets { AreTargets (M.rules machine.now).decoder blocks targets.now }
    requires some { 0 < most }
    requires known { IsChoice (M.rules machine.now).decoder blocks targets.now known }
    ensures choice { IfOk result (IsChoice (M.rules machine.now).decoder blocks targets.now) }
    ensures below { IfOk result (λ choice. choice.sum ≤ known.sum) }
{
    let mut choice = known;
    for width in [1, 4, 16] {
        if width < most {
            choice = better(alloc, machine, targets, blocks, width, choice)?;
        }
    }
    better(alloc, machine, targets, blocks, most, choice)
}

/// A list of blocks for the targets of one segment, which is found by going on with several lists of codes inside each block.
///
/// In BRR and SPU-ADPCM the `width` best lists go on together under every head, at each sample with the two codes nearest to the
/// target. In IMA ADPCM each step index keeps the best outputs, a quarter of `width` and at least one. The answer is the known
/// list unless a cheaper one is found (this project's own choice). `width` is 1 to 64; with 1 nothing is tried.
///
/// It refuses only for want of memory.
pub fn paths<M: Machine>(
    alloc: Global,
    machine: &M,
    targets: &[i32],
    blocks: u32,
    width: u32,
    known: Choice,
) -> Result<Choice, NoMemory>
    requires targets { AreTargets (M.rules machine.now).decoder blocks targets.now }
    requires some { 0 < width }
    requires few { width ≤ 64 }
    requires known { IsChoice (M.rules machine.now).decoder blocks targets.now known }
    ensures choice { IfOk result (IsChoice (M.rules machine.now).decoder blocks targets.now) }
    ensures below { IfOk result (λ choice. choice.sum ≤ known.sum) }
    ensures alone { IfOk result (λ choice. width ≡ 1 → choice ≡ known) }
{
    if width == 1 {
        return Ok(known);
    }
    match machine.kind() {
        Kind::Ima => rounds(alloc, machine, targets, blocks, width.div_ceil(4), known),
        Kind::Brr | Kind::Spu => better(alloc, machine, targets, blocks, width, known),
    }
}
