ghost use Rattle.std.specs.Prelude.{◌≡◌, ◌<◌, ◌≤◌, ◌+◌, ◌*◌, ◌^◌, ◌/◌, IfOk, All, length, sum};
ghost use Rattle.std.specs.List.{sum_by};
ghost use Rattle.adpcm_nums.specs.Sample.{AreSamples};
ghost use Rattle.machine_core.specs.Segments.{part_targets};
ghost use Rattle.bound_cert.specs.Filed.{IsFiled};
ghost use Rattle.beam_encoder.specs.Beam.{beam_sum};
ghost use Rattle.bank_kinds.specs.Codec.{codec_of};
ghost use Rattle.bank_kinds.specs.Fits.{IsFit};
ghost use Rattle.bank_kinds.specs.Certified.{segments_in};
ghost use Rattle.manifest_reader.specs.Ranges.{IsEffort};
ghost use Rattle.bank_compile.specs.Segment.{IsFound};
ghost use Rattle.bank_compile.specs.Sample.{AreFound, IsChosen, beam_sums};
ghost use Rattle.bank_compile.specs.Known.{IsKnown};

use crate::segment::search_segment;
use adpcm_nums::NoMemory;
use bank_kinds::{Encode, certified_bounds_hold};
use branch_bound::Found;
use loop_fit::{Fitted, segments};
use machine_core::Machine;
use manifest_reader::Effort;
use std::alloc::Global;

/// Searches the segment of `count` blocks that begins with block `first`.
fn search_part<M: Machine>(
    alloc: Global,
    machine: &M,
    targets: &[i32],
    first: u32,
    count: u32,
    effort: Effort,
    share: u32,
) -> Result<Found, NoMemory>
    requires within { (first + count) * (M.rules machine.now).decoder.samples ≤ length targets.now }
    requires small { length targets.now ≤ 262144 }
    requires range { AreSamples targets.now }
    requires blocks { 0 < count }
    requires few_blocks { count < 65536 }
    requires effort { IsEffort effort }
    requires filed { IsFiled (M.rules machine.now) }
    requires room { (M.rules machine.now).decoder.heads * (M.rules machine.now).floor_len < 2 ^ 31 }
    ensures found { IfOk result (IsFound (M.rules machine.now) effort share (part_targets (M.rules machine.now).decoder targets.now first count) count) }
    ensures near_beam { IfOk result (λ f. f.choice.sum ≤ beam_sum (M.rules machine.now).decoder effort.beam (part_targets (M.rules machine.now).decoder targets.now first count)) }
{
    let samples = machine.block_samples() as usize;
    let start = first as usize * samples;
    let end = start + count as usize * samples;
    match search_segment(alloc, machine, &targets[start..end], effort, share) {
        Ok(found) => Ok(found),
        Err(e) => Err(e),
    }
}

/// Searches segments of so many blocks, one after another.
fn search_parts<M: Machine>(
    alloc: Global,
    machine: &M,
    targets: &[i32],
    counts: &[u32],
    effort: Effort,
    share: u32,
) -> Result<Vec<Found>, NoMemory>
    requires none_empty { All (λ n. 0 < n) counts.now }
    requires few_blocks { sum counts.now < 65536 }
    requires whole { length targets.now ≡ sum counts.now * (M.rules machine.now).decoder.samples }
    requires small { length targets.now ≤ 262144 }
    requires range { AreSamples targets.now }
    requires effort { IsEffort effort }
    requires filed { IsFiled (M.rules machine.now) }
    requires room { (M.rules machine.now).decoder.heads * (M.rules machine.now).floor_len < 2 ^ 31 }
    ensures found { IfOk result (λ founds. AreFound (M.rules machine.now) effort share targets.now 0 counts.now founds.items) }
    ensures near_beam { IfOk result (λ founds. sum_by (λ f. f.choice.sum) founds.items ≤ beam_sums (M.rules machine.now) effort.beam targets.now 0 counts.now) }
{
    let mut founds = match Vec::with_capacity(alloc, counts.len()) {
        Ok(founds) => founds,
        Err(_) => return Err(NoMemory),
    };
    let mut first = 0;
    for count in counts {
        let found = search_part(alloc, machine, targets, first, *count, effort, share)?;
        match founds.push(found) {
            Ok(()) => {}
            Err(_) => return Err(NoMemory),
        }
        first += *count;
    }
    Ok(founds)
}

/// Searches the segments of a fitted sound, one after another. Each may list as many cells as the budget gives when it is shared out among them.
pub(crate) fn search_segments<C: Encode>(
    alloc: Global,
    codec: &C,
    fitted: &Fitted,
    effort: Effort,
) -> Result<Vec<Found>, NoMemory>
    requires fit { IsFit (codec_of (C.rules codec.now) (C.bytes codec.now)) fitted.now }
    requires effort { IsEffort effort }
    ensures chosen { IfOk result (λ founds. IsChosen (codec_of (C.rules codec.now) (C.bytes codec.now)) effort fitted.now founds.items) }
    ensures near_beam { IfOk result (λ founds. sum_by (λ f. f.choice.sum) founds.items
        ≤ beam_sums (C.rules codec.now) effort.beam fitted.now.targets 0 (segments_in (codec_of (C.rules codec.now) (C.bytes codec.now)) fitted.now)) }
    ensures known { IfOk result (λ founds. IsKnown (codec_of (C.rules codec.now) (C.bytes codec.now)) fitted.now founds.items) }
{
    certified_bounds_hold();
    let counts = segments(alloc, codec.kind(), fitted.blocks, fitted.loop_block)?;
    let counts = counts.as_slice();
    let share = effort.budget / counts.len() as u32;
    match search_parts(
        alloc,
        codec,
        fitted.targets.as_slice(),
        counts,
        effort,
        share,
    ) {
        Ok(founds) => Ok(founds),
        Err(e) => Err(e),
    }
}
