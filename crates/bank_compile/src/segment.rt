ghost use Rattle.std.specs.Prelude.{◌<◌, ◌≤◌, ◌*◌, ◌^◌, IfOk};
ghost use Rattle.bound_cert.specs.Filed.{IsFiled};
ghost use Rattle.beam_encoder.specs.Beam.{AreWhole, block_count, beam_sum};
ghost use Rattle.manifest_reader.specs.Ranges.{IsEffort};
ghost use Rattle.bank_compile.specs.Segment.{IsFound, IsKnownChoice};

use adpcm_nums::NoMemory;
use beam_encoder::beam;
use branch_bound::{Found, bound_search};
use machine_core::{Choice, Machine};
use manifest_reader::Effort;
use path_encoder::paths;
use std::alloc::Global;

/// The choice that the search of a segment begins with: the beam's, and where several lists of codes may go on in each block a
/// cheaper one, if they find it (this project's own choice).
fn known_choice<M: Machine>(
    alloc: Global,
    machine: &M,
    targets: &[i32],
    effort: Effort,
) -> Result<Choice, NoMemory>
    requires targets { AreWhole (M.rules machine.now).decoder targets.now }
    requires effort { IsEffort effort }
    ensures { IfOk result (IsKnownChoice (M.rules machine.now) effort targets.now (block_count (M.rules machine.now).decoder targets.now)) }
{
    let best = beam(alloc, machine, targets, effort.beam)?;
    let blocks = targets.len() as u32 / machine.block_samples();
    paths(alloc, machine, targets, blocks, effort.paths, best)
}

/// Searches one segment, whose targets are whole blocks: first the beam and the paths of an effort, and then cells of states, at most `share` of them, for a
/// bound near the least sum, and where each cell is one state for the least list itself (this project's own choice).
///
/// It refuses only for want of memory.
pub(crate) fn search_segment<M: Machine>(
    alloc: Global,
    machine: &M,
    targets: &[i32],
    effort: Effort,
    share: u32,
) -> Result<Found, NoMemory>
    requires targets { AreWhole (M.rules machine.now).decoder targets.now }
    requires blocks { 0 < block_count (M.rules machine.now).decoder targets.now }
    requires few_blocks { block_count (M.rules machine.now).decoder targets.now < 65536 }
    requires effort { IsEffort effort }
    requires filed { IsFiled (M.rules machine.now) }
    requires room { (M.rules machine.now).decoder.heads * (M.rules machine.now).floor_len < 2 ^ 31 }
    ensures found { IfOk result (IsFound (M.rules machine.now) effort share targets.now (block_count (M.rules machine.now).decoder targets.now)) }
    ensures near_beam { IfOk result (λ f. f.choice.sum ≤ beam_sum (M.rules machine.now).decoder effort.beam targets.now) }
{
    let known = known_choice(alloc, machine, targets, effort)?;
    match bound_search(alloc, machine, targets, known, share) {
        Ok(found) => Ok(found),
        Err(e) => Err(e),
    }
}
