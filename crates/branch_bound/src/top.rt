ghost use Rattle.std.specs.Prelude.{◌≡◌, ◌≢◌, ◌*◌, ◌<◌, ◌≤◌, ◌^◌, ℕ, IfOk, length, Some};
ghost use Rattle.bound_cert.specs.Filed.{IsFiled};
ghost use Rattle.bound_cert.specs.Spelling.{IsWritable};
ghost use Rattle.box_layers.specs.Certificates.{IsAccepted, value};
ghost use Rattle.cert_check.specs.Layers.{certificate_of};
ghost use Rattle.machine_core.specs.Blocks.{Blocks, IsLegal, first_only};
ghost use Rattle.machine_core.specs.Floors.{floors_from};
ghost use Rattle.machine_core.specs.Sums.{sum_of};
ghost use Rattle.open_cells.specs.Paths.{FitTargets, IsWhole};
ghost use Rattle.branch_bound.specs.Keyed.{cell_total};
ghost use Rattle.branch_bound.specs.Searched.{IsChoice, IsLevel, IsSearched, IsStored, blocks_in};

use crate::keyed::stored;
use crate::levels::search_levels;
use crate::searching::{choose, zeros};
use adpcm_nums::NoMemory;
use block_steps::fill_later;
use bound_cert::SegmentCert;
use bumpalo::Bump;
use machine_core::{Choice, Machine};
use std::alloc::Global;

/// What is found for a segment.
#[derive(Drop)]
pub struct Found {
    /// The choice, with its sum in squared 16-bit steps.
    pub choice: Choice,
    /// The certificate of a bound under the sum of every legal list.
    pub cert: SegmentCert,
}

/// The number of blocks of a segment.
fn blocks_of<M: Machine>(machine: &M, targets: &[i32]) -> u32
    requires few { length targets.now ≤ 262144 }
    ensures { result ≡ blocks_in (M.rules machine.now) targets.now }
{
    targets.len() as u32 / machine.block_samples()
}

/// Searches a segment of so many blocks for a bound near its least sum, and for its least list.
fn search_segment<M: Machine>(
    alloc: Global,
    machine: &M,
    targets: &[i32],
    blocks: u32,
    best: Choice,
    share: u32,
) -> Result<Found, NoMemory>
    requires blocks { 0 < blocks }
    requires fit { FitTargets (M.rules machine.now) blocks targets.now }
    requires small { blocks * (M.rules machine.now).decoder.samples < 2 ^ 31 }
    requires filed { IsFiled (M.rules machine.now) }
    requires room { (M.rules machine.now).decoder.heads * (M.rules machine.now).floor_len < 2 ^ 31 }
    requires few { length targets.now ≤ 262144 }
    requires few_blocks { blocks < 65536 }
    requires best { IsChoice (M.rules machine.now) blocks targets.now best }
    ensures blocks { IfOk result (λ f. f.cert.blocks ≡ blocks) }
    ensures level { IfOk result (λ f. IsLevel (M.rules machine.now) targets.now blocks best.sum share f.cert.level) }
    ensures stored { IfOk result (λ f. IsStored (M.rules machine.now) targets.now best.sum share f.cert) }
    ensures choice { IfOk result (λ f. IsChoice (M.rules machine.now) blocks targets.now f.choice) }
    ensures least { IfOk result (λ f. f.cert.level ≡ 0 → (l : Blocks) → IsLegal (M.rules machine.now).decoder blocks first_only l → f.choice.sum ≤ sum_of (M.rules machine.now).decoder l targets.now blocks) }
    ensures kept { IfOk result (λ f. (f.cert.level ≡ 0 → f.choice.sum ≡ best.sum) → f.choice ≡ best) }
    ensures optimal { IfOk result (λ f. f.cert.level ≡ 0 → f.cert.bound ≡ f.choice.sum) }
    ensures near { IfOk result (λ f. f.cert.level ≢ 255 → (w : ℕ) → w ≤ best.sum → ((cost : ℕ) → IsWhole (M.rules machine.now) targets.now blocks f.cert.level cost → w ≤ cost) → w ≤ f.cert.bound) }
    ensures floor_only { IfOk result (λ f. f.cert.level ≡ 255 → f.cert.bound ≡ floors_from (M.rules machine.now) first_only targets.now 0 blocks) }
{
    let mut rows = match zeros(
        alloc,
        machine.heads() as usize * machine.floor_len() as usize,
    ) {
        Ok(v) => v,
        Err(e) => return Err(e),
    };
    let mut later = match zeros(alloc, blocks as usize + 1) {
        Ok(v) => v,
        Err(e) => return Err(e),
    };
    fill_later(machine, targets, blocks, later.as_mut_slice());
    let arena = Bump::new(alloc);
    let cert = match search_levels(
        alloc,
        &arena,
        machine,
        targets,
        rows.as_mut_slice(),
        later.as_slice(),
        blocks,
        best.sum,
        share,
    ) {
        Ok(c) => c,
        Err(e) => return Err(e),
    };
    let choice = match choose(
        alloc,
        machine,
        targets,
        rows.as_mut_slice(),
        later.as_slice(),
        blocks,
        best,
        share,
        &cert,
    ) {
        Ok(c) => c,
        Err(e) => return Err(e),
    };
    let cert = match stored(alloc, machine.block_samples(), &cert) {
        Ok(c) => c,
        Err(e) => return Err(e),
    };
    Ok(Found { choice, cert })
}

/// Searches one segment for a bound near its least sum, and where it can for its least list (this project's own choice).
///
/// The level is the first of 0, 4 and 8 at which open paths reach at most `share` cells, in a segment of at most 64 blocks; where there is none,
/// it is 255, and the bound is that of the floors alone. At level 0 the choice has the least sum of all legal lists, and the bound is that sum;
/// `best` stays the choice where it has it, and at every other level. At levels 0, 4 and 8 the bound is at least the lesser of the sum of `best` and
/// the least cost of a relaxed path to the segment's end. The certificate lists each reached cell, with the lesser of the sum of `best` and the
/// least way on from it.
///
/// It refuses only for want of memory.
pub fn bound_search<M: Machine>(
    alloc: Global,
    machine: &M,
    targets: &[i32],
    best: Choice,
    share: u32,
) -> Result<Found, NoMemory>
    requires blocks { 0 < blocks_in (M.rules machine.now) targets.now }
    requires few_blocks { blocks_in (M.rules machine.now) targets.now < 65536 }
    requires fit { FitTargets (M.rules machine.now) (blocks_in (M.rules machine.now) targets.now) targets.now }
    requires few { length targets.now ≤ 262144 }
    requires filed { IsFiled (M.rules machine.now) }
    requires room { (M.rules machine.now).decoder.heads * (M.rules machine.now).floor_len < 2 ^ 31 }
    requires best { IsChoice (M.rules machine.now) (blocks_in (M.rules machine.now) targets.now) targets.now best }
    ensures blocks { IfOk result (λ f. f.cert.blocks ≡ blocks_in (M.rules machine.now) targets.now) }
    ensures level { IfOk result (λ f. IsLevel (M.rules machine.now) targets.now (blocks_in (M.rules machine.now) targets.now) best.sum share f.cert.level) }
    ensures choice { IfOk result (λ f. IsChoice (M.rules machine.now) (blocks_in (M.rules machine.now) targets.now) targets.now f.choice) }
    ensures least { IfOk result (λ f. f.cert.level ≡ 0 → (l : Blocks) → IsLegal (M.rules machine.now).decoder (blocks_in (M.rules machine.now) targets.now) first_only l
        → f.choice.sum ≤ sum_of (M.rules machine.now).decoder l targets.now (blocks_in (M.rules machine.now) targets.now)) }
    ensures kept { IfOk result (λ f. (f.cert.level ≡ 0 → f.choice.sum ≡ best.sum) → f.choice ≡ best) }
    ensures optimal { IfOk result (λ f. f.cert.level ≡ 0 → f.cert.bound ≡ f.choice.sum) }
    ensures near { IfOk result (λ f. f.cert.level ≢ 255 → (w : ℕ) → w ≤ best.sum
        → ((cost : ℕ) → IsWhole (M.rules machine.now) targets.now (blocks_in (M.rules machine.now) targets.now) f.cert.level cost → w ≤ cost) → w ≤ f.cert.bound) }
    ensures floor_only { IfOk result (λ f. f.cert.level ≡ 255 → f.cert.bound ≡ floors_from (M.rules machine.now) first_only targets.now 0 (blocks_in (M.rules machine.now) targets.now)) }
    ensures writable { IfOk result (λ f. IsWritable (M.rules machine.now).kind (M.rules machine.now).decoder.samples f.cert) }
    ensures few_cells { IfOk result (λ f. cell_total f.cert.layers ≤ share) }
    ensures searched { IfOk result (λ f. f.cert.level ≢ 255 → IsSearched (M.rules machine.now) targets.now best.sum (certificate_of (M.rules machine.now) f.cert.layers f.cert.level f.cert.blocks)) }
    ensures accepted { IfOk result (λ f. IsAccepted (M.rules machine.now) targets.now (certificate_of (M.rules machine.now) f.cert.layers f.cert.level f.cert.blocks)) }
    ensures bound { IfOk result (λ f. f.cert.bound ≡ value (M.rules machine.now) targets.now (certificate_of (M.rules machine.now) f.cert.layers f.cert.level f.cert.blocks)) }
{
    let blocks = blocks_of(machine, targets);
    search_segment(alloc, machine, targets, blocks, best, share)
}
