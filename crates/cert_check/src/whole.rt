ghost use Rattle.std.specs.Prelude.{◌≡◌, ◌<◌, ◌≤◌, ◌+◌, ◌*◌, ◌^◌, IsTrue, length, IfOk, IfErr, max};
ghost use Rattle.box_layers.specs.Certificates.{found, value, IsAccepted};
ghost use Rattle.box_layers.specs.Looking.{or_else};
ghost use Rattle.machine_core.specs.Decoder.{start};
ghost use Rattle.machine_core.specs.Blocks.{Blocks, IsLegal};
ghost use Rattle.machine_core.specs.Sums.{sum_of};
ghost use Rattle.adpcm_nums.specs.Sample.{AreSamples};
ghost use Rattle.bound_cert.specs.Filed.{IsFiled};
ghost use Rattle.bound_cert.specs.Good.{SegmentFits};
ghost use Rattle.cert_check.specs.Faults.{AreLayers, LayersHold, IsFirstFault};
ghost use Rattle.cert_check.specs.Layers.{certificate_in};
ghost use Rattle.block_steps.specs.Tables.{HoldLater};
ghost use Rattle.machine_core.specs.Blocks.{first_only};
ghost use Rattle.machine_core.specs.Cells.{is_level};

use crate::checking::CellFault;
use crate::layers::check_layer;
use crate::listed::listed_for;
use block_steps::fill_later;
use bound_cert::{Key, SegmentView};
use box_layers::accepted_values_hold;
use machine_core::{Machine, State, floors_hold};

/// Checks the layers of a segment.
fn check_layers<M: Machine>(
    machine: &M,
    segment: &SegmentView<'_>,
    targets: &[i32],
    rows: &mut [u64],
    later: &[u64],
) -> Result<(), CellFault>
    requires level { IsTrue (is_level segment.now.level) }
    requires layers { AreLayers (M.rules machine.now) segment.now.level segment.now.blocks segment.now.layers }
    requires count { length targets.now ≡ segment.now.blocks * (M.rules machine.now).decoder.samples }
    requires range { AreSamples targets.now }
    requires filed { IsFiled (M.rules machine.now) }
    requires small { segment.now.blocks * (M.rules machine.now).decoder.samples < 2 ^ 31 }
    requires room { (M.rules machine.now).decoder.heads * (M.rules machine.now).floor_len < 2 ^ 31 }
    requires rows { length rows.old ≡ (M.rules machine.now).decoder.heads * (M.rules machine.now).floor_len }
    requires later { HoldLater (M.rules machine.now) targets.now segment.now.blocks later.now }
    ensures ok { IfOk result (λ _. LayersHold (M.rules machine.now) targets.now (certificate_in (M.rules machine.now) segment.now) segment.now.layers (length segment.now.layers)) }
    ensures err { IfErr result (λ e. IsFirstFault (M.rules machine.now) targets.now (certificate_in (M.rules machine.now) segment.now) segment.now.layers e) }
{
    segment.sorted();
    let blocks = segment.blocks();
    let level = segment.level();
    let mut filled = blocks;
    let mut next = segment.first_layer();
    for j in 0..segment.layer_count() {
        match next {
            Some(here) => {
                match check_layer(
                    machine, targets, blocks, level, &here, j, filled, rows, later,
                ) {
                    Ok(_) => {}
                    Err(e) => return Err(e),
                }
                filled = here.key().block;
                next = here.next();
            }
            None => return Ok(()),
        }
    }
    Ok(())
}

/// The greater of a floor and a value that may be listed.
fn greater(floor: u64, listed: Option<u64>) -> u64
    ensures { result ≡ max floor (or_else listed 0) }
{
    match listed {
        Some(v) => floor.max(v),
        None => floor,
    }
}

/// Checks a segment, with the lent room cut in two.
fn check_parts<M: Machine>(
    machine: &M,
    segment: &SegmentView<'_>,
    targets: &[i32],
    rows: &mut [u64],
    later: &mut [u64],
) -> Result<u64, CellFault>
    requires level { 0 < length segment.now.layers → IsTrue (is_level segment.now.level) }
    requires layers { AreLayers (M.rules machine.now) segment.now.level segment.now.blocks segment.now.layers }
    requires count { length targets.now ≡ segment.now.blocks * (M.rules machine.now).decoder.samples }
    requires few { length targets.now ≤ 262144 }
    requires range { AreSamples targets.now }
    requires filed { IsFiled (M.rules machine.now) }
    requires room { (M.rules machine.now).decoder.heads * (M.rules machine.now).floor_len < 2 ^ 31 }
    requires rows { length rows.old ≡ (M.rules machine.now).decoder.heads * (M.rules machine.now).floor_len }
    requires later { segment.now.blocks + 1 ≤ length later.old }
    ensures ok { IfOk result (λ v. LayersHold (M.rules machine.now) targets.now (certificate_in (M.rules machine.now) segment.now) segment.now.layers (length segment.now.layers)) }
    ensures value { IfOk result (λ v. v ≡ value (M.rules machine.now) targets.now (certificate_in (M.rules machine.now) segment.now)) }
    ensures err { IfErr result (λ e. IsFirstFault (M.rules machine.now) targets.now (certificate_in (M.rules machine.now) segment.now) segment.now.layers e) }
{
    fill_later(machine, targets, segment.blocks(), later);
    let floor = later[0];
    if segment.layer_count() == 0 {
        return Ok(floor);
    }
    match check_layers(machine, segment, targets, rows, &*later) {
        Ok(_) => {
            let start = machine.cell_of(segment.level(), State { a: 0, b: 0 });
            let listed = listed_for(
                segment,
                Key {
                    block: 0,
                    place: 0,
                    lane: 65535,
                },
                start,
            );
            Ok(greater(floor, listed))
        }
        Err(e) => Err(e),
    }
}

/// The number of places that a check of a segment needs: a table of floors for each head, and one place for each block and one more.
pub fn scratch_need<M: Machine>(machine: &M, segment: &SegmentView<'_>) -> usize
    requires room { (M.rules machine.now).decoder.heads * (M.rules machine.now).floor_len < 2 ^ 31 }
    ensures value { result ≡ (M.rules machine.now).decoder.heads * (M.rules machine.now).floor_len + (segment.now.blocks + 1) }
    ensures small { result ≤ ((M.rules machine.now).decoder.heads + 2) * (M.rules machine.now).floor_len + 2 * segment.now.blocks + 2 }
{
    machine.heads() as usize * machine.floor_len() as usize + (segment.blocks() as usize + 1)
}

/// Checks a segment of a certificate that was read with the decoder's kind and samples in a block: the bound that it shows, or the first listed cell
/// whose value is above what is found.
///
/// Whoever made the certificate, no legal list of blocks of the segment has a sum below the bound. No memory is taken: `scratch` is lent, at least as
/// long as `scratch_need` says, and what stands in it does not matter.
pub fn check<M: Machine>(
    machine: &M,
    segment: &SegmentView<'_>,
    targets: &[i32],
    scratch: &mut [u64],
) -> Result<u64, CellFault>
    requires filed { IsFiled (M.rules machine.now) }
    requires fits { SegmentFits (M.rules machine.now).kind (M.rules machine.now).decoder.samples segment.now }
    requires count { length targets.now ≡ segment.now.blocks * (M.rules machine.now).decoder.samples }
    requires few { length targets.now ≤ 262144 }
    requires range { AreSamples targets.now }
    requires room { (M.rules machine.now).decoder.heads * (M.rules machine.now).floor_len < 2 ^ 31 }
    requires scratch { (M.rules machine.now).decoder.heads * (M.rules machine.now).floor_len + (segment.now.blocks + 1) ≤ length scratch.old }
    ensures accepted { IfOk result (λ v. IsAccepted (M.rules machine.now) targets.now (certificate_in (M.rules machine.now) segment.now)) }
    ensures value { IfOk result (λ v. v ≡ value (M.rules machine.now) targets.now (certificate_in (M.rules machine.now) segment.now)) }
    ensures bound { IfOk result (λ v. (list : Blocks) → IsLegal (M.rules machine.now).decoder segment.now.blocks first_only list
        → v ≤ sum_of (M.rules machine.now).decoder list targets.now segment.now.blocks) }
    ensures fault { IfErr result (λ e. IsFirstFault (M.rules machine.now) targets.now (certificate_in (M.rules machine.now) segment.now) segment.now.layers e) }
    ensures refused { IfErr result (λ _. IsAccepted (M.rules machine.now) targets.now (certificate_in (M.rules machine.now) segment.now) → ⊥) }
{
    accepted_values_hold();
    floors_hold();
    let (rows, later) = scratch.split_at_mut(
        machine.heads() as usize * machine.floor_len() as usize,
    );
    match check_parts(machine, segment, targets, rows, later) {
        Ok(v) => Ok(v),
        Err(e) => Err(e),
    }
}
