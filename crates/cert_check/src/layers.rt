ghost use Rattle.std.specs.Prelude.{◌≡◌, ◌<◌, ◌≤◌, ◌+◌, ◌*◌, ◌^◌, ℕ, IsTrue, length, IfOk, IfErr, pos};
ghost use Rattle.box_layers.specs.Certificates.{found};
ghost use Rattle.machine_core.specs.Floors.{block_targets};
ghost use Rattle.box_layers.specs.Cells.{value_of, nth};
ghost use Rattle.adpcm_nums.specs.Sample.{AreSamples};
ghost use Rattle.bound_cert.specs.Filed.{IsFiled};
ghost use Rattle.cert_check.specs.Faults.{AreCells, HoldsBelow, IsCellFault, found_by, index_of, IsLayer};
ghost use Rattle.cert_check.specs.Layers.{certificate_of};
ghost use Rattle.block_steps.specs.Plans.{IsPlan, IsCurrent};
ghost use Rattle.block_steps.specs.Tables.{HoldRows, HoldLater, IsSpot};
ghost use Rattle.machine_core.specs.Cells.{is_level};

use crate::ahead::Behind;
use crate::checking::CellFault;
use block_steps::{Plan, Spot, find, refill};
use bound_cert::{Key, LayerView};
use machine_core::Machine;

/// Checks the cells of a layer, and names the first whose value is above what is found.
fn check_cells<M: Machine>(
    machine: &M,
    plan: &Plan<'_>,
    here: &LayerView<'_>,
    at: Spot,
    lane: u32,
    layer: u32,
) -> Result<(), CellFault>
    requires plan { IsPlan (M.rules machine.now) plan.now }
    requires at { IsCurrent (M.rules machine.now) plan.now at }
    requires cells { AreCells (M.rules machine.now) plan.now.level here.now.layer.cells }
    ensures ok { IfOk result (λ _. HoldsBelow (found_by (M.rules machine.now) plan.now here.now.later at.index lane) here.now.layer.cells (length here.now.layer.cells)) }
    ensures err { IfErr result (λ e. IsCellFault (found_by (M.rules machine.now) plan.now here.now.later at.index lane) here.now.layer.cells layer e) }
{
    for i in 0..here.cells() {
        let c = here.cell(i);
        let found = find(
            machine,
            plan,
            &Behind { here },
            at,
            lane,
            c.cell,
            c.value.min(u64::MAX - 1),
        );
        if c.value > found {
            return Err(CellFault {
                layer,
                cell: i,
                value: c.value,
                found,
            });
        }
    }
    Ok(())
}

/// The sample that a layer stands before.
fn spot_of<M: Machine>(machine: &M, blocks: u32, key: Key) -> Spot
    requires block { key.block < blocks }
    requires place { key.place < (M.rules machine.now).decoder.samples }
    requires small { blocks * (M.rules machine.now).decoder.samples < 2 ^ 31 }
    ensures index { result.index ≡ index_of (M.rules machine.now) key }
    ensures block { result.block ≡ key.block }
    ensures place { result.place ≡ key.place }
    ensures spot { IsSpot (M.rules machine.now) result }
    ensures within { result.index < blocks * (M.rules machine.now).decoder.samples }
{
    Spot {
        index: key.block * machine.block_samples() + key.place,
        block: key.block,
        place: key.place,
    }
}

/// Checks a layer.
pub fn check_layer<M: Machine>(
    machine: &M,
    targets: &[i32],
    blocks: u32,
    level: u32,
    here: &LayerView<'_>,
    layer: u32,
    filled: u32,
    rows: &mut [u64],
    later: &[u64],
) -> Result<(), CellFault>
    requires level { IsTrue (is_level level) }
    requires here { IsLayer (M.rules machine.now) level blocks here.now.layer }
    requires count { length targets.now ≡ blocks * (M.rules machine.now).decoder.samples }
    requires range { AreSamples targets.now }
    requires filed { IsFiled (M.rules machine.now) }
    requires small { blocks * (M.rules machine.now).decoder.samples < 2 ^ 31 }
    requires room { (M.rules machine.now).decoder.heads * (M.rules machine.now).floor_len < 2 ^ 31 }
    requires rows { length rows.old ≡ (M.rules machine.now).decoder.heads * (M.rules machine.now).floor_len }
    requires filled { filled < blocks → HoldRows (M.rules machine.now) (block_targets (M.rules machine.now) targets.now filled) rows.old }
    requires later { HoldLater (M.rules machine.now) targets.now blocks later.now }
    ensures rows { HoldRows (M.rules machine.now) (block_targets (M.rules machine.now) targets.now here.now.layer.key.block) rows.new }
    ensures ok { IfOk result (λ _. HoldsBelow (found (M.rules machine.now) targets.now (certificate_of (M.rules machine.now) here.now.later level blocks) (index_of (M.rules machine.now) here.now.layer.key) here.now.layer.key.lane) here.now.layer.cells (length here.now.layer.cells)) }
    ensures err { IfErr result (λ e. IsCellFault (found (M.rules machine.now) targets.now (certificate_of (M.rules machine.now) here.now.later level blocks) (index_of (M.rules machine.now) here.now.layer.key) here.now.layer.key.lane) here.now.layer.cells layer e) }
{
    let key = here.key();
    let at = spot_of(machine, blocks, key);
    refill(machine, targets, blocks, at.block, filled, rows);
    let plan = Plan {
        targets,
        rows: &*rows,
        later,
        blocks,
        end: blocks * machine.block_samples(),
        level,
    };
    check_cells(machine, &plan, here, at, key.lane, layer)
}
