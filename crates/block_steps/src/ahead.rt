ghost use Rattle.std.specs.Prelude.{◌≡◌, ◌<◌, ◌%◌, suc, IsTrue};
ghost use Rattle.box_layers.specs.Certificates.{look_ahead, lane_at};
ghost use Rattle.block_steps.specs.Plans.{IsCurrent, IsPlan};
ghost use Rattle.block_steps.specs.Ways.{IsAfter, key_of, lane_certificate};

use crate::layers::{LaneCells, Layers};
use crate::plan::Plan;
use crate::spots::Spot;
use crate::stepping::{lane_of, next_spot};
use box_layers::Key;
use machine_core::{Bx, Machine};

/// The sample after one under a head.
#[derive(Clone, Copy, Debug, PartialEq, Eq)]
pub struct After {
    /// The sample.
    pub spot: Spot,
    /// Its lane.
    pub lane: u32,
    /// Whether it is behind the segment's end.
    pub ended: bool,
}

/// The sample after one under a head.
pub fn next_after<M: Machine>(machine: &M, plan: &Plan<'_>, at: Spot, head: u32) -> After
    requires plan { IsPlan (M.rules machine.now) plan.now }
    requires at { IsCurrent (M.rules machine.now) plan.now at }
    requires head { head < (M.rules machine.now).decoder.heads }
    ensures { IsAfter (M.rules machine.now) plan.now.end at head result }
{
    let spot = next_spot(machine, at);
    After {
        spot,
        lane: lane_of(machine, spot, head),
        ended: spot.index == plan.end,
    }
}

/// The cells that are listed before the sample after one.
pub fn cells_after<L: Layers>(layers: &L, after: After) -> L::Lane
    ensures { L.Lane.listed result ≡ L.listed layers.now (key_of after) }
{
    layers.lane_cells(Key {
        block: after.spot.block,
        place: after.spot.place,
        lane: after.lane,
    })
}

/// What comes after a sample under a head, from a box: a look in the next layer, or nothing at the segment's end.
pub fn way_after<M: Machine, C: LaneCells>(
    machine: &M,
    plan: &Plan<'_>,
    cells: &C,
    at: Spot,
    head: u32,
    after: After,
    bx: Bx,
) -> u64
    requires plan { IsPlan (M.rules machine.now) plan.now }
    requires at { IsCurrent (M.rules machine.now) plan.now at }
    requires head { head < (M.rules machine.now).decoder.heads }
    requires after { IsAfter (M.rules machine.now) plan.now.end at head after }
    requires bx { IsTrue ((M.rules machine.now).is_box (suc at.index % (M.rules machine.now).decoder.samples) bx) }
    ensures { result ≡ look_ahead (M.rules machine.now) plan.now.targets.now (lane_certificate plan.now.level plan.now.blocks (C.listed cells.now)) (suc at.index) (lane_at (M.rules machine.now) head (suc at.index)) bx }
{
    if after.ended {
        0
    } else {
        cells.look(machine, plan, after.spot, after.lane, bx)
    }
}
