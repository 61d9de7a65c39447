ghost use Rattle.std.specs.Prelude.{◌≡◌, ℕ, IsTrue, Option};
ghost use Rattle.box_layers.specs.Certificates.{look as look_in};
ghost use Rattle.box_layers.specs.declared.key.Key.{Key};
ghost use Rattle.machine_core.specs.declared.boxes.Cell.{Cell};
ghost use Rattle.block_steps.specs.Plans.{IsNext, IsPlan};
ghost use Rattle.block_steps.specs.Ways.{lane_certificate};

use crate::plan::Plan;
use crate::spots::Spot;
use box_layers::Key;
use machine_core::{Bx, Machine};

/// The cells that are listed before a sample in one lane, each with what it is worth in squared 16-bit steps.
pub trait LaneCells: Drop {
    /// What is listed for a cell.
    ghost listed: { Self → Cell → Option ℕ };

    /// The least that the cells which a box meets are worth: what is listed, or the floor under what is left where nothing is.
    fn look<M: Machine>(&self, machine: &M, plan: &Plan<'_>, at: Spot, lane: u32, bx: Bx) -> u64
        requires plan { IsPlan (M.rules machine.now) plan.now }
        requires at { IsNext (M.rules machine.now) plan.now at }
        requires bx { IsTrue ((M.rules machine.now).is_box at.place bx) }
        ensures { result ≡ look_in (M.rules machine.now) plan.now.targets.now (lane_certificate plan.now.level plan.now.blocks (listed self.now)) at.index lane bx };
}

/// The layers of cells that are listed before the sample after one.
pub trait Layers {
    /// The cells of one lane.
    type Lane: LaneCells;

    /// What is listed for a cell at a place in a lane.
    ghost listed: { Self → Key → Cell → Option ℕ };

    /// The cells at a place in a lane.
    fn lane_cells(&self, key: Key) -> Self::Lane
        ensures { Self.Lane.listed result ≡ listed self.now key };
}
