ghost use Rattle.open_cells.specs.Nodes.{IsRising};

use crate::looks::least_of_box;
use block_steps::{LaneCells, Layers, Plan, Spot, rest_at};
use box_layers::Key;
use machine_core::{Bx, Machine};
use open_cells::{Node, high_cell, low_cell};

/// The cells before the next sample, of all lanes, with what they are worth.
#[derive(Drop)]
pub struct NextLayer<'a> {
    /// The cells in order.
    pub nodes: &'a [Node],
    ghost rising: { IsRising nodes.now },
}

/// The same of one lane.
#[derive(Drop)]
pub struct NextLane<'a> {
    nodes: &'a [Node],
    lane: u32,
    ghost rising: { IsRising nodes.now },
}

impl<'a> LaneCells for NextLane<'a> {
    ghost use Rattle.open_cells.specs.Nodes.{listed_in};

    ghost listed = { λ s. listed_in s.nodes.now s.lane };

    fn look<M: Machine>(&self, machine: &M, plan: &Plan<'_>, at: Spot, lane: u32, bx: Bx) -> u64 {
        let unlisted = rest_at(machine, plan, at, lane, bx);
        let low = low_cell(machine, plan.level, bx);
        let high = high_cell(machine, plan.level, bx);
        least_of_box(self.nodes, self.lane, low, high, unlisted)
    }
}

impl<'a> Layers for NextLayer<'a> {
    ghost use Rattle.open_cells.specs.Nodes.{listed_in};

    type Lane = NextLane<'a>;

    ghost listed = { λ s key. listed_in s.nodes.now key.lane };

    fn lane_cells(&self, key: Key) -> NextLane<'a> {
        NextLane {
            nodes: self.nodes,
            lane: key.lane,
        }
    }
}
