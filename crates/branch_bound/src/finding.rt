ghost use Rattle.std.specs.Prelude.{◌≡◌, ◌+◌, ◌-◌, ◌%◌, ◌<◌, IsTrue, min};
ghost use Rattle.box_layers.specs.Certificates.{by_head, by_symbol, found};
ghost use Rattle.machine_core.specs.Cells.{is_cell};
ghost use Rattle.machine_core.specs.Rules.{grid};
ghost use Rattle.open_cells.specs.Nodes.{IsRising};
ghost use Rattle.open_cells.specs.Reach.{IsSearch};
ghost use Rattle.branch_bound.specs.Worth.{IsHere, layer_certificate, plan_in};

use crate::next_layer::NextLayer;
use block_steps::{Plan, Spot};
use machine_core::{Cell, Machine};
use open_cells::{Node, Search};

/// What ways on are found by, of what a search reads.
fn plan_of<'a>(s: &Search<'a>) -> Plan<'a>
    ensures { result ≡ plan_in s.now }
{
    Plan {
        targets: s.targets,
        rows: s.rows,
        later: s.later,
        blocks: s.blocks,
        end: s.end,
        level: s.level,
    }
}

/// The least way on from a cell under a head by a symbol.
pub fn symbol_found<M: Machine>(
    machine: &M,
    s: &Search<'_>,
    at: Spot,
    cell: Cell,
    head: u32,
    sym: u32,
    next: &[Node],
) -> u64
    requires search { IsSearch (M.rules machine.now) s.now }
    requires at { IsHere (M.rules machine.now) s.now at }
    requires cell { IsTrue (is_cell (grid (M.rules machine.now)) s.now.level cell) }
    requires head { head < (M.rules machine.now).decoder.heads }
    requires sym { sym < (M.rules machine.now).decoder.symbols (at.index % (M.rules machine.now).decoder.samples) }
    requires rising { IsRising next.now }
    ensures { result ≡ by_symbol (M.rules machine.now) s.now.targets.now (layer_certificate s.now.level s.now.blocks next.now) at.index cell head sym }
{
    let layer = NextLayer { nodes: next };
    block_steps::symbol_way(machine, &plan_of(s), &layer, at, cell, head, sym)
}

/// The least way on from a cell under a head, as far as the sum that is to be beaten.
pub fn head_way<M: Machine>(
    machine: &M,
    s: &Search<'_>,
    at: Spot,
    cell: Cell,
    head: u32,
    next: &[Node],
) -> u64
    requires search { IsSearch (M.rules machine.now) s.now }
    requires at { IsHere (M.rules machine.now) s.now at }
    requires cell { IsTrue (is_cell (grid (M.rules machine.now)) s.now.level cell) }
    requires head { head < (M.rules machine.now).decoder.heads }
    requires rising { IsRising next.now }
    ensures { result ≡ min (s.now.most - 1 + 1) (by_head (M.rules machine.now) s.now.targets.now (layer_certificate s.now.level s.now.blocks next.now) at.index cell head) }
{
    let layer = NextLayer { nodes: next };
    let slack = s.most.saturating_sub(1);
    block_steps::head_way(machine, &plan_of(s), &layer, at, cell, head, slack)
}

/// What a cell is worth: the least way on from it, or the sum that is to be beaten where that is less.
pub fn worth_at<M: Machine>(
    machine: &M,
    s: &Search<'_>,
    at: Spot,
    lane: u32,
    cell: Cell,
    next: &[Node],
) -> u64
    requires search { IsSearch (M.rules machine.now) s.now }
    requires at { IsHere (M.rules machine.now) s.now at }
    requires cell { IsTrue (is_cell (grid (M.rules machine.now)) s.now.level cell) }
    requires rising { IsRising next.now }
    ensures { result ≡ min s.now.most (found (M.rules machine.now) s.now.targets.now (layer_certificate s.now.level s.now.blocks next.now) at.index lane cell) }
{
    let layer = NextLayer { nodes: next };
    let slack = s.most.saturating_sub(1);
    s.most.min(block_steps::find(machine, &plan_of(s), &layer, at, lane, cell, slack))
}
