ghost use Rattle.std.specs.Prelude.{◌≡◌, ◌<◌, ◌+◌, min};
ghost use Rattle.box_layers.specs.Certificates.{by_head, by_symbol, found, head_found};
ghost use Rattle.machine_core.specs.Floors.{top};
ghost use Rattle.block_steps.specs.Plans.{IsFrom};
ghost use Rattle.block_steps.specs.Ways.{layers_certificate};

use crate::ahead::{cells_after, next_after};
use crate::layers::Layers;
use crate::plan::Plan;
use crate::spots::Spot;
use crate::stepping::{lane_head, takes};
use crate::symbols::{symbol_found, symbols_way};
use machine_core::{Cell, Machine};

/// The least way on from a cell under a head by a symbol.
pub fn symbol_way<M: Machine, L: Layers>(
    machine: &M,
    plan: &Plan<'_>,
    layers: &L,
    at: Spot,
    cell: Cell,
    head: u32,
    sym: u32,
) -> u64
    requires from { IsFrom (M.rules machine.now) plan.now at cell }
    requires head { head < (M.rules machine.now).decoder.heads }
    requires sym { sym < (M.rules machine.now).decoder.symbols at.place }
    ensures { result ≡ by_symbol (M.rules machine.now) plan.now.targets.now (layers_certificate (M.rules machine.now) plan.now.level plan.now.blocks (L.listed layers.now)) at.index cell head sym }
{
    let after = next_after(machine, plan, at, head);
    let cells = cells_after(layers, after);
    symbol_found(machine, plan, &cells, at, cell, head, after, sym)
}

/// The least way on from a cell under a head, as far as `slack` and one more.
pub fn head_way<M: Machine, L: Layers>(
    machine: &M,
    plan: &Plan<'_>,
    layers: &L,
    at: Spot,
    cell: Cell,
    head: u32,
    slack: u64,
) -> u64
    requires from { IsFrom (M.rules machine.now) plan.now at cell }
    requires head { head < (M.rules machine.now).decoder.heads }
    requires slack { slack < top }
    ensures { result ≡ min (slack + 1) (by_head (M.rules machine.now) plan.now.targets.now (layers_certificate (M.rules machine.now) plan.now.level plan.now.blocks (L.listed layers.now)) at.index cell head) }
{
    let after = next_after(machine, plan, at, head);
    let cells = cells_after(layers, after);
    symbols_way(machine, plan, &cells, at, cell, head, after, slack)
}

/// The same, where the head may be taken in the lane.
fn lane_way<M: Machine, L: Layers>(
    machine: &M,
    plan: &Plan<'_>,
    layers: &L,
    at: Spot,
    lane: u32,
    cell: Cell,
    head: u32,
    slack: u64,
) -> u64
    requires from { IsFrom (M.rules machine.now) plan.now at cell }
    requires head { head < (M.rules machine.now).decoder.heads }
    requires slack { slack < top }
    ensures { result ≡ min (slack + 1) (head_found (M.rules machine.now) plan.now.targets.now (layers_certificate (M.rules machine.now) plan.now.level plan.now.blocks (L.listed layers.now)) at.index lane cell head) }
{
    if takes(machine, at, lane, head) {
        head_way(machine, plan, layers, at, cell, head, slack)
    } else {
        slack + 1
    }
}

/// The least way on from a cell over all heads, as far as `slack` and one more.
#[tactic(auto, using(crate::proofs::Capped::capped_more))]
fn find_all<M: Machine, L: Layers>(
    machine: &M,
    plan: &Plan<'_>,
    layers: &L,
    at: Spot,
    lane: u32,
    cell: Cell,
    slack: u64,
) -> u64
    requires from { IsFrom (M.rules machine.now) plan.now at cell }
    requires slack { slack < top }
    ensures { result ≡ min (slack + 1) (found (M.rules machine.now) plan.now.targets.now (layers_certificate (M.rules machine.now) plan.now.level plan.now.blocks (L.listed layers.now)) at.index lane cell) }
{
    let mut best = slack + 1;
    for h in 0..machine.heads() {
        best = best.min(lane_way(machine, plan, layers, at, lane, cell, h, slack));
    }
    best
}

/// The least way on from a cell, as far as `slack` and one more: so it tells whether `slack` is above it.
///
/// Behind a block's first sample heads of one lane act alike, so one of them serves for all.
pub fn find<M: Machine, L: Layers>(
    machine: &M,
    plan: &Plan<'_>,
    layers: &L,
    at: Spot,
    lane: u32,
    cell: Cell,
    slack: u64,
) -> u64
    requires from { IsFrom (M.rules machine.now) plan.now at cell }
    requires slack { slack < top }
    ensures { result ≡ min (slack + 1) (found (M.rules machine.now) plan.now.targets.now (layers_certificate (M.rules machine.now) plan.now.level plan.now.blocks (L.listed layers.now)) at.index lane cell) }
{
    if at.place == 0 {
        return find_all(machine, plan, layers, at, lane, cell, slack);
    }
    match lane_head(machine, at, lane) {
        Some(head) => head_way(machine, plan, layers, at, cell, head, slack),
        None => slack + 1,
    }
}
