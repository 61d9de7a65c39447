ghost use Rattle.std.specs.Prelude.{◌≡◌, ◌<◌, ◌≤◌, ◌+◌, ◌%◌, suc, IsTrue, min};
ghost use Rattle.box_layers.specs.Certificates.{way, least_piece, by_symbol, by_head};
ghost use Rattle.machine_core.specs.Floors.{top};
ghost use Rattle.block_steps.specs.Plans.{IsCurrent, IsFrom, IsPlan};
ghost use Rattle.block_steps.specs.Ways.{AllBoxes, IsAfter, lane_certificate};

use crate::ahead::{After, way_after};
use crate::layers::LaneCells;
use crate::plan::Plan;
use crate::spots::Spot;
use crate::stepping::{symbols_within, target_at};
use machine_core::{Cell, Machine, Piece};

/// The least way on over a step's pieces.
fn least_way<M: Machine, C: LaneCells>(
    machine: &M,
    plan: &Plan<'_>,
    cells: &C,
    at: Spot,
    head: u32,
    after: After,
    pieces: &[Piece],
) -> u64
    requires plan { IsPlan (M.rules machine.now) plan.now }
    requires at { IsCurrent (M.rules machine.now) plan.now at }
    requires head { head < (M.rules machine.now).decoder.heads }
    requires after { IsAfter (M.rules machine.now) plan.now.end at head after }
    requires pieces { AllBoxes (M.rules machine.now) (suc at.index % (M.rules machine.now).decoder.samples) pieces.now }
    ensures { result ≡ least_piece pieces.now (way (M.rules machine.now) plan.now.targets.now (lane_certificate plan.now.level plan.now.blocks (C.listed cells.now)) at.index head) top }
{
    let mut best = u64::MAX;
    for q in pieces {
        best = best.min(
            q.cost
                .saturating_add(way_after(machine, plan, cells, at, head, after, q.bx)),
        );
    }
    best
}

/// The least way on from a cell under a head by a symbol, in the cells that follow.
pub fn symbol_found<M: Machine, C: LaneCells>(
    machine: &M,
    plan: &Plan<'_>,
    cells: &C,
    at: Spot,
    cell: Cell,
    head: u32,
    after: After,
    sym: u32,
) -> u64
    requires from { IsFrom (M.rules machine.now) plan.now at cell }
    requires head { head < (M.rules machine.now).decoder.heads }
    requires after { IsAfter (M.rules machine.now) plan.now.end at head after }
    requires sym { sym < (M.rules machine.now).decoder.symbols at.place }
    ensures { result ≡ by_symbol (M.rules machine.now) plan.now.targets.now (lane_certificate plan.now.level plan.now.blocks (C.listed cells.now)) at.index cell head sym }
{
    let bx = machine.cell_box(plan.level, cell);
    let target = target_at(plan.targets, at.index);
    let pieces = machine.box_step(head, at.place, sym, bx, target);
    least_way(
        machine,
        plan,
        cells,
        at,
        head,
        after,
        pieces.list.as_slice(),
    )
}

/// The least way on from a cell under a head, as far as `slack` and one more, in the cells that follow.
#[tactic(auto, using(adpcm_nums::proofs::LeastValueLaws::least_more))]
pub fn symbols_way<M: Machine, C: LaneCells>(
    machine: &M,
    plan: &Plan<'_>,
    cells: &C,
    at: Spot,
    cell: Cell,
    head: u32,
    after: After,
    slack: u64,
) -> u64
    requires from { IsFrom (M.rules machine.now) plan.now at cell }
    requires head { head < (M.rules machine.now).decoder.heads }
    requires after { IsAfter (M.rules machine.now) plan.now.end at head after }
    requires slack { slack < top }
    ensures { result ≡ min (slack + 1) (by_head (M.rules machine.now) plan.now.targets.now (lane_certificate plan.now.level plan.now.blocks (C.listed cells.now)) at.index cell head) }
{
    let mut best = slack + 1;
    let (first, end) = symbols_within(machine, plan.targets, at, slack);
    for sym in first..end {
        best = best.min(symbol_found(machine, plan, cells, at, cell, head, after, sym));
    }
    best
}
