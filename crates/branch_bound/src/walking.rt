ghost use Rattle.std.specs.Prelude.{◌≡◌, ◌≢◌, suc, ◌+◌, ◌%◌, ◌*◌, ◌<◌, ◌^◌, IsTrue, IfOk, Some, length, true, false};
ghost use Rattle.block_steps.specs.Tables.{HoldLater};
ghost use Rattle.bound_cert.specs.Filed.{IsFiled};
ghost use Rattle.box_layers.specs.Certificates.{by_head, by_symbol, found, lane_at};
ghost use Rattle.machine_core.specs.Blocks.{first_only};
ghost use Rattle.machine_core.specs.Cells.{cell_of, is_cell};
ghost use Rattle.machine_core.specs.Decoder.{start};
ghost use Rattle.machine_core.specs.Floors.{may_take};
ghost use Rattle.machine_core.specs.Rules.{grid};
ghost use Rattle.open_cells.specs.Counts.{nodes_at};
ghost use Rattle.open_cells.specs.Nodes.{IsRising, listed_in};
ghost use Rattle.open_cells.specs.Paths.{FitTargets};
ghost use Rattle.open_cells.specs.Reach.{IsSearch};
ghost use Rattle.branch_bound.specs.Searched.{IsChoice};
ghost use Rattle.branch_bound.specs.Walks.{IsGround};
ghost use Rattle.branch_bound.specs.Worth.{IsHere, layer_certificate};

use crate::backward::ready_for;
use crate::finding::{head_way, symbol_found};
use adpcm_nums::{NoMemory, Words32};
use block_steps::{Spot, next_spot, symbols_within, takes, target_at};
use machine_core::{Cell, Choice, Machine, State};
use open_cells::{Node, SampleCells, Search};
use std::alloc::Global;

/// Whether the least way on from a cell under a head comes to a number.
fn comes_to<M: Machine>(
    machine: &M,
    s: &Search<'_>,
    at: Spot,
    cell: Cell,
    head: u32,
    next: &[Node],
    left: u64,
) -> bool
    requires search { IsSearch (M.rules machine.now) s.now }
    requires at { IsHere (M.rules machine.now) s.now at }
    requires cell { IsTrue (is_cell (grid (M.rules machine.now)) s.now.level cell) }
    requires head { head < (M.rules machine.now).decoder.heads }
    requires rising { IsRising next.now }
    requires small { left < s.now.most }
    ensures way { result ≡ true → by_head (M.rules machine.now) s.now.targets.now (layer_certificate s.now.level s.now.blocks next.now) at.index cell head ≡ left }
    ensures other { result ≡ false → by_head (M.rules machine.now) s.now.targets.now (layer_certificate s.now.level s.now.blocks next.now) at.index cell head ≢ left }
{
    head_way(machine, s, at, cell, head, next) == left
}

/// The first head that may be taken whose least way on comes to a number.
fn pick_head<M: Machine>(
    machine: &M,
    s: &Search<'_>,
    at: Spot,
    lane: u32,
    cell: Cell,
    next: &[Node],
    left: u64,
) -> u32
    requires search { IsSearch (M.rules machine.now) s.now }
    requires at { IsHere (M.rules machine.now) s.now at }
    requires cell { IsTrue (is_cell (grid (M.rules machine.now)) s.now.level cell) }
    requires rising { IsRising next.now }
    requires left { found (M.rules machine.now) s.now.targets.now (layer_certificate s.now.level s.now.blocks next.now) at.index lane cell ≡ left }
    requires small { left < s.now.most }
    ensures head { result < (M.rules machine.now).decoder.heads }
    ensures takes { may_take (M.rules machine.now) first_only at.index lane result ≡ true }
    ensures way { by_head (M.rules machine.now) s.now.targets.now (layer_certificate s.now.level s.now.blocks next.now) at.index cell result ≡ left }
{
    for h in 0..machine.heads() {
        if takes(machine, at, lane, h) {
            if comes_to(machine, s, at, cell, h, next, left) {
                return h;
            }
        }
    }
    0
}

/// The first symbol whose least way on comes to a number.
fn pick_symbol<M: Machine>(
    machine: &M,
    s: &Search<'_>,
    at: Spot,
    cell: Cell,
    head: u32,
    next: &[Node],
    left: u64,
) -> u32
    requires search { IsSearch (M.rules machine.now) s.now }
    requires at { IsHere (M.rules machine.now) s.now at }
    requires cell { IsTrue (is_cell (grid (M.rules machine.now)) s.now.level cell) }
    requires head { head < (M.rules machine.now).decoder.heads }
    requires rising { IsRising next.now }
    requires left { by_head (M.rules machine.now) s.now.targets.now (layer_certificate s.now.level s.now.blocks next.now) at.index cell head ≡ left }
    requires small { left < s.now.most }
    ensures symbol { result < (M.rules machine.now).decoder.symbols (at.index % (M.rules machine.now).decoder.samples) }
    ensures way { by_symbol (M.rules machine.now) s.now.targets.now (layer_certificate s.now.level s.now.blocks next.now) at.index cell head result ≡ left }
{
    let (first, end) = symbols_within(machine, s.targets, at, left);
    for sym in first..end {
        if symbol_found(machine, s, at, cell, head, sym, next) == left {
            return sym;
        }
    }
    0
}

/// The head of the next sample: a new one at a block's first sample, and the block's head at a later one.
fn next_head<M: Machine>(
    machine: &M,
    s: &Search<'_>,
    at: Spot,
    head: u32,
    cell: Cell,
    next: &[Node],
    left: u64,
) -> u32
    requires search { IsSearch (M.rules machine.now) s.now }
    requires at { IsHere (M.rules machine.now) s.now at }
    requires head { 0 < at.place → head < (M.rules machine.now).decoder.heads }
    requires cell { IsTrue (is_cell (grid (M.rules machine.now)) s.now.level cell) }
    requires rising { IsRising next.now }
    requires left { found (M.rules machine.now) s.now.targets.now (layer_certificate s.now.level s.now.blocks next.now) at.index (lane_at (M.rules machine.now) head at.index) cell ≡ left }
    requires small { left < s.now.most }
    ensures head { result < (M.rules machine.now).decoder.heads }
    ensures takes { may_take (M.rules machine.now) first_only at.index (lane_at (M.rules machine.now) head at.index) result ≡ true }
    ensures way { by_head (M.rules machine.now) s.now.targets.now (layer_certificate s.now.level s.now.blocks next.now) at.index cell result ≡ left }
    ensures same { 0 < at.place → result ≡ head }
{
    if at.place == 0 {
        pick_head(machine, s, at, 65535, cell, next, left)
    } else {
        head
    }
}

/// The list that the least way from the start leads through.
pub fn walk<M: Machine>(
    alloc: Global,
    machine: &M,
    targets: &[i32],
    rows: &mut [u64],
    later: &[u64],
    blocks: u32,
    most: u64,
    layers: &SampleCells<'_>,
    total: u64,
) -> Result<Choice, NoMemory>
    requires blocks { 0 < blocks }
    requires fit { FitTargets (M.rules machine.now) blocks targets.now }
    requires small { blocks * (M.rules machine.now).decoder.samples < 2 ^ 31 }
    requires filed { IsFiled (M.rules machine.now) }
    requires room { (M.rules machine.now).decoder.heads * (M.rules machine.now).floor_len < 2 ^ 31 }
    requires later { HoldLater (M.rules machine.now) targets.now blocks later.now }
    requires rows { length rows.old ≡ (M.rules machine.now).decoder.heads * (M.rules machine.now).floor_len }
    requires grounds { IsGround (M.rules machine.now) targets.now blocks most layers.now }
    requires listed { listed_in (nodes_at layers.now 0) 65535 (cell_of (grid (M.rules machine.now)) 0 start) ≡ Some total }
    requires less { total < most }
    ensures choice { IfOk result (λ c. IsChoice (M.rules machine.now) blocks targets.now c) }
    ensures sum { IfOk result (λ c. c.sum ≡ total) }
    ensures rows { length rows.new ≡ (M.rules machine.now).decoder.heads * (M.rules machine.now).floor_len }
{
    let end = blocks * machine.block_samples();
    let mut heads = Vec::new(alloc);
    let mut symbols = Vec::new(alloc);
    let mut state = State { a: 0, b: 0 };
    let mut head = 0;
    let mut left = total;
    let mut held = blocks;
    let mut at = Spot {
        index: 0,
        block: 0,
        place: 0,
    };
    for i in 0..end {
        ready_for(machine, targets, blocks, at.block, held, rows);
        held = at.block;
        let s = Search {
            targets,
            rows: &*rows,
            later,
            blocks,
            end,
            level: 0,
            most,
            room: 0,
        };
        let row = match layers.row(alloc, (i + 1) as usize) {
            Ok(v) => v,
            Err(e) => return Err(e),
        };
        let next = row.as_slice();
        let cell = machine.cell_of(0, state);
        head = next_head(machine, &s, at, head, cell, next, left);
        if at.place == 0 {
            match heads.push(head) {
                Ok(_) => {}
                Err(_) => return Err(NoMemory),
            }
        }
        let symbol = pick_symbol(machine, &s, at, cell, head, next, left);
        match symbols.push(symbol) {
            Ok(_) => {}
            Err(_) => return Err(NoMemory),
        }
        state = machine.step(head, at.place, symbol, state);
        left = left.saturating_sub(machine.cost(state, target_at(targets, i)));
        at = next_spot(machine, at);
    }
    let head_list = Words32::from_vec(heads);
    let symbol_list = Words32::from_vec(symbols);
    Ok(Choice {
        heads: head_list,
        symbols: symbol_list,
        sum: total,
    })
}
