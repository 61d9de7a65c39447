ghost use Rattle.std.specs.Prelude.{◌≡◌, ℕ, suc, ◌+◌, ◌-◌, ◌%◌, ◌*◌, ◌<◌, ◌≤◌, ◌^◌, IsTrue, IfOk, length, map, min, reverse};
ghost use Rattle.box_layers.specs.Looking.{IsCornered, cell_near, least_listed, or_else, span_count};
ghost use Rattle.open_cells.specs.Nodes.{IsRising, listed_in};
ghost use Rattle.branch_bound.specs.Worth.{row_worth};

use machine_core::Cell;
use open_cells::{Node, listed, near_at, span};

/// What stands for a lane and cell, or `unlisted`.
fn worth_of(next: &[Node], lane: u32, cell: Cell, unlisted: u64) -> u64
    requires { IsRising next.now }
    ensures { result ≡ or_else (listed_in next.now lane cell) unlisted }
{
    match listed(next, lane, cell) {
        Some(v) => v,
        None => unlisted,
    }
}

/// A cell between two corners.
fn cell_at(low: Cell, high: Cell, x: u64, y: u64) -> Cell
    requires corners { IsCornered low high }
    requires x { x < span_count low.a high.a }
    requires y { y < span_count low.b high.b }
    ensures { result ≡ cell_near low x y }
{
    Cell {
        a: near_at(low.a, high.a, x),
        b: near_at(low.b, high.b, y),
    }
}

/// The least that the cells of a row are worth.
#[tactic(auto, using(adpcm_nums::proofs::LeastValueLaws::least_more))]
fn least_of_row(next: &[Node], lane: u32, low: Cell, high: Cell, x: u64, unlisted: u64) -> u64
    requires rising { IsRising next.now }
    requires corners { IsCornered low high }
    requires x { x < span_count low.a high.a }
    ensures { result ≡ row_worth next.now lane unlisted low high x }
{
    let mut best = u64::MAX;
    for y in 0..span(low.b, high.b) {
        best = best.min(worth_of(next, lane, cell_at(low, high, x, y), unlisted));
    }
    best
}

/// The least that the cells between two corners are worth: what stands for each, or `unlisted`.
#[tactic(auto, using(adpcm_nums::proofs::LeastValueLaws::least_more))]
pub fn least_of_box(next: &[Node], lane: u32, low: Cell, high: Cell, unlisted: u64) -> u64
    requires rising { IsRising next.now }
    requires corners { IsCornered low high }
    ensures { result ≡ least_listed low high (listed_in next.now lane) unlisted }
{
    let mut best = u64::MAX;
    for x in 0..span(low.a, high.a) {
        best = best.min(least_of_row(next, lane, low, high, x, unlisted));
    }
    best
}
