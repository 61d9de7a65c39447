ghost use Rattle.std.specs.Prelude.{◌≤◌, ◌+◌, ◌*◌, ◌^◌, ℕ, ℤ, [], length};
ghost use Rattle.adpcm_nums.specs.Nums.{square_of};
ghost use Rattle.row_bound.specs.Paths.{Path};
ghost use Rattle.row_bound.specs.Ladder.{IsLadder};
ghost use Rattle.row_bound.specs.Searching.{HasRoom, AreFloors};

use crate::advice::{Advice, NONE, quotient, times};
use crate::layer::Layer;
use crate::row::Row;
use crate::search::Effort;
use crate::suffix::{open, root};
use crate::table::table_of;

/// How many errors before a place the rows of a block ask for: it says which suffix a search is charged to.
fn taps_of(layers: &[Layer]) -> usize
    ensures { result ≤ 2 }
{
    let mut taps = 0;
    for layer in layers {
        if layer.base.b != 0 {
            return 2;
        }
        if layer.base.a != 0 {
            taps = 1;
        }
    }
    taps
}

/// What is added to each pivot: the wider an interval is against the distance of two steps, the smaller factors are kept.
fn ease_of(layers: &[Layer], steps: &[i64]) -> i64 {
    let n = steps.len();
    if layers.is_empty() || n < 2 {
        return 0;
    }
    let base = layers[0].base;
    let width = base.high.wrapping_sub(base.low);
    let step = steps[n - 1].wrapping_sub(steps[n - 2]).max(1);
    quotient(
        times(40, times(width, times(base.d, base.d))),
        times(3, step),
    )
}

/// A bound under every path of the layers, with the two errors that it starts from, weighed alike.
fn whole(
    layers: &[Layer],
    steps: &[i64],
    floors: &[u64],
    prefix: &mut [Row],
    trail: &mut [Advice],
    entering: u64,
    top: u64,
    effort: Effort,
) -> u64
    requires room { HasRoom layers.now steps.now prefix.old trail.old }
    requires floors { AreFloors layers.now steps.now floors.now }
    requires low { 1 ≤ entering }
    requires high { entering ≤ 2 }
    ensures most { result ≤ top }
    ensures owes { (y x : ℤ) (c : ℕ) → Path steps.now [] layers.now x y c → result ≤ entering * square_of y + entering * square_of x + c }
{
    let at = open(entering);
    root(layers, steps, floors, prefix, trail, at, at, top, effort)
}

/// A bound under every path of a block's layers, at most `top`: the two errors that it starts from are weighed by
/// `entering`. Each search goes on with at most `nodes` rows.
pub fn block_bound(layers: &[Layer], steps: &[i64], entering: u64, top: u64, nodes: u64) -> u64
    requires layers { length layers.now ≤ 28 }
    requires ladder { IsLadder steps.now }
    requires entering { entering ≤ 2 }
    requires top { top ≤ 2 ^ 48 }
    ensures most { result ≤ top }
    ensures owes { (y x : ℤ) (c : ℕ) → Path steps.now [] layers.now x y c → result ≤ entering * square_of y + entering * square_of x + c }
{
    let mut prefix = [open(1); 28];
    let mut trail = [NONE; 28];
    let taps = taps_of(layers);
    let ease = ease_of(layers, steps);
    let effort = Effort {
        nodes: if taps == 0 { 0 } else { nodes },
        goal: 0,
        ease,
    };
    let floors = table_of(layers, steps, &mut prefix, &mut trail, taps, top, effort);
    let low = floors[0].min(top);
    if entering == 0 || taps == 0 || low == top {
        return low;
    }
    let aimed = Effort {
        nodes,
        goal: low,
        ease,
    };
    let found = whole(
        layers,
        steps,
        &floors,
        &mut prefix,
        &mut trail,
        entering,
        top,
        aimed,
    );
    low.max(found)
}
