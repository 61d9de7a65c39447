ghost use Rattle.std.specs.Prelude.{◌≡◌, ◌≤◌, ◌<◌, ◌+◌, ◌++◌, ◌∷◌, [], length, take, drop, false};
ghost use Rattle.row_bound.specs.Paths.{OwesFrom};
ghost use Rattle.row_bound.specs.Searching.{HasRoom, AreFloors};

use crate::advice::{Advice, advised, settled, tied};
use crate::layer::Layer;
use crate::pick::{begun, closed, is_open, next_side, row_at, widened};
use crate::probe::judged;
use crate::row::Row;

/// How far a search may go. Nothing that it proves rests on these numbers.
#[derive(Clone, Copy, Debug, PartialEq, Eq)]
pub(crate) struct Effort {
    /// How many rows may still be gone on with.
    pub nodes: u64,
    /// A bound that is known already: below it nothing is gained.
    pub goal: u64,
    /// What is added to each pivot, in 16ths, so that factors stay small where intervals are wide.
    pub ease: i64,
}

impl Effort {
    /// Goes no further once a bound is found that is known already.
    fn settle(&mut self, found: u64) {
        if found <= self.goal {
            self.nodes = 0;
        }
    }
}

/// Puts a row behind the first `k`.
fn put_row(prefix: &mut [Row], k: usize, row: Row)
    requires { k < length prefix.old }
    ensures more { take (k + 1) prefix.new ≡ take k prefix.old ++ (row ∷ []) }
    ensures kept { take k prefix.new ≡ take k prefix.old }
{
    prefix[k] = row;
}

/// The least cost of the paths that begin with the first `k` rows of `prefix` and go on with one row of each layer from `k`
/// on, or `top` where that is less, or a bound under it where the nodes are used up. Depth first: at each layer the rows
/// nearest to what is expected come first.
pub(crate) fn search(
    layers: &[Layer],
    steps: &[i64],
    floors: &[u64],
    prefix: &mut [Row],
    trail: &mut [Advice],
    k: usize,
    v: Row,
    u: Row,
    top: u64,
    effort: &mut Effort,
) -> u64
    requires v { v.known ≡ false }
    requires u { u.known ≡ false }
    requires k { k < length layers.now }
    requires room { HasRoom layers.now steps.now prefix.old trail.old }
    requires floors { AreFloors layers.now steps.now floors.now }
    ensures kept { take k prefix.new ≡ take k prefix.old }
    ensures most { result ≤ top }
    ensures owes { OwesFrom steps.now v u (take k prefix.old) (drop k layers.now) result }
{
    let layer = layers[k];
    let rest = floors[k + 1];
    let tie = tied(layer.base, &prefix[..k], &trail[..k], v, u, effort.ease);
    let mut done = begun(steps, tie.push);
    let mut found = top;
    while is_open(done, steps.len()) {
        let side = next_side(steps, done, tie.push);
        let row = row_at(layer, steps, done, side);
        put_row(prefix, k, row);
        trail[k] = advised(
            row,
            layer.base,
            tie,
            &prefix[..k],
            &trail[..k],
            v,
            u,
            effort.ease,
        );
        let ends = k + 1 == layers.len() || effort.nodes == 0;
        let verdict = judged(
            &prefix[..k + 1],
            &trail[..k + 1],
            v,
            u,
            row,
            rest,
            found,
            ends,
        );
        if verdict.floor >= found {
            done = closed(done, side, verdict.rises, steps.len());
        } else {
            if ends {
                found = verdict.floor;
            } else {
                effort.nodes = effort.nodes.saturating_sub(1);
                trail[k] = settled(row, trail[k]);
                found = search(
                    layers,
                    steps,
                    floors,
                    prefix,
                    trail,
                    k + 1,
                    v,
                    u,
                    found,
                    effort,
                );
                effort.settle(found);
            }
            done = widened(done, side, steps.len());
        }
    }
    found
}
