ghost use Rattle.std.specs.Prelude.{◌≡◌, ◌≤◌, ◌<◌, ◌+◌, ◌-◌, [], length, drop, get_or, true, false};
ghost use Rattle.row_bound.specs.declared.layer.Layer.{Layer};
ghost use Rattle.row_bound.specs.Flat.{IsOlderFree, IsLastFree, IsAlone};
ghost use Rattle.row_bound.specs.Paths.{Owes, OwesFrom};
ghost use Rattle.row_bound.specs.Searching.{HasRoom, AreFloors};

use crate::advice::Advice;
use crate::layer::Layer;
use crate::row::Row;
use crate::search::{Effort, search};

/// A free error of a place that is weighed so.
pub(crate) fn open(weight: u64) -> Row
    requires low { 1 ≤ weight }
    requires high { weight ≤ 2 }
    ensures known { result.known ≡ false }
    ensures weight { result.weight ≡ weight }
{
    Row {
        d: 0,
        a: 0,
        b: 0,
        low: 0,
        high: 0,
        weight,
        known: false,
        out: 0,
    }
}

/// Whether no row of a layer asks for the error two places before.
fn skips_older(layer: Layer) -> bool
    ensures { result ≡ true → IsOlderFree layer }
{
    layer.base.b == 0 && layer.first.b == 0 && layer.second.b == 0
}

/// Whether no row of a layer asks for the last error before.
fn skips_last(layer: Layer) -> bool
    ensures { result ≡ true → IsLastFree layer }
{
    layer.base.a == 0 && layer.first.a == 0 && layer.second.a == 0
}

/// What the paths of these layers cost at least, with the two errors that they start from.
pub(crate) fn root(
    layers: &[Layer],
    steps: &[i64],
    floors: &[u64],
    prefix: &mut [Row],
    trail: &mut [Advice],
    v: Row,
    u: Row,
    top: u64,
    effort: Effort,
) -> u64
    requires v { v.known ≡ false }
    requires u { u.known ≡ false }
    requires room { HasRoom layers.now steps.now prefix.old trail.old }
    requires floors { AreFloors layers.now steps.now floors.now }
    ensures most { result ≤ top }
    ensures owes { OwesFrom steps.now v u [] layers.now result }
{
    if layers.is_empty() {
        return 0;
    }
    let mut left = effort;
    search(
        layers, steps, floors, prefix, trail, 0, v, u, top, &mut left,
    )
}

/// The layer after `j`, or else `here`.
fn layer_after(layers: &[Layer], j: usize, here: Layer) -> Layer
    requires { j < length layers.now }
    ensures { j + 1 < length layers.now → result ≡ get_or layers.now (j + 1) result }
{
    if j + 1 < layers.len() {
        layers[j + 1]
    } else {
        here
    }
}

/// Whether no row of two layers asks for an error more than `taps` places before the first of them.
fn is_alone(here: Layer, following: Layer, taps: usize) -> bool
    ensures { result ≡ true → IsAlone here following taps }
{
    if taps >= 2 {
        return true;
    }
    if !skips_older(here) {
        return false;
    }
    taps == 1 || (skips_last(here) && skips_older(following))
}

/// The error of the place `back` before `j`, where a search from `j` on starts from it: it is weighed as that place's rows
/// where the search is charged to `taps` places before; beyond them it counts as 0.
fn entering(layers: &[Layer], j: usize, back: usize, taps: usize) -> Row
    requires j { j < length layers.now }
    requires taps { taps ≤ j }
    ensures known { result.known ≡ false }
    ensures weight { back ≤ taps → (any : Layer) → result.weight ≡ (get_or layers.now (j - back) any).base.weight }
{
    if back <= taps {
        open(layers[j - back].base.weight)
    } else {
        open(2)
    }
}

/// What the places from `j - taps` on cost at least, from whatever errors, by a search from `j` on; 0 where rows ask for
/// errors before those places, or where `top` is known already.
pub(crate) fn searched_from(
    layers: &[Layer],
    steps: &[i64],
    floors: &[u64],
    prefix: &mut [Row],
    trail: &mut [Advice],
    j: usize,
    taps: usize,
    top: u64,
    effort: Effort,
) -> u64
    requires room { HasRoom layers.now steps.now prefix.old trail.old }
    requires floors { AreFloors layers.now steps.now floors.now }
    requires taps { taps ≤ 2 }
    requires j_low { taps ≤ j }
    requires j_high { j < length layers.now }
    ensures most { result ≤ top }
    ensures owes { Owes steps.now (drop (j - taps) layers.now) result }
{
    let here = layers[j];
    let following = layer_after(layers, j, here);
    if effort.goal >= top || !is_alone(here, following, taps) {
        return 0;
    }
    let v = entering(layers, j, 2, taps);
    let u = entering(layers, j, 1, taps);
    let rest = &floors[j..];
    root(&layers[j..], steps, rest, prefix, trail, v, u, top, effort)
}
