ghost use Rattle.std.specs.Prelude.{◌≡◌, ◌⊎◌, ◌≤◌, ◌<◌, ◌+◌, ◌-◌, ◌^◌, ℕ, ℤ, pos, negsuc, ◌+ℤ◌, ◌≤ℤ◌, List, ◌++◌, ◌∷◌, [], length, true, false};
ghost use Rattle.row_bound.specs.declared.row.Row.{Row};
ghost use Rattle.row_bound.specs.declared.layer.Layer.{Layer};
ghost use Rattle.row_bound.specs.Rows.{IsMoved};
ghost use Rattle.row_bound.specs.Paths.{OwesFrom};
ghost use Rattle.row_bound.specs.Ladder.{IsLadder};
ghost use Rattle.row_bound.specs.declared.done.Done.{Done};
ghost use Rattle.row_bound.specs.declared.done.Side.{Side};
ghost use Rattle.row_bound.specs.declared.done.Side.TheVariants.{Up, Down, Apart};
ghost use Rattle.row_bound.specs.Guards.{Tells, Stands, Searched, left_of};

use crate::done::{Done, Side};
use crate::ladder::first_from;
use crate::layer::Layer;
use crate::row::Row;

/// Nothing is done; the search begins at the step that is nearest to `-push`.
pub(crate) fn begun(steps: &[i64], push: i64) -> Done
    ensures within { result.high ≤ length steps.now }
    ensures none { result.high ≡ result.low }
    ensures apart { result.apart ≡ 0 }
{
    let at = first_from(steps, push.wrapping_neg());
    Done {
        low: at,
        high: at,
        apart: 0,
    }
}

/// Whether rows are left.
pub(crate) fn is_open(done: Done, count: usize) -> bool
    ensures open { result ≡ true → 0 < left_of count done }
    ensures shut { result ≡ false → left_of count done ≡ 0 }
{
    done.low > 0 || done.high < count || done.apart < 2
}

/// Whether the next step up is nearer to what is expected than the next one down.
fn is_nearer(steps: &[i64], done: Done, push: i64) -> bool
    requires up { done.high < length steps.now }
    requires down { 0 < done.low }
    requires low { done.low ≤ length steps.now }
{
    let up = steps[done.high].wrapping_add(push);
    let down = steps[done.low - 1].wrapping_add(push);
    up.unsigned_abs() <= down.unsigned_abs()
}

/// Where the next row is taken: the nearer step first, the rows apart last.
pub(crate) fn next_side(steps: &[i64], done: Done, push: i64) -> Side
    requires open { 0 < left_of (length steps.now) done }
    requires low { done.low ≤ length steps.now }
    ensures up { result ≡ Up → done.high < length steps.now }
    ensures down { result ≡ Down → 0 < done.low }
    ensures apart { result ≡ Apart → done.apart < 2 }
{
    if done.high < steps.len() && (done.low == 0 || is_nearer(steps, done, push)) {
        Side::Up
    } else if done.low > 0 {
        Side::Down
    } else {
        Side::Apart
    }
}

/// A layer's base moved by a step.
fn moved(layer: Layer, step: i64) -> Row
    requires low { negsuc (2 ^ 24) ≤ℤ step }
    requires high { step ≤ℤ pos (2 ^ 24) }
    ensures { IsMoved layer.base step result }
{
    let base = layer.base;
    Row {
        d: base.d,
        a: base.a,
        b: base.b,
        low: base.low + step,
        high: base.high + step,
        weight: base.weight,
        known: base.known,
        out: base.out,
    }
}

/// The row that is next on a side.
pub(crate) fn row_at(layer: Layer, steps: &[i64], done: Done, side: Side) -> Row
    requires ladder { IsLadder steps.now }
    requires low { done.low ≤ length steps.now }
    requires up { side ≡ Up → done.high < length steps.now }
    requires down { side ≡ Down → 0 < done.low }
    requires apart { side ≡ Apart → done.apart < 2 }
    ensures { Stands steps.now layer done side result }
{
    match side {
        Side::Up => moved(layer, steps[done.high]),
        Side::Down => moved(layer, steps[done.low - 1]),
        Side::Apart => apart_row(layer, done.apart),
    }
}

/// One of the rows apart.
fn apart_row(layer: Layer, apart: usize) -> Row
    requires { apart < 2 }
    ensures { ((apart ≡ 0) × (result ≡ layer.first)) ⊎ ((apart ≡ 1) × (result ≡ layer.second)) }
{
    if apart == 0 {
        layer.first
    } else {
        layer.second
    }
}

/// One row more is done, on a side.
pub(crate) fn widened(done: Done, side: Side, count: usize) -> Done
    requires high { done.high ≤ count }
    requires up { side ≡ Up → done.high < count }
    requires down { side ≡ Down → 0 < done.low }
    requires apart { side ≡ Apart → done.apart < 2 }
    ensures within { result.high ≤ count }
    ensures below { result.low ≤ done.low }
    ensures falls { left_of count result < left_of count done }
    ensures searched { (steps : List ℤ) (v u : Row) (ws : List Row) (layers : List Layer) (layer : Layer) (w : Row) (t : ℕ)
        → Stands steps layer done side w → Searched steps v u ws layers layer done t → OwesFrom steps v u (ws ++ (w ∷ [])) layers t
        → Searched steps v u ws layers layer result t }
{
    match side {
        Side::Up => Done {
            low: done.low,
            high: done.high + 1,
            apart: done.apart,
        },
        Side::Down => Done {
            low: done.low - 1,
            high: done.high,
            apart: done.apart,
        },
        Side::Apart => Done {
            low: done.low,
            high: done.high,
            apart: done.apart + 1,
        },
    }
}

/// A row's bound was enough: it is done, and where the bound only grows further out on its side, so is that whole side.
pub(crate) fn closed(done: Done, side: Side, rises: bool, count: usize) -> Done
    requires high { done.high ≤ count }
    requires up { side ≡ Up → done.high < count }
    requires down { side ≡ Down → 0 < done.low }
    requires apart { side ≡ Apart → done.apart < 2 }
    ensures within { result.high ≤ count }
    ensures below { result.low ≤ done.low }
    ensures falls { left_of count result < left_of count done }
    ensures searched { (steps : List ℤ) (v u : Row) (ws : List Row) (layers : List Layer) (layer : Layer) (w : Row) (floor t : ℕ)
        → IsLadder steps → length steps ≡ count → done.low ≤ count → Stands steps layer done side w → Searched steps v u ws layers layer done t
        → Tells steps v u ws layers w floor rises → t ≤ floor → Searched steps v u ws layers layer result t }
{
    match side {
        Side::Up if rises => Done {
            low: done.low,
            high: count,
            apart: done.apart,
        },
        Side::Down if !rises => Done {
            low: 0,
            high: done.high,
            apart: done.apart,
        },
        _ => widened(done, side, count),
    }
}
