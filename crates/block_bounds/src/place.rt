ghost use Rattle.std.specs.Prelude.{◌≡◌, ◌≤◌, ◌<◌, ◌^◌, ℤ, List, pos, negsuc, ◌*ℤ◌, ◌-ℤ◌, ◌≤ℤ◌, get_or, false};
ghost use Rattle.adpcm_nums.specs.Sample.{IsSample};
ghost use Rattle.window_floor.specs.Numbers.{StandFor, windows_of};
ghost use Rattle.block_bounds.specs.Covers.{Covers, IsKnownRow, IsOverRow, IsUnderRow};

use crate::products::{end_at, error, rho, scaled};
use crate::reach::{lower_reach, upper_reach};
use row_bound::{Layer, Row};
use window_floor::{BlockWindows, Window};

/// More than what a row makes of any two errors before.
const FAR: i64 = 1 << 26;

/// What a filter ties the error of a place to, with the ends of its interval for the sample 0.
fn base_row(w: Window, low: i64, high: i64, weight: u64) -> Row
    requires low_small { negsuc (2 ^ 24) ≤ℤ low }
    requires low_great { low ≤ℤ pos (2 ^ 24) }
    requires high_small { negsuc (2 ^ 24) ≤ℤ high }
    requires high_great { high ≤ℤ pos (2 ^ 24) }
    requires weight_low { 1 ≤ weight }
    requires weight_high { weight ≤ 2 }
    ensures d { result.d ≡ w.d }
    ensures a { result.a ≡ w.ca }
    ensures b { result.b ≡ w.cb }
    ensures low { result.low ≡ low }
    ensures high { result.high ≡ high }
    ensures weight { result.weight ≡ weight }
    ensures free { result.known ≡ false }
{
    Row {
        d: w.d,
        a: w.ca,
        b: w.cb,
        low,
        high,
        weight,
        known: false,
        out: 0,
    }
}

/// An end of a base row's interval, on top of any sample, less the error of what the filter must predict at least to be
/// clamped: an end of what the row then says of the errors before.
fn past(w: Window, end: i64, reach: i32, x: i32) -> i64
    requires low { negsuc (2 ^ 24) ≤ℤ end }
    requires high { end ≤ℤ pos (2 ^ 24) }
    requires reach { IsSample reach }
    requires x { IsSample x }
    ensures value { result ≡ end -ℤ w.d *ℤ (w.scale *ℤ reach -ℤ x) }
    ensures low { negsuc (2 ^ 26) ≤ℤ result }
    ensures high { result ≤ℤ pos (2 ^ 26) }
{
    end - scaled(w.d, error(w.scale, reach, x))
}

/// The row of an output that clamping leaves, at one end or the other: its error is known, and between `low` and `high` is what the base row's factors
/// make of the errors before.
fn known_row(b: BlockWindows, end: usize, x: i32, base: Row, low: i64, high: i64) -> Row
    requires end { end < 2 }
    requires x { IsSample x }
    requires low_small { negsuc (2 ^ 26) ≤ℤ low }
    requires low_great { low ≤ℤ pos (2 ^ 26) }
    requires high_small { negsuc (2 ^ 26) ≤ℤ high }
    requires high_great { high ≤ℤ pos (2 ^ 26) }
    ensures known { IsKnownRow b.row.scale (get_or b.ends end (pos 0)) x base result }
    ensures low { result.low ≡ low }
    ensures high { result.high ≡ high }
    ensures weight { result.weight ≡ base.weight }
{
    Row {
        d: 0,
        a: base.a,
        b: base.b,
        low,
        high,
        weight: base.weight,
        known: true,
        out: error(b.row.scale, b.ends[end], x),
    }
}

/// The row of the output that clamping leaves at the upper end.
fn over_row(b: BlockWindows, x: i32, base: Row) -> Row
    requires x { IsSample x }
    requires d { base.d ≡ b.row.d }
    requires low { negsuc (2 ^ 24) ≤ℤ base.high }
    requires high { base.high ≤ℤ pos (2 ^ 24) }
    ensures over { (samples : List ℤ) → StandFor b samples → IsOverRow (windows_of b samples) x base result }
    ensures weight { result.weight ≡ base.weight }
{
    let high = past(b.row, base.high, upper_reach(b.levels), x);
    known_row(b, 0, x, base, -FAR, high)
}

/// The row of the output that clamping leaves at the lower end.
fn under_row(b: BlockWindows, x: i32, base: Row) -> Row
    requires x { IsSample x }
    requires d { base.d ≡ b.row.d }
    requires low { negsuc (2 ^ 24) ≤ℤ base.low }
    requires high { base.low ≤ℤ pos (2 ^ 24) }
    ensures under { (samples : List ℤ) → StandFor b samples → IsUnderRow (windows_of b samples) x base result }
    ensures weight { result.weight ≡ base.weight }
{
    let low = past(b.row, base.low, lower_reach(b.levels), x);
    known_row(b, 1, x, base, low, FAR)
}

/// The layer of a place, from the targets of the two places before and of its own.
pub(crate) fn layer_at(b: BlockWindows, r: i32, o: i32, x: i32, weight: u64) -> Layer
    requires r { IsSample r }
    requires o { IsSample o }
    requires x { IsSample x }
    requires weight_low { 1 ≤ weight }
    requires weight_high { weight ≤ 2 }
    ensures { (samples : List ℤ) → StandFor b samples → Covers (windows_of b samples) r o x weight result }
{
    let w = b.row;
    let rho = rho(w, r, o, x);
    let low = end_at(w.scale, w.bias - w.errs, rho);
    let high = end_at(w.scale, w.bias, rho);
    let base = base_row(w, low, high, weight);
    Layer {
        base,
        first: over_row(b, x, base),
        second: under_row(b, x, base),
    }
}
