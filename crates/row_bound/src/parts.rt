ghost use Rattle.std.specs.Prelude.{◌≡◌, ◌≤◌, ◌+◌, ◌*◌, ◌^◌, ℤ, pos, negsuc, ◌+ℤ◌, ◌-ℤ◌, ◌≤ℤ◌};
ghost use Rattle.std.specs.Int.{div_ceil};
ghost use Rattle.adpcm_nums.specs.Nums.{square_of};
ghost use Rattle.row_bound.specs.Bound.{loss, gain, factor};

use crate::multiply::{at_end, at_known, square, square_known};
use crate::row::Row;

/// The factor of a row: what is proposed, brought into range.
pub(crate) fn factor_at(mus: &[i64], i: usize) -> i64
    ensures value { result ≡ factor mus.now i }
    ensures low { negsuc (2 ^ 28) ≤ℤ result }
    ensures high { result ≤ℤ pos (2 ^ 28) }
{
    if i < mus.len() {
        mus[i].min(268_435_456).max(-268_435_456)
    } else {
        0
    }
}

/// A square divided by a weight, rounded up.
fn share(square: u64, weight: u64) -> u64
    requires low { 1 ≤ weight }
    requires high { weight ≤ 2 }
    ensures { result ≡ div_ceil square weight }
{
    if weight == 1 {
        square
    } else {
        square.div_ceil(2)
    }
}

/// An error that is known, weighed.
fn fixed(w: Row) -> i64
    ensures value { result ≡ pos (4096 * (w.weight * square_of w.out)) }
    ensures low { pos 0 ≤ℤ result }
    ensures high { result ≤ℤ pos (2 ^ 51) }
{
    let out = square_known(w.out);
    (4096 * (w.weight * out)).cast_signed()
}

/// What a place takes of the bound.
fn loss_at(w: Row, l: i64) -> i64
    requires low { negsuc (2 ^ 28) ≤ℤ l }
    requires high { l ≤ℤ pos (2 ^ 28) }
    ensures value { result ≡ loss w l }
    ensures low { negsuc (2 ^ 55) ≤ℤ result }
    ensures high { result ≤ℤ pos (2 ^ 57) }
{
    if w.known {
        128 * at_known(l, w.out) - fixed(w)
    } else {
        share(square(l), w.weight).cast_signed()
    }
}

/// What the interval of a row gives.
fn gain_at(w: Row, m: i64) -> i64
    requires low { negsuc (2 ^ 28) ≤ℤ m }
    requires high { m ≤ℤ pos (2 ^ 28) }
    ensures value { result ≡ gain w m }
    ensures low { negsuc (2 ^ 61 + 2 ^ 38) ≤ℤ result }
    ensures high { result ≤ℤ pos (2 ^ 61 + 2 ^ 38) }
{
    128 * at_end(m, w.low).min(at_end(m, w.high))
}

/// What a row adds to the bound.
pub(crate) fn part_at(w: Row, before: Row, m: i64, l: i64) -> i64
    requires m_low { negsuc (2 ^ 28) ≤ℤ m }
    requires m_high { m ≤ℤ pos (2 ^ 28) }
    requires l_low { negsuc (2 ^ 28) ≤ℤ l }
    requires l_high { l ≤ℤ pos (2 ^ 28) }
    ensures value { result ≡ gain w m -ℤ loss before l }
    ensures low { negsuc (2 ^ 61 + 2 ^ 58) ≤ℤ result }
    ensures high { result ≤ℤ pos (2 ^ 61 + 2 ^ 58) }
{
    let more = gain_at(w, m);
    let less = loss_at(before, l);
    more - less
}

/// What the last two places take of the bound.
pub(crate) fn left_at(before: Row, last: Row, q: i64, p: i64) -> i64
    requires q_low { negsuc (2 ^ 28) ≤ℤ q }
    requires q_high { q ≤ℤ pos (2 ^ 28) }
    requires p_low { negsuc (2 ^ 28) ≤ℤ p }
    requires p_high { p ≤ℤ pos (2 ^ 28) }
    ensures value { result ≡ loss before q +ℤ loss last p }
    ensures low { negsuc (2 ^ 58) ≤ℤ result }
    ensures high { result ≤ℤ pos (2 ^ 58) }
{
    let one = loss_at(before, q);
    let two = loss_at(last, p);
    one + two
}
