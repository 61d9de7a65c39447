ghost use Rattle.std.specs.Prelude.{◌≡◌, ◌≤◌, ◌^◌, ℤ, pos, negsuc, ◌≤ℤ◌, length, true, IfSome};
ghost use Rattle.row_bound.specs.Bound.{bound};

use crate::multiply::{lessened, scaled};
use crate::parts::{factor_at, left_at, part_at};
use crate::row::Row;

/// Whether a number is within ±2^28, so that its square has room.
fn is_small(x: i64) -> bool
    ensures low { result ≡ true → negsuc (2 ^ 28) ≤ℤ x }
    ensures high { result ≡ true → x ≤ℤ pos (2 ^ 28) }
{
    x >= -268_435_456 && x <= 268_435_456
}

/// Whether a sum is within ±2^60, so that a part more has room.
fn has_room(x: i64) -> bool
    ensures low { result ≡ true → negsuc (2 ^ 60) ≤ℤ x }
    ensures high { result ≡ true → x ≤ℤ pos (2 ^ 60) }
{
    x >= -1_152_921_504_606_846_976 && x <= 1_152_921_504_606_846_976
}

/// The dual bound of rows, 4096-fold, where v and u are the two places before them; none where a number on the way has no
/// room in 64 bits, which only far-fetched factors bring about.
pub(crate) fn dual_value(rows: &[Row], mus: &[i64], v: Row, u: Row) -> Option<i64>
    ensures value { IfSome result (λ r. r ≡ bound rows.now mus.now 0 v u (pos 0) (pos 0)) }
    ensures low { IfSome result (λ r. negsuc (2 ^ 61) ≤ℤ r) }
    ensures high { IfSome result (λ r. r ≤ℤ pos (2 ^ 61)) }
{
    let mut total = 0;
    let mut q = 0;
    let mut p = 0;
    let mut last = u;
    let mut before = v;
    for i in 0..rows.len() {
        let w = rows[i];
        let m = factor_at(mus, i);
        let l = lessened(q, w.b, m);
        if !is_small(l) {
            return None;
        }
        if !has_room(total) {
            return None;
        }
        total += part_at(w, before, m, l);
        q = lessened(p, w.a, m);
        p = scaled(w.d, m);
        before = last;
        last = w;
    }
    if !is_small(q) || !is_small(p) || !has_room(total) {
        return None;
    }
    Some(total - left_at(before, last, q, p))
}
