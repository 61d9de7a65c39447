ghost use Rattle.std.specs.Prelude.{◌≡◌, ◌≤◌, ◌+◌, ◌*◌, ◌^◌, ℕ, ℤ, pos, negsuc, ◌+ℤ◌, ◌≤ℤ◌, List, false};
ghost use Rattle.row_bound.specs.declared.row.Row.{Row};
ghost use Rattle.row_bound.specs.declared.layer.Layer.{Layer};
ghost use Rattle.row_bound.specs.Paths.{Owes, OwesFrom};
ghost use Rattle.row_bound.specs.Bound.{bound};

use crate::dual::dual_value;
use crate::row::Row;

/// A bound with what the places after it cost, not 4096-fold any more.
fn with_rest(value: i64, rest: u64) -> u64
    requires low { negsuc (2 ^ 61) ≤ℤ value }
    requires high { value ≤ℤ pos (2 ^ 61) }
    requires rest { rest ≤ 2 ^ 48 }
    ensures { (n : ℕ) → (value +ℤ pos (4096 * rest)) ≤ℤ pos (4096 * n) → result ≤ n }
{
    let total = value + (4096 * rest).cast_signed();
    if total < 0 {
        0
    } else {
        total.unsigned_abs().div_ceil(4096)
    }
}

/// What the paths that begin with these rows cost at least, where those of the layers after them cost `rest`: by any
/// factors. The same holds of other rows whose bound is not less.
pub(crate) fn floor_of_rows(rows: &[Row], mus: &[i64], v: Row, u: Row, rest: u64) -> u64
    requires rest { rest ≤ 2 ^ 48 }
    requires v { v.known ≡ false }
    requires u { u.known ≡ false }
    ensures outward { (steps : List ℤ) (ws : List Row) (layers : List Layer) → bound rows.now mus.now 0 v u (pos 0) (pos 0) ≤ℤ bound ws mus.now 0 v u (pos 0) (pos 0)
        → Owes steps layers rest → OwesFrom steps v u ws layers result }
{
    match dual_value(rows, mus, v, u) {
        Some(value) => with_rest(value, rest),
        None => 0,
    }
}
