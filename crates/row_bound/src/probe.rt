ghost use Rattle.std.specs.Prelude.{◌≡◌, ◌≤◌, ◌+◌, ◌*◌, ◌^◌, ℕ, ℤ, pos, List, ◌++◌, ◌∷◌, [], length, true, false};
ghost use Rattle.adpcm_nums.specs.Nums.{square_of};
ghost use Rattle.row_bound.specs.declared.row.Row.{Row};
ghost use Rattle.row_bound.specs.declared.layer.Layer.{Layer};
ghost use Rattle.row_bound.specs.Paths.{Owes};
ghost use Rattle.row_bound.specs.Guards.{Tells};

use crate::advice::{Advice, propose};
use crate::floor::floor_of_rows;
use crate::multiply::square_known;
use crate::parts::factor_at;
use crate::row::Row;

/// What was found of a row: a bound, and on which side of the row it only grows.
#[derive(Clone, Copy, Debug, PartialEq, Eq)]
pub(crate) struct Verdict {
    /// The bound under the paths that go on with the row.
    pub floor: u64,
    /// Whether it grows as the interval moves up; otherwise it grows as it moves down.
    pub rises: bool,
}

/// The bound of rows by the factors that are proposed for them.
fn probe(rows: &[Row], trail: &[Advice], v: Row, u: Row, rest: u64) -> Verdict
    requires some { 1 ≤ length rows.now }
    requires rest { rest ≤ 2 ^ 48 }
    requires v { v.known ≡ false }
    requires u { u.known ≡ false }
    ensures { (steps : List ℤ) (ws : List Row) (layers : List Layer) (w : Row) → rows.now ≡ ws ++ (w ∷ []) → Owes steps layers rest
        → Tells steps v u ws layers w result.floor result.rises }
{
    let mus = propose(trail);
    let floor = floor_of_rows(rows, &mus, v, u, rest);
    let factor = factor_at(&mus, rows.len() - 1);
    if factor >= 0 {
        Verdict { floor, rises: true }
    } else {
        Verdict {
            floor,
            rises: false,
        }
    }
}

/// What a known error and the places after it cost alone.
fn fixed_floor(row: Row, rest: u64) -> u64
    requires rest { rest ≤ 2 ^ 48 }
    ensures { result ≡ row.weight * square_of row.out + rest }
{
    row.weight * square_known(row.out) + rest
}

/// The bound of rows, as far as it is needed: a known error may cost enough alone, and where the reckoning says that the
/// places so far and the rest cost less than `found`, nothing is computed unless `ends` asks for it.
pub(crate) fn judged(
    rows: &[Row],
    trail: &[Advice],
    v: Row,
    u: Row,
    row: Row,
    rest: u64,
    found: u64,
    ends: bool,
) -> Verdict
    requires some { 1 ≤ length rows.now }
    requires rest { rest ≤ 2 ^ 48 }
    requires v { v.known ≡ false }
    requires u { u.known ≡ false }
    ensures { (steps : List ℤ) (ws : List Row) (layers : List Layer) → rows.now ≡ ws ++ (row ∷ []) → Owes steps layers rest
        → Tells steps v u ws layers row result.floor result.rises }
{
    if row.known {
        let floor = fixed_floor(row, rest);
        if floor >= found {
            return Verdict { floor, rises: true };
        }
    } else if !ends && seems_less(trail, rest, found) {
        return Verdict {
            floor: 0,
            rises: true,
        };
    }
    probe(rows, trail, v, u, rest)
}

/// Whether the reckoning is clearly below what was found.
fn seems_less(trail: &[Advice], rest: u64, found: u64) -> bool {
    let k = trail.len();
    k > 0
        && trail[k - 1].cost.wrapping_add(rest.cast_signed()) < (found - found / 1024).cast_signed()
}
