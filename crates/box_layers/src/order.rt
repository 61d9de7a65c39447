ghost use Rattle.std.specs.Prelude.{◌≡◌};
ghost use Rattle.box_layers.specs.Cells.{before, in_range, same_cell};

use machine_core::Cell;

/// Whether a cell stands before another: by its first number, then by its second.
#[tactic(auto, unfolding(crate::specs::Cells::before))]
pub fn is_before(c: Cell, d: Cell) -> bool
    ensures { result ≡ before c d }
{
    if c.a < d.a {
        true
    } else if d.a < c.a {
        false
    } else {
        c.b < d.b
    }
}

fn is_in(low: i32, high: i32, x: i32) -> bool
    ensures { result ≡ in_range low high x }
{
    low <= x && x <= high
}

/// Whether two cells are the same.
#[tactic(auto, unfolding(crate::specs::Cells::same_cell))]
pub fn is_same(c: Cell, d: Cell) -> bool
    ensures { result ≡ same_cell c d }
{
    is_in(c.a, c.a, d.a) && is_in(c.b, c.b, d.b)
}
