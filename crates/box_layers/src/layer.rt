ghost use Rattle.std.specs.Prelude.{◌≡◌, length};

use crate::cell_list::CellList;
use crate::key::Key;
use machine_core::Cell;

/// A layer of cells in memory, ascending by their first number, then by their second.
#[derive(Clone, Copy, Debug, Drop)]
pub struct Layer<'a> {
    /// Where it stands.
    pub key: Key,
    /// The cells.
    pub cells: &'a [Cell],
    /// Their values, in squared 16-bit steps.
    pub values: &'a [u64],
    ghost same_length: { length values.now ≡ length cells.now },
}

impl<'a> CellList for Layer<'a> {
    ghost use Rattle.box_layers.specs.Pairs.{paired};

    ghost listed = { λ l. paired l.cells.now l.values.now };

    fn count(&self) -> usize {
        self.cells.len()
    }

    fn cell_at(&self, i: usize) -> Cell {
        self.cells[i]
    }

    fn value_at(&self, i: usize) -> u64 {
        self.values[i]
    }
}
