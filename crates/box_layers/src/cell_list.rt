ghost use Rattle.std.specs.Prelude.{◌≡◌, ◌<◌, ◌≤◌, List, length, Option};
ghost use Rattle.box_layers.specs.Bound.{IsBound, past_of};
ghost use Rattle.box_layers.specs.Cells.{IsAscending, nth, value_of};
ghost use Rattle.box_layers.specs.declared.cell_value.CellValue.{CellValue};

use crate::order::{is_before, is_same};
use machine_core::Cell;

/// What lists cells with their values: a layer in memory, or one in a file's bytes.
pub trait CellList {
    /// The cells with their values.
    ghost listed: { Self → List CellValue };

    /// The number of cells.
    fn count(&self) -> usize
        ensures { result ≡ length (listed self.now) };

    /// Cell i.
    fn cell_at(&self, i: usize) -> Cell
        requires { i < length (listed self.now) }
        ensures { result ≡ (nth (listed self.now) i).cell };

    /// The value of cell i, in squared 16-bit steps.
    fn value_at(&self, i: usize) -> u64
        requires { i < length (listed self.now) }
        ensures { result ≡ (nth (listed self.now) i).value };
}

/// The number of cells that stand before a cell, by binary search.
pub fn seek<L: CellList>(list: &L, c: Cell) -> usize
    requires { IsAscending (L.listed list.now) }
    ensures { IsBound (L.listed list.now) c result }
{
    let mut low = 0;
    let mut high = list.count();
    while low < high {
        let mid = low + (high - low) / 2;
        if is_before(list.cell_at(mid), c) {
            low = mid + 1;
        } else {
            high = mid;
        }
    }
    low
}

/// The value that is listed for a cell, where so many cells stand before it, and the place after the cell.
pub fn taken_at<L: CellList>(list: &L, c: Cell, i: usize) -> (Option<u64>, usize)
    requires ascends { IsAscending (L.listed list.now) }
    requires place { IsBound (L.listed list.now) c i }
    ensures value { result.0 ≡ value_of (L.listed list.now) c }
    ensures place { result.1 ≡ past_of i (value_of (L.listed list.now) c) }
{
    if i < list.count() {
        if is_same(list.cell_at(i), c) {
            (Some(list.value_at(i)), i + 1)
        } else {
            (None, i)
        }
    } else {
        (None, i)
    }
}

/// The value that is listed for a cell.
pub fn listed_value<L: CellList>(list: &L, c: Cell) -> Option<u64>
    requires { IsAscending (L.listed list.now) }
    ensures { result ≡ value_of (L.listed list.now) c }
{
    let (value, _) = taken_at(list, c, seek(list, c));
    value
}
