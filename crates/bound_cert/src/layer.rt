ghost use Rattle.std.specs.Prelude.{◌≡◌, ◌≤◌, ◌<◌, ◌+◌, ◌^◌, ◌∷◌, length, option_map, IfSome};
ghost use Rattle.box_layers.specs.Cells.{nth, value_of, IsAscending};
ghost use Rattle.bound_cert.specs.Content.{next_of, found_at, end_of, AreSorted};
ghost use Rattle.box_layers.specs.Bound.{IsBound, past_of};
ghost use Rattle.bound_cert.specs.Places.{here_at, StandHere, Fit, layers_at};

use crate::fields::{cell_in, key_in, u32_in, u64_in, value_in};
use box_layers::{CellList, CellValue, Key, is_key_before, is_key_same};
use machine_core::Cell;
use std::marker::Model;

/// A layer of a certificate, over the certificate's bytes.
#[derive(Drop)]
pub struct LayerView<'b> {
    bytes: &'b [u8],
    at: usize,
    left: u32,
}

impl<'b> Model for LayerView<'b> {
    ghost use Rattle.bound_cert.specs.Content.{Here};

    ghost Value = { Here };

    ghost use Rattle.bound_cert.specs.Places.{here_at, StandHere, Fit, layers_at};

    ghost view = { λ v. here_at v.bytes.now v.at v.left };

    ghost invariant = { λ v. StandHere v.bytes.now v.at v.left };
}

impl<'b> LayerView<'b> {
    pub(crate) fn over(bytes: &'b [u8], at: usize, left: u32) -> LayerView<'b>
        requires { StandHere bytes.now at left }
        ensures { result ≡ here_at bytes.now at left }
    {
        LayerView { bytes, at, left }
    }

    /// Where the layer stands.
    pub fn key(&self) -> Key
        ensures { result ≡ self.now.layer.key }
    {
        key_in(self.bytes, self.at)
    }

    /// The number of its cells.
    pub fn cells(&self) -> u32
        ensures { result ≡ length self.now.layer.cells }
    {
        u32_in(self.bytes, self.at + 6)
    }

    /// Cell i, with its value.
    pub fn cell(&self, i: u32) -> CellValue
        requires { i < length self.now.layer.cells }
        ensures { result ≡ nth self.now.layer.cells i }
    {
        value_in(self.bytes, self.at + 10 + 12 * i as usize)
    }

    /// Cell i without its value.
    fn cell_alone(&self, i: usize) -> Cell
        requires { i < length self.now.layer.cells }
        ensures { result ≡ (nth self.now.layer.cells i).cell }
    {
        cell_in(self.bytes, self.at + 10 + 12 * i)
    }

    /// The value of cell i.
    fn value_alone(&self, i: usize) -> u64
        requires { i < length self.now.layer.cells }
        ensures { result ≡ (nth self.now.layer.cells i).value }
    {
        u64_in(self.bytes, self.at + 14 + 12 * i)
    }

    /// Its cells ascend.
    pub fn ascends(&self)
        ensures { IsAscending self.now.layer.cells }
    {
        let _ = &self.left;
    }

    /// Where the layer begins.
    pub fn at(&self) -> u64
        ensures { result ≡ self.now.at }
    {
        self.at as u64
    }

    /// The next layer of the segment.
    pub fn next(&self) -> Option<LayerView<'b>>
        ensures { result ≡ next_of self.now }
    {
        if self.left == 0 {
            return None;
        }
        let count = u32_in(self.bytes, self.at + 6);
        Some(LayerView {
            bytes: self.bytes,
            at: self.at + 10 + 12 * count as usize,
            left: self.left - 1,
        })
    }

    /// It has cells, its cells ascend, and the layers after it ascend from it.
    pub fn sorted(&self)
        ensures { AreSorted (self.now.layer ∷ self.now.later) }
    {
        let _ = &self.left;
    }

    /// The first of the layers after it that has a key.
    pub fn later_layer(&self, key: Key) -> Option<LayerView<'b>>
        ensures { result ≡ found_at (end_of self.now.at (length self.now.layer.cells)) self.now.later key }
    {
        let start = self.at + 10 + 12 * u32_in(self.bytes, self.at + 6) as usize;
        match find_later(self.bytes, start, self.left, key) {
            Some((at, left)) => Some(LayerView {
                bytes: self.bytes,
                at,
                left,
            }),
            None => None,
        }
    }
}

impl<'b> CellList for LayerView<'b> {
    ghost listed = { λ here. here.layer.cells };

    fn count(&self) -> usize {
        self.cells() as usize
    }

    fn cell_at(&self, i: usize) -> Cell {
        self.cell_alone(i)
    }

    fn value_at(&self, i: usize) -> u64 {
        self.value_alone(i)
    }
}

// The place of the first of so many layers that has a key, and the number of layers after it.
fn find_later(bytes: &[u8], start: usize, count: u32, key: Key) -> Option<(usize, u32)>
    requires fit { Fit bytes.now start count }
    requires sorted { AreSorted (layers_at bytes.now start count) }
    ensures found { option_map (λ r. here_at bytes.now r.0 r.1) result ≡ found_at start (layers_at bytes.now start count) key }
    ensures stands { IfSome result (λ r. StandHere bytes.now r.0 r.1) }
{
    let mut at = start;
    for k in 0..count {
        let here = key_in(bytes, at);
        if is_key_before(here, key) {
            at = at + 10 + 12 * u32_in(bytes, at + 6) as usize;
        } else if is_key_same(here, key) {
            return Some((at, count - k - 1));
        } else {
            return None;
        }
    }
    None
}
