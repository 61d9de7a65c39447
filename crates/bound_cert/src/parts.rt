ghost use Rattle.std.specs.Prelude.{◌≡◌};

use box_layers::{CellValue, Key};
use std::marker::Model;

/// A layer of a certificate that is to be written, seen as its key and its cells with their values.
#[derive(Drop)]
pub struct LayerCells {
    place: Key,
    values: Vec<CellValue>,
}

impl Model for LayerCells {
    ghost use Rattle.bound_cert.specs.Content.{Layer};

    ghost Value = { Layer };

    ghost view = { λ v. record { key = v.place; cells = v.values.items } };
}

impl LayerCells {
    /// A layer of these cells, which is not copied.
    pub fn new(key: Key, cells: Vec<CellValue>) -> LayerCells
        ensures { result ≡ record { key = key; cells = cells.items } }
    {
        LayerCells {
            place: key,
            values: cells,
        }
    }

    /// Where it stands.
    pub fn key(&self) -> Key
        ensures { result ≡ self.now.key }
    {
        self.place
    }

    /// Its cells with their values, in squared 16-bit steps.
    pub fn cells(&self) -> &[CellValue]
        ensures { result.now ≡ self.now.cells }
    {
        self.values.as_slice()
    }
}

/// A segment of a certificate that is to be written, seen as its numbers and its layers.
#[derive(Drop)]
pub struct SegmentCert {
    block_count: u32,
    step: u32,
    value: u64,
    rows: Vec<LayerCells>,
}

impl Model for SegmentCert {
    ghost use Rattle.bound_cert.specs.Content.{Plain};

    ghost Value = { Plain };

    ghost view = { λ v. record { blocks = v.block_count; level = v.step; bound = v.value; layers = v.rows.items } };
}

impl SegmentCert {
    /// A segment of so many blocks, with the level of its cells (255 for a bound by floors alone), its bound and its layers, which are not copied.
    pub fn new(blocks: u32, level: u32, bound: u64, layers: Vec<LayerCells>) -> SegmentCert
        ensures { result ≡ record { blocks = blocks; level = level; bound = bound; layers = layers.items } }
    {
        SegmentCert {
            block_count: blocks,
            step: level,
            value: bound,
            rows: layers,
        }
    }

    /// The number of its blocks.
    pub fn blocks(&self) -> u32
        ensures { result ≡ self.now.blocks }
    {
        self.block_count
    }

    /// The level of its cells, 255 for a bound by floors alone.
    pub fn level(&self) -> u32
        ensures { result ≡ self.now.level }
    {
        self.step
    }

    /// Its bound, in squared 16-bit steps.
    pub fn bound(&self) -> u64
        ensures { result ≡ self.now.bound }
    {
        self.value
    }

    /// Its layers.
    pub fn layers(&self) -> &[LayerCells]
        ensures { result.now ≡ self.now.layers }
    {
        self.rows.as_slice()
    }
}
