use thiserror::Error;

/// The first listed cell, in the order of the file, whose value is above what is found.
#[derive(Clone, Copy, Debug, PartialEq, Eq, Error)]
#[error("CellFault {layer} {cell} {value} {found}")]
pub struct CellFault {
    /// The number of its layer in the segment, from 0.
    pub layer: u32,
    /// Its number in the layer, from 0.
    pub cell: u32,
    /// Its value.
    pub value: u64,
    /// The least way on from it.
    pub found: u64,
}
