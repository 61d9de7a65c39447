use machine_core::Cell;
use thiserror::Error;

/// A cell in a lane, with the least cost of the paths that lead to it, or with what the rest of a segment costs from it at least, in squared 16-bit steps.
#[derive(Clone, Copy, Debug, PartialEq, Eq)]
pub struct Node {
    /// The lane, 65535 before a block's first sample.
    pub lane: u32,
    /// The cell.
    pub cell: Cell,
    /// The cost.
    pub cost: u64,
}

/// Why a list of cells is not made.
#[derive(Clone, Copy, Debug, PartialEq, Eq, Error)]
pub enum Halt {
    /// Want of memory.
    #[error("NoMemory")]
    NoMemory,
    /// There are more cells than there is room for.
    #[error("Many")]
    Many,
}
