use machine_core::Cell;

/// A cell with the value that is listed for it.
#[derive(Clone, Copy, Debug, PartialEq, Eq)]
pub struct CellValue {
    /// The cell.
    pub cell: Cell,
    /// What the rest of a segment costs at least from every state of the cell, in squared 16-bit steps.
    pub value: u64,
}
