use crate::bounded::Ranked;
use machine_core::State;

/// A list of codes of a block as the search by step indices keeps it: its end, and where it came from.
#[derive(Clone, Copy, Debug, PartialEq, Eq)]
pub(crate) struct Slot {
    /// What it costs, in squared 16-bit steps.
    pub(crate) sum: u64,
    /// The state after it.
    pub(crate) state: State,
    /// The cell of its output: of those in one cell the cheaper is kept.
    pub(crate) cell: u32,
    /// How it came about.
    pub(crate) step: Step,
}

/// The last sample of a list of codes.
#[derive(Clone, Copy, Debug, PartialEq, Eq)]
pub(crate) struct Step {
    /// The number of the list that it extends among all that were kept a sample earlier, or the head before the first sample.
    pub(crate) from: u32,
    /// The symbol.
    pub(crate) symbol: u32,
}

impl Ranked for Slot {
    ghost state_of = { λ s. s.state };

    fn sum(&self) -> u64 {
        self.sum
    }

    /// Whether they are in one cell of their index, whatever the grain.
    fn is_like(&self, other: &Slot, _grain: u32) -> bool {
        self.cell == other.cell
    }
}
