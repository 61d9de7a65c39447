use crate::bounded::Ranked;
use crate::codes::Codes;
use machine_core::State;

/// A list of blocks as the search keeps it: its last block, and where the blocks before it are kept.
#[derive(Clone, Copy, Debug, PartialEq, Eq)]
pub(crate) struct Path {
    /// What its blocks cost, in squared 16-bit steps.
    pub(crate) sum: u64,
    /// The state after them.
    pub(crate) state: State,
    /// The place of what it extends among the paths kept a block earlier, from 0.
    pub(crate) parent: u32,
    /// Its last block's head.
    pub(crate) head: u32,
    /// Its last block's codes.
    pub(crate) codes: Codes,
}

impl Ranked for Path {
    ghost state_of = { λ p. p.state };

    fn sum(&self) -> u64 {
        self.sum
    }

    /// Whether both outputs of the states lie in one cell.
    fn is_like(&self, other: &Path, grain: u32) -> bool {
        self.state.a >> grain == other.state.a >> grain
            && self.state.b >> grain == other.state.b >> grain
    }
}
