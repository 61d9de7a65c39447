use machine_core::State;

/// A prefix of a segment's blocks, as the beam keeps it: its last block, and where the blocks before it are kept.
///
/// So no list is copied for the prefixes that are made of it.
#[derive(Clone, Copy, Debug, PartialEq, Eq)]
pub struct Node {
    /// The place of what it extends among the prefixes kept a block earlier, from 0.
    pub parent: u32,
    /// Its last block's head.
    pub head: u32,
    /// What its blocks cost, in squared 16-bit steps.
    pub sum: u64,
    /// The state after them.
    pub state: State,
}
