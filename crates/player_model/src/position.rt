use machine_core::State;

/// Where a player stands before a sample.
#[derive(Clone, Copy, Debug, PartialEq, Eq)]
pub struct Position {
    /// The address of its block in memory, in bytes.
    pub address: u32,
    /// The place in the block, from 0.
    pub place: u32,
    /// The repeat register: the address at which it goes on after an end block that repeats.
    pub again: u32,
    /// The last two outputs.
    pub history: State,
    /// Whether all that comes is silent.
    pub muted: bool,
}
