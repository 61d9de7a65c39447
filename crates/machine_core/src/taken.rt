use crate::state::State;

/// One sample that comes as near to its target as it can.
#[derive(Clone, Copy, Debug, PartialEq, Eq)]
pub struct Taken {
    /// The first symbol of least cost.
    pub symbol: u32,
    /// The state after it.
    pub state: State,
    /// Its squared error.
    pub cost: u64,
}
