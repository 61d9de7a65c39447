/// How far a search over a layer's rows has come: the steps from `low` to below `high` are done, and of the rows apart the
/// first `apart`.
#[derive(Clone, Copy, Debug, PartialEq, Eq)]
pub struct Done {
    /// The least step that is done.
    pub low: usize,
    /// The least step above that is not.
    pub high: usize,
    /// How many rows apart are done.
    pub apart: usize,
}

/// Where the next row is taken.
#[derive(Clone, Copy, Debug, PartialEq, Eq)]
pub enum Side {
    /// At the next step up.
    Up,
    /// At the next step down.
    Down,
    /// Among the rows apart.
    Apart,
}
