/// Where a row of nodes lies: in the layers from one on, before another.
#[derive(Clone, Copy, Debug, PartialEq, Eq)]
pub struct Row {
    /// The first of its layers.
    pub from: usize,
    /// The first layer behind it.
    pub end: usize,
}
