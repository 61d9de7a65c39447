/// A sample of a segment, with its block and its place there.
#[derive(Clone, Copy, Debug, PartialEq, Eq)]
pub struct Spot {
    /// The sample, from the segment's start.
    pub index: u32,
    /// Its block.
    pub block: u32,
    /// Its place in the block.
    pub place: u32,
}
