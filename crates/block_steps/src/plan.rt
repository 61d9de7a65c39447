/// What the ways on from a cell are found by: the targets, the floors of a block under each head, and the sums of the floors from each block on.
#[derive(Drop)]
pub struct Plan<'a> {
    /// A target for each sample of the segment.
    pub targets: &'a [i32],
    /// A table of floors for each head, of the block that is in work.
    pub rows: &'a [u64],
    /// What the floors come to from each block on.
    pub later: &'a [u64],
    /// Blocks of the segment.
    pub blocks: u32,
    /// Samples of the segment.
    pub end: u32,
    /// The level of the cells.
    pub level: u32,
}
