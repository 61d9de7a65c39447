/// What a search reads: the targets and floors of a segment, the level of the cells, the sum that is to be beaten, and how many cells it may still keep.
#[derive(Drop)]
pub struct Search<'a> {
    /// A target for each sample of the segment.
    pub targets: &'a [i32],
    /// A row of floors for each head, of the block in work.
    pub rows: &'a [u64],
    /// What the floors come to from each block on.
    pub later: &'a [u64],
    /// Blocks of the segment.
    pub blocks: u32,
    /// Samples of the segment.
    pub end: u32,
    /// The level of the cells, 0, 4 or 8.
    pub level: u32,
    /// The sum that open paths stay below, in squared 16-bit steps.
    pub most: u64,
    /// How many cells there is room for.
    pub room: u32,
}
