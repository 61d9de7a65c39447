use machine_core::Kind;

/// What a certificate is read for.
#[derive(Clone, Copy, Debug, Drop)]
pub struct CertShape<'s> {
    /// The format of the blocks.
    pub kind: Kind,
    /// Samples in a block.
    pub block_samples: u32,
    /// The number of blocks of each segment.
    pub segments: &'s [u32],
}

/// What bounds the layers and cells of a segment.
#[derive(Clone, Copy, Debug, PartialEq, Eq)]
pub struct Limits {
    /// The format of the blocks.
    pub kind: Kind,
    /// Samples in a block.
    pub samples: u32,
    /// Blocks of the segment.
    pub blocks: u32,
    /// The level of its cells.
    pub level: u32,
}
