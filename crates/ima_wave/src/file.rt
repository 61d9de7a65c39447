use adpcm_nums::{Bytes, LoopAt};

/// What a WAVE file of IMA ADPCM holds.
#[derive(Debug, Drop)]
pub struct ImaFile {
    /// Frames per second.
    pub rate: u32,
    /// The size of a block in bytes, a multiple of 4 in 8..=1024.
    pub align: u32,
    /// How many frames are heard; the rest of the blocks' samples is not.
    pub frames: u32,
    /// The loop, in frames, where there is one.
    pub at: Option<LoopAt>,
    /// The whole blocks, one behind the other.
    pub blocks: Bytes,
}
