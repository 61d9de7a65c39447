use adpcm_nums::{Bytes, Words32};

/// What an image file says. Its places are those of bytes in its memory, which begins at the base.
#[derive(Debug, Drop)]
pub struct Image {
    /// The address of the directory.
    pub base: u32,
    /// The samples a second of each entry.
    pub rates: Words32,
    /// The sound memory from the base on: the directory, and the blocks.
    pub memory: Bytes,
    /// The place of each entry's first block.
    pub starts: Words32,
    /// The place at which each entry goes on where it repeats, else that of its first block.
    pub agains: Words32,
}
