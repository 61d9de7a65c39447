use adpcm_nums::Bytes;

/// A sample that is written into an image.
#[derive(Debug, Drop)]
pub struct ImagePart {
    /// Its samples a second, 1 to 1,000,000.
    pub rate: u32,
    /// Its blocks of nine bytes each, whose last alone has the end flag.
    pub blocks: Bytes,
    /// The block after the last one, exactly where that one repeats.
    pub loop_block: Option<u32>,
}
