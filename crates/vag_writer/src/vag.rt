use adpcm_nums::Bytes;

/// What a VAG file holds.
#[derive(Debug, Drop)]
pub struct Vag {
    /// Its samples a second.
    pub rate: u32,
    /// Its name, filled with zeros.
    pub name: [u8; 16],
    /// Its blocks, as they stand in the file: whole or not.
    pub blocks: Bytes,
}
