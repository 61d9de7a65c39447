use machine_core::Kind;

/// How a loop is brought to whole blocks in BRR and SPU-ADPCM (this project's own choice).
#[derive(Clone, Copy, Debug, PartialEq, Eq)]
pub enum Length {
    /// Its length must be a multiple of the samples of a block.
    Exact,
    /// It is repeated until its length is one.
    Unroll,
}

/// How a loop's start is brought to the start of a block in BRR and SPU-ADPCM (this project's own choice).
#[derive(Clone, Copy, Debug, PartialEq, Eq)]
pub enum Start {
    /// Zeros come before the sound.
    Front,
    /// The loop begins later in its round.
    Rotate,
}

/// How a sound is fitted to blocks.
#[derive(Clone, Copy, Debug, PartialEq, Eq)]
pub struct FitRule {
    /// The format of the blocks.
    pub kind: Kind,
    /// Samples in a block: 16 in BRR, 28 in SPU-ADPCM, `2 * (bytes - 4) + 1` in IMA ADPCM.
    pub block: u32,
    /// How a loop's length is fitted.
    pub length: Length,
    /// How a loop's start is fitted.
    pub start: Start,
}
