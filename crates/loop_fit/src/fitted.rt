use adpcm_nums::{LoopAt, Samples};

/// A sound fitted to whole blocks: what an encoder is to come close to.
#[derive(Debug, Drop)]
pub struct Fitted {
    /// What each output is compared with, in 16-bit steps: whole blocks of them.
    pub targets: Samples,
    /// The number of blocks, 1 to 4,096.
    pub blocks: u32,
    /// In BRR and SPU-ADPCM the first block of the loop, which goes to the last block's end.
    pub loop_block: Option<u32>,
    /// The zeros before the sound.
    pub front: u32,
    /// How often the source's loop stands among the targets.
    pub unroll: u32,
    /// The frames of the source.
    pub frames: u32,
    /// In IMA ADPCM the loop of the source, whose frames are also those of the targets.
    pub loop_frames: Option<LoopAt>,
}
