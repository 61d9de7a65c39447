use adpcm_nums::{LoopAt, Samples};

/// From which playing of a loop on all are equal. Playings are counted from 0, the one in the first pass.
#[derive(Clone, Copy, Debug, PartialEq, Eq)]
pub enum Settles {
    /// There is no loop.
    NoLoop,
    /// This playing, of 0 to 63, is the first that is given again by the next one.
    From {
        /// That playing.
        playing: u32,
    },
    /// None of the playings 0 to 63 is given again by the next one.
    Unsettled,
}

/// An entry of a bank as samples.
///
/// Where it settles or has no loop, the samples and then their loop for ever are what its player gives. Where it does not
/// settle they are the first pass with its loop.
#[derive(Debug, Drop)]
pub struct Recovered {
    /// Its samples a second.
    pub rate: u32,
    /// The player's outputs times the format's scale, up to the end of the playing that is kept as the loop. Of IMA ADPCM
    /// all frames, those behind the loop too.
    pub samples: Samples,
    /// The loop, in samples.
    pub loop_at: Option<LoopAt>,
    /// From which playing on the loop stays the same.
    pub settles: Settles,
    /// Of a VAG file the bytes behind the end block, else 0.
    pub trailing: u64,
}
