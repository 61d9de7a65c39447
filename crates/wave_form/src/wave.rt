use adpcm_nums::{Bytes, Samples};

/// A sound of one channel, as a WAVE file holds it.
#[derive(Debug, Drop)]
pub struct Wave {
    /// Frames per second.
    pub rate: u32,
    /// A sample a frame.
    pub samples: Samples,
    /// The body of its `smpl` chunk, where there is one.
    pub sampler: Option<Bytes>,
}
