/// A loop of a sound: its first frame and its last, which is played too (RIFF WAVE, `smpl`).
#[derive(Clone, Copy, Debug, PartialEq, Eq)]
pub struct LoopAt {
    /// The first frame, from 0.
    pub start: u32,
    /// The last frame, which is played.
    pub end: u32,
}
