/// What a certificate proves of a fitted sound.
#[derive(Clone, Copy, Debug, PartialEq, Eq)]
pub struct Proven {
    /// No list of blocks that may be stored for it has an error below this, in squared 16-bit steps.
    pub bound: u64,
    /// How many segments have the levels 0, 4 and 8, and how many have no cells.
    pub levels: [u32; 4],
}
