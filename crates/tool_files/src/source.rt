use adpcm_nums::Text;
use loop_fit::Fitted;

/// A sample of a bank, read and fitted to blocks, before it is encoded.
#[derive(Debug, Drop)]
pub struct Source {
    /// The sample's name.
    pub name: Text,
    /// Its samples a second.
    pub rate: u32,
    /// The sound that its blocks are to come close to.
    pub fitted: Fitted,
}
