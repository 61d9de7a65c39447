use adpcm_nums::Words32;

/// The entries of an image, a list for each of their numbers.
#[derive(Debug, Drop)]
pub(crate) struct EntryLists {
    /// Their samples a second.
    pub rates: Words32,
    /// The places of their first blocks.
    pub starts: Words32,
    /// The places at which their players go on.
    pub agains: Words32,
}
