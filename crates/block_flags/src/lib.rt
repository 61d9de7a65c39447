//! The flags of blocks in BRR and SPU-ADPCM: what is written, and how stored bytes split at them.
#![tactic(auto)]

mod flags;
mod split;

pub use flags::{FlagSet, flagged, flags_of};
pub use split::{Split, SplitFault, split_blocks};
