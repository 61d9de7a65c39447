//! Paths: a list of blocks for one segment, found by going on with several lists of codes inside each block.
//!
//! What the search proposes needs no proof: it is played by the decoder and counted, and taken only where it is legal and
//! costs less than what was known.
#![tactic(auto)]

mod bounded;
mod by_codes;
mod by_index;
mod codes;
mod lists;
mod offers;
mod path;
mod played;
mod ranked;
mod slot;
mod taken;
mod top;
mod trace;
mod traced;
mod two;

pub use top::paths;
