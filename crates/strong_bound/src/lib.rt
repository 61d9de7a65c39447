//! A bound near the error, under every list of blocks of a linear decoder.
//!
//! Each block has a window of its own samples and the two before it. A bound under what the window counts, whatever the head,
//! is found block by block, and samples that two windows share belong half to each: half the sum of the bounds is under the
//! error of all blocks.
#![tactic(auto)]

mod codes;
mod greedy;
mod heads;
mod laws;
mod quiet;
mod rests;
mod states;
mod suffixes;
mod whole;
mod window;

pub use heads::{Counting, block_bound_of};
pub use laws::blocks_give_outputs;
pub use whole::strong_bound;
