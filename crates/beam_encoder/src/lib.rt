//! The beam: a list of blocks for one segment whose error is small, though not always the least, found block after block.
#![tactic(auto)]

mod bounded;
mod history;
mod laws;
mod layer;
mod layers;
mod near;
mod node;
mod spell;
mod top;

pub use laws::{blocks_are_counted, sorted_rises};
pub use node::Node;
pub use top::beam;
