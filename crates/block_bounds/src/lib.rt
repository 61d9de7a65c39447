//! A strong lower bound under the error of a block of a linear decoder under a head, whatever its codes and the outputs before.
#![tactic(auto)]

mod bound;
mod laws;
mod place;
mod products;
mod reach;
mod steps;

pub use bound::head_bound;
pub use laws::{bounds_of_blocks, outputs_are_paths};
