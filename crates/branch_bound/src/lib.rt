//! The search of a segment for a bound under every legal list of blocks, and for its least list.
#![tactic(auto)]

mod backward;
mod finding;
mod keyed;
mod levels;
mod looks;
mod next_layer;
mod searching;
mod top;
mod walking;

pub use top::{Found, bound_search};
