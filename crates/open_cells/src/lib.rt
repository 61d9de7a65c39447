//! The cells that relaxed paths reach before each sample of a segment, with the least cost of a path to each.
//!
//! A relaxed path goes from cell to cell over the pieces of boxes; it is open where its cost and the floor under what is left are below a known sum.
#![tactic(auto)]

mod corners;
mod layers;
mod looking;
mod node;
mod rank;
mod relaxing;
mod row;
mod runs;
mod sample_cells;
mod search;
mod sorting;
mod stepping;

pub use corners::{high_cell, low_cell, near_at, span};
pub use layers::all_layers;
pub use looking::listed;
pub use node::{Halt, Node};
pub use relaxing::pieces_of;
pub use sample_cells::SampleCells;
pub use search::Search;
