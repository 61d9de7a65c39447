//! A strong lower bound under what a block costs.
#![tactic(auto)]

mod advice;
mod block;
mod done;
mod dual;
mod floor;
mod ladder;
mod laws;
mod layer;
mod multiply;
mod parts;
mod pick;
mod probe;
mod row;
mod search;
mod suffix;
mod table;

pub use block::block_bound;
pub use done::{Done, Side};
pub use ladder::is_ladder;
pub use laws::{clamp_lemma, direction_lemma, dual_lemma, sum_theorem};
pub use layer::Layer;
pub use row::Row;
