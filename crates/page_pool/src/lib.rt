//! A growing list of plain items in pages of 1,024, which lie in raw memory and never move.
#![tactic(auto)]

mod by_place;
mod growth;
mod memory;
mod page;
mod pool;

pub use pool::Pool;
