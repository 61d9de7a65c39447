//! Layers of cells with values, the look over the cells that a box meets, and what a certificate of a bound is.
//!
//! A value says what the rest of a segment costs at least from every state of its cell, in squared 16-bit steps.
#![tactic(auto)]

mod cell_list;
mod cell_value;
mod key;
mod laws;
mod layer;
mod layers;
mod looking;
mod order;

pub use cell_list::{CellList, listed_value, seek, taken_at};
pub use cell_value::CellValue;
pub use key::{Key, is_key_before, is_key_same};
pub use laws::{accepted_values_hold, looks_are_least};
pub use layer::Layer;
pub use layers::Layers;
pub use looking::{Seen, look, see_box};
pub use order::{is_before, is_same};
