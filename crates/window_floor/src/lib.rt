//! Floors under the error of a few places of a block that a filter ties together.
//!
//! A filter predicts a sample from the two outputs before it, up to rounding. So the errors of two or three places in a
//! row keep a linear equation, and where the targets miss that equation by E the squared errors sum to at least
//! `E² / (D² + A² + B²)`, unless the last output was clamped. This is plain algebra: the decoders come in only through
//! the numbers of their filters. Where the samples are the levels of a uniform quantizer, the nearest are found by
//! dividing.
#![tactic(auto)]

mod block;
mod floor;
mod levels;
mod miss;
mod places;
mod quantizer;
mod table;
mod theorem;
mod window;

pub use block::BlockWindows;
pub use floor::linear_floor;
pub use levels::quantizer_floor;
pub use quantizer::Quantizer;
pub use table::{fill_floors, floor_below};
pub use theorem::{
    floors_fit, floors_hold, miss_is_least, no_pair_is_cheaper, no_three_are_cheaper,
    three_products,
};
pub use window::Window;
