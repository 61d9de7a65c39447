//! Whole-number arithmetic, and the small owned types that the other crates share.
//!
//! Samples are signed 16-bit steps; sums of squares are in squared 16-bit steps.
#![tactic(auto)]

mod arithmetic;
mod bytes;
mod limits;
mod loop_at;
mod nearest;
mod nibbles;
mod no_memory;
mod samples;
mod span;
mod text;
mod words32;

pub use arithmetic::{clamp16, floor_div, floor_shift, square, wrap15};
pub use bytes::Bytes;
pub use limits::{
    MOST_BLOCKS, MOST_CERTIFICATE, MOST_MANIFEST, MOST_SAMPLES, MOST_SOURCE, MOST_STORED,
};
pub use loop_at::LoopAt;
pub use nearest::{distance_in, multiple};
pub use nibbles::{cheaper, nibble_at, nibble_value, nibbles_around};
pub use no_memory::NoMemory;
pub use samples::Samples;
pub use span::Span;
pub use text::Text;
pub use words32::Words32;
