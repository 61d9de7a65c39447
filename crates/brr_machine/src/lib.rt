//! The SNES's bit rate reduction: decoding and spelling of blocks, the best block of filter 0, and floors under a block's
//! error.
#![tactic(auto)]

mod block;
mod decode;
mod filter;
mod floors;
mod image;
mod least;
mod levels;
mod machine;
mod nearest;
mod plain;
mod row;
mod sample;
mod step;
mod stored;
mod taken;
mod zero;

pub use block::{BrrBlock, read_block, spell_block};
pub use decode::decode_block;
pub use floors::{floors_fit, floors_hold};
pub use machine::Brr;
pub use step::{brr_forgets, brr_output};
pub use stored::{code_at, flags_at, head_at};
pub use zero::{encode_zero, zero_is_least};
