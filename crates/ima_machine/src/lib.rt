//! IMA ADPCM of WAVE files: decoding and spelling of blocks, and floors under a block's error.
#![tactic(auto)]

mod block;
mod chain;
mod costs;
mod fault;
mod head;
mod image;
mod laws;
mod machine;
mod nearest;
mod quick;
mod step;
mod steps;
mod stored;
mod symbols;
mod taken;

pub use fault::ImaFault;
pub use head::check_head;
pub use laws::{
    blocks_are_read_in_place, floor_is_least, floors_hold, read_is_spelled, spelled_is_read,
    step_sizes_rise,
};
pub use machine::Ima;
pub use stored::{code_at, first_at, head_at};
