//! The sampler chunk `smpl` of WAVE files: the first loop that it holds, and the one that is written for a loop.
//!
//! Places in a sampler are bytes from its start; loop points are frames, and a loop's end is played.
#![tactic(auto)]

mod fault;
mod laws;
mod reading;
mod writing;

pub use fault::LoopFault;
pub use laws::written_loop_is_read;
pub use reading::first_loop;
pub use writing::sampler_body;
