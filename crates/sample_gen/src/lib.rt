//! A test sound that a number gives: 1,024 frames of noise that wanders, and its WAVE file.
//!
//! All of it is this project's own choice. Frames are signed 16-bit steps.
#![tactic(auto)]

mod file;
mod laws;
mod sound;
mod walker;

pub use file::make_wave;
pub use laws::made_wave_is_read;
pub use sound::frames;
