//! WAVE files (RIFF WAVE) of one or two channels and 8 or 16 bits: where their chunks lie, what sound they
//! hold, and how a sound is written.
//!
//! Places and lengths are in bytes. Samples are signed 16-bit steps, and a frame has one sample of each channel.
#![tactic(auto)]

mod chunk_walk;
mod chunks;
mod fault;
mod format;
mod frames;
mod laws;
mod reading;
mod riff;
mod span;
mod wave;
mod writing;

pub use chunk_walk::walk;
pub use chunks::Chunks;
pub use fault::WaveFault;
pub use laws::{
    length_of_a_chunk, written_chunks_are_found, written_loop_is_read, written_sound_is_read,
};
pub use reading::read_wave;
pub use riff::{put_chunk, put_chunk_head, put_riff_head, put_u16, put_u32};
pub use span::Span64;
pub use wave::Wave;
pub use writing::{write_wave, write_wave_loop};
