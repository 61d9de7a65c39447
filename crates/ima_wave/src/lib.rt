//! IMA ADPCM in WAVE files of one channel (format tag 0x0011), written and read (IMA recommended practices, 1992; RIFF WAVE).
//!
//! Places and lengths are in bytes, rates in frames per second; a frame is one sample.
#![tactic(auto)]

mod fault;
mod file;
mod format;
mod heads;
mod laws;
mod reading;
mod writing;

pub use fault::ImaWaveFault;
pub use file::ImaFile;
pub use laws::written_is_read;
pub use reading::read_ima;
pub use writing::write_ima;
