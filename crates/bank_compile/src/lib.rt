//! One sample and one bank: the blocks that are chosen, and the files that are stored.
#![tactic(auto)]

mod bank;
mod image;
mod joined;
mod kinds;
mod replay;
mod sample;
mod segment;
mod segments;
mod told;

pub use bank::compile_bank;
pub use host_files::NamedFile;
pub use kinds::compile_sample;
pub use replay::stored_bank_replays;
pub use sample::SampleOut;
pub use told::report;
