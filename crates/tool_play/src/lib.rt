//! The command `play FORM FILE ENTRY COUNT`, which says the first outputs of an entry of an image, of a VAG file or of a WAVE
//! file of IMA ADPCM.
#![tactic(auto)]

mod ima_outputs;
mod image_outputs;
mod outputs;
mod play;
mod vag_outputs;

pub use play::run_play;
