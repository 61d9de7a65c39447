//! Banks taken apart: every entry of an SNES image, a VAG file or a WAVE file of IMA ADPCM as samples with a loop that
//! sound as its player does for ever.
//!
//! Samples are signed 16-bit steps: a player's outputs times the scale of the format. Rates are samples a second.
#![tactic(auto)]

mod bank;
mod fault;
mod form;
mod ima;
mod image;
mod laws;
mod playings;
mod recovered;
mod stored;
mod vag;

pub use bank::decompile;
pub use fault::DecompileFault;
pub use form::Form;
pub use laws::{entries_are, given_back, sounds_for_ever};
pub use recovered::{Recovered, Settles};
