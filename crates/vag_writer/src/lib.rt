//! VAG files of the PlayStation's sound unit: a header with a rate and a name, then blocks of SPU-ADPCM (PSX-SPX, VAG files).
//!
//! Places in a file are bytes from its start; numbers stand with their highest byte first. Rates are samples a second.
#![tactic(auto)]

mod fault;
mod laws;
mod reading;
mod vag;
mod writing;

pub use fault::VagFault;
pub use laws::written_is_read;
pub use reading::read_vag;
pub use vag::Vag;
pub use writing::write_vag;
