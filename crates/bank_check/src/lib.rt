//! Whether what is stored for a sample is what was fitted, and what its certificate proves of it: all of it over bytes, whoever made them.
#![tactic(auto)]

mod certificate;
mod failure;
mod fields;
mod flagged;
mod framed;
mod hearing;
mod proven;
mod shape;
mod stored;
mod tally;

pub use certificate::check_certificate;
pub use failure::{CertFailure, StoredFailure};
pub use proven::Proven;
pub use stored::{ima_error, image_error, read_bank, vag_error};
