//! Reads the manifest of a bank: a TOML text that names the samples and says how they are encoded.
#![tactic(auto)]

mod bank;
mod effort;
mod fault;
mod keys;
mod manifest;
mod names;
mod reader;
mod sample;
mod stored;
mod words;

pub use effort::Effort;
pub use fault::ManifestFault;
pub use manifest::{Manifest, SampleEntry};
pub use reader::read_manifest;
pub use stored::{cert_name, first_pass_name, ima_name, stored_names, vag_name};
