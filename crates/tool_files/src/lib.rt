//! The files of a bank, fetched: its manifest, the sources that it names, brought to whole blocks.
//!
//! Every command over a manifest begins so, whatever it does then.
#![tactic(auto)]

mod fetch_bank;
mod fetch_source;
mod manifests;
mod read_source;
mod source;

pub use fetch_bank::fetch_sources;
pub use manifests::fetch_manifest;
pub use source::Source;
