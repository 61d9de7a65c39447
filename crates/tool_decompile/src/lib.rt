//! The command `decompile FORM FILE OUT`, which takes a stored file apart into WAVE files.
#![tactic(auto)]

mod decompile;
mod entry_files;
mod entry_lines;

pub use decompile::run_decompile;
