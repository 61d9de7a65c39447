//! The commands that compile: `compile MANIFEST` stores the bank of a manifest, and `make NUMBER` compiles a test sound in the
//! three formats and stores nothing.
#![tactic(auto)]

mod compile;
mod form_bank;
mod made;
mod make;

pub use compile::run_compile;
pub use make::run_make;
