//! What the words after the program's name ask for.
//!
//! A command joins by one case each in [`Command`], `command_in`, `grammar` and `command_at`.
#![tactic(auto)]

mod bound_words;
mod decompile_words;
mod grammar;
mod make_words;
mod numbers;
mod places;
mod play_words;
mod words;

pub use words::{Command, read_words};
