//! The commands of the program, over any host.
//!
//! [`run`] reads the words and does what they ask for. Each command has a crate of its own with a public call: `tool_block`,
//! `tool_compile` (`compile` and `make`), `tool_compare` (`check` and `bound`), `tool_decompile` and `tool_play`. They stand over
//! `command_plan`, which says how a command's function is written, and those over a manifest over `tool_files` too, which fetches the
//! files of a bank; `tool_words` reads the words.
//!
//! A command joins by one case each in `course_of`, `choice_of` and `obey`.
#![tactic(auto)]

mod laws;
mod top;

pub use command_faults::{HostCall, InputFault, Status};
pub use laws::compiled_is_given_back;
pub use tool_block::run_block;
pub use tool_compare::{run_bound, run_check};
pub use tool_compile::{run_compile, run_make};
pub use tool_decompile::run_decompile;
pub use tool_play::run_play;
pub use tool_words::{Command, read_words};
pub use top::run;
