//! The world outside a command: files by their names, and a place to say lines.
//!
//! [`Host`] is that world as a trait. Three hosts meet it: [`RealHost`] over the files of the
//! runtime and its standard output, [`SteadyHost`] over files in memory that never fail, and
//! [`MemoryHost`] over files in memory that fail at the calls that it is told to fail at. A
//! [`NamedFile`] is a file on its way to a host.
#![tactic(auto)]

mod host;
mod memory;
mod named_file;
mod real;
mod steady;

pub use host::{Host, HostFault};
pub use memory::MemoryHost;
pub use named_file::NamedFile;
pub use real::RealHost;
pub use steady::SteadyHost;
