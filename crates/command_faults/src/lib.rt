//! How a run ends: its status, what is wrong with what was fetched, and the line that tells each of them.
//!
//! A new fault adds a row to `specs/FaultWords` and to `src/fault_words`, and a new status a line to each table of `specs/Lines` and a function
//! that names what it is about; what commands promise stands in the crates above.
#![tactic(auto)]

mod cert_words;
mod fault_words;
mod input_fault;
mod lines;
mod refusal;
mod row;
mod status;
mod stops;

pub use input_fault::{InputFault, ShapePart};
pub use lines::status_line;
pub use refusal::CertRefusal;
pub use status::{HostCall, Status};
pub use stops::{cert_refused, fetch_failed, full, input_refused, store_failed, unfit};
