//! Every line that the program prints of a bank, and the line of a fault. Each ends with one newline byte.
#![tactic(auto)]

mod fault;
mod list;
mod part;
mod report;

pub use fault::fault_line;
pub use list::{Reported, report_of};
pub use part::LinePart;
pub use report::{
    BoundReport, LoopShown, SampleReport, block_line, bound_line, done_line, sample_line,
};
