//! Fits a sound and its loop to whole blocks.
#![tactic(auto)]

mod align;
mod fault;
mod fitted;
mod fitting;
mod laws;
mod plan;
mod rule;
mod segment_list;
mod targets;

pub use fault::FitFault;
pub use fitted::Fitted;
pub use fitting::fit;
pub use laws::{fit_keeps, loop_target_is_least, unroll_is_quotient};
pub use rule::{FitRule, Length, Start};
pub use segment_list::segments;
