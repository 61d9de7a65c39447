//! The checker of certificates, over their own bytes: a segment's certificate is accepted or refused without taking memory, and an accepted
//! one shows a bound that no legal list of blocks is below.
//!
//! Values and bounds are in squared 16-bit steps.
#![tactic(auto)]

mod ahead;
mod checking;
mod layers;
mod listed;
mod whole;

pub use checking::CellFault;
pub use whole::{check, scratch_need};
