//! The command `block IN OUT`, which makes one block of BRR of sixteen samples.
#![tactic(auto)]

mod block;

pub use block::run_block;
