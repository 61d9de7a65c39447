//! What each kind of bank is made of: its decoder, how its blocks are stored, and where a sample of it stands in the stored files.
//! The one place that tells the kinds apart.
#![tactic(auto)]

mod brr;
mod codes;
mod encode;
mod ima;
mod kinds;
mod laws;
mod loops;
mod passes;
mod spell;
mod spu;

pub use encode::{Encode, Stored};
pub use kinds::samples_in_block;
pub use laws::{certified_bounds_hold, fit_is_ready, kinds_encode};
pub use loops::shown;
pub use passes::outputs;
