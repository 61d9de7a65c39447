//! Decoders that predict an output from the last two by a head's filter and add one of sixteen samples: what follows for
//! all of them.
#![tactic(auto)]

mod codes;
mod laws;
mod least;
mod machine;

pub use codes::{CodeCosts, least_of_all, least_of_two};
pub use laws::{floors_hold, outputs_follow};
pub use least::{HeadFloors, least_floor};
pub use machine::LinearMachine;
