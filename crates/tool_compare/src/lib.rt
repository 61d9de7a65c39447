//! The commands that compare what is stored for the sources of a manifest with them: `check MANIFEST` tests its certificates, and
//! `bound MANIFEST EFFORT` tells how near it is to the best, without them. Both store nothing and say a report.
#![tactic(auto)]

mod bound;
mod bound_bank;
mod check;
mod check_bank;
mod fetch_proven;
mod fetch_stored;
mod floor;
mod images;
mod said;
mod sound_bound;
mod stored_status;

pub use bound::run_bound;
pub use check::run_check;
pub use sound_bound::bound_of;
