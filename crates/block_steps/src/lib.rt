//! The samples of a segment one after another: where each stands, which heads may be taken there, the floor under all that comes from it on, and the
//! least way on from a cell before it.
//!
//! Floors are in squared 16-bit steps. A block's floors stand in one row a head, in memory that the caller has.
#![tactic(auto)]

mod ahead;
mod finding;
mod floors;
mod layers;
mod plan;
mod spots;
mod stepping;
mod symbols;

pub use finding::{find, head_way, symbol_way};
pub use floors::{fill_later, fill_rows, refill, rest_at, rest_of};
pub use layers::{LaneCells, Layers};
pub use plan::Plan;
pub use spots::Spot;
pub use stepping::{lane_head, lane_of, next_spot, symbols_within, takes, target_at, targets_in};
