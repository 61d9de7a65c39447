//! What all decoders of console sample blocks have in common: states, rules on heads, lists of blocks, their errors, and floors under them.
#![tactic(auto)]

mod boxes;
mod cells;
mod choice;
mod floors;
mod lane;
mod laws;
mod machine;
mod pieces;
mod segments;
mod state;
mod taken;

pub use boxes::{Bx, Cell};
pub use cells::{cell_box, cell_of, point_box};
pub use choice::Choice;
pub use floors::{fill_rests, floor_of_blocks, rule_at, rule_for, rule_in};
pub use lane::NO_LANE;
pub use laws::{
    boxes_meet_cells, floors_hold, histories_fall_away, lanes_have_floors, rests_hold, states_fit,
    states_have_cells, sums_fit,
};
pub use machine::Machine;
pub use pieces::{Piece, Pieces, output_piece};
pub use segments::{samples_have_segments, segments_make_the_whole, segments_stand_alone};
pub use state::{HeadRule, Kind, State};
pub use taken::Taken;
