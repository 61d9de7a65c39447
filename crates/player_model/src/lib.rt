//! The written player: tracks in stored bytes, and their outputs by index and one after another.
#![tactic(auto)]

mod brr;
mod brr_walk;
mod fault;
mod format;
mod ima_player;
mod ima_walk;
mod index;
mod laws;
mod limit;
mod player;
mod position;
mod span;
mod spu;
mod spu_walk;
mod step;
mod track;

pub use brr_walk::{BrrPlayer, BrrTrack, brr_track, play_brr_at};
pub use fault::TrackFault;
pub use format::StoredFormat;
pub use ima_player::{FramePosition, ImaPlayer};
pub use ima_walk::{ImaTrack, ima_track, play_ima_at};
pub use laws::{
    ima_is_stored, legal_begins_anew, stored_is_brr_track, stored_is_spu_track, stored_is_track,
    stored_plays_round,
};
pub use limit::is_much;
pub use player::StoredPlayer;
pub use position::Position;
pub use spu_walk::{SpuPlayer, SpuTrack, play_spu_at, spu_track};
pub use track::StoredTrack;
