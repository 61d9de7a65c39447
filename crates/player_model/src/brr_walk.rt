ghost use Rattle.std.specs.Prelude.{◌≡◌, ◌-◌, ◌/◌, ◌^◌, ◌<◌, if◌then◌else◌, length, Some, None, IfSome};
ghost use Rattle.brr_machine.specs.Brr.{brr};
ghost use Rattle.player_model.specs.BrrFormat.{brr_format};
ghost use Rattle.player_model.specs.Track.{whole_blocks, end_block, is_block};
ghost use Rattle.player_model.specs.BrrTrack.{closed_track, track_of};
ghost use Rattle.player_model.specs.Sound.{heard};

use crate::fault::TrackFault;
use crate::index::play_at;
use crate::player::StoredPlayer;
use crate::track::StoredTrack;
use brr_machine::{Brr, flags_at};
use std::marker::PhantomData;

/// The blocks of BRR that a player comes to from a start in a memory.
pub type BrrTrack<'b> = StoredTrack<'b, Brr>;

/// A player that gives the outputs of a track of BRR one after another.
pub type BrrPlayer<'b> = StoredPlayer<'b, Brr>;

/// The whole blocks of nine bytes from an address to the memory's end.
fn whole(memory: &[u8], start: u32) -> u32
    requires { length memory.now < 2 ^ 31 }
    ensures { result ≡ whole_blocks brr_format memory.now start }
{
    (memory.len().saturating_sub(start as usize) / 9) as u32
}

/// The first block with the end flag, where there is one.
#[tactic(auto, using(adpcm_nums::proofs::FirstLaws::none_at_zero, adpcm_nums::proofs::FirstLaws::none_more, adpcm_nums::proofs::FirstLaws::first_found))]
fn first_end(memory: &[u8], start: u32) -> Option<u32>
    requires { length memory.now < 2 ^ 31 }
    ensures value { result ≡ end_block brr_format memory.now start }
    ensures within { IfSome result (λ block. block < whole_blocks brr_format memory.now start) }
{
    for block in 0..whole(memory, start) {
        if flags_at(memory, start as usize + 9 * block as usize) % 2 == 1 {
            return Some(block);
        }
    }
    None
}

/// Whether an address is that of one of so many blocks.
fn is_of_block(start: u32, blocks: u32, address: u32) -> bool
    ensures { result ≡ is_block brr_format start blocks address }
{
    start <= address && (address - start) % 9 == 0 && (address - start) / 9 < blocks
}

/// The block at which the player goes on, where it repeats.
fn loop_of(repeats: bool, start: u32, again: u32) -> Option<u32>
    ensures { result ≡ (if repeats then Some ((again - start) / 9) else None) }
{
    if repeats {
        Some(again.saturating_sub(start) / 9)
    } else {
        None
    }
}

/// The track of a start and of its end block, or why it is none.
fn closed(memory: &[u8], start: u32, again: u32, last: u32) -> Result<BrrTrack<'_>, TrackFault>
    requires small { length memory.now < 2 ^ 31 }
    requires last { end_block brr_format memory.now start ≡ Some last }
    requires within { last < whole_blocks brr_format memory.now start }
    ensures { result ≡ closed_track memory.now start again last }
{
    let repeats = flags_at(memory, start as usize + 9 * last as usize) / 2 % 2 == 1;
    if repeats && !is_of_block(start, last + 1, again) {
        return Err(TrackFault::BadAgain {
            at: u64::from(again),
        });
    }
    Ok(BrrTrack {
        memory,
        start,
        again,
        blocks: last + 1,
        loop_block: loop_of(repeats, start, again),
        stored: PhantomData,
    })
}

/// The track that begins at the byte `start` of a memory and, where its end block repeats, goes on at the byte `again`
/// (fullsnes, BRR samples and the sample directory).
///
/// The walk goes in steps of nine bytes from `start` to the first block with the end flag. `NoEnd` tells that it left
/// the memory before, and `BadAgain` that the end block repeats and `again` is that of no block of the walk.
#[tactic(auto, unfolding(crate::specs::BrrTrack::track_of))]
pub fn brr_track(memory: &[u8], start: u32, again: u32) -> Result<BrrTrack<'_>, TrackFault>
    requires { length memory.now < 2 ^ 31 }
    ensures { result ≡ track_of memory.now start again }
{
    match first_end(memory, start) {
        None => Err(TrackFault::NoEnd {
            at: u64::from(start) + 9 * u64::from(whole(memory, start)),
        }),
        Some(last) => closed(memory, start, again, last),
    }
}

/// Output `i` of the player of a track, whose history is (0, 0) at first; 0 where the track has ended before.
///
/// The time grows with the samples of the first pass, and with those of the playings of the loop until one begins with
/// the history with which an earlier one began. From there on it does not grow with `i`.
pub fn play_brr_at(track: &BrrTrack<'_>, i: u64) -> i32
    ensures { result ≡ heard brr brr_format track.now i }
{
    play_at(track, i)
}
