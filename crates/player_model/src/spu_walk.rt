ghost use Rattle.std.specs.Prelude.{◌≡◌, ◌*◌, ◌^◌, ◌<◌, ◌≤◌, length, Ok, IfSome};
ghost use Rattle.spu_machine.specs.Spu.{spu};
ghost use Rattle.player_model.specs.SpuFormat.{spu_format};
ghost use Rattle.player_model.specs.SpuTrack.{bad_block, spu_split, checked_track, spu_track_of};
ghost use Rattle.player_model.specs.Sound.{heard};

use crate::fault::TrackFault;
use crate::index::play_at;
use crate::player::StoredPlayer;
use crate::track::StoredTrack;
use block_flags::{Split, split_blocks};
use machine_core::Kind;
use spu_machine::{Spu, head_at};
use std::marker::PhantomData;

/// The blocks of SPU-ADPCM up to the first with the end flag.
pub type SpuTrack<'b> = StoredTrack<'b, Spu>;

/// A player that gives the outputs of a track of SPU-ADPCM one after another.
pub type SpuPlayer<'b> = StoredPlayer<'b, Spu>;

/// The first of so many blocks whose filter is none of the decoder's, where there is one.
#[tactic(auto, using(adpcm_nums::proofs::FirstLaws::none_at_zero, adpcm_nums::proofs::FirstLaws::none_more, adpcm_nums::proofs::FirstLaws::first_found))]
fn bad_block(bytes: &[u8], blocks: u32) -> Option<u32>
    requires blocks { 16 * blocks ≤ length bytes.now }
    requires small { length bytes.now < 2 ^ 31 }
    ensures value { result ≡ bad_block bytes.now blocks }
    ensures within { IfSome result (λ block. block < blocks) }
{
    for block in 0..blocks {
        if head_at(bytes, 16 * block as usize) / 16 >= 5 {
            return Some(block);
        }
    }
    None
}

/// The track up to a split's end, unless a block has a filter that the decoder has not.
fn checked(bytes: &[u8], split: Split) -> Result<SpuTrack<'_>, TrackFault>
    requires small { length bytes.now < 2 ^ 31 }
    requires split { spu_split bytes.now ≡ Ok split }
    requires within { 16 * split.blocks ≤ length bytes.now }
    ensures { result ≡ checked_track bytes.now split.blocks (bad_block bytes.now split.blocks) }
{
    match bad_block(bytes, split.blocks) {
        None => Ok(SpuTrack {
            memory: bytes,
            start: 0,
            again: 0,
            blocks: split.blocks,
            loop_block: split.loop_block,
            stored: PhantomData,
        }),
        Some(block) => Err(TrackFault::BadFilter {
            block,
            filter: (head_at(bytes, 16 * block as usize) / 16) as u8,
        }),
    }
}

/// The track of bytes of whole blocks, up to the first with the end flag (PSX-SPX, SPU ADPCM samples).
///
/// Where that block repeats, the player goes on at the last block up to it with the start flag. `Split` tells why the
/// bytes do not split at an end block, and then `BadFilter` tells the first block up to the end whose filter is none of
/// the decoder's. Bytes behind the end block do not count.
#[tactic(auto, unfolding(crate::specs::SpuTrack::spu_track_of))]
pub fn spu_track(bytes: &[u8]) -> Result<SpuTrack<'_>, TrackFault>
    requires { length bytes.now < 2 ^ 31 }
    ensures { result ≡ spu_track_of bytes.now }
{
    match split_blocks(Kind::Spu, bytes) {
        Err(fault) => Err(TrackFault::Split { fault }),
        Ok(split) => checked(bytes, split),
    }
}

/// Output `i` of the player of a track, whose history is (0, 0) at first; 0 where the track has ended before.
///
/// The time is that of `play_brr_at`.
pub fn play_spu_at(track: &SpuTrack<'_>, i: u64) -> i32
    ensures { result ≡ heard spu spu_format track.now i }
{
    play_at(track, i)
}
