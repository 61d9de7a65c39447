ghost use Rattle.std.specs.Prelude.{◌≡◌, ◌<◌};
ghost use Rattle.player_model.specs.Player.{position_after};
ghost use Rattle.player_model.specs.Sound.{IsSound, track_position, heard};

use crate::format::StoredFormat;
use crate::position::Position;
use crate::span::samples_of;
use crate::step::{first_of, follow, step_on};
use crate::track::StoredTrack;

/// The position after so many samples, one by one.
fn walk<S: StoredFormat>(track: &StoredTrack<'_, S>, from: Position, count: u64) -> Position
    requires inside { IsSound S.decoder S.format track.now from }
    ensures value { result ≡ position_after S.decoder S.format track.now.memory from count }
    ensures inside { IsSound S.decoder S.format track.now result }
{
    let mut at = from;
    for _ in 0..count {
        at = follow(track, at);
    }
    at
}

/// The samples of a playing: of the blocks from the loop block to the end block, and of all blocks where there is no
/// loop.
fn playing<S: StoredFormat>(track: &StoredTrack<'_, S>) -> u64
    ensures { 0 < result }
{
    samples_of::<S>(track.blocks() - track.loop_block().unwrap_or(0))
}

/// The position so many samples after a position at which a playing begins, playing after playing.
///
/// `known` is where an earlier playing began, `gone` samples before, and moves up to the newest playing each time that
/// their distance has doubled. Once a playing begins as the known one did, all that comes goes round from there, and
/// whole rounds are left out.
fn walk_round<S: StoredFormat>(track: &StoredTrack<'_, S>, from: Position, count: u64) -> Position
    requires inside { IsSound S.decoder S.format track.now from }
    ensures value { result ≡ position_after S.decoder S.format track.now.memory from count }
    ensures inside { IsSound S.decoder S.format track.now result }
{
    let playing = playing(track);
    let mut at = from;
    let mut left = count;
    let mut known = from;
    let mut gone = 0;
    let mut most = playing;
    while left >= playing {
        at = walk(track, at, playing);
        left -= playing;
        gone += playing;
        if at == known {
            return walk(track, at, left % gone);
        }
        if gone >= most {
            known = at;
            gone = 0;
            most = most.saturating_mul(2);
        }
    }
    walk(track, at, left)
}

/// The position before output `i`: the first pass sample by sample, and then playing after playing.
fn position_of<S: StoredFormat>(track: &StoredTrack<'_, S>, i: u64) -> Position
    ensures value { result ≡ track_position S.decoder S.format track.now i }
    ensures inside { IsSound S.decoder S.format track.now result }
{
    let whole = samples_of::<S>(track.blocks());
    let first = first_of(track);
    if i < whole {
        return walk(track, first, i);
    }
    let end = walk(track, first, whole);
    walk_round(track, end, i - whole)
}

/// Output `i` of the player of a track, whose history is (0, 0) at first; 0 where the track has ended before.
///
/// The time grows with the samples of the first pass, and with those of the playings of the loop until one begins with
/// the history with which an earlier one began. From there on it does not grow with `i`.
pub(crate) fn play_at<S: StoredFormat>(track: &StoredTrack<'_, S>, i: u64) -> i32
    ensures { result ≡ heard S.decoder S.format track.now i }
{
    let at = position_of(track, i);
    if at.muted {
        0
    } else {
        step_on(track, at).history.a
    }
}
