ghost use Rattle.std.specs.Prelude.{◌≡◌, ◌+◌, ◌^◌, ◌≤◌, ◌<◌, length};
ghost use Rattle.machine_core.specs.Decoder.{start};
ghost use Rattle.player_model.specs.Player.{sounded, moved, next_position, first_position};
ghost use Rattle.player_model.specs.Sound.{IsInside, IsSound};

use crate::format::StoredFormat;
use crate::position::Position;
use crate::track::StoredTrack;
use machine_core::State;

/// The position after the sample at a position, whose history is given. The history is kept over every jump, a block
/// with the start flag sets the repeat register before its own end is obeyed, and an end block that does not repeat
/// mutes all that comes after it.
fn moved<S: StoredFormat>(memory: &[u8], at: Position, history: State) -> Position
    requires fits { at.address + S.format.size ≤ length memory.now }
    requires small { length memory.now < 2 ^ 31 }
    requires place { at.place < S.decoder.samples }
    requires history { history ≡ sounded S.decoder S.format memory.now at }
    ensures { result ≡ moved S.decoder S.format memory.now at }
{
    let samples = S::block_samples();
    if at.place + 1 < samples {
        return Position {
            address: at.address,
            place: at.place + 1,
            again: at.again,
            history,
            muted: false,
        };
    }
    let flags = S::flags_at(memory, at.address as usize);
    let again = if flags.start { at.address } else { at.again };
    let after = at.address + S::block_size();
    let next = if flags.end { again } else { after };
    Position {
        address: next,
        place: 0,
        again,
        history,
        muted: flags.end && !flags.repeat,
    }
}

/// The position after the sample at a position that is not silent.
pub(crate) fn step_on<S: StoredFormat>(track: &StoredTrack<'_, S>, at: Position) -> Position
    requires inside { IsInside S.decoder S.format track.now at }
    ensures value { result ≡ moved S.decoder S.format track.now.memory at }
    ensures inside { IsSound S.decoder S.format track.now result }
{
    let history = S::step_at(track.memory, at.address as usize, at.place, at.history);
    moved::<S>(track.memory, at, history)
}

/// The position after one sample: silence stays where it is.
pub(crate) fn follow<S: StoredFormat>(track: &StoredTrack<'_, S>, at: Position) -> Position
    requires inside { IsSound S.decoder S.format track.now at }
    ensures value { result ≡ next_position S.decoder S.format track.now.memory at }
    ensures inside { IsSound S.decoder S.format track.now result }
{
    if at.muted { at } else { step_on(track, at) }
}

/// The position before the first sample, with the history (0, 0).
pub(crate) fn first_of<S: StoredFormat>(track: &StoredTrack<'_, S>) -> Position
    ensures value { result ≡ first_position track.now.start track.now.again start }
    ensures inside { IsSound S.decoder S.format track.now result }
{
    Position {
        address: track.start,
        place: 0,
        again: track.again,
        history: State { a: 0, b: 0 },
        muted: false,
    }
}
