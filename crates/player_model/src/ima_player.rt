ghost use Rattle.std.specs.Prelude.{◌≡◌, ◌+◌, ◌-◌, ◌^◌, ◌<◌};
ghost use Rattle.player_model.specs.ImaTrack.{heard_ima};
ghost use Rattle.player_model.specs.ImaPlayer.{PlayingIma, HasPlayedIma, kept_after, frame_moved};

use crate::ima_walk::ImaTrack;
use adpcm_nums::LoopAt;
use machine_core::State;
use std::marker::Model;

/// Where a player of frames stands.
#[derive(Clone, Copy, Debug, PartialEq, Eq)]
pub struct FramePosition {
    /// The frame that comes next.
    pub frame: u32,
    /// The state before it.
    pub history: State,
    /// The state before the loop's first frame, once the player has come by.
    pub kept: State,
}

/// A player that gives the outputs of a track of IMA ADPCM one after another, each in constant time.
#[derive(Debug, Drop)]
pub struct ImaPlayer<'b> {
    track: ImaTrack<'b>,
    at: FramePosition,
    count: u64,
}

impl<'b> Model for ImaPlayer<'b> {
    ghost Value = { PlayingIma };

    ghost view = { λ p. record { track = p.track; count = p.count } };

    ghost invariant = { λ p. HasPlayedIma p.track p.at p.count };
}

/// The state before the loop's first frame, as it is known behind a position.
fn kept_after(points: LoopAt, at: FramePosition) -> State
    ensures { result ≡ kept_after points at }
{
    if at.frame == points.start {
        at.history
    } else {
        at.kept
    }
}

/// Where a player stands after a frame that leads to this state.
fn moved(loop_at: Option<LoopAt>, at: FramePosition, after: State) -> FramePosition
    requires { at.frame < 2 ^ 32 - 1 }
    ensures { result ≡ frame_moved loop_at at after }
{
    let frame = at.frame + 1;
    match loop_at {
        None => FramePosition {
            frame,
            history: after,
            kept: at.kept,
        },
        Some(points) => {
            let kept = kept_after(points, at);
            if at.frame == points.end {
                FramePosition {
                    frame: points.start,
                    history: kept,
                    kept,
                }
            } else {
                FramePosition {
                    frame,
                    history: after,
                    kept,
                }
            }
        }
    }
}

impl<'b> ImaPlayer<'b> {
    /// A player at the first frame of a track.
    pub fn new(track: ImaTrack<'b>) -> ImaPlayer<'b>
        ensures { result ≡ record { track = track.entry; count = 0 } }
    {
        let start = State { a: 0, b: 0 };
        let at = FramePosition {
            frame: 0,
            history: start,
            kept: start,
        };
        ImaPlayer {
            track,
            at,
            count: 0,
        }
    }

    /// The number of outputs that it gave.
    pub fn count(&self) -> u64
        ensures { result ≡ self.now.count }
    {
        self.count
    }

    /// The next output. Behind the last frame of a track without a loop it is 0.
    pub fn next(&mut self) -> i32
        requires { self.old.count < 2 ^ 64 - 1 }
        ensures output { result ≡ heard_ima self.old.track self.old.count }
        ensures goes_on { self.new ≡ record self.old { count = self.old.count + 1 } }
    {
        self.count += 1;
        if self.at.frame == self.track.frames() {
            return 0;
        }
        let after = self.track.state_after(self.at.frame, self.at.history);
        self.at = moved(self.track.loop_at(), self.at, after);
        after.a
    }
}
