ghost use Rattle.std.specs.Prelude.{◌≡◌, ◌+◌, ◌-◌, ◌^◌, ◌<◌};
ghost use Rattle.player_model.specs.Sound.{Playing, HasPlayed, heard};

use crate::format::StoredFormat;
use crate::position::Position;
use crate::step::{first_of, step_on};
use crate::track::StoredTrack;
use std::marker::Model;

/// A player that gives the outputs of a track one after another, each in constant time. It keeps the address of its
/// block and the history.
#[derive(Debug, Drop)]
pub struct StoredPlayer<'b, S: StoredFormat> {
    track: StoredTrack<'b, S>,
    at: Position,
    count: u64,
}

impl<'b, S: StoredFormat> Model for StoredPlayer<'b, S> {
    ghost Value = { Playing };

    ghost view = { λ p. record { track = p.track; count = p.count } };

    ghost invariant = { λ p. HasPlayed S.decoder S.format p.track p.at p.count };
}

impl<'b, S: StoredFormat> StoredPlayer<'b, S> {
    /// A player at the start of a track, with the history (0, 0).
    pub fn new(track: StoredTrack<'b, S>) -> StoredPlayer<'b, S>
        ensures { result ≡ record { track = track.entry; count = 0 } }
    {
        let at = first_of(&track);
        StoredPlayer {
            track,
            at,
            count: 0,
        }
    }

    /// The number of outputs that it gave.
    pub fn count(&self) -> u64
        ensures { result ≡ self.now.count }
    {
        self.count
    }

    /// The next output. Where the track has ended it is 0.
    pub fn next(&mut self) -> i32
        requires { self.old.count < 2 ^ 64 - 1 }
        ensures output { result ≡ heard S.decoder S.format self.old.track self.old.count }
        ensures goes_on { self.new ≡ record self.old { count = self.old.count + 1 } }
    {
        self.count += 1;
        if self.at.muted {
            return 0;
        }
        let at = step_on(&self.track, self.at);
        self.at = at;
        at.history.a
    }
}
