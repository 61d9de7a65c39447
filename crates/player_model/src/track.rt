ghost use Rattle.std.specs.Prelude.{◌≡◌, ◌^◌, ◌<◌, length, IfSome};
ghost use Rattle.player_model.specs.Track.{Track, loop_block_of};
ghost use Rattle.player_model.specs.Sound.{IsTrack, track_bytes};

use crate::format::StoredFormat;
use crate::span::bytes_of;
use std::marker::{Model, PhantomData};

/// The blocks that a player comes to from a start in a memory.
#[derive(Debug, Drop)]
pub struct StoredTrack<'b, S: StoredFormat> {
    pub(crate) memory: &'b [u8],
    pub(crate) start: u32,
    pub(crate) again: u32,
    pub(crate) blocks: u32,
    pub(crate) loop_block: Option<u32>,
    pub(crate) stored: PhantomData<S>,
}

impl<'b, S: StoredFormat> Model for StoredTrack<'b, S> {
    ghost Value = { Track };

    ghost view = { λ t. record { memory = t.memory.now; start = t.start; again = t.again; blocks = t.blocks } };

    ghost invariant = { λ t. IsTrack S.decoder S.format (record { memory = t.memory.now; start = t.start; again = t.again; blocks = t.blocks }) × (length t.memory.now < 2 ^ 31) × (t.loop_block ≡ loop_block_of S.format (record { memory = t.memory.now; start = t.start; again = t.again; blocks = t.blocks })) };
}

impl<'b, S: StoredFormat> StoredTrack<'b, S> {
    /// The number of its blocks, the end block among them.
    pub fn blocks(&self) -> u32
        ensures value { result ≡ self.now.blocks }
        ensures some { 0 < result }
    {
        self.blocks
    }

    /// The block that comes after the end block, where that repeats.
    pub fn loop_block(&self) -> Option<u32>
        ensures value { result ≡ loop_block_of S.format self.now }
        ensures within { IfSome result (λ block. block < self.now.blocks) }
    {
        self.loop_block
    }

    /// The bytes of its blocks, from the first to the end block.
    pub fn bytes(&self) -> &[u8]
        ensures { result.now ≡ track_bytes S.format self.now }
    {
        let start = self.start as usize;
        &self.memory[start..start + bytes_of::<S>(self.blocks)]
    }
}
