ghost use Rattle.std.specs.Prelude.{◌≡◌, ◌+◌, ◌*◌, ◌/◌, ◌^◌, ◌<◌, ◌≤◌, length, pos, IfSome, IsNone, IsTrue};
ghost use Rattle.machine_core.specs.Blocks.{step_at};
ghost use Rattle.ima_machine.specs.Ima.{is_align, symbols_at, is_ima_state};
ghost use Rattle.ima_machine.specs.Faults.{fault_in};
ghost use Rattle.ima_machine.specs.Spelling.{symbol_in};
ghost use Rattle.player_model.specs.ImaTrack.{ImaSound, IsImaSound, IsImaTrack, blocks_of, decoder_of, list_of, first_bad, head_fault_of, ima_track_of, heard_ima};
ghost use Rattle.player_model.specs.ImaPlayer.{place_at, state_before};

use crate::fault::TrackFault;
use adpcm_nums::LoopAt;
use ima_machine::{Ima, check_head, code_at, first_at, head_at};
use machine_core::{Machine, State};
use std::marker::Model;

/// The blocks of an IMA ADPCM WAVE file with the frames that count and their loop.
#[derive(Debug, Drop)]
pub struct ImaTrack<'b> {
    machine: Ima,
    bytes: &'b [u8],
    frames: u32,
    loop_at: Option<LoopAt>,
}

impl<'b> Model for ImaTrack<'b> {
    ghost Value = { ImaSound };

    ghost view = { λ t. record { align = t.machine.align; bytes = t.bytes.now; frames = t.frames; loop_at = t.loop_at } };

    ghost invariant = { λ t. IsImaTrack (record { align = t.machine.align; bytes = t.bytes.now; frames = t.frames; loop_at = t.loop_at }) × (length t.bytes.now < 2 ^ 31) };
}

/// The frame that is heard as output `i` of a sound that goes round its loop, if it has so many.
fn place_at(loop_at: Option<LoopAt>, i: u64) -> u64
    requires { IfSome loop_at (λ at. at.start ≤ at.end) }
    ensures { result ≡ place_at loop_at i }
{
    match loop_at {
        None => i,
        Some(at) => {
            let start = u64::from(at.start);
            let end = u64::from(at.end);
            if i <= end {
                i
            } else {
                start + (i - start) % (end - start + 1)
            }
        }
    }
}

/// The symbol at a place of the block at an address.
fn symbol_at(bytes: &[u8], address: usize, place: u32) -> u32
    requires { address + 4 + (place + 1) / 2 ≤ length bytes.now }
    ensures value { result ≡ symbol_in bytes.now address place }
    ensures range { result < symbols_at place }
{
    if place == 0 {
        first_at(bytes, address)
    } else {
        u32::from(code_at(bytes, address, place as usize - 1))
    }
}

impl<'b> ImaTrack<'b> {
    /// The number of its blocks.
    pub fn blocks(&self) -> u32
        ensures { result ≡ blocks_of self.now }
    {
        (self.bytes.len() / self.machine.align as usize) as u32
    }

    /// The number of frames that count, at most the samples of the blocks.
    pub fn frames(&self) -> u32
        ensures { result ≡ self.now.frames }
    {
        self.frames
    }

    /// The loop, in frames.
    pub fn loop_at(&self) -> Option<LoopAt>
        ensures { result ≡ self.now.loop_at }
    {
        self.loop_at
    }

    /// The bytes of its blocks.
    pub fn bytes(&self) -> &[u8]
        ensures { result.now ≡ self.now.bytes }
    {
        self.bytes
    }

    /// The state after a frame, from the state before it.
    pub(crate) fn state_after(&self, frame: u32, from: State) -> State
        requires frame { frame < self.now.frames }
        requires from { IsTrue (is_ima_state from) }
        ensures value { result ≡ step_at (decoder_of self.now) (list_of self.now) frame from }
        ensures range { IsTrue (is_ima_state result) }
    {
        let samples = self.machine.block_samples();
        let address = self.machine.align as usize * (frame / samples) as usize;
        let place = frame % samples;
        let symbol = symbol_at(self.bytes, address, place);
        self.machine
            .step(head_at(self.bytes, address), place, symbol, from)
    }

    /// Output of a frame: its block is decoded from its first sample up to it.
    fn output(&self, frame: u32) -> i32
        requires { frame < self.now.frames }
        ensures { result ≡ (state_before self.now (frame + 1)).a }
    {
        let first = frame - frame % self.machine.block_samples();
        let mut state = self.state_after(first, State { a: 0, b: 0 });
        for next in first + 1..frame + 1 {
            state = self.state_after(next, state);
        }
        state.a
    }
}

/// The fault of the first block whose head is none of the decoder's.
#[tactic(auto, using(adpcm_nums::proofs::FirstLaws::none_at_zero, adpcm_nums::proofs::FirstLaws::none_more, adpcm_nums::proofs::FirstLaws::first_found))]
fn first_fault(align: u32, bytes: &[u8]) -> Option<TrackFault>
    requires align { IsTrue (is_align align) }
    requires small { length bytes.now < 2 ^ 31 }
    ensures { result ≡ head_fault_of align bytes.now (first_bad align bytes.now) }
{
    let blocks = bytes.len() as u32 / align;
    for block in 0..blocks {
        if let Err(fault) = check_head(bytes, (align * block) as usize) {
            return Some(TrackFault::BadHead { block, fault });
        }
    }
    None
}

/// The track of whole blocks of IMA ADPCM, of which so many frames count, with this loop (IMA recommended practices, 1992).
///
/// # Errors
/// `BadHead` with the first block whose step index is above 88 or whose fourth byte is not 0.
#[tactic(auto, unfolding(crate::specs::ImaTrack::ima_track_of))]
pub fn ima_track(
    machine: Ima,
    bytes: &[u8],
    frames: u32,
    at: Option<LoopAt>,
) -> Result<ImaTrack<'_>, TrackFault>
    requires small { length bytes.now < 2 ^ 31 }
    requires sound { IsImaSound (record { align = machine.align; bytes = bytes.now; frames = frames; loop_at = at }) }
    ensures { result ≡ ima_track_of (record { align = machine.align; bytes = bytes.now; frames = frames; loop_at = at }) }
{
    match first_fault(machine.align, bytes) {
        None => Ok(ImaTrack {
            machine,
            bytes,
            frames,
            loop_at: at,
        }),
        Some(fault) => Err(fault),
    }
}

/// Output `i` of the player of a track: the frames and then their loop for ever, or 0 behind the last frame.
///
/// The time is that of decoding one block.
pub fn play_ima_at(track: &ImaTrack<'_>, i: u64) -> i32
    ensures { result ≡ heard_ima track.now i }
{
    let place = place_at(track.loop_at, i);
    if place < u64::from(track.frames) {
        track.output(place as u32)
    } else {
        0
    }
}
