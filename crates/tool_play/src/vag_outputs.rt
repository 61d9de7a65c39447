ghost use Rattle.std.specs.Prelude.{◌≡◌, ◌^◌, ◌<◌, ◌≤◌, length, IfOk};
ghost use Rattle.adpcm_nums.specs.Outcome.{Gives};
ghost use Rattle.tool_play.specs.Play.{vag_in, vag_said, vag_track_in};

use crate::outputs::play_lines;
use adpcm_nums::{NoMemory, Text};
use command_faults::{InputFault, Status, input_refused};
use player_model::{SpuTrack, spu_track};
use std::alloc::Global;
use vag_writer::{Vag, VagFault, read_vag};

/// The VAG file that a file is.
#[tactic(auto, unfolding(crate::specs::Play::vag_in))]
fn vag_in(alloc: Global, file: &str, bytes: &[u8]) -> Result<Vag, Status>
    requires { length bytes.now ≤ 8388608 }
    ensures exact { Gives Status.Memory (λ vag. vag) result (vag_in file.now bytes.now) }
    ensures few { IfOk result (λ vag. length vag.blocks ≤ 8388608) }
{
    match read_vag(alloc, bytes) {
        Ok(vag) => Ok(vag),
        Err(VagFault::NoMemory) => Err(Status::Memory),
        Err(fault) => Err(input_refused(alloc, file, InputFault::Vag { fault })),
    }
}

/// The track of the entry that was asked for, of which a VAG file has one.
#[tactic(auto, unfolding(crate::specs::Play::vag_track_in))]
fn vag_track_in<'b>(
    alloc: Global,
    file: &str,
    vag: &'b Vag,
    entry: u32,
) -> Result<SpuTrack<'b>, Status>
    requires { length vag.now.blocks ≤ 8388608 }
    ensures { Gives Status.Memory (λ track. track) result (vag_track_in file.now vag.now entry) }
{
    let track = match spu_track(vag.blocks.as_slice()) {
        Ok(track) => track,
        Err(fault) => return Err(input_refused(alloc, file, InputFault::Track { fault })),
    };
    let blocks = u64::from(track.blocks());
    if blocks > 4096 {
        return Err(input_refused(alloc, file, InputFault::TooMuch { blocks }));
    }
    if entry >= 1 {
        return Err(input_refused(alloc, file, InputFault::NoEntry { entry, count: 1 }));
    }
    Ok(track)
}

/// The first outputs of an entry of a VAG file, one in a line.
#[tactic(auto, unfolding(crate::specs::Play::vag_said))]
pub(crate) fn vag_said(
    alloc: Global,
    file: &str,
    bytes: &[u8],
    entry: u32,
    count: u32,
) -> Result<Text, Status>
    requires { length bytes.now ≤ 8388608 }
    ensures { Gives Status.Memory (λ lines. lines) result (vag_said file.now entry count bytes.now) }
{
    let vag = vag_in(alloc, file, bytes)?;
    let track = vag_track_in(alloc, file, &vag, entry)?;
    match play_lines(alloc, track, count) {
        Ok(lines) => Ok(lines),
        Err(NoMemory) => Err(Status::Memory),
    }
}
