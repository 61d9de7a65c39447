ghost use Rattle.std.specs.Prelude.{◌≡◌, ◌≤◌, length, IfOk};
ghost use Rattle.adpcm_nums.specs.Outcome.{Gives};
ghost use Rattle.player_model.specs.ImaTrack.{heard_ima};
ghost use Rattle.ima_wave.specs.Files.{IsImaFile};
ghost use Rattle.tool_play.specs.Play.{play_lines, ima_in, ima_said, ima_track_in};

use adpcm_nums::{NoMemory, Text};
use command_faults::{InputFault, Status, input_refused};
use ima_machine::Ima;
use ima_wave::{ImaFile, ImaWaveFault, read_ima};
use machine_core::Machine;
use player_model::{ImaPlayer, ImaTrack, ima_track, is_much};
use std::alloc::Global;

/// The first outputs of a track of IMA ADPCM, one in a line.
#[tactic(auto, unfolding(crate::specs::Play::play_lines))]
fn ima_lines(alloc: Global, track: ImaTrack<'_>, count: u32) -> Result<Text, NoMemory>
    ensures { IfOk result (λ lines. lines ≡ play_lines (heard_ima track.entry) count) }
{
    let mut player = ImaPlayer::new(track);
    let mut lines = String::new(alloc);
    for i in 0..count {
        let output = player.next();
        if write!(lines, "{output}\n").is_err() {
            return Err(NoMemory);
        }
    }
    Ok(Text::from_string(lines))
}

/// The WAVE file of IMA ADPCM that a file is.
#[tactic(auto, unfolding(crate::specs::Play::ima_in))]
fn ima_in(alloc: Global, file: &str, bytes: &[u8]) -> Result<ImaFile, Status>
    requires { length bytes.now ≤ 8388608 }
    ensures exact { Gives Status.Memory (λ said. said) result (ima_in file.now bytes.now) }
    ensures kept { IfOk result IsImaFile }
    ensures few { IfOk result (λ said. length said.blocks ≤ 8388608) }
{
    match read_ima(alloc, bytes) {
        Ok(said) => Ok(said),
        Err(ImaWaveFault::NoMemory) => Err(Status::Memory),
        Err(fault) => Err(input_refused(alloc, file, InputFault::Ima { fault })),
    }
}

/// The track of the entry that was asked for, of which a WAVE file of IMA ADPCM has one.
#[tactic(auto, unfolding(crate::specs::Play::ima_track_in))]
fn ima_track_in<'b>(
    alloc: Global,
    file: &str,
    said: &'b ImaFile,
    entry: u32,
) -> Result<ImaTrack<'b>, Status>
    requires kept { IsImaFile said.now }
    requires few { length said.now.blocks ≤ 8388608 }
    ensures { Gives Status.Memory (λ track. track) result (ima_track_in file.now said.now entry) }
{
    let machine = Ima { align: said.align };
    let samples = machine.block_samples();
    let track = match ima_track(machine, said.blocks.as_slice(), said.frames, said.at) {
        Ok(track) => track,
        Err(fault) => return Err(input_refused(alloc, file, InputFault::Track { fault })),
    };
    let blocks = track.blocks();
    if is_much(blocks, samples) {
        let blocks = u64::from(blocks);
        return Err(input_refused(alloc, file, InputFault::TooMuch { blocks }));
    }
    if entry >= 1 {
        return Err(input_refused(alloc, file, InputFault::NoEntry { entry, count: 1 }));
    }
    Ok(track)
}

/// The first outputs of an entry of a WAVE file of IMA ADPCM, one in a line.
#[tactic(auto, unfolding(crate::specs::Play::ima_said))]
pub(crate) fn ima_said(
    alloc: Global,
    file: &str,
    bytes: &[u8],
    entry: u32,
    count: u32,
) -> Result<Text, Status>
    requires { length bytes.now ≤ 8388608 }
    ensures { Gives Status.Memory (λ lines. lines) result (ima_said file.now entry count bytes.now) }
{
    let said = ima_in(alloc, file, bytes)?;
    let track = ima_track_in(alloc, file, &said, entry)?;
    match ima_lines(alloc, track, count) {
        Ok(lines) => Ok(lines),
        Err(NoMemory) => Err(Status::Memory),
    }
}
