ghost use Rattle.std.specs.Prelude.{◌≡◌, ◌^◌, ◌<◌, ◌≤◌, length, IfOk};
ghost use Rattle.adpcm_nums.specs.Outcome.{Gives};
ghost use Rattle.player_model.specs.Sound.{heard};
ghost use Rattle.tool_play.specs.Play.{play_lines, said_of};

use crate::ima_outputs::ima_said;
use crate::image_outputs::image_said;
use crate::vag_outputs::vag_said;
use adpcm_nums::{NoMemory, Text};
use command_faults::Status;
use command_plan::whole_in;
use machine_core::Kind;
use player_model::{StoredFormat, StoredPlayer, StoredTrack};
use std::alloc::Global;

/// The first outputs of a track, one in a line.
#[tactic(auto, unfolding(crate::specs::Play::play_lines))]
pub(crate) fn play_lines<F: StoredFormat>(
    alloc: Global,
    track: StoredTrack<'_, F>,
    count: u32,
) -> Result<Text, NoMemory>
    ensures { IfOk result (λ lines. lines ≡ play_lines (heard F.decoder F.format track.entry) count) }
{
    let mut player = StoredPlayer::new(track);
    let mut lines = String::new(alloc);
    for i in 0..count {
        let output = player.next();
        if write!(lines, "{output}\n").is_err() {
            return Err(NoMemory);
        }
    }
    Ok(Text::from_string(lines))
}

/// The first outputs of an entry of the file that a front is, one in a line.
#[tactic(auto, unfolding(crate::specs::Play::said_of))]
pub(crate) fn said_of(
    alloc: Global,
    kind: Kind,
    file: &str,
    front: &[u8],
    entry: u32,
    count: u32,
) -> Result<Text, Status>
    ensures { Gives Status.Memory (λ lines. lines) result (said_of kind file.now entry count front.now) }
{
    let bytes = whole_in(alloc, file, front)?;
    match kind {
        Kind::Brr => image_said(alloc, file, bytes, entry, count),
        Kind::Spu => vag_said(alloc, file, bytes, entry, count),
        Kind::Ima => ima_said(alloc, file, bytes, entry, count),
    }
}
