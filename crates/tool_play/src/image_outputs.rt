ghost use Rattle.std.specs.Prelude.{◌≤◌, length, IfOk};
ghost use Rattle.adpcm_nums.specs.Outcome.{Gives};
ghost use Rattle.snes_directory.specs.Reading.{IsImage};
ghost use Rattle.tool_play.specs.Play.{image_in, image_said, track_in};

use crate::outputs::play_lines;
use adpcm_nums::{NoMemory, Text};
use command_faults::{InputFault, Status, input_refused};
use player_model::BrrTrack;
use snes_directory::{Image, ImageFault, read_image};
use std::alloc::Global;

/// The image that a file is.
#[tactic(auto, unfolding(crate::specs::Play::image_in))]
fn image_in(alloc: Global, file: &str, bytes: &[u8]) -> Result<Image, Status>
    requires { length bytes.now ≤ 8388608 }
    ensures exact { Gives Status.Memory (λ image. image) result (image_in file.now bytes.now) }
    ensures image { IfOk result IsImage }
{
    match read_image(alloc, bytes) {
        Ok(image) => Ok(image),
        Err(ImageFault::NoMemory) => Err(Status::Memory),
        Err(fault) => Err(input_refused(alloc, file, InputFault::Image { fault })),
    }
}

/// The track of an entry, where none of the entries has more than 4,096 blocks.
#[tactic(auto, unfolding(crate::specs::Play::track_in))]
fn track_in<'b>(
    alloc: Global,
    file: &str,
    image: &'b Image,
    entry: u32,
) -> Result<BrrTrack<'b>, Status>
    requires { IsImage image.now }
    ensures { Gives Status.Memory (λ track. track) result (track_in file.now image.now entry) }
{
    if let Some(i) = image.first_long() {
        let blocks = u64::from(image.blocks_at(i));
        return Err(input_refused(alloc, file, InputFault::TooMuch { blocks }));
    }
    let count = image.entries();
    if entry >= count {
        return Err(input_refused(alloc, file, InputFault::NoEntry { entry, count }));
    }
    match image.track_at(entry) {
        Ok(track) => Ok(track),
        Err(fault) => Err(input_refused(alloc, file, InputFault::Track { fault })),
    }
}

/// The first outputs of an entry of an image, one in a line.
#[tactic(auto, unfolding(crate::specs::Play::image_said))]
pub(crate) fn image_said(
    alloc: Global,
    file: &str,
    bytes: &[u8],
    entry: u32,
    count: u32,
) -> Result<Text, Status>
    requires { length bytes.now ≤ 8388608 }
    ensures { Gives Status.Memory (λ lines. lines) result (image_said file.now entry count bytes.now) }
{
    let image = image_in(alloc, file, bytes)?;
    let track = track_in(alloc, file, &image, entry)?;
    match play_lines(alloc, track, count) {
        Ok(lines) => Ok(lines),
        Err(NoMemory) => Err(Status::Memory),
    }
}
