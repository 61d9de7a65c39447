ghost use Rattle.std.specs.Prelude.{◌≡◌, ◌+◌, ◌*◌, ◌^◌, ◌<◌, ◌≤◌, [], IfOk, length};
ghost use Rattle.adpcm_nums.specs.Outcome.{Gives};
ghost use Rattle.snes_directory.specs.Reading.{IsImage, entries_of, image_of};
ghost use Rattle.snes_directory.specs.declared.fault.ImageFault.TheVariants.{NoMemory as OutOfMemory};

use crate::entry::read_entry;
use crate::entry_lists::EntryLists;
use crate::fault::ImageFault;
use crate::header::read_header;
use crate::image::Image;
use adpcm_nums::{Bytes, NoMemory, Words32};
use std::alloc::Global;

/// An empty list with room for so many numbers.
fn room_for(alloc: Global, count: u32) -> Result<Words32, NoMemory>
    ensures { IfOk result (λ list. list ≡ []) }
{
    match Vec::with_capacity(alloc, count as usize) {
        Ok(room) => Ok(Words32::from_vec(room)),
        Err(_) => Err(NoMemory),
    }
}

/// Reads the first `count` entries.
fn read_entries(
    alloc: Global,
    bytes: &[u8],
    base: u32,
    memory: &[u8],
    count: u32,
) -> Result<EntryLists, ImageFault>
    requires few { count ≤ 64 }
    requires within { 16 + 4 * count ≤ length bytes.now }
    requires small { length memory.now < 2 ^ 31 }
    ensures { Gives OutOfMemory (λ entries. entries) result (entries_of bytes.now base memory.now count) }
{
    let mut rates = room_for(alloc, count)?;
    let mut starts = room_for(alloc, count)?;
    let mut agains = room_for(alloc, count)?;
    for i in 0..count {
        let entry = match read_entry(bytes, base, memory, i) {
            Ok(entry) => entry,
            Err(fault) => return Err(fault),
        };
        rates.push(entry.rate)?;
        starts.push(entry.start)?;
        agains.push(entry.again)?;
    }
    Ok(EntryLists {
        rates,
        starts,
        agains,
    })
}

/// Reads an image file: the sound memory, and where each entry lies in it.
///
/// The first fault is answered: of the mark, the version, the number of entries, the base, the length of the memory and
/// that of the file, and then of each entry its rate, its start and its loop address. A loop address counts only where
/// the sample's end block repeats.
#[tactic(auto, unfolding(crate::specs::Reading::image_of))]
pub fn read_image(alloc: Global, bytes: &[u8]) -> Result<Image, ImageFault>
    requires { length bytes.now < 2 ^ 31 }
    ensures exact { Gives OutOfMemory (λ image. image) result (image_of bytes.now) }
    ensures image { IfOk result IsImage }
{
    let header = read_header(bytes)?;
    let memory = &bytes[16 + 4 * header.entries as usize..];
    let entries = read_entries(alloc, bytes, header.base, memory, header.entries)?;
    let memory = Bytes::copy_of(alloc, memory)?;
    Ok(Image {
        base: header.base,
        rates: entries.rates,
        memory,
        starts: entries.starts,
        agains: entries.agains,
    })
}
