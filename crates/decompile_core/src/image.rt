ghost use Rattle.std.specs.Prelude.{◌≡◌, ◌^◌, ◌<◌, ◌≤◌, length, false, All, IfOk, None};
ghost use Rattle.adpcm_nums.specs.First.{first_where};
ghost use Rattle.adpcm_nums.specs.Outcome.{Gives};
ghost use Rattle.snes_directory.specs.Reading.{IsImage};
ghost use Rattle.snes_directory.specs.EntryTracks.{is_long};
ghost use Rattle.decompile_core.specs.declared.fault.DecompileFault.TheVariants.{NoMemory as OutOfMemory};
ghost use Rattle.decompile_core.specs.Recovered.{IsEntry};
ghost use Rattle.decompile_core.specs.Decompiled.{entries_of, entry_of, image_decompiled, image_in};

use crate::fault::DecompileFault;
use crate::recovered::Recovered;
use crate::stored::recover;
use snes_directory::{Image, ImageFault, read_image};
use std::alloc::Global;

/// The image that bytes are.
#[tactic(auto, unfolding(crate::specs::Decompiled::image_in))]
fn image_in(alloc: Global, bytes: &[u8]) -> Result<Image, DecompileFault>
    requires { length bytes.now < 2 ^ 31 }
    ensures exact { Gives OutOfMemory (λ image. image) result (image_in bytes.now) }
    ensures image { IfOk result IsImage }
{
    match read_image(alloc, bytes) {
        Ok(image) => Ok(image),
        Err(ImageFault::NoMemory) => Err(DecompileFault::NoMemory),
        Err(fault) => Err(DecompileFault::Image { fault }),
    }
}

/// Samples and loop of an entry, where none of the entries is too long.
fn recover_entry(alloc: Global, image: &Image, entry: u32) -> Result<Recovered, DecompileFault>
    requires image { IsImage image.now }
    requires within { entry < length image.now.starts }
    requires few { is_long image.now entry ≡ false }
    ensures exact { Gives OutOfMemory (λ entry. entry) result (entry_of image.now entry) }
    ensures kept { IfOk result IsEntry }
{
    match image.track_at(entry) {
        Ok(track) => {
            let rate = image.rates.as_slice()[entry as usize];
            Ok(recover(alloc, track, 2, rate, 0)?)
        }
        Err(fault) => Err(DecompileFault::Track { fault }),
    }
}

/// Samples and loops of all entries, where none of them is too long.
fn recover_entries(alloc: Global, image: &Image) -> Result<Vec<Recovered>, DecompileFault>
    requires image { IsImage image.now }
    requires few { first_where (is_long image.now) (length image.now.starts) ≡ None }
    ensures exact { Gives OutOfMemory (λ list. list.items) result (entries_of image.now (length image.now.starts)) }
    ensures count { IfOk result (λ list. length list.items ≡ length image.now.starts) }
    ensures kept { IfOk result (λ list. All IsEntry list.items) }
{
    let mut list = Vec::new(alloc);
    for i in 0..image.entries() {
        let entry = match recover_entry(alloc, image, i) {
            Ok(entry) => entry,
            Err(fault) => return Err(fault),
        };
        match list.push(entry) {
            Ok(()) => {}
            Err(_) => return Err(DecompileFault::NoMemory),
        }
    }
    Ok(list)
}

/// Every entry of an image.
#[tactic(auto, unfolding(crate::specs::Decompiled::image_decompiled))]
pub(crate) fn decompile_image(alloc: Global, bytes: &[u8]) -> Result<Vec<Recovered>, DecompileFault>
    requires { length bytes.now < 2 ^ 31 }
    ensures exact { Gives OutOfMemory (λ list. list.items) result (image_decompiled bytes.now) }
    ensures some { IfOk result (λ list. 1 ≤ length list.items) }
    ensures few { IfOk result (λ list. length list.items ≤ 64) }
    ensures kept { IfOk result (λ list. All IsEntry list.items) }
{
    let image = image_in(alloc, bytes)?;
    match image.first_long() {
        None => recover_entries(alloc, &image),
        Some(i) => Err(DecompileFault::TooMuch {
            blocks: u64::from(image.blocks_at(i)),
        }),
    }
}
