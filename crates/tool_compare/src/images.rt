ghost use Rattle.std.specs.Prelude.{◌≡◌, ◌≤◌, IfOk, Some, length};
ghost use Rattle.host_files.specs.Outside.{Files};
ghost use Rattle.manifest_reader.specs.Meaning.{content_of};
ghost use Rattle.adpcm_nums.specs.Outcome.{Gives};
ghost use Rattle.bank_check.specs.Stored.{bank_image};
ghost use Rattle.snes_directory.specs.Reading.{IsImage};
ghost use Rattle.command_plan.specs.Read.{fetched_for, Reads};
ghost use Rattle.command_plan.specs.Reading.{status_of};
ghost use Rattle.command_plan.specs.Steps.{IsPlain, Keeps};
ghost use Rattle.tool_compare.specs.Banks.{image_by, no_image, HasEntries};
ghost use Rattle.command_plan.specs.Front.{front_in, or_told};

use adpcm_nums::{Bytes, Words32};
use bank_check::{StoredFailure, read_bank};
use command_faults::{Status, input_refused};
use command_plan::fetch_front;
use host_files::Host;
use machine_core::Kind;
use manifest_reader::Manifest;
use snes_directory::Image;
use std::alloc::Global;

/// The image of a bank of so many samples, from the front of its file.
fn image_in(alloc: Global, bank: &str, count: u32, front: &[u8]) -> Result<Image, Status>
    requires { length front.now ≤ 8388609 }
    ensures image { IfOk result IsImage }
    ensures count { IfOk result (λ image. length image.starts ≡ count) }
    ensures plain { IsPlain (status_of result) }
    ensures value { Gives Status.Memory (λ image. image) result (or_told (λ f. Status.Input bank.now f) (bank_image count front.now)) }
{
    match read_bank(alloc, count, front) {
        Ok(image) => Ok(image),
        Err(StoredFailure::NoMemory) => Err(Status::Memory),
        Err(StoredFailure::Fault { fault }) => Err(input_refused(alloc, bank, fault)),
    }
}

/// The image of a bank of so many samples.
fn fetch_bank<H: Host>(alloc: Global, host: &mut H, bank: &str, count: u32) -> Result<Image, Status>
    ensures image { IfOk result IsImage }
    ensures count { IfOk result (λ image. length image.starts ≡ count) }
    ensures keeps { Keeps (H.world host.old) (H.world host.new) (status_of result) }
    ensures told { (files : Files) → (H.world host.old).files ≡ Some files →
        Reads (λ image. image) (fetched_for bank.now (or_told (λ f. Status.Input bank.now f) (bank_image count (front_in files bank.now 8388608)))) (H.world host.old) (H.world host.new) result }
{
    let front = match fetch_front(alloc, host, bank, 8_388_608) {
        Ok(front) => front,
        Err(status) => return Err(status),
    };
    image_in(alloc, bank, count, front.as_slice())
}

/// What stands for the image of a bank in files of its own.
fn none(alloc: Global) -> Image
    ensures { result ≡ no_image }
{
    Image {
        base: 0,
        rates: Words32::from_vec(Vec::new(alloc)),
        memory: Bytes::from_vec(Vec::new(alloc)),
        starts: Words32::from_vec(Vec::new(alloc)),
        agains: Words32::from_vec(Vec::new(alloc)),
    }
}

/// The image of a manifest's bank, where its format has one.
pub(crate) fn fetch_image<H: Host>(
    alloc: Global,
    host: &mut H,
    manifest: &Manifest,
) -> Result<Image, Status>
    requires few { length manifest.now.samples.items ≤ 64 }
    ensures entries { IfOk result (HasEntries manifest.now.kind (length manifest.now.samples.items)) }
    ensures keeps { Keeps (H.world host.old) (H.world host.new) (status_of result) }
    ensures told { (files : Files) → (H.world host.old).files ≡ Some files →
        Reads (λ image. image) (image_by manifest.now.kind files (content_of manifest.now)) (H.world host.old) (H.world host.new) result }
{
    match manifest.kind {
        Kind::Brr => {
            let count = manifest.samples.as_slice().len() as u32;
            fetch_bank(alloc, host, manifest.bank.as_str(), count)
        }
        Kind::Spu | Kind::Ima => Ok(none(alloc)),
    }
}
