ghost use Rattle.std.specs.Prelude.{◌≡◌, ◌<◌, IfOk, IsTrue, Some, length};
ghost use Rattle.host_files.specs.Outside.{Files};
ghost use Rattle.ima_machine.specs.Ima.{is_align};
ghost use Rattle.manifest_reader.specs.Meaning.{content_of};
ghost use Rattle.manifest_reader.specs.Ranges.{InRanges};
ghost use Rattle.manifest_reader.specs.Stored.{vag_name_of, ima_name_of};
ghost use Rattle.bank_kinds.specs.Kinds.{codec_for, ima_codec, spu_codec};
ghost use Rattle.bank_kinds.specs.Fits.{IsFit};
ghost use Rattle.bank_check.specs.Errors.{IsStoredError};
ghost use Rattle.bank_check.specs.Stored.{ima_list, vag_list};
ghost use Rattle.command_plan.specs.Read.{as_reading, fetched_for};
ghost use Rattle.command_plan.specs.Reading.{status_of};
ghost use Rattle.command_plan.specs.Steps.{Keeps, ReadsTo};
ghost use Rattle.tool_compare.specs.Banks.{stored_by, stored_read, HasEntries, IsSomeError};
ghost use Rattle.command_plan.specs.Front.{front_in, or_told};

use crate::stored_status::{or_failed, or_refused};
use adpcm_nums::NoMemory;
use bank_check::{ima_error, image_error, vag_error};
use command_faults::Status;
use command_plan::fetch_front;
use host_files::Host;
use machine_core::Kind;
use manifest_reader::{Manifest, ima_name, vag_name};
use snes_directory::Image;
use std::alloc::Global;
use tool_files::Source;

/// The exact error of the VAG file of a sample.
fn fetch_vag<H: Host>(
    alloc: Global,
    host: &mut H,
    bank: &str,
    source: &Source,
) -> Result<u64, Status>
    requires fit { IsFit spu_codec source.now.fitted }
    ensures some { IfOk result (IsSomeError spu_codec source.now.fitted) }
    ensures keeps { Keeps (H.world host.old) (H.world host.new) (status_of result) }
    ensures told { (files : Files) → (H.world host.old).files ≡ Some files →
        ReadsTo (as_reading (fetched_for (vag_name_of bank.now source.now.name) (or_told (λ f. Status.Input source.now.name f)
        (vag_list source.now.fitted (front_in files (vag_name_of bank.now source.now.name) 8388608))))) (H.world host.old) (H.world host.new) result
        (IsStoredError spu_codec source.now.fitted (vag_list source.now.fitted (front_in files (vag_name_of bank.now source.now.name) 8388608))) }
{
    let own = match vag_name(alloc, bank, source.name.as_str()) {
        Ok(own) => own,
        Err(NoMemory) => return Err(Status::Memory),
    };
    let front = match fetch_front(alloc, host, own.as_str(), 8_388_608) {
        Ok(front) => front,
        Err(status) => return Err(status),
    };
    let answer = vag_error(alloc, front.as_slice(), &source.fitted);
    or_failed(alloc, source.name.as_str(), answer)
}

/// The exact error of the WAVE file of a sample of IMA ADPCM.
fn fetch_ima<H: Host>(
    alloc: Global,
    host: &mut H,
    bank: &str,
    align: u32,
    source: &Source,
) -> Result<u64, Status>
    requires align { IsTrue (is_align align) }
    requires fit { IsFit (ima_codec align) source.now.fitted }
    ensures some { IfOk result (IsSomeError (ima_codec align) source.now.fitted) }
    ensures keeps { Keeps (H.world host.old) (H.world host.new) (status_of result) }
    ensures told { (files : Files) → (H.world host.old).files ≡ Some files →
        ReadsTo (as_reading (fetched_for (ima_name_of bank.now source.now.name) (or_told (λ f. Status.Input source.now.name f)
        (ima_list align source.now.fitted (front_in files (ima_name_of bank.now source.now.name) 8388608))))) (H.world host.old) (H.world host.new) result
        (IsStoredError (ima_codec align) source.now.fitted (ima_list align source.now.fitted (front_in files (ima_name_of bank.now source.now.name) 8388608))) }
{
    let own = match ima_name(alloc, bank, source.name.as_str()) {
        Ok(own) => own,
        Err(NoMemory) => return Err(Status::Memory),
    };
    let front = match fetch_front(alloc, host, own.as_str(), 8_388_608) {
        Ok(front) => front,
        Err(status) => return Err(status),
    };
    let answer = ima_error(alloc, align, front.as_slice(), &source.fitted);
    or_failed(alloc, source.name.as_str(), answer)
}

/// The exact error of what is stored for sample `j`: in the bank's image, or in a file of its own.
pub(crate) fn fetch_error<H: Host>(
    alloc: Global,
    host: &mut H,
    manifest: &Manifest,
    image: &Image,
    j: u32,
    source: &Source,
) -> Result<u64, Status>
    requires align { IsTrue (is_align manifest.now.block) }
    requires fit { IsFit (codec_for manifest.now.kind manifest.now.block) source.now.fitted }
    requires entries { HasEntries manifest.now.kind (length manifest.now.samples.items) image.now }
    requires j { j < length manifest.now.samples.items }
    ensures some { IfOk result (IsSomeError (codec_for manifest.now.kind manifest.now.block) source.now.fitted) }
    ensures keeps { Keeps (H.world host.old) (H.world host.new) (status_of result) }
    ensures told { (files : Files) → (H.world host.old).files ≡ Some files →
        ReadsTo (as_reading (stored_read files (content_of manifest.now) image.now j source.now)) (H.world host.old) (H.world host.new) result
        (IsStoredError (codec_for manifest.now.kind manifest.now.block) source.now.fitted (stored_by manifest.now.kind files (content_of manifest.now) image.now j source.now)) }
{
    let bank = manifest.bank.as_str();
    match manifest.kind {
        Kind::Brr => {
            let answer = image_error(image, j, &source.fitted);
            or_refused(alloc, source.name.as_str(), answer)
        }
        Kind::Spu => fetch_vag(alloc, host, bank, source),
        Kind::Ima => fetch_ima(alloc, host, bank, manifest.block, source),
    }
}
