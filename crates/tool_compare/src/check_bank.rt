ghost use Rattle.std.specs.Prelude.{◌≡◌, ◌≤◌, ◌<◌, All, IfOk, IsTrue, Some, Ok, length};
ghost use Rattle.host_files.specs.Outside.{Files};
ghost use Rattle.ima_machine.specs.Ima.{is_align};
ghost use Rattle.manifest_reader.specs.Meaning.{content_of};
ghost use Rattle.bank_kinds.specs.Kinds.{codec_for};
ghost use Rattle.bank_kinds.specs.Fits.{IsFit};
ghost use Rattle.command_plan.specs.Read.{as_reading, read_all};
ghost use Rattle.command_plan.specs.Reading.{status_of};
ghost use Rattle.command_plan.specs.Steps.{Keeps, ReadsTo};
ghost use Rattle.tool_files.specs.declared.source.Source.{Source};
ghost use Rattle.tool_compare.specs.Check.{sample_read};
ghost use Rattle.tool_compare.specs.Banks.{HasEntries};
ghost use Rattle.tool_compare.specs.Checked.{AllChecked, IsChecked};
ghost use Rattle.tool_files.specs.Ready.{IsReady};

use crate::fetch_proven::fetch_proven;
use crate::fetch_stored::fetch_error;
use adpcm_nums::{NoMemory, Text};
use bank_kinds::shown;
use command_faults::Status;
use host_files::Host;
use manifest_reader::Manifest;
use report_text::SampleReport;
use snes_directory::Image;
use std::alloc::Global;
use tool_files::Source;

/// What is told of sample `j` of a bank: the exact error of what is stored for it, and the bound that its certificate shows.
fn check_sample<H: Host>(
    alloc: Global,
    host: &mut H,
    manifest: &Manifest,
    image: &Image,
    j: u32,
    source: &Source,
) -> Result<SampleReport, Status>
    requires align { IsTrue (is_align manifest.now.block) }
    requires fit { IsFit (codec_for manifest.now.kind manifest.now.block) source.now.fitted }
    requires entries { HasEntries manifest.now.kind (length manifest.now.samples.items) image.now }
    requires j { j < length manifest.now.samples.items }
    ensures bound { IfOk result (λ r. r.bound ≤ r.error) }
    ensures keeps { Keeps (H.world host.old) (H.world host.new) (status_of result) }
    ensures told { (files : Files) → (H.world host.old).files ≡ Some files →
        ReadsTo (as_reading (sample_read files (content_of manifest.now) image.now j source.now)) (H.world host.old) (H.world host.new) result
        (λ r. ((sample_read files (content_of manifest.now) image.now j source.now).gives ≡ Ok r) × IsChecked files (content_of manifest.now) image.now j source.now r) }
{
    let error = match fetch_error(alloc, host, manifest, image, j, source) {
        Ok(error) => error,
        Err(status) => return Err(status),
    };
    let proven = match fetch_proven(alloc, host, manifest, source) {
        Ok(proven) => proven,
        Err(status) => return Err(status),
    };
    let name = match Text::copy_of(alloc, source.name.as_str()) {
        Ok(name) => name,
        Err(NoMemory) => return Err(Status::Memory),
    };
    let fitted = &source.fitted;
    let levels = proven.levels;
    Ok(SampleReport {
        name,
        blocks: fitted.blocks,
        shown: shown(fitted.loop_block, fitted.loop_frames),
        error,
        bound: proven.bound,
        levels,
    })
}

/// What is told of the samples of a bank, in order.
pub(crate) fn check_samples<H: Host>(
    alloc: Global,
    host: &mut H,
    manifest: &Manifest,
    image: &Image,
    sources: &[Source],
) -> Result<Vec<SampleReport>, Status>
    requires align { IsTrue (is_align manifest.now.block) }
    requires ready { All (IsReady manifest.now.kind manifest.now.block) sources.now }
    requires entries { HasEntries manifest.now.kind (length manifest.now.samples.items) image.now }
    requires count { length sources.now ≡ length manifest.now.samples.items }
    requires few { length sources.now ≤ 64 }
    ensures count { IfOk result (λ v. length v.items ≡ length sources.now) }
    ensures bounds { IfOk result (λ v. All (λ (r : SampleReport). r.bound ≤ r.error) v.items) }
    ensures keeps { Keeps (H.world host.old) (H.world host.new) (status_of result) }
    ensures told { (files : Files) → (H.world host.old).files ≡ Some files →
        ReadsTo (as_reading (read_all (sample_read files (content_of manifest.now) image.now) 0 sources.now)) (H.world host.old) (H.world host.new) result
        (λ v. ((read_all (sample_read files (content_of manifest.now) image.now) 0 sources.now).gives ≡ Ok v.items) × AllChecked files (content_of manifest.now) image.now sources.now v.items) }
{
    let mut reports = Vec::new(alloc);
    for j in 0..sources.len() {
        let source = &sources[j];
        match check_sample(alloc, host, manifest, image, j as u32, source) {
            Ok(report) => match reports.push(report) {
                Ok(()) => {}
                Err(_) => return Err(Status::Memory),
            },
            Err(status) => return Err(status),
        }
    }
    Ok(reports)
}
