ghost use Rattle.std.specs.Prelude.{◌≡◌, ◌≤◌, ℕ, List, All, IfOk, Some, Ok, length};
ghost use Rattle.host_files.specs.Outside.{Files};
ghost use Rattle.manifest_reader.specs.Meaning.{content_of};
ghost use Rattle.manifest_reader.specs.Ranges.{InRanges};
ghost use Rattle.command_plan.specs.Promise.{Reaches, Promises};
ghost use Rattle.command_plan.specs.Read.{as_reading};
ghost use Rattle.command_plan.specs.Reading.{status_of};
ghost use Rattle.command_plan.specs.Steps.{Keeps, ReadsTo};
ghost use Rattle.tool_compare.specs.Check.{bank_read, check_course};
ghost use Rattle.tool_compare.specs.Checked.{AnswersCheck, IsReported, MayTell};
ghost use Rattle.tool_files.specs.Sources.{manifest_read};
ghost use Rattle.tool_compare.specs.Compared.{compared};
ghost use Rattle.tool_files.specs.Ready.{IsReady};

use crate::check_bank::check_samples;
use crate::images::fetch_image;
use crate::said::say_report;
use command_faults::Status;
use command_plan::finish;
use host_files::Host;
use manifest_reader::Manifest;
use report_text::SampleReport;
use std::alloc::Global;
use tool_files::{Source, fetch_manifest, fetch_sources};

/// The command `check MANIFEST`: fetches the manifest and the WAVE files that it names, compares what is stored for each with them, tests
/// the stored certificates, and says the report.
///
/// Nothing is stored. Whoever made the stored files, the told errors are exact, and no list of blocks that may be stored has an error below a
/// told bound.
pub fn run_check<H: Host>(alloc: Global, host: &mut H, manifest: &str) -> Status
    // How the world stands, whatever the host did.
    ensures told { (files : Files) → (H.world host.old).files ≡ Some files →
        Promises (check_course files manifest.now) (MayTell files manifest.now) (H.world host.old) (H.world host.new) result }
    // In the command's own words: the files stay as they were; at `Done` each stored list is legal, its told error is exact, and its told bound
    // holds; where the host does not fail, the manifest, the sources and what is stored decide how it ends.
    ensures answer { (files : Files) → (H.world host.old).files ≡ Some files →
        AnswersCheck files manifest.now (H.world host.old) (H.world host.new) result }
    // These hold of a host that tells nothing, too.
    ensures keeps { Keeps (H.world host.old) (H.world host.new) result }
{
    let status = come_check(alloc, host, manifest);
    finish(alloc, host, status)
}

/// The command `check` up to the line of its status.
fn come_check<H: Host>(alloc: Global, host: &mut H, name: &str) -> Status
    ensures keeps { Keeps (H.world host.old) (H.world host.new) result }
    ensures told { (files : Files) → (H.world host.old).files ≡ Some files →
        Reaches (check_course files name.now) (MayTell files name.now) (H.world host.old) (H.world host.new) result }
{
    match fetch_manifest(alloc, host, name) {
        Ok(manifest) => come_stored(alloc, host, &manifest),
        Err(status) => status,
    }
}

/// What is done for a manifest that was read, up to the line of its status.
fn come_stored<H: Host>(alloc: Global, host: &mut H, manifest: &Manifest) -> Status
    requires ranges { InRanges (content_of manifest.now) }
    ensures keeps { Keeps (H.world host.old) (H.world host.new) result }
    ensures told { (files : Files) (name : List ℕ) → (H.world host.old).files ≡ Some files → (manifest_read files name).gives ≡ Ok (content_of manifest.now) →
        Reaches (as_reading (compared bank_read files (content_of manifest.now))) (MayTell files name) (H.world host.old) (H.world host.new) result }
{
    let sources = match fetch_sources(alloc, host, manifest) {
        Ok(sources) => sources,
        Err(status) => return status,
    };
    match fetch_reports(alloc, host, manifest, sources.as_slice()) {
        Ok(reports) => say_report(alloc, host, reports.as_slice()),
        Err(status) => status,
    }
}

/// What is told of what is stored for these sources.
fn fetch_reports<H: Host>(
    alloc: Global,
    host: &mut H,
    manifest: &Manifest,
    sources: &[Source],
) -> Result<Vec<SampleReport>, Status>
    requires ranges { InRanges (content_of manifest.now) }
    requires ready { All (IsReady manifest.now.kind manifest.now.block) sources.now }
    requires count { length sources.now ≡ length manifest.now.samples.items }
    ensures count { IfOk result (λ v. length v.items ≡ length sources.now) }
    ensures bounds { IfOk result (λ v. All (λ (r : SampleReport). r.bound ≤ r.error) v.items) }
    ensures keeps { Keeps (H.world host.old) (H.world host.new) (status_of result) }
    ensures told { (files : Files) → (H.world host.old).files ≡ Some files →
        ReadsTo (as_reading (bank_read files (content_of manifest.now) sources.now)) (H.world host.old) (H.world host.new) result
        (λ v. IsReported files (content_of manifest.now) sources.now v.items) }
{
    match fetch_image(alloc, host, manifest) {
        Ok(image) => check_samples(alloc, host, manifest, &image, sources),
        Err(status) => Err(status),
    }
}
