ghost use Rattle.std.specs.Prelude.{◌≡◌, ℕ, List, Some, Ok};
ghost use Rattle.host_files.specs.Outside.{Files};
ghost use Rattle.manifest_reader.specs.Meaning.{content_of};
ghost use Rattle.manifest_reader.specs.Ranges.{InRanges, StoresOnce};
ghost use Rattle.command_plan.specs.Promise.{Reaches, Promises};
ghost use Rattle.command_plan.specs.Read.{as_reading};
ghost use Rattle.tool_compile.specs.Compile.{bank_course, compile_course, MayStore};
ghost use Rattle.tool_compile.specs.Compiled.{AnswersCompile};
ghost use Rattle.tool_files.specs.Sources.{manifest_read};
ghost use Rattle.command_plan.specs.Steps.{Keeps};

use crate::form_bank::form_bank;
use adpcm_nums::NoMemory;
use command_faults::Status;
use command_plan::{finish, write_out};
use host_files::Host;
use manifest_reader::Manifest;
use std::alloc::Global;
use tool_files::{fetch_manifest, fetch_sources};

/// The command `compile MANIFEST`: fetches the manifest and the WAVE files that it names, encodes them, stores the files of
/// the bank, which `compile_bank` names, and says the report.
///
/// A refused run stores nothing.
pub fn run_compile<H: Host>(alloc: Global, host: &mut H, manifest: &str) -> Status
    // How the world stands, whatever the host did.
    ensures told { (files : Files) → (H.world host.old).files ≡ Some files →
        Promises (compile_course files manifest.now) (MayStore files manifest.now) (H.world host.old) (H.world host.new) result }
    // In the command's own words: at `Done` the bank plays, the told errors are exact, and the stored certificates show the told bounds; a told error is
    // at most the sum of the beams' errors, and the bound where every segment was searched state by state. Where the host does not fail, the manifest,
    // the sources and their room decide how it ends.
    ensures answer { (files : Files) → (H.world host.old).files ≡ Some files →
        AnswersCompile files manifest.now (H.world host.old) (H.world host.new) result }
    // These hold of a host that tells nothing, too.
    ensures keeps { Keeps (H.world host.old) (H.world host.new) result }
{
    let status = come_compile(alloc, host, manifest);
    finish(alloc, host, status)
}

/// The command `compile` up to the line of its status.
fn come_compile<H: Host>(alloc: Global, host: &mut H, name: &str) -> Status
    ensures keeps { Keeps (H.world host.old) (H.world host.new) result }
    ensures told { (files : Files) → (H.world host.old).files ≡ Some files →
        Reaches (compile_course files name.now) (MayStore files name.now) (H.world host.old) (H.world host.new) result }
{
    match fetch_manifest(alloc, host, name) {
        Ok(manifest) => come_bank(alloc, host, &manifest),
        Err(status) => status,
    }
}

/// What is done for a manifest that was read, up to the line of its status.
fn come_bank<H: Host>(alloc: Global, host: &mut H, manifest: &Manifest) -> Status
    requires ranges { InRanges (content_of manifest.now) }
    requires once { StoresOnce manifest.now.kind manifest.now.bank manifest.now.samples.items }
    ensures keeps { Keeps (H.world host.old) (H.world host.new) result }
    ensures told { (files : Files) (name : List ℕ) → (H.world host.old).files ≡ Some files → (manifest_read files name).gives ≡ Ok (content_of manifest.now) →
        Reaches (as_reading (bank_course files (content_of manifest.now))) (MayStore files name) (H.world host.old) (H.world host.new) result }
{
    let sources = match fetch_sources(alloc, host, manifest) {
        Ok(sources) => sources,
        Err(status) => return status,
    };
    match form_bank(alloc, manifest, sources) {
        Ok((files, line)) => write_out(alloc, host, files.as_slice(), line.as_str()),
        Err(NoMemory) => Status::Memory,
    }
}
