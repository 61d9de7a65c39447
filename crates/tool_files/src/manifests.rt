ghost use Rattle.std.specs.Prelude.{◌≡◌, IfOk, Some};
ghost use Rattle.adpcm_nums.specs.Outcome.{Gives, Tells};
ghost use Rattle.host_files.specs.Outside.{Files};
ghost use Rattle.manifest_reader.specs.Meaning.{content_of};
ghost use Rattle.manifest_reader.specs.Ranges.{InRanges, StoresOnce};
ghost use Rattle.command_plan.specs.Read.{Reads};
ghost use Rattle.command_plan.specs.Reading.{status_of};
ghost use Rattle.command_plan.specs.Steps.{Keeps, IsPlain};
ghost use Rattle.tool_files.specs.Source.{manifest_in};
ghost use Rattle.tool_files.specs.Sources.{manifest_read};

use command_faults::Status;
use command_plan::fetch_front;
use host_files::Host;
use manifest_reader::{Manifest, ManifestFault, read_manifest};
use std::alloc::Global;

/// The status of a fault of a manifest.
fn manifest_refused(fault: ManifestFault) -> Status
    ensures memory { fault ≡ ManifestFault.NoMemory → result ≡ Status.Memory }
    ensures told { Tells Status.Memory result (Status.Manifest fault) }
{
    match fault {
        ManifestFault::NoMemory => Status::Memory,
        fault => Status::Manifest { fault },
    }
}

/// The manifest of this name that the bytes spell.
#[tactic(auto, unfolding(crate::specs::Source::manifest_in))]
fn manifest_in(alloc: Global, own: &str, bytes: &[u8]) -> Result<Manifest, Status>
    ensures ranges { IfOk result (λ m. InRanges (content_of m)) }
    ensures once { IfOk result (λ m. StoresOnce m.kind m.bank m.samples.items) }
    ensures plain { IsPlain (status_of result) }
    ensures value { Gives Status.Memory content_of result (manifest_in own.now bytes.now) }
{
    match read_manifest(alloc, bytes, own) {
        Ok(manifest) => Ok(manifest),
        Err(fault) => Err(manifest_refused(fault)),
    }
}

/// The manifest of this name.
pub fn fetch_manifest<H: Host>(alloc: Global, host: &mut H, name: &str) -> Result<Manifest, Status>
    ensures ranges { IfOk result (λ m. InRanges (content_of m)) }
    ensures once { IfOk result (λ m. StoresOnce m.kind m.bank m.samples.items) }
    ensures keeps { Keeps (H.world host.old) (H.world host.new) (status_of result) }
    ensures told { (files : Files) → (H.world host.old).files ≡ Some files →
        Reads content_of (manifest_read files name.now) (H.world host.old) (H.world host.new) result }
{
    let bytes = fetch_front(alloc, host, name, 65_536)?;
    manifest_in(alloc, name, bytes.as_slice())
}
