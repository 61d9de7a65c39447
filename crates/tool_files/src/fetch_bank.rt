ghost use Rattle.std.specs.Prelude.{◌≡◌, ◌^◌, ◌≤◌, ◌<◌, length, map, All, IfOk, Some};
ghost use Rattle.std.specs.List.{sum_by};
ghost use Rattle.adpcm_nums.specs.Outcome.{Gives};
ghost use Rattle.host_files.specs.Outside.{Files};
ghost use Rattle.manifest_reader.specs.declared.manifest.SampleEntry.{SampleEntry};
ghost use Rattle.manifest_reader.specs.Meaning.{content_of};
ghost use Rattle.manifest_reader.specs.Ranges.{InRanges};
ghost use Rattle.command_plan.specs.Read.{Reads};
ghost use Rattle.command_plan.specs.Steps.{Keeps, IsPlain};
ghost use Rattle.tool_files.specs.declared.source.Source.{Source};
ghost use Rattle.tool_files.specs.Sources.{sources_read, with_room};
ghost use Rattle.tool_files.specs.Ready.{IsReady};
ghost use Rattle.command_plan.specs.Reading.{status_of};

use crate::fetch_source::fetch_each;
use crate::source::Source;
use bank_kinds::samples_in_block;
use command_faults::{Status, full};
use host_files::Host;
use loop_fit::FitRule;
use machine_core::Kind;
use manifest_reader::Manifest;
use snes_directory::{end_address, is_past_end};
use std::alloc::Global;

/// The number of all blocks.
fn all_blocks(sources: &[Source]) -> u64
    requires { length sources.now ≤ 64 }
    ensures value { result ≡ sum_by (λ s. s.fitted.blocks) sources.now }
    ensures high { result < 2 ^ 40 }
{
    let mut all = 0u64;
    for source in sources {
        all += u64::from(source.fitted.blocks);
    }
    all
}

/// The samples, where those of an image fit into sound memory.
#[tactic(auto, unfolding(crate::specs::Sources::with_room))]
fn with_room(
    alloc: Global,
    kind: Kind,
    bank: &str,
    base: u32,
    sources: Vec<Source>,
) -> Result<Vec<Source>, Status>
    requires { length sources.items ≤ 64 }
    ensures same { IfOk result (λ v. v ≡ sources) }
    ensures plain { IsPlain (status_of result) }
    ensures value { Gives Status.Memory (λ v. v.items) result (with_room kind bank.now base sources.items) }
{
    match kind {
        Kind::Brr => {
            let total = end_address(base, sources.len() as u64, all_blocks(sources.as_slice()));
            if is_past_end(total) {
                return Err(full(alloc, bank, total));
            }
            Ok(sources)
        }
        Kind::Spu | Kind::Ima => Ok(sources),
    }
}

/// The samples of a manifest, each from its file, where they fit into sound memory.
pub fn fetch_sources<H: Host>(
    alloc: Global,
    host: &mut H,
    manifest: &Manifest,
) -> Result<Vec<Source>, Status>
    requires ranges { InRanges (content_of manifest.now) }
    ensures count { IfOk result (λ v. length v.items ≡ length manifest.now.samples.items) }
    ensures ready { IfOk result (λ v. All (IsReady manifest.now.kind manifest.now.block) v.items) }
    ensures named { IfOk result (λ v. map (λ (s : Source). s.name) v.items ≡ map (λ (e : SampleEntry). e.name) manifest.now.samples.items) }
    ensures keeps { Keeps (H.world host.old) (H.world host.new) (status_of result) }
    ensures told { (files : Files) → (H.world host.old).files ≡ Some files →
        Reads (λ v. v.items) (sources_read files (content_of manifest.now)) (H.world host.old) (H.world host.new) result }
{
    let rule = FitRule {
        kind: manifest.kind,
        block: samples_in_block(manifest.kind, manifest.block),
        length: manifest.length,
        start: manifest.start,
    };
    let sources = fetch_each(alloc, host, rule, manifest.samples.as_slice())?;
    with_room(
        alloc,
        manifest.kind,
        manifest.bank.as_str(),
        manifest.base,
        sources,
    )
}
