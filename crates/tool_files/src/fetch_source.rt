ghost use Rattle.std.specs.Prelude.{◌≡◌, length, map, All, IfOk, Some};
ghost use Rattle.host_files.specs.Outside.{Files};
ghost use Rattle.manifest_reader.specs.Ranges.{IsEntry};
ghost use Rattle.loop_fit.specs.Source.{IsBlockOf};
ghost use Rattle.command_plan.specs.Read.{Reads};
ghost use Rattle.command_plan.specs.Reading.{status_of};
ghost use Rattle.command_plan.specs.Steps.{Keeps};
ghost use Rattle.tool_files.specs.Sources.{source_read, each_read};
ghost use Rattle.manifest_reader.specs.declared.manifest.SampleEntry.{SampleEntry};
ghost use Rattle.tool_files.specs.declared.source.Source.{Source};
ghost use Rattle.tool_files.specs.Ready.{IsReadyBy};

use crate::read_source::read_source;
use crate::source::Source;
use command_faults::Status;
use command_plan::fetch_front;
use host_files::Host;
use loop_fit::FitRule;
use manifest_reader::SampleEntry;
use std::alloc::Global;

/// The sample of an entry of the manifest, from its file.
fn fetch_source<H: Host>(
    alloc: Global,
    host: &mut H,
    rule: FitRule,
    entry: &SampleEntry,
) -> Result<Source, Status>
    requires block { IsBlockOf rule.kind rule.block }
    requires entry { IsEntry entry.now }
    ensures ready { IfOk result (IsReadyBy rule) }
    ensures named { IfOk result (λ s. s.name ≡ entry.now.name) }
    ensures keeps { Keeps (H.world host.old) (H.world host.new) (status_of result) }
    ensures told { (files : Files) → (H.world host.old).files ≡ Some files →
        Reads (λ v. v) (source_read files rule entry.now) (H.world host.old) (H.world host.new) result }
{
    let bytes = fetch_front(alloc, host, entry.file.as_str(), 4_194_304)?;
    read_source(alloc, rule, entry, bytes.as_slice())
}

/// The samples of the manifest's entries, each from its file, in order.
pub(crate) fn fetch_each<H: Host>(
    alloc: Global,
    host: &mut H,
    rule: FitRule,
    entries: &[SampleEntry],
) -> Result<Vec<Source>, Status>
    requires block { IsBlockOf rule.kind rule.block }
    requires entries { All IsEntry entries.now }
    ensures count { IfOk result (λ v. length v.items ≡ length entries.now) }
    ensures ready { IfOk result (λ v. All (IsReadyBy rule) v.items) }
    ensures named { IfOk result (λ v. map (λ (s : Source). s.name) v.items ≡ map (λ (e : SampleEntry). e.name) entries.now) }
    ensures keeps { Keeps (H.world host.old) (H.world host.new) (status_of result) }
    ensures told { (files : Files) → (H.world host.old).files ≡ Some files →
        Reads (λ v. v.items) (each_read files rule entries.now) (H.world host.old) (H.world host.new) result }
{
    let mut sources = Vec::new(alloc);
    for entry in entries {
        let source = fetch_source(alloc, host, rule, entry)?;
        match sources.push(source) {
            Ok(()) => {}
            Err(_) => return Err(Status::Memory),
        }
    }
    Ok(sources)
}
