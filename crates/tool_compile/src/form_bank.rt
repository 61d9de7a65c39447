ghost use Rattle.std.specs.Prelude.{◌≡◌, ◌≤◌, length, map, All, IsTrue, IfOk};
ghost use Rattle.std.specs.List.{AllZip};
ghost use Rattle.manifest_reader.specs.declared.manifest.SampleEntry.{SampleEntry};
ghost use Rattle.manifest_reader.specs.Meaning.{content_of};
ghost use Rattle.manifest_reader.specs.Ranges.{IsWithin, StoresOnce};
ghost use Rattle.ima_machine.specs.Ima.{is_align};
ghost use Rattle.bank_kinds.specs.Kinds.{codec_for};
ghost use Rattle.bank_compile.specs.Bank.{IsOut};
ghost use Rattle.tool_files.specs.declared.source.Source.{Source};
ghost use Rattle.tool_compile.specs.Compile.{IsMadeOf, IsBank};
ghost use Rattle.tool_files.specs.Ready.{IsReady};

use adpcm_nums::{NoMemory, Text};
use bank_compile::{
    NamedFile, SampleOut, compile_bank, compile_sample, report, stored_bank_replays,
};
use bank_kinds::{certified_bounds_hold, kinds_encode};
use manifest_reader::Manifest;
use std::alloc::Global;
use tool_files::Source;

/// One source, compiled.
fn compile_source(alloc: Global, manifest: &Manifest, source: Source) -> Result<SampleOut, NoMemory>
    requires block { IsTrue (is_align manifest.now.block) }
    requires beam { IsWithin 1 64 1 manifest.now.beam }
    requires paths { IsWithin 1 64 1 manifest.now.paths }
    requires ready { IsReady manifest.now.kind manifest.now.block source }
    ensures made { IfOk result (IsMadeOf (content_of manifest.now) source) }
    ensures out { IfOk result (IsOut (codec_for manifest.now.kind manifest.now.block)) }
    ensures bound { IfOk result (λ out. out.report.bound ≤ out.report.error) }
{
    let Source { name, rate, fitted } = source;
    compile_sample(alloc, manifest, name.as_str(), rate, fitted)
}

/// All sources, compiled in order.
fn compile_all(
    alloc: Global,
    manifest: &Manifest,
    sources: Vec<Source>,
) -> Result<Vec<SampleOut>, NoMemory>
    requires block { IsTrue (is_align manifest.now.block) }
    requires beam { IsWithin 1 64 1 manifest.now.beam }
    requires paths { IsWithin 1 64 1 manifest.now.paths }
    requires ready { All (IsReady manifest.now.kind manifest.now.block) sources.items }
    ensures count { IfOk result (λ outs. length outs.items ≡ length sources.items) }
    ensures made { IfOk result (λ outs. AllZip (IsMadeOf (content_of manifest.now)) sources.items outs.items) }
    ensures outs { IfOk result (λ outs. All (IsOut (codec_for manifest.now.kind manifest.now.block)) outs.items) }
    ensures bounds { IfOk result (λ outs. All (λ out. out.report.bound ≤ out.report.error) outs.items) }
{
    let mut outs = Vec::new(alloc);
    for source in sources {
        let out = compile_source(alloc, manifest, source)?;
        match outs.push(out) {
            Ok(()) => {}
            Err(_) => return Err(NoMemory),
        }
    }
    Ok(outs)
}

/// The files of a bank and its report.
///
/// The samples of an image have room in sound memory, so laying them out is refused for want of memory alone.
pub(crate) fn form_bank(
    alloc: Global,
    manifest: &Manifest,
    sources: Vec<Source>,
) -> Result<(Vec<NamedFile>, Text), NoMemory>
    requires base { IsWithin 0 65280 256 manifest.now.base }
    requires some { 1 ≤ length sources.items }
    requires few { length sources.items ≤ 64 }
    requires ready { All (IsReady manifest.now.kind manifest.now.block) sources.items }
    requires block { IsTrue (is_align manifest.now.block) }
    requires beam { IsWithin 1 64 1 manifest.now.beam }
    requires paths { IsWithin 1 64 1 manifest.now.paths }
    requires named { map (λ (s : Source). s.name) sources.items ≡ map (λ (e : SampleEntry). e.name) manifest.now.samples.items }
    requires once { StoresOnce manifest.now.kind manifest.now.bank manifest.now.samples.items }
    ensures { IfOk result (λ r. IsBank (content_of manifest.now) sources.items r.0.items r.1) }
{
    stored_bank_replays();
    certified_bounds_hold();
    kinds_encode();
    let outs = compile_all(alloc, manifest, sources)?;
    let files = match compile_bank(alloc, manifest, outs.as_slice()) {
        Ok(files) => files,
        Err(_) => return Err(NoMemory),
    };
    let line = report(alloc, outs.as_slice(), files.len() as u32)?;
    Ok((files, line))
}
