ghost use Rattle.std.specs.Prelude.{◌≡◌, ◌≤◌, ℕ, length, IfOk, IfSome};
ghost use Rattle.adpcm_nums.specs.Outcome.{Gives, Tells};
ghost use Rattle.adpcm_nums.specs.Sample.{AreSamples};
ghost use Rattle.manifest_reader.specs.Ranges.{IsEntry};
ghost use Rattle.loop_fit.specs.Source.{IsLoopIn, IsBlockOf};
ghost use Rattle.bank_kinds.specs.Kinds.{codec_for};
ghost use Rattle.bank_kinds.specs.Fits.{IsFit};
ghost use Rattle.tool_files.specs.Source.{sound_in, loop_in, fit_in, source_of};
ghost use Rattle.tool_files.specs.Ready.{IsReadyBy};
ghost use Rattle.command_plan.specs.Steps.{IsPlain};
ghost use Rattle.command_plan.specs.Reading.{status_of};

use crate::source::Source;
use adpcm_nums::{LoopAt, Text};
use bank_kinds::fit_is_ready;
use command_faults::{InputFault, Status, input_refused, unfit};
use loop_fit::{FitFault, FitRule, Fitted, fit};
use manifest_reader::SampleEntry;
use smpl_loops::first_loop;
use std::alloc::Global;
use wave_form::{Wave, WaveFault, read_wave};

/// The status of a fault of a WAVE file.
fn wave_refused(alloc: Global, name: &str, fault: WaveFault) -> Status
    ensures memory { fault ≡ WaveFault.NoMemory → result ≡ Status.Memory }
    ensures told { Tells Status.Memory result (Status.Input name.now (InputFault.Wave fault)) }
{
    match fault {
        WaveFault::NoMemory => Status::Memory,
        _ => input_refused(alloc, name, InputFault::Wave { fault }),
    }
}

/// The status of a refusal to fit a sound.
fn fit_refused(alloc: Global, name: &str, fault: FitFault) -> Status
    ensures memory { fault ≡ FitFault.NoMemory → result ≡ Status.Memory }
    ensures told { Tells Status.Memory result (Status.Unfit name.now fault) }
{
    match fault {
        FitFault::NoMemory => Status::Memory,
        _ => unfit(alloc, name, fault),
    }
}

/// The sound of a sample's file, which may have 4,194,304 bytes.
#[tactic(auto, unfolding(crate::specs::Source::sound_in))]
fn read_sound(alloc: Global, entry: &SampleEntry, bytes: &[u8]) -> Result<Wave, Status>
    ensures some_rate { IfOk result (λ wave. 1 ≤ wave.rate) }
    ensures high_rate { IfOk result (λ wave. wave.rate ≤ 1000000) }
    ensures range { IfOk result (λ wave. AreSamples wave.samples) }
    ensures count { IfOk result (λ wave. length wave.samples ≤ 4194304) }
    ensures plain { IsPlain (status_of result) }
    ensures value { Gives Status.Memory (λ wave. wave) result (sound_in entry.now bytes.now) }
{
    let name = entry.name.as_str();
    if bytes.len() > 4_194_304 {
        return Err(input_refused(alloc, name, InputFault::FileLong { most: 4_194_304 }));
    }
    match read_wave(alloc, bytes, entry.channel) {
        Ok(wave) => Ok(wave),
        Err(fault) => Err(wave_refused(alloc, name, fault)),
    }
}

/// The loop of a sound, where the manifest takes it.
#[tactic(auto, unfolding(crate::specs::Source::loop_in))]
fn read_loop(alloc: Global, entry: &SampleEntry, wave: &Wave) -> Result<Option<LoopAt>, Status>
    requires { length wave.now.samples ≤ 4194304 }
    ensures inside { IfOk result (λ at. IfSome at (IsLoopIn (length wave.now.samples))) }
    ensures plain { IsPlain (status_of result) }
    ensures value { Gives Status.Memory (λ at. at) result (loop_in entry.now wave.now) }
{
    if !entry.looped {
        return Ok(None);
    }
    let frames = wave.samples.as_slice().len() as u32;
    let sampler = match &wave.sampler {
        Some(body) => Some(body.as_slice()),
        None => None,
    };
    match first_loop(sampler, frames) {
        Ok(at) => Ok(at),
        Err(fault) => {
            let name = entry.name.as_str();
            Err(input_refused(alloc, name, InputFault::Loop { fault }))
        }
    }
}

/// The sound brought to whole blocks.
#[tactic(auto, unfolding(crate::specs::Source::fit_in))]
fn fit_sound(
    alloc: Global,
    rule: FitRule,
    entry: &SampleEntry,
    wave: &Wave,
    at: Option<LoopAt>,
) -> Result<Fitted, Status>
    requires block { IsBlockOf rule.kind rule.block }
    requires count { length wave.now.samples ≤ 4194304 }
    requires range { AreSamples wave.now.samples }
    requires inside { IfSome at (IsLoopIn (length wave.now.samples)) }
    ensures fit { IfOk result (λ fitted. (block : ℕ) → rule.block ≡ (codec_for rule.kind block).rules.decoder.samples → IsFit (codec_for rule.kind block) fitted) }
    ensures plain { IsPlain (status_of result) }
    ensures value { Gives Status.Memory (λ fitted. fitted) result (fit_in rule entry.now wave.now at) }
{
    fit_is_ready();
    match fit(alloc, wave.samples.as_slice(), at, rule) {
        Ok(fitted) => Ok(fitted),
        Err(fault) => Err(fit_refused(alloc, entry.name.as_str(), fault)),
    }
}

/// What the bytes of a sample's file come to.
#[tactic(auto, unfolding(crate::specs::Source::source_of))]
pub(crate) fn read_source(
    alloc: Global,
    rule: FitRule,
    entry: &SampleEntry,
    bytes: &[u8],
) -> Result<Source, Status>
    requires block { IsBlockOf rule.kind rule.block }
    requires entry { IsEntry entry.now }
    ensures ready { IfOk result (IsReadyBy rule) }
    ensures named { IfOk result (λ s. s.name ≡ entry.now.name) }
    ensures plain { IsPlain (status_of result) }
    ensures value { Gives Status.Memory (λ source. source) result (source_of rule entry.now bytes.now) }
{
    let wave = read_sound(alloc, entry, bytes)?;
    let at = read_loop(alloc, entry, &wave)?;
    let fitted = fit_sound(alloc, rule, entry, &wave, at)?;
    match Text::copy_of(alloc, entry.name.as_str()) {
        Ok(name) => Ok(Source {
            name,
            rate: wave.rate,
            fitted,
        }),
        Err(_) => Err(Status::Memory),
    }
}
