ghost use Rattle.std.specs.Prelude.{◌≡◌, ◌≤◌, [], ◌∷◌, length, IfOk, Some, Ok};
ghost use Rattle.machine_core.specs.declared.state.Kind.TheVariants.{Brr, Spu, Ima};
ghost use Rattle.smpl_loops.specs.Sampler.{sampler_of};
ghost use Rattle.loop_fit.specs.Fit.{fit_of};
ghost use Rattle.sample_gen.specs.Walk.{frames_of, second_half};
ghost use Rattle.bank_kinds.specs.Kinds.{codec_for};
ghost use Rattle.bank_kinds.specs.Fits.{IsFit};
ghost use Rattle.tool_compile.specs.Make.{made_rule, IsMadeIn, AreMade, IsMade};

use adpcm_nums::{LoopAt, NoMemory, Text};
use bank_compile::{SampleOut, compile_sample, report};
use bank_kinds::{fit_is_ready, samples_in_block};
use loop_fit::{FitFault, FitRule, Fitted, Length, Start, fit};
use machine_core::Kind;
use manifest_reader::Manifest;
use sample_gen::{made_wave_is_read, make_wave};
use smpl_loops::first_loop;
use std::alloc::Global;
use wave_form::{Wave, WaveFault, read_wave};

/// How a test sound is brought to blocks of a kind.
fn made_rule(kind: Kind) -> FitRule
    ensures { result ≡ made_rule kind }
{
    FitRule {
        kind,
        block: samples_in_block(kind, 256),
        length: Length::Unroll,
        start: Start::Front,
    }
}

/// The manifest of a bank that a test sound stands in alone.
fn made_manifest(alloc: Global, kind: Kind) -> Result<Manifest, NoMemory>
    ensures kind { IfOk result (λ m. m.kind ≡ kind) }
    ensures block { IfOk result (λ m. m.block ≡ 256) }
    ensures beam { IfOk result (λ m. m.beam ≡ 4) }
    ensures paths { IfOk result (λ m. m.paths ≡ 1) }
    ensures budget { IfOk result (λ m. m.budget ≡ 20000) }
{
    Ok(Manifest {
        kind,
        bank: Text::copy_of(alloc, "made")?,
        base: 0,
        block: 256,
        beam: 4,
        paths: 1,
        budget: 20_000,
        length: Length::Unroll,
        start: Start::Front,
        samples: Vec::new(alloc),
    })
}

/// The test sound of a number, read from its file.
fn made_wave(alloc: Global, number: u32) -> Result<Wave, NoMemory>
    ensures { IfOk result (λ wave. wave ≡ record { rate = 32000; samples = frames_of number; sampler = Some (sampler_of 32000 second_half) }) }
{
    made_wave_is_read();
    let file = make_wave(alloc, number)?;
    match read_wave(alloc, file.as_slice(), None) {
        Ok(wave) => Ok(wave),
        Err(WaveFault::NoMemory) => Err(NoMemory),
        Err(_) => unreachable!(),
    }
}

/// Its loop.
fn made_loop(wave: &Wave) -> Option<LoopAt>
    requires { wave.now.sampler ≡ Some (sampler_of 32000 second_half) }
    ensures { result ≡ Some second_half }
{
    made_wave_is_read();
    let sampler = match &wave.sampler {
        Some(body) => Some(body.as_slice()),
        None => None,
    };
    match first_loop(sampler, 1024) {
        Ok(at) => at,
        Err(_) => unreachable!(),
    }
}

/// The sound brought to blocks of a kind.
fn made_fit(alloc: Global, number: u32, kind: Kind) -> Result<Fitted, NoMemory>
    ensures fits { IfOk result (λ fitted. fit_of (frames_of number) (Some second_half) (made_rule kind) ≡ Ok fitted) }
    ensures ready { IfOk result (IsFit (codec_for kind 256)) }
{
    made_wave_is_read();
    fit_is_ready();
    let wave = made_wave(alloc, number)?;
    let at = made_loop(&wave);
    match fit(alloc, wave.samples.as_slice(), at, made_rule(kind)) {
        Ok(fitted) => Ok(fitted),
        Err(FitFault::NoMemory) => Err(NoMemory),
        Err(_) => unreachable!(),
    }
}

/// The sound compiled to blocks of a kind, under a name.
fn made_in(alloc: Global, number: u32, kind: Kind, name: &str) -> Result<SampleOut, NoMemory>
    requires { length name.now ≤ 16 }
    ensures { IfOk result (IsMadeIn number kind name.now) }
{
    let fitted = made_fit(alloc, number, kind)?;
    let manifest = made_manifest(alloc, kind)?;
    compile_sample(alloc, &manifest, name, 32_000, fitted)
}

/// The report of the three samples.
fn report_of_three(
    alloc: Global,
    number: u32,
    brr: SampleOut,
    spu: SampleOut,
    ima: SampleOut,
) -> Result<Text, NoMemory>
    requires { AreMade number brr spu ima }
    ensures { IfOk result (IsMade number []) }
{
    let outs = [brr, spu, ima];
    report(alloc, outs.as_slice(), 0)
}

/// The report of the test sound of a number, compiled in the three formats.
pub(crate) fn made_report(alloc: Global, number: u32) -> Result<Text, NoMemory>
    ensures { IfOk result (IsMade number []) }
{
    let brr = made_in(alloc, number, Kind::Brr, "brr")?;
    let spu = made_in(alloc, number, Kind::Spu, "spu")?;
    let ima = made_in(alloc, number, Kind::Ima, "ima")?;
    report_of_three(alloc, number, brr, spu, ima)
}
