ghost use Rattle.std.specs.Prelude.{◌≡◌, ◌≤◌, ◌<◌, ◌*◌, ◌^◌, ◌∷◌, [], ℕ, IfOk, length, slice_get, Some};
ghost use Rattle.machine_core.specs.Blocks.{IsInRange};
ghost use Rattle.bound_cert.specs.Content.{Plain};
ghost use Rattle.bound_cert.specs.Small.{SmallSegment};
ghost use Rattle.bound_cert.specs.Spelling.{cert_bytes};
ghost use Rattle.bank_kinds.specs.Chosen.{list_of};
ghost use Rattle.bank_kinds.specs.Codec.{codec_of};
ghost use Rattle.bank_kinds.specs.Bound.{IsBound};
ghost use Rattle.bank_kinds.specs.Certified.{IsCertified};
ghost use Rattle.bank_kinds.specs.Fits.{IsFit, bytes_of, first_of, loop_shown, played_in};
ghost use Rattle.bank_compile.specs.Known.{certs_of, bounds_of, levels_in};
ghost use Rattle.manifest_reader.specs.Ranges.{IsEffort};
ghost use Rattle.bank_compile.specs.Sample.{IsCompiled, IsReached, beams_error};
ghost use Rattle.bank_compile.specs.Bank.{IsOut};

use crate::joined::{bound_of, certificates, joined, levels_of};
use crate::segments::search_segments;
use adpcm_nums::{Bytes, NoMemory, Samples, Text};
use bank_kinds::{Encode, outputs, shown};
use bound_cert::write_cert;
use branch_bound::Found;
use loop_fit::Fitted;
use machine_core::{Choice, Kind};
use manifest_reader::Effort;
use report_text::SampleReport;
use std::alloc::Global;

/// A compiled sample.
#[derive(Debug, Drop)]
pub struct SampleOut {
    /// Its name.
    pub name: Text,
    /// Its samples a second.
    pub rate: u32,
    /// Its blocks, with their flags.
    pub blocks: Bytes,
    /// The sound that they are to come close to.
    pub fitted: Fitted,
    /// What the player gives of them up to the end of their loop's first round, in 16-bit steps.
    pub first: Samples,
    /// The bytes of the certificate of its bound.
    pub cert: Bytes,
    /// What is told of it.
    pub report: SampleReport,
}

/// How many outputs of a fitted sound count as played, where a block has so many samples.
fn played(kind: Kind, samples: u32, fitted: &Fitted) -> u32
    requires { fitted.now.blocks * samples ≤ 262144 }
    ensures { result ≡ played_in kind samples fitted.now }
{
    match kind {
        Kind::Brr | Kind::Spu => fitted.blocks * samples,
        Kind::Ima => fitted.frames,
    }
}

/// What is told of a sample: its blocks, its loop, its error, its bound and how its segments were searched.
fn told(
    alloc: Global,
    name: &str,
    fitted: &Fitted,
    error: u64,
    founds: &[Found],
) -> Result<SampleReport, NoMemory>
    requires small { bounds_of founds.now < 2 ^ 64 }
    requires few { length founds.now < 2 ^ 32 }
    ensures { IfOk result (λ report. report ≡ record {
      name = name.now;
      blocks = fitted.now.blocks;
      shown = loop_shown fitted.now.loop_block fitted.now.loop_frames;
      error = error;
      bound = bounds_of founds.now;
      levels = levels_in founds.now;
    }) }
{
    Ok(SampleReport {
        name: Text::copy_of(alloc, name)?,
        blocks: fitted.blocks,
        shown: shown(fitted.loop_block, fitted.loop_frames),
        error,
        bound: bound_of(founds),
        levels: levels_of(founds),
    })
}

/// The bytes of the certificate of all segments.
fn certificate(alloc: Global, kind: Kind, founds: Vec<Found>) -> Result<Bytes, NoMemory>
    requires few { length founds.items < 65536 }
    requires small { (k : ℕ) (y : Plain) → slice_get (certs_of founds.items) k ≡ Some y → SmallSegment y }
    ensures { IfOk result (λ bytes. bytes ≡ cert_bytes kind (certs_of founds.items)) }
{
    let certs = certificates(alloc, founds)?;
    write_cert(alloc, kind, certs.as_slice())
}

/// The sample whose blocks are those of a choice.
fn spelled<C: Encode>(
    alloc: Global,
    codec: &C,
    name: &str,
    rate: u32,
    fitted: Fitted,
    choice: &Choice,
    cert: Bytes,
    report: SampleReport,
) -> Result<SampleOut, NoMemory>
    requires short { length name.now ≤ 16 }
    requires some_rate { 1 ≤ rate }
    requires high_rate { rate ≤ 1000000 }
    requires fit { IsFit (codec_of (C.rules codec.now) (C.bytes codec.now)) fitted }
    requires in_range { IsInRange (C.rules codec.now).decoder fitted.blocks (list_of choice.now) }
    ensures out { IfOk result (IsOut (codec_of (C.rules codec.now) (C.bytes codec.now))) }
    ensures made { IfOk result (λ out. out ≡ record {
      name = name.now;
      rate = rate;
      blocks = bytes_of (codec_of (C.rules codec.now) (C.bytes codec.now)) fitted (list_of choice.now);
      fitted = fitted;
      first = first_of (codec_of (C.rules codec.now) (C.bytes codec.now)) fitted (list_of choice.now);
      cert = cert;
      report = report;
    }) }
{
    let count = played(codec.kind(), codec.block_samples(), &fitted);
    let blocks = codec.spell(alloc, choice, fitted.blocks, fitted.loop_block)?;
    let first = outputs(alloc, codec, codec.scale(), choice, fitted.blocks, count)?;
    Ok(SampleOut {
        name: Text::copy_of(alloc, name)?,
        rate,
        blocks,
        fitted,
        first,
        cert,
        report,
    })
}

/// Compiles a fitted sound to the blocks of a codec: searches its segments, and tells how far the chosen blocks are from it.
pub(crate) fn encoded<C: Encode>(
    alloc: Global,
    codec: &C,
    name: &str,
    rate: u32,
    effort: Effort,
    fitted: Fitted,
) -> Result<SampleOut, NoMemory>
    requires short { length name.now ≤ 16 }
    requires some_rate { 1 ≤ rate }
    requires high_rate { rate ≤ 1000000 }
    requires fit { IsFit (codec_of (C.rules codec.now) (C.bytes codec.now)) fitted }
    requires effort { IsEffort effort }
    ensures compiled { IfOk result (IsCompiled (codec_of (C.rules codec.now) (C.bytes codec.now)) effort name.now rate fitted) }
    ensures out { IfOk result (IsOut (codec_of (C.rules codec.now) (C.bytes codec.now))) }
    ensures certified { IfOk result (λ out. IsCertified (codec_of (C.rules codec.now) (C.bytes codec.now)) out.cert fitted out.report.bound out.report.levels) }
    ensures lowest { IfOk result (λ out. IsBound (codec_of (C.rules codec.now) (C.bytes codec.now)) fitted out.report.bound) }
    ensures bound { IfOk result (λ out. out.report.bound ≤ out.report.error) }
    ensures whole { IfOk result (λ out. (n : ℕ) → out.report.levels ≡ n ∷ 0 ∷ 0 ∷ 0 ∷ [] → out.report.bound ≡ out.report.error) }
    ensures near_beam { IfOk result (λ out. out.report.error ≤ beams_error (codec_of (C.rules codec.now) (C.bytes codec.now)) effort.beam fitted) }
    ensures reached { IfOk result (λ out. IsReached (codec_of (C.rules codec.now) (C.bytes codec.now)) fitted out.report.error) }
{
    let founds = search_segments(alloc, codec, &fitted, effort)?;
    let samples = fitted.targets.as_slice().len();
    let choice = joined(alloc, founds.as_slice(), fitted.blocks as usize, samples)?;
    let report = told(alloc, name, &fitted, choice.sum, founds.as_slice())?;
    let cert = certificate(alloc, codec.kind(), founds)?;
    spelled(alloc, codec, name, rate, fitted, &choice, cert, report)
}
