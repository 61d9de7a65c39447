ghost use Rattle.std.specs.Prelude.{◌≡◌, ◌≤◌, ◌∷◌, [], ℕ, IsTrue, IfOk, length};
ghost use Rattle.ima_machine.specs.Ima.{is_align};
ghost use Rattle.manifest_reader.specs.Ranges.{IsWithin};
ghost use Rattle.bank_kinds.specs.Bound.{IsBound};
ghost use Rattle.bank_kinds.specs.Certified.{IsCertified};
ghost use Rattle.bank_kinds.specs.Kinds.{codec_for};
ghost use Rattle.bank_kinds.specs.Fits.{IsFit};
ghost use Rattle.bank_compile.specs.Sample.{IsCompiled, IsReached, beams_error};
ghost use Rattle.bank_compile.specs.Bank.{IsOut};

use crate::sample::{SampleOut, encoded};
use adpcm_nums::NoMemory;
use brr_machine::Brr;
use ima_machine::Ima;
use loop_fit::Fitted;
use machine_core::Kind;
use manifest_reader::Manifest;
use spu_machine::Spu;
use std::alloc::Global;

/// Compiles a fitted sound to blocks of the manifest's format: chooses them, tells how far they are from it, and certifies a bound under the
/// error of every choice.
///
/// Each segment is searched alone: first by the beam of the manifest's width and by its paths, and then by cells of states, of which all segments together may list
/// as many as the manifest's budget says. The error is at most the sum of the beams' errors; no choice has an error below the bound; and where every
/// segment is searched state by state, the bound is the error, so no choice is better. All of it is this project's own choice.
///
/// It refuses only for want of memory.
pub fn compile_sample(
    alloc: Global,
    manifest: &Manifest,
    name: &str,
    rate: u32,
    fitted: Fitted,
) -> Result<SampleOut, NoMemory>
    requires block { IsTrue (is_align manifest.now.block) }
    requires beam { IsWithin 1 64 1 manifest.now.beam }
    requires paths { IsWithin 1 64 1 manifest.now.paths }
    requires short { length name.now ≤ 16 }
    requires some_rate { 1 ≤ rate }
    requires high_rate { rate ≤ 1000000 }
    requires fit { IsFit (codec_for manifest.now.kind manifest.now.block) fitted }
    ensures compiled { IfOk result (IsCompiled (codec_for manifest.now.kind manifest.now.block) (record { beam = manifest.now.beam; paths = manifest.now.paths; budget = manifest.now.budget }) name.now rate fitted) }
    ensures out { IfOk result (IsOut (codec_for manifest.now.kind manifest.now.block)) }
    ensures certified { IfOk result (λ out. IsCertified (codec_for manifest.now.kind manifest.now.block) out.cert fitted out.report.bound out.report.levels) }
    ensures lowest { IfOk result (λ out. IsBound (codec_for manifest.now.kind manifest.now.block) fitted out.report.bound) }
    ensures bound { IfOk result (λ out. out.report.bound ≤ out.report.error) }
    ensures whole { IfOk result (λ out. (n : ℕ) → out.report.levels ≡ n ∷ 0 ∷ 0 ∷ 0 ∷ [] → out.report.bound ≡ out.report.error) }
    ensures near_beam { IfOk result (λ out. out.report.error ≤ beams_error (codec_for manifest.now.kind manifest.now.block) manifest.now.beam fitted) }
    ensures reached { IfOk result (λ out. IsReached (codec_for manifest.now.kind manifest.now.block) fitted out.report.error) }
{
    let effort = manifest.effort();
    match manifest.kind {
        Kind::Brr => encoded(alloc, &Brr, name, rate, effort, fitted),
        Kind::Spu => encoded(alloc, &Spu, name, rate, effort, fitted),
        Kind::Ima => {
            let ima = Ima {
                align: manifest.block,
            };
            encoded(alloc, &ima, name, rate, effort, fitted)
        }
    }
}
