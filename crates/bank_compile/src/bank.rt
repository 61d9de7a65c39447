ghost use Rattle.std.specs.Prelude.{◌≡◌, ◌≤◌, ◌<◌, ◌*◌, ◌++◌, ◌∷◌, [], length, All, IsTrue, OnOk, IfOk, IfSome};
ghost use Rattle.std.specs.List.{flat_map};
ghost use Rattle.adpcm_nums.specs.Outcome.{Gives};
ghost use Rattle.loop_fit.specs.Fit.{IsWhole, points_of};
ghost use Rattle.ima_machine.specs.Ima.{is_align};
ghost use Rattle.manifest_reader.specs.Ranges.{IsWithin};
ghost use Rattle.snes_directory.specs.declared.fault.LayFault.TheVariants.{NoMemory as OutOfMemory};
ghost use Rattle.bank_kinds.specs.Kinds.{spu_codec, ima_codec, codec_for};
ghost use Rattle.bank_compile.specs.Bank.{IsOut, first_file, vag_out, ima_out, cert_file, own_files, sample_files, image_files, bank_of};

use crate::image::image;
use crate::sample::SampleOut;
use adpcm_nums::{Bytes, LoopAt, NoMemory, Text};
use bank_kinds::samples_in_block;
use host_files::NamedFile;
use ima_wave::{ImaFile, write_ima};
use loop_fit::Fitted;
use machine_core::Kind;
use manifest_reader::{Manifest, cert_name, first_pass_name, ima_name, vag_name};
use snes_directory::LayFault;
use std::alloc::Global;
use vag_writer::write_vag;
use wave_form::{write_wave, write_wave_loop};

/// The samples of the loop in a sound that is fitted to blocks of so many, or the loop that stays at its frames.
fn loop_points(samples: u32, fitted: &Fitted) -> Option<LoopAt>
    requires some { 0 < samples }
    requires whole { IsWhole samples fitted.now }
    ensures { result ≡ points_of samples fitted.now }
{
    match fitted.loop_block {
        Some(block) => Some(LoopAt {
            start: block * samples,
            end: fitted.blocks * samples - 1,
        }),
        None => fitted.loop_frames,
    }
}

/// The file of a sample's first pass, with its loop where it has one.
fn first_file(
    alloc: Global,
    kind: Kind,
    block: u32,
    bank: &str,
    out: &SampleOut,
) -> Result<NamedFile, NoMemory>
    requires block { IsTrue (is_align block) }
    requires out { IsOut (codec_for kind block) out.now }
    ensures { IfOk result (λ file. file ≡ first_file (codec_for kind block).rules.decoder.samples bank.now out.now) }
{
    let samples = out.first.as_slice();
    let bytes = match loop_points(samples_in_block(kind, block), &out.fitted) {
        Some(at) => write_wave_loop(alloc, out.rate, samples, at)?,
        None => write_wave(alloc, out.rate, samples)?,
    };
    let name = first_pass_name(alloc, bank, out.name.as_str())?;
    Ok(NamedFile { name, bytes })
}

/// The VAG file of a sample.
fn vag_file(alloc: Global, bank: &str, out: &SampleOut) -> Result<NamedFile, NoMemory>
    requires { IsOut spu_codec out.now }
    ensures { IfOk result (λ file. file ≡ vag_out bank.now out.now) }
{
    let bytes = match write_vag(alloc, out.name.as_str(), out.rate, out.blocks.as_slice()) {
        Ok(bytes) => bytes,
        Err(_) => return Err(NoMemory),
    };
    let name = vag_name(alloc, bank, out.name.as_str())?;
    Ok(NamedFile { name, bytes })
}

/// The WAVE file of a sample of IMA ADPCM, with all of its source's frames and the source's loop.
fn ima_file(alloc: Global, align: u32, bank: &str, out: &SampleOut) -> Result<NamedFile, NoMemory>
    requires align { IsTrue (is_align align) }
    requires out { IsOut (ima_codec align) out.now }
    ensures { IfOk result (λ file. file ≡ ima_out align bank.now out.now) }
{
    let rate = out.rate;
    let file = ImaFile {
        rate,
        align,
        frames: out.fitted.frames,
        at: out.fitted.loop_frames,
        blocks: Bytes::copy_of(alloc, out.blocks.as_slice())?,
    };
    let bytes = write_ima(alloc, &file)?;
    let name = ima_name(alloc, bank, out.name.as_str())?;
    Ok(NamedFile { name, bytes })
}

/// The file of a sample's certificate.
fn cert_file(alloc: Global, bank: &str, out: &SampleOut) -> Result<NamedFile, NoMemory>
    ensures { IfOk result (λ file. file ≡ cert_file bank.now out.now) }
{
    let bytes = Bytes::copy_of(alloc, out.cert.as_slice())?;
    let name = cert_name(alloc, bank, out.name.as_str())?;
    Ok(NamedFile { name, bytes })
}

/// Adds a file.
fn push_file(files: &mut Vec<NamedFile>, file: NamedFile) -> Result<(), NoMemory>
    ensures { OnOk result (files.new.items ≡ files.old.items ++ file ∷ []) }
{
    match files.push(file) {
        Ok(()) => Ok(()),
        Err(_) => Err(NoMemory),
    }
}

/// Adds the file that holds the blocks of a sample alone, where there is one.
fn push_own(
    alloc: Global,
    kind: Kind,
    block: u32,
    files: &mut Vec<NamedFile>,
    bank: &str,
    out: &SampleOut,
) -> Result<(), NoMemory>
    requires block { IsTrue (is_align block) }
    requires out { IsOut (codec_for kind block) out.now }
    ensures { OnOk result (files.new.items ≡ files.old.items ++ own_files kind block bank.now out.now) }
{
    match kind {
        Kind::Spu => push_file(files, vag_file(alloc, bank, out)?),
        Kind::Ima => push_file(files, ima_file(alloc, block, bank, out)?),
        Kind::Brr => Ok(()),
    }
}

/// Adds the files of a sample.
fn push_sample(
    alloc: Global,
    kind: Kind,
    block: u32,
    files: &mut Vec<NamedFile>,
    bank: &str,
    out: &SampleOut,
) -> Result<(), NoMemory>
    requires block { IsTrue (is_align block) }
    requires out { IsOut (codec_for kind block) out.now }
    ensures { OnOk result (files.new.items ≡ files.old.items ++ sample_files kind block bank.now out.now) }
{
    push_own(alloc, kind, block, files, bank, out)?;
    push_file(files, first_file(alloc, kind, block, bank, out)?)?;
    push_file(files, cert_file(alloc, bank, out)?)
}

/// Adds the files of all samples.
fn push_samples(
    alloc: Global,
    kind: Kind,
    block: u32,
    files: &mut Vec<NamedFile>,
    bank: &str,
    outs: &[SampleOut],
) -> Result<(), NoMemory>
    requires block { IsTrue (is_align block) }
    requires outs { All (IsOut (codec_for kind block)) outs.now }
    ensures { OnOk result (files.new.items ≡ files.old.items ++ flat_map (sample_files kind block bank.now) outs.now) }
{
    for out in outs {
        push_sample(alloc, kind, block, files, bank, out)?;
    }
    Ok(())
}

/// The file that holds the blocks of all samples, where there is one.
fn image_files(
    alloc: Global,
    manifest: &Manifest,
    outs: &[SampleOut],
) -> Result<Vec<NamedFile>, LayFault>
    requires base { IsWithin 0 65280 256 manifest.now.base }
    requires some { 1 ≤ length outs.now }
    requires few { length outs.now ≤ 64 }
    requires outs { All (IsOut (codec_for manifest.now.kind manifest.now.block)) outs.now }
    ensures { Gives OutOfMemory (λ files. files.items) result (image_files manifest.now.kind manifest.now.bank manifest.now.base outs.now) }
{
    let mut files = Vec::new(alloc);
    match manifest.kind {
        Kind::Brr => {
            let bytes = image(alloc, manifest.base, outs)?;
            let name = Text::copy_of(alloc, manifest.bank.as_str())?;
            push_file(&mut files, NamedFile { name, bytes })?;
        }
        Kind::Spu | Kind::Ima => {}
    }
    Ok(files)
}

/// The files of a bank in store order: in BRR the image under the bank's name; then for each sample, in SPU-ADPCM its VAG file, `BANK.SAMPLE.vag`,
/// in IMA ADPCM its WAVE file, `BANK.SAMPLE.wav`, then the WAVE file of its first pass, `BANK.SAMPLE.first.wav`, with its loop, and its certificate,
/// `BANK.SAMPLE.cert` (this project's own choice).
///
/// # Errors
/// `ImageFull` exactly where the samples of an image pass the console's memory of 65,536 bytes. `BadBase` never comes.
#[tactic(auto, unfolding(crate::specs::Bank::bank_of))]
pub fn compile_bank(
    alloc: Global,
    manifest: &Manifest,
    outs: &[SampleOut],
) -> Result<Vec<NamedFile>, LayFault>
    requires block { IsTrue (is_align manifest.now.block) }
    requires base { IsWithin 0 65280 256 manifest.now.base }
    requires some { 1 ≤ length outs.now }
    requires few { length outs.now ≤ 64 }
    requires outs { All (IsOut (codec_for manifest.now.kind manifest.now.block)) outs.now }
    ensures { Gives OutOfMemory (λ files. files.items) result (bank_of manifest.now.kind manifest.now.block manifest.now.bank manifest.now.base outs.now) }
{
    let mut files = image_files(alloc, manifest, outs)?;
    push_samples(
        alloc,
        manifest.kind,
        manifest.block,
        &mut files,
        manifest.bank.as_str(),
        outs,
    )?;
    Ok(files)
}
