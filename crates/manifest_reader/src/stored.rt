ghost use Rattle.std.specs.Prelude.{◌≡◌, ◌++◌, ◌∷◌, [], map, IfOk};
ghost use Rattle.manifest_reader.specs.Stored.{joined, first_pass_of, vag_name_of, ima_name_of, cert_name_of, blocks_endings, stored_endings, stored_names};

use crate::manifest::SampleEntry;
use adpcm_nums::{NoMemory, Text};
use machine_core::Kind;
use std::alloc::Global;

/// The name of a file of a sample.
fn joined(alloc: Global, bank: &str, sample: &str, ending: &str) -> Result<Text, NoMemory>
    ensures { IfOk result (λ name. name ≡ joined bank.now sample.now ending.now) }
{
    match format!(in alloc; "{bank}.{sample}{ending}") {
        Ok(name) => Ok(Text::from_string(name)),
        Err(_) => Err(NoMemory),
    }
}

/// The name of the WAVE file of a sample as a player gives it, up to the end of its loop's first round:
/// `BANK.SAMPLE.first.wav` (this project's own choice).
pub fn first_pass_name(alloc: Global, bank: &str, sample: &str) -> Result<Text, NoMemory>
    ensures { IfOk result (λ name. name ≡ first_pass_of bank.now sample.now) }
{
    joined(alloc, bank, sample, ".first.wav")
}

/// The name of the VAG file of a sample: `BANK.SAMPLE.vag` (this project's own choice).
pub fn vag_name(alloc: Global, bank: &str, sample: &str) -> Result<Text, NoMemory>
    ensures { IfOk result (λ name. name ≡ vag_name_of bank.now sample.now) }
{
    joined(alloc, bank, sample, ".vag")
}

/// The name of the WAVE file of the blocks of a sample of IMA ADPCM: `BANK.SAMPLE.wav` (this project's own choice).
pub fn ima_name(alloc: Global, bank: &str, sample: &str) -> Result<Text, NoMemory>
    ensures { IfOk result (λ name. name ≡ ima_name_of bank.now sample.now) }
{
    joined(alloc, bank, sample, ".wav")
}

/// The name of the certificate of the bound that is told of a sample: `BANK.SAMPLE.cert` (this project's own choice).
pub fn cert_name(alloc: Global, bank: &str, sample: &str) -> Result<Text, NoMemory>
    ensures { IfOk result (λ name. name ≡ cert_name_of bank.now sample.now) }
{
    joined(alloc, bank, sample, ".cert")
}

/// Adds the name of a file of a sample.
fn push_name(
    alloc: Global,
    names: &mut Vec<Text>,
    bank: &str,
    sample: &str,
    ending: &str,
) -> Result<(), NoMemory>
    ensures { IfOk result (λ _. names.new.items ≡ names.old.items ++ joined bank.now sample.now ending.now ∷ []) }
{
    match names.push(joined(alloc, bank, sample, ending)?) {
        Ok(()) => Ok(()),
        Err(_) => Err(NoMemory),
    }
}

/// Adds the name of the file that holds the blocks of a sample alone, where there is one: `BANK.SAMPLE.vag` or
/// `BANK.SAMPLE.wav` (this project's own choice).
fn push_blocks_name(
    alloc: Global,
    names: &mut Vec<Text>,
    kind: Kind,
    bank: &str,
    sample: &str,
) -> Result<(), NoMemory>
    ensures { IfOk result (λ _. names.new.items ≡ names.old.items ++ map (joined bank.now sample.now) (blocks_endings kind)) }
{
    match kind {
        Kind::Brr => Ok(()),
        Kind::Spu => push_name(alloc, names, bank, sample, ".vag"),
        Kind::Ima => push_name(alloc, names, bank, sample, ".wav"),
    }
}

/// Adds the names of the files of a sample, in store order: of its blocks, of its first pass, `BANK.SAMPLE.first.wav`, and
/// of its certificate, `BANK.SAMPLE.cert` (this project's own choice).
fn push_names(
    alloc: Global,
    names: &mut Vec<Text>,
    kind: Kind,
    bank: &str,
    sample: &str,
) -> Result<(), NoMemory>
    ensures { IfOk result (λ _. names.new.items ≡ names.old.items ++ map (joined bank.now sample.now) (stored_endings kind)) }
{
    push_blocks_name(alloc, names, kind, bank, sample)?;
    push_name(alloc, names, bank, sample, ".first.wav")?;
    push_name(alloc, names, bank, sample, ".cert")?;
    Ok(())
}

/// The names of all files of a bank, in store order: the SNES image where there is one, which has the bank's name, and
/// then for each sample its own blocks where they have a file, its first pass and its certificate.
#[tactic(auto, unfolding(crate::specs::Stored::stored_names))]
pub fn stored_names(
    alloc: Global,
    kind: Kind,
    bank: &str,
    samples: &[SampleEntry],
) -> Result<Vec<Text>, NoMemory>
    ensures { IfOk result (λ names. names.items ≡ stored_names kind bank.now samples.now) }
{
    let mut names = Vec::new(alloc);
    if kind == Kind::Brr {
        match names.push(Text::copy_of(alloc, bank)?) {
            Ok(()) => {}
            Err(_) => return Err(NoMemory),
        }
    }
    for sample in samples {
        push_names(alloc, &mut names, kind, bank, sample.name.as_str())?;
    }
    Ok(names)
}
