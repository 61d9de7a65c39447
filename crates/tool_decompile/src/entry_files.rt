ghost use Rattle.std.specs.Prelude.{◌≡◌, All, IfOk};
ghost use Rattle.decompile_core.specs.Recovered.{IsEntry};
ghost use Rattle.tool_decompile.specs.EntryFiles.{entry_file, entry_files, entry_name, wave_of, AreKept, IsKept};

use adpcm_nums::{Bytes, NoMemory, Text};
use decompile_core::Recovered;
use host_files::NamedFile;
use std::alloc::Global;
use wave_form::{write_wave, write_wave_loop, written_loop_is_read, written_sound_is_read};

/// The name of an entry's file.
#[tactic(auto, unfolding(crate::specs::EntryFiles::entry_name))]
fn entry_name(alloc: Global, output: &str, number: usize) -> Result<Text, NoMemory>
    ensures { IfOk result (λ name. name ≡ entry_name output.now number) }
{
    match format!(in alloc; "{output}.{number}.wav") {
        Ok(name) => Ok(Text::from_string(name)),
        Err(_) => Err(NoMemory),
    }
}

/// The WAVE file of an entry, with its loop where it has one.
fn wave_of(alloc: Global, entry: &Recovered) -> Result<Bytes, NoMemory>
    requires { IsEntry entry.now }
    ensures value { IfOk result (λ bytes. bytes ≡ wave_of entry.now) }
    ensures kept { IfOk result (λ _. IsKept entry.now) }
{
    written_sound_is_read();
    written_loop_is_read();
    let samples = entry.samples.as_slice();
    match entry.loop_at {
        Some(at) => write_wave_loop(alloc, entry.rate, samples, at),
        None => write_wave(alloc, entry.rate, samples),
    }
}

/// The file of an entry.
fn entry_file(
    alloc: Global,
    output: &str,
    number: usize,
    entry: &Recovered,
) -> Result<NamedFile, NoMemory>
    requires { IsEntry entry.now }
    ensures value { IfOk result (λ file. file ≡ entry_file output.now number entry.now) }
    ensures kept { IfOk result (λ _. IsKept entry.now) }
{
    let bytes = wave_of(alloc, entry)?;
    let name = entry_name(alloc, output, number)?;
    Ok(NamedFile { name, bytes })
}

/// The files of all entries, in order.
pub(crate) fn entry_files(
    alloc: Global,
    output: &str,
    entries: &[Recovered],
) -> Result<Vec<NamedFile>, NoMemory>
    requires { All IsEntry entries.now }
    ensures value { IfOk result (λ files. files.items ≡ entry_files output.now 0 entries.now) }
    ensures kept { IfOk result (λ _. AreKept entries.now) }
{
    let mut files = Vec::new(alloc);
    for i in 0..entries.len() {
        let file = entry_file(alloc, output, i, &entries[i])?;
        match files.push(file) {
            Ok(()) => {}
            Err(_) => return Err(NoMemory),
        }
    }
    Ok(files)
}
