ghost use Rattle.std.specs.Prelude.{◌≡◌, ◌≤◌, true, length, All, IfOk, IfSome};
ghost use Rattle.toml.specs.View.{view, items_view, table_view};
ghost use Rattle.manifest_reader.specs.Words.{is_name, is_file};
ghost use Rattle.manifest_reader.specs.Ranges.{IsEntry};
ghost use Rattle.adpcm_nums.specs.Outcome.{Gives};
ghost use Rattle.manifest_reader.specs.Sample.{name_at, file_at, channel_at, looped_at, sample_at, sample_of, samples_of, are_tables, check_tables, samples_at};

use crate::fault::{ManifestFault, bad_word, wrong_kind};
use crate::keys::{check_keys, needed_text, number_at, text_at, value_at};
use crate::manifest::SampleEntry;
use crate::words::{is_file, is_name};
use adpcm_nums::Text;
use std::alloc::Global;
use toml::{Table, Value};

/// The name.
#[tactic(auto, unfolding(crate::specs::Sample::name_at))]
fn name_at(alloc: Global, table: &Table) -> Result<Text, ManifestFault>
    ensures word { IfOk result (λ t. is_name t ≡ true) }
    ensures some { IfOk result (λ t. 1 ≤ length t) }
    ensures few { IfOk result (λ t. length t ≤ 16) }
    ensures value { Gives ManifestFault.NoMemory (λ t. t) result (name_at (table_view table.now)) }
{
    let word = needed_text(alloc, table, "name")?;
    if !is_name(word) {
        return Err(bad_word(alloc, "name"));
    }
    Ok(Text::copy_of(alloc, word)?)
}

/// The name of its source file.
#[tactic(auto, unfolding(crate::specs::Sample::file_at))]
fn file_at(alloc: Global, table: &Table) -> Result<Text, ManifestFault>
    ensures word { IfOk result (λ t. is_file t ≡ true) }
    ensures value { Gives ManifestFault.NoMemory (λ t. t) result (file_at (table_view table.now)) }
{
    let word = needed_text(alloc, table, "file")?;
    if !is_file(word) {
        return Err(bad_word(alloc, "file"));
    }
    Ok(Text::copy_of(alloc, word)?)
}

/// The channel that is taken.
#[tactic(auto, unfolding(crate::specs::Sample::channel_at))]
fn channel_at(alloc: Global, table: &Table) -> Result<Option<u32>, ManifestFault>
    ensures range { IfOk result (λ o. IfSome o (λ n. n ≤ 1)) }
    ensures value { Gives ManifestFault.NoMemory (λ n. n) result (channel_at (table_view table.now)) }
{
    number_at(alloc, table, "channel", 0, 1, 1)
}

/// Whether the file's loop is taken.
#[tactic(auto, unfolding(crate::specs::Sample::looped_at))]
fn looped_at(alloc: Global, table: &Table) -> Result<bool, ManifestFault>
    ensures { Gives ManifestFault.NoMemory (λ b. b) result (looped_at (table_view table.now)) }
{
    match text_at(alloc, table, "loop")? {
        None => Ok(true),
        Some("smpl") => Ok(true),
        Some("none") => Ok(false),
        Some(_) => Err(bad_word(alloc, "loop")),
    }
}

/// The sample that a table says.
#[tactic(auto, unfolding(crate::specs::Sample::sample_at))]
fn sample_at(alloc: Global, table: &Table) -> Result<SampleEntry, ManifestFault>
    ensures fits { IfOk result IsEntry }
    ensures value { Gives ManifestFault.NoMemory (λ s. s) result (sample_at (table_view table.now)) }
{
    check_keys(alloc, table, &["name", "file", "channel", "loop"])?;
    let name = name_at(alloc, table)?;
    let file = file_at(alloc, table)?;
    let channel = channel_at(alloc, table)?;
    let looped = looped_at(alloc, table)?;
    Ok(SampleEntry {
        name,
        file,
        channel,
        looped,
    })
}

/// The sample that a value says.
#[tactic(auto, unfolding(crate::specs::Sample::sample_of))]
fn sample_of(alloc: Global, value: &Value) -> Result<SampleEntry, ManifestFault>
    ensures fits { IfOk result IsEntry }
    ensures value { Gives ManifestFault.NoMemory (λ s. s) result (sample_of (view value.now)) }
{
    match value.as_table() {
        Some(table) => sample_at(alloc, table),
        None => Err(wrong_kind(alloc, "sample")),
    }
}

fn are_tables(values: &[Value]) -> bool
    ensures { result ≡ are_tables (items_view values.now) }
{
    for value in values {
        if !value.is_table() {
            return false;
        }
    }
    true
}

fn samples_of(alloc: Global, values: &[Value]) -> Result<Vec<SampleEntry>, ManifestFault>
    ensures fits { IfOk result (λ v. All IsEntry v.items) }
    ensures count { IfOk result (λ v. length v.items ≡ length values.now) }
    ensures value { Gives ManifestFault.NoMemory (λ v. v.items) result (samples_of (items_view values.now)) }
{
    let mut samples = Vec::new(alloc);
    for value in values {
        let sample = sample_of(alloc, value)?;
        samples.push(sample)?;
    }
    Ok(samples)
}

/// Refuses values that are not one to sixty-four tables.
#[tactic(auto, using(crate::proofs::Rows::count_seen), unfolding(crate::specs::Sample::check_tables))]
fn check_tables(alloc: Global, values: &[Value]) -> Result<(), ManifestFault>
    ensures some { IfOk result (λ _. 1 ≤ length values.now) }
    ensures few { IfOk result (λ _. length values.now ≤ 64) }
    ensures value { Gives ManifestFault.NoMemory (λ u. u) result (check_tables (items_view values.now)) }
{
    if values.is_empty() {
        return Err(ManifestFault::NoSamples);
    }
    if 64 < values.len() {
        return Err(ManifestFault::TooMany {
            count: values.len() as u64,
        });
    }
    if !are_tables(values) {
        return Err(wrong_kind(alloc, "sample"));
    }
    Ok(())
}

/// The samples, all of which have to be tables.
#[tactic(auto, unfolding(crate::specs::Sample::samples_at))]
pub(crate) fn samples_at(alloc: Global, table: &Table) -> Result<Vec<SampleEntry>, ManifestFault>
    ensures fits { IfOk result (λ v. All IsEntry v.items) }
    ensures some { IfOk result (λ v. 1 ≤ length v.items) }
    ensures few { IfOk result (λ v. length v.items ≤ 64) }
    ensures value { Gives ManifestFault.NoMemory (λ v. v.items) result (samples_at (table_view table.now)) }
{
    let value = match value_at(table, "sample") {
        Some(value) => value,
        None => return Err(ManifestFault::NoSamples),
    };
    let values = match value.as_array() {
        Some(values) => values.as_slice(),
        None => return Err(wrong_kind(alloc, "sample")),
    };
    check_tables(alloc, values)?;
    samples_of(alloc, values)
}
