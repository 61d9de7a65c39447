ghost use Rattle.std.specs.Prelude.{◌≡◌, ◌<◌, map, option_map, IfOk, IfSome};
ghost use Rattle.std.specs.List.{list_any};
ghost use Rattle.std.specs.Str.{bytes_eq};
ghost use Rattle.toml.specs.Data.{get_member};
ghost use Rattle.toml.specs.View.{view, table_view};
ghost use Rattle.adpcm_nums.specs.Outcome.{Gives};
ghost use Rattle.manifest_reader.specs.Ranges.{IsWithin};
ghost use Rattle.manifest_reader.specs.Keys.{text_at, needed_text, number_at, in_range, check_keys};

use crate::fault::{ManifestFault, wrong_kind};
use adpcm_nums::Text;
use std::alloc::Global;
use toml::{Table, Value};

/// What the table holds at a key.
pub(crate) fn value_at<'a>(table: &'a Table, key: &str) -> Option<&'a Value>
    ensures { option_map (λ v. view v.now) result ≡ get_member key.now (table_view table.now) }
{
    table.get(key)
}

/// The text at a key, if something stands there.
#[tactic(auto, unfolding(crate::specs::Keys::text_at))]
pub(crate) fn text_at<'a>(
    alloc: Global,
    table: &'a Table,
    key: &str,
) -> Result<Option<&'a str>, ManifestFault>
    ensures { Gives ManifestFault.NoMemory (option_map (λ s. s.now)) result (text_at key.now (table_view table.now)) }
{
    match value_at(table, key) {
        None => Ok(None),
        Some(value) => match value.as_str() {
            Some(text) => Ok(Some(text)),
            None => Err(wrong_kind(alloc, key)),
        },
    }
}

/// The text at a key that has to be there.
#[tactic(auto, unfolding(crate::specs::Keys::needed_text))]
pub(crate) fn needed_text<'a>(
    alloc: Global,
    table: &'a Table,
    key: &str,
) -> Result<&'a str, ManifestFault>
    ensures { Gives ManifestFault.NoMemory (λ s. s.now) result (needed_text key.now (table_view table.now)) }
{
    match text_at(alloc, table, key)? {
        Some(text) => Ok(text),
        None => Err(ManifestFault::MissingKey {
            key: Text::copy_of(alloc, key)?,
        }),
    }
}

/// The number at a key, if something stands there: a multiple of `step` in `low..=high`.
#[tactic(auto, unfolding(crate::specs::Keys::number_at))]
pub(crate) fn number_at(
    alloc: Global,
    table: &Table,
    key: &str,
    low: u32,
    high: u32,
    step: u32,
) -> Result<Option<u32>, ManifestFault>
    requires { 0 < step }
    ensures range { IfOk result (λ o. IfSome o (IsWithin low high step)) }
    ensures value { Gives ManifestFault.NoMemory (λ n. n) result (number_at low high step key.now (table_view table.now)) }
{
    match value_at(table, key) {
        None => Ok(None),
        Some(value) => match value.as_integer() {
            Some(value) => match in_range(value, low, high, step) {
                Some(number) => Ok(Some(number)),
                None => Err(ManifestFault::OutOfRange {
                    key: Text::copy_of(alloc, key)?,
                    value,
                }),
            },
            None => Err(wrong_kind(alloc, key)),
        },
    }
}

/// The number, where it is a multiple of `step` in `low..=high`.
fn in_range(value: i64, low: u32, high: u32, step: u32) -> Option<u32>
    requires { 0 < step }
    ensures value { result ≡ in_range low high step value }
    ensures range { IfSome result (IsWithin low high step) }
{
    match u32::try_from(value) {
        Ok(number) => {
            if low <= number && (number <= high && number % step == 0) {
                Some(number)
            } else {
                None
            }
        }
        Err(_) => None,
    }
}

fn is_among(text: &str, texts: &[&str]) -> bool
    ensures { result ≡ list_any (λ t. bytes_eq text.now t.now) texts.now }
{
    texts.iter().any(|t| text == *t)
}

/// Refuses the first key, in byte order, that is not known.
#[tactic(auto, unfolding(crate::specs::Keys::check_keys))]
pub(crate) fn check_keys(alloc: Global, table: &Table, known: &[&str]) -> Result<(), ManifestFault>
    ensures { Gives ManifestFault.NoMemory (λ u. u) result (check_keys (map (λ k. k.now) known.now) (table_view table.now)) }
{
    for key in table.keys() {
        let key = key.as_str();
        if !is_among(key, known) {
            return Err(ManifestFault::UnknownKey {
                key: Text::copy_of(alloc, key)?,
            });
        }
    }
    Ok(())
}
