ghost use Rattle.std.specs.Prelude.{◌≡◌, true, IfOk};
ghost use Rattle.toml.specs.View.{table_view};
ghost use Rattle.manifest_reader.specs.Words.{is_bank};
ghost use Rattle.manifest_reader.specs.Ranges.{IsWithin};
ghost use Rattle.adpcm_nums.specs.Outcome.{Gives};
ghost use Rattle.manifest_reader.specs.Bank.{kind_at, bank_at, base_at, block_at, beam_at, paths_at, budget_at, length_at, start_at};

use crate::fault::{ManifestFault, bad_word};
use crate::keys::{needed_text, number_at, text_at};
use crate::words::is_bank;
use adpcm_nums::Text;
use loop_fit::{Length, Start};
use machine_core::Kind;
use std::alloc::Global;
use toml::Table;

/// The format.
#[tactic(auto, unfolding(crate::specs::Bank::kind_at))]
pub(crate) fn kind_at(alloc: Global, table: &Table) -> Result<Kind, ManifestFault>
    ensures { Gives ManifestFault.NoMemory (λ k. k) result (kind_at (table_view table.now)) }
{
    match needed_text(alloc, table, "format")? {
        "brr" => Ok(Kind::Brr),
        "spu" => Ok(Kind::Spu),
        "ima" => Ok(Kind::Ima),
        _ => Err(bad_word(alloc, "format")),
    }
}

/// The bank's name.
#[tactic(auto, unfolding(crate::specs::Bank::bank_at))]
pub(crate) fn bank_at(alloc: Global, table: &Table) -> Result<Text, ManifestFault>
    ensures word { IfOk result (λ t. is_bank t ≡ true) }
    ensures value { Gives ManifestFault.NoMemory (λ t. t) result (bank_at (table_view table.now)) }
{
    let word = needed_text(alloc, table, "bank")?;
    if !is_bank(word) {
        return Err(bad_word(alloc, "bank"));
    }
    Ok(Text::copy_of(alloc, word)?)
}

/// Where a SNES image begins.
#[tactic(auto, unfolding(crate::specs::Bank::base_at))]
pub(crate) fn base_at(alloc: Global, table: &Table) -> Result<u32, ManifestFault>
    ensures range { IfOk result (IsWithin 0 65280 256) }
    ensures value { Gives ManifestFault.NoMemory (λ n. n) result (base_at (table_view table.now)) }
{
    Ok(number_at(alloc, table, "base", 0, 65280, 256)?.unwrap_or(512))
}

/// Bytes of a block of IMA ADPCM.
#[tactic(auto, unfolding(crate::specs::Bank::block_at))]
pub(crate) fn block_at(alloc: Global, table: &Table) -> Result<u32, ManifestFault>
    ensures range { IfOk result (IsWithin 8 1024 4) }
    ensures value { Gives ManifestFault.NoMemory (λ n. n) result (block_at (table_view table.now)) }
{
    Ok(number_at(alloc, table, "block", 8, 1024, 4)?.unwrap_or(256))
}

/// How many lists of blocks the encoder keeps.
#[tactic(auto, unfolding(crate::specs::Bank::beam_at))]
pub(crate) fn beam_at(alloc: Global, table: &Table) -> Result<u32, ManifestFault>
    ensures range { IfOk result (IsWithin 1 64 1) }
    ensures value { Gives ManifestFault.NoMemory (λ n. n) result (beam_at (table_view table.now)) }
{
    Ok(number_at(alloc, table, "beam", 1, 64, 1)?.unwrap_or(8))
}

/// How many lists of codes go on together inside each block.
#[tactic(auto, unfolding(crate::specs::Bank::paths_at))]
pub(crate) fn paths_at(alloc: Global, table: &Table) -> Result<u32, ManifestFault>
    ensures range { IfOk result (IsWithin 1 64 1) }
    ensures value { Gives ManifestFault.NoMemory (λ n. n) result (paths_at (table_view table.now)) }
{
    Ok(number_at(alloc, table, "paths", 1, 64, 1)?.unwrap_or(1))
}

/// How many cells the search may keep for a sample.
#[tactic(auto, unfolding(crate::specs::Bank::budget_at))]
pub(crate) fn budget_at(alloc: Global, table: &Table) -> Result<u32, ManifestFault>
    ensures range { IfOk result (IsWithin 0 1000000 1) }
    ensures value { Gives ManifestFault.NoMemory (λ n. n) result (budget_at (table_view table.now)) }
{
    Ok(number_at(alloc, table, "budget", 0, 1_000_000, 1)?.unwrap_or(100_000))
}

/// How a loop's length is fitted.
#[tactic(auto, unfolding(crate::specs::Bank::length_at))]
pub(crate) fn length_at(alloc: Global, table: &Table) -> Result<Length, ManifestFault>
    ensures { Gives ManifestFault.NoMemory (λ l. l) result (length_at (table_view table.now)) }
{
    match text_at(alloc, table, "length")? {
        None => Ok(Length::Exact),
        Some("exact") => Ok(Length::Exact),
        Some("unroll") => Ok(Length::Unroll),
        Some(_) => Err(bad_word(alloc, "length")),
    }
}

/// How a loop's start is fitted.
#[tactic(auto, unfolding(crate::specs::Bank::start_at))]
pub(crate) fn start_at(alloc: Global, table: &Table) -> Result<Start, ManifestFault>
    ensures { Gives ManifestFault.NoMemory (λ s. s) result (start_at (table_view table.now)) }
{
    match text_at(alloc, table, "start")? {
        None => Ok(Start::Front),
        Some("front") => Ok(Start::Front),
        Some("rotate") => Ok(Start::Rotate),
        Some(_) => Err(bad_word(alloc, "start")),
    }
}
