ghost use Rattle.std.specs.Prelude.{IfOk};
ghost use Rattle.adpcm_nums.specs.Outcome.{Gives};
ghost use Rattle.toml.specs.View.{table_view};
ghost use Rattle.manifest_reader.specs.Ranges.{IsWithin};
ghost use Rattle.manifest_reader.specs.Bank.{effort_at};

use crate::bank::{beam_at, budget_at, paths_at};
use crate::fault::ManifestFault;
use std::alloc::Global;
use toml::Table;

/// How much is done to find good blocks for a sample (this project's own choice).
#[derive(Clone, Copy, Debug, PartialEq, Eq)]
pub struct Effort {
    /// How many lists of blocks the encoder keeps from block to block: 1 to 64.
    pub beam: u32,
    /// How many lists of codes go on together inside each block: 1 to 64.
    pub paths: u32,
    /// How many cells the search may keep for a sample: up to 1,000,000.
    pub budget: u32,
}

/// What a manifest says of it.
#[tactic(auto, unfolding(crate::specs::Bank::effort_at))]
pub(crate) fn effort_at(alloc: Global, table: &Table) -> Result<Effort, ManifestFault>
    ensures beam { IfOk result (λ e. IsWithin 1 64 1 e.beam) }
    ensures paths { IfOk result (λ e. IsWithin 1 64 1 e.paths) }
    ensures budget { IfOk result (λ e. IsWithin 0 1000000 1 e.budget) }
    ensures value { Gives ManifestFault.NoMemory (λ e. e) result (effort_at (table_view table.now)) }
{
    let beam = beam_at(alloc, table)?;
    let paths = paths_at(alloc, table)?;
    let budget = budget_at(alloc, table)?;
    Ok(Effort {
        beam,
        paths,
        budget,
    })
}
