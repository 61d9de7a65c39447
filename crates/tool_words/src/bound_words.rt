ghost use Rattle.std.specs.Prelude.{◌≡◌, IfOk};
ghost use Rattle.tool_words.specs.BoundWords.{bound_command};

use crate::numbers::number_of;
use crate::words::Command;
use adpcm_nums::{NoMemory, Text};
use std::alloc::Global;

/// The command `bound` with these words behind its name, if they are one.
#[tactic(auto, unfolding(crate::specs::BoundWords::bound_command))]
pub(crate) fn bound_command(
    alloc: Global,
    manifest: &str,
    effort: &str,
) -> Result<Option<Command>, NoMemory>
    ensures { IfOk result (λ o. o ≡ bound_command manifest.now effort.now) }
{
    match number_of(effort, 100_000) {
        Some(effort) => {
            let manifest = Text::copy_of(alloc, manifest)?;
            Ok(Some(Command::Bound { manifest, effort }))
        }
        None => Ok(None),
    }
}
