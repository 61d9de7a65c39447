ghost use Rattle.std.specs.Prelude.{◌≡◌, IfOk};
ghost use Rattle.tool_words.specs.DecompileWords.{decompile_command};

use crate::play_words::kind_of;
use crate::words::Command;
use adpcm_nums::{NoMemory, Text};
use std::alloc::Global;

/// The command `decompile` with these words behind its name, if the first of them is a format.
#[tactic(auto, unfolding(crate::specs::DecompileWords::decompile_command))]
pub(crate) fn decompile_command(
    alloc: Global,
    form: &str,
    file: &str,
    output: &str,
) -> Result<Option<Command>, NoMemory>
    ensures { IfOk result (λ o. o ≡ decompile_command form.now file.now output.now) }
{
    match kind_of(form) {
        Some(kind) => {
            let file = Text::copy_of(alloc, file)?;
            let output = Text::copy_of(alloc, output)?;
            Ok(Some(Command::Decompile { kind, file, output }))
        }
        None => Ok(None),
    }
}
