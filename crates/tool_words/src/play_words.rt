ghost use Rattle.std.specs.Prelude.{◌≡◌, IfOk};
ghost use Rattle.tool_words.specs.PlayWords.{kind_of, play_command};

use crate::numbers::number_of;
use crate::words::Command;
use adpcm_nums::{NoMemory, Text};
use machine_core::Kind;
use std::alloc::Global;

/// The format that a word names.
pub(crate) fn kind_of(word: &str) -> Option<Kind>
    ensures { result ≡ kind_of word.now }
{
    match word {
        "brr" => Some(Kind::Brr),
        "vag" => Some(Kind::Spu),
        "ima" => Some(Kind::Ima),
        _ => None,
    }
}

/// The command `play` with these words behind its name, if they are one.
#[tactic(auto, unfolding(crate::specs::PlayWords::play_command))]
pub(crate) fn play_command(
    alloc: Global,
    form: &str,
    file: &str,
    entry: &str,
    count: &str,
) -> Result<Option<Command>, NoMemory>
    ensures { IfOk result (λ o. o ≡ play_command form.now file.now entry.now count.now) }
{
    match (
        kind_of(form),
        number_of(entry, 63),
        number_of(count, 1_000_000),
    ) {
        (Some(kind), Some(entry), Some(count)) => {
            let file = Text::copy_of(alloc, file)?;
            Ok(Some(Command::Play {
                kind,
                file,
                entry,
                count,
            }))
        }
        _ => Ok(None),
    }
}
