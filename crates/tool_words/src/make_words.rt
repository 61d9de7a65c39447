ghost use Rattle.std.specs.Prelude.{◌≡◌};
ghost use Rattle.tool_words.specs.MakeWords.{make_command};

use crate::numbers::number_of;
use crate::words::Command;

/// The command `make` with this word behind its name, if that is a number of 32 bits.
#[tactic(auto, unfolding(crate::specs::MakeWords::make_command))]
pub(crate) fn make_command(number: &str) -> Option<Command>
    ensures { result ≡ make_command number.now }
{
    match number_of(number, u32::MAX) {
        Some(number) => Some(Command::Make { number }),
        None => None,
    }
}
