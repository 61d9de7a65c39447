ghost use Rattle.std.specs.Prelude.{◌≡◌, IfOk, IfSome, IsNone, false, true, map, string_bytes};
ghost use Rattle.std.specs.List.{list_all};
ghost use Rattle.clap.specs.Words.{subcommand_rows_of};
ghost use Rattle.tool_words.specs.Words.{is_word, command_in, command_of};
ghost use Rattle.tool_words.specs.Grammar.{AreSplit, fits};

use crate::grammar::grammar;
use crate::places::command_met;
use adpcm_nums::{NoMemory, Text};
use clap::ArgMatches;
use clap::error::ErrorKind;
use machine_core::Kind;
use std::alloc::Global;

/// A command with its words.
#[derive(Debug, Drop)]
pub enum Command {
    /// `block IN OUT`: makes one block of sixteen samples.
    Block {
        /// The file of 32 bytes that has the samples, each of 16 bits, the low byte first.
        input: Text,
        /// The file that the block is stored as.
        output: Text,
    },
    /// `compile MANIFEST`: compiles the bank of a manifest.
    Compile {
        /// The manifest's file.
        manifest: Text,
    },
    /// `check MANIFEST`: checks the stored bank of a manifest and its certificates against the sources.
    Check {
        /// The manifest's file.
        manifest: Text,
    },
    /// `bound MANIFEST EFFORT`: finds bounds near the errors of the stored bank of a manifest.
    Bound {
        /// The manifest's file.
        manifest: Text,
        /// How far each search for a bound goes, at most: from each place of a block with so many rows.
        effort: u32,
    },
    /// `decompile FORM FILE OUT`: stores the entries of a file as WAVE files.
    Decompile {
        /// The format of the file.
        kind: Kind,
        /// The file that has the entries.
        file: Text,
        /// What the names of the stored files begin with.
        output: Text,
    },
    /// `play FORM FILE ENTRY COUNT`: says the first outputs of an entry, one in a line.
    Play {
        /// The format of the file.
        kind: Kind,
        /// The file that has the entry.
        file: Text,
        /// The entry, from 0.
        entry: u32,
        /// The number of outputs, of one sample each.
        count: u32,
    },
    /// `make NUMBER`: compiles the test sound of a number in the three formats.
    Make {
        /// The number.
        number: u32,
    },
}

/// Whether a word may stand in a command.
fn may_stand(word: &str) -> bool
    ensures { result ≡ is_word word.now }
{
    match word.as_bytes() {
        [] => false,
        [first, ..] => *first != b'-',
    }
}

/// Whether all words may stand in a command.
fn may_all_stand(words: &[String]) -> bool
    ensures { result ≡ list_all (λ word. is_word (string_bytes word)) words.now }
{
    words.iter().all(|word| may_stand(word.as_str()))
}

/// The words as the crate `clap` splits them, if they fit the command line.
fn split<'a>(alloc: Global, words: &'a [String]) -> Result<Option<ArgMatches<'a>>, NoMemory>
    ensures some { IfOk result (λ o. IfSome o (λ found. AreSplit (map string_bytes words.now) (subcommand_rows_of found))) }
    ensures none { IfOk result (λ o. IsNone o → fits (map string_bytes words.now) ≡ false) }
{
    let grammar = match grammar(alloc) {
        Ok(grammar) => grammar,
        Err(_) => return Err(NoMemory),
    };
    match grammar.try_get_matches_from(words) {
        Ok(found) => Ok(Some(found)),
        Err(error) => match error.kind() {
            ErrorKind::OutOfMemory => Err(NoMemory),
            _ => Ok(None),
        },
    }
}

/// The command that words are of which each may stand in one.
fn known_command(alloc: Global, words: &[String]) -> Result<Option<Command>, NoMemory>
    requires { list_all (λ word. is_word (string_bytes word)) words.now ≡ true }
    ensures { IfOk result (λ o. o ≡ command_in (map string_bytes words.now)) }
{
    match split(alloc, words)? {
        Some(found) => command_met(alloc, &found),
        None => Ok(None),
    }
}

/// The command that the words are, if they are one.
///
/// Words are compared exactly. A word that is empty or begins with `-` makes them no command (this
/// project's own choice).
pub fn read_words(alloc: Global, words: &[String]) -> Result<Option<Command>, NoMemory>
    ensures { IfOk result (λ o. o ≡ command_of (map string_bytes words.now)) }
{
    if may_all_stand(words) {
        known_command(alloc, words)
    } else {
        Ok(None)
    }
}
