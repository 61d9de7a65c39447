ghost use Rattle.std.specs.Prelude.{◌≡◌, IfOk, option_map};
ghost use Rattle.clap.specs.Words.{first_of, found_of, rows_of, subcommand_rows_of};
ghost use Rattle.tool_words.specs.Places.{block_at, bound_at, check_at, command_at, command_met, compile_at, decompile_at, make_at, play_at};

use crate::bound_words::bound_command;
use crate::decompile_words::decompile_command;
use crate::make_words::make_command;
use crate::play_words::play_command;
use crate::words::Command;
use adpcm_nums::{NoMemory, Text};
use clap::ArgMatches;
use std::alloc::Global;

/// The word at a place, if there is one.
fn word_at<'a>(places: &ArgMatches<'a>, place: &str) -> Option<&'a str>
    ensures { option_map (λ word. word.now) result ≡ first_of place.now (rows_of (found_of places.now)) }
{
    places.get_str(place)
}

/// The command `block` with the words at its places.
#[tactic(auto, unfolding(crate::specs::Places::block_at))]
fn block_at(alloc: Global, places: &ArgMatches<'_>) -> Result<Option<Command>, NoMemory>
    ensures { IfOk result (λ o. o ≡ block_at (rows_of (found_of places.now))) }
{
    match (word_at(places, "IN"), word_at(places, "OUT")) {
        (Some(input), Some(output)) => {
            let input = Text::copy_of(alloc, input)?;
            let output = Text::copy_of(alloc, output)?;
            Ok(Some(Command::Block { input, output }))
        }
        _ => Ok(None),
    }
}

/// The command `compile` with the word at its place.
#[tactic(auto, unfolding(crate::specs::Places::compile_at))]
fn compile_at(alloc: Global, places: &ArgMatches<'_>) -> Result<Option<Command>, NoMemory>
    ensures { IfOk result (λ o. o ≡ compile_at (rows_of (found_of places.now))) }
{
    match word_at(places, "MANIFEST") {
        Some(manifest) => {
            let manifest = Text::copy_of(alloc, manifest)?;
            Ok(Some(Command::Compile { manifest }))
        }
        None => Ok(None),
    }
}

/// The command `check` with the word at its place.
#[tactic(auto, unfolding(crate::specs::Places::check_at))]
fn check_at(alloc: Global, places: &ArgMatches<'_>) -> Result<Option<Command>, NoMemory>
    ensures { IfOk result (λ o. o ≡ check_at (rows_of (found_of places.now))) }
{
    match word_at(places, "MANIFEST") {
        Some(manifest) => {
            let manifest = Text::copy_of(alloc, manifest)?;
            Ok(Some(Command::Check { manifest }))
        }
        None => Ok(None),
    }
}

/// The command `bound` with the words at its places.
#[tactic(auto, unfolding(crate::specs::Places::bound_at))]
fn bound_at(alloc: Global, places: &ArgMatches<'_>) -> Result<Option<Command>, NoMemory>
    ensures { IfOk result (λ o. o ≡ bound_at (rows_of (found_of places.now))) }
{
    match (word_at(places, "MANIFEST"), word_at(places, "EFFORT")) {
        (Some(manifest), Some(effort)) => bound_command(alloc, manifest, effort),
        _ => Ok(None),
    }
}

/// The command `decompile` with the words at its places.
#[tactic(auto, unfolding(crate::specs::Places::decompile_at))]
fn decompile_at(alloc: Global, places: &ArgMatches<'_>) -> Result<Option<Command>, NoMemory>
    ensures { IfOk result (λ o. o ≡ decompile_at (rows_of (found_of places.now))) }
{
    match (
        word_at(places, "FORM"),
        word_at(places, "FILE"),
        word_at(places, "OUT"),
    ) {
        (Some(form), Some(file), Some(output)) => decompile_command(alloc, form, file, output),
        _ => Ok(None),
    }
}

/// The command `play` with the words at its places.
#[tactic(auto, unfolding(crate::specs::Places::play_at))]
fn play_at(alloc: Global, places: &ArgMatches<'_>) -> Result<Option<Command>, NoMemory>
    ensures { IfOk result (λ o. o ≡ play_at (rows_of (found_of places.now))) }
{
    match (
        word_at(places, "FORM"),
        word_at(places, "FILE"),
        word_at(places, "ENTRY"),
        word_at(places, "COUNT"),
    ) {
        (Some(form), Some(file), Some(entry), Some(count)) => {
            play_command(alloc, form, file, entry, count)
        }
        _ => Ok(None),
    }
}

/// The command `make` with the word at its place.
#[tactic(auto, unfolding(crate::specs::Places::make_at))]
fn make_at(places: &ArgMatches<'_>) -> Option<Command>
    ensures { result ≡ make_at (rows_of (found_of places.now)) }
{
    match word_at(places, "NUMBER") {
        Some(number) => make_command(number),
        None => None,
    }
}

/// The command of a name, with the words at its places.
fn command_at(
    alloc: Global,
    name: &str,
    places: &ArgMatches<'_>,
) -> Result<Option<Command>, NoMemory>
    ensures { IfOk result (λ o. o ≡ command_at name.now (rows_of (found_of places.now))) }
{
    match name {
        "block" => block_at(alloc, places),
        "compile" => compile_at(alloc, places),
        "check" => check_at(alloc, places),
        "bound" => bound_at(alloc, places),
        "decompile" => decompile_at(alloc, places),
        "play" => play_at(alloc, places),
        "make" => Ok(make_at(places)),
        _ => Ok(None),
    }
}

/// The command that was found, with the words at its places.
pub(crate) fn command_met(
    alloc: Global,
    found: &ArgMatches<'_>,
) -> Result<Option<Command>, NoMemory>
    ensures { IfOk result (λ o. o ≡ command_met (subcommand_rows_of found.now)) }
{
    match found.subcommand() {
        Some((name, places)) => command_at(alloc, name, places),
        None => Ok(None),
    }
}
