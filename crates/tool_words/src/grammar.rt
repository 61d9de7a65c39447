ghost use Rattle.std.specs.Prelude.{◌≡◌, [], IfOk, false, map};
ghost use Rattle.clap.specs.Words.{app_of, rule_of, with_subcommand};
ghost use Rattle.tool_words.specs.Grammar.{bank_forms, form, grammar, no_forms, place};

use clap::{Arg, Command};
use std::alloc::{AllocError, Global};

/// A word that must be there, by the name of its place.
fn place<'a>(alloc: Global, name: &'a str) -> Arg<'a>
    ensures rule { rule_of result ≡ place name.entry.now }
    ensures local { result.global ≡ false }
{
    Arg::new(alloc, name).required(true)
}

/// A command of this name with a word for each of these places.
fn form<'a>(alloc: Global, name: &'a str, places: &[&'a str]) -> Result<Command<'a>, AllocError>
    ensures { IfOk result (λ c. app_of c ≡ record { top = form name.entry.now (map (λ p. p.now) places.now); subs = [] }) }
{
    let mut command = Command::new(alloc, name);
    for at in places {
        command = command.arg(place(alloc, at))?;
    }
    Ok(command)
}

/// The command line before its commands: no flags and no command `help`.
fn no_forms<'a>(alloc: Global) -> Command<'a>
    ensures { app_of result ≡ no_forms }
{
    Command::new(alloc, "adbank")
        .no_binary_name(true)
        .disable_help_flag(true)
        .disable_help_subcommand(true)
        .disable_version_flag(true)
        .subcommand_required(true)
}

/// The command line with one more command.
fn with_form<'a>(
    alloc: Global,
    grammar: Command<'a>,
    name: &'a str,
    places: &[&'a str],
) -> Result<Command<'a>, AllocError>
    ensures { IfOk result (λ c. app_of c ≡ with_subcommand (app_of grammar.entry) (form name.entry.now (map (λ p. p.now) places.now))) }
{
    let command = form(alloc, name, places)?;
    grammar.subcommand(command)
}

/// The commands for banks and for one block.
fn bank_forms<'a>(alloc: Global) -> Result<Command<'a>, AllocError>
    ensures { IfOk result (λ c. app_of c ≡ bank_forms) }
{
    let grammar = with_form(alloc, no_forms(alloc), "block", &["IN", "OUT"])?;
    let grammar = with_form(alloc, grammar, "compile", &["MANIFEST"])?;
    let grammar = with_form(alloc, grammar, "check", &["MANIFEST"])?;
    with_form(alloc, grammar, "bound", &["MANIFEST", "EFFORT"])
}

/// The command line: one subcommand for each command, with its words in order.
pub(crate) fn grammar<'a>(alloc: Global) -> Result<Command<'a>, AllocError>
    ensures { IfOk result (λ c. app_of c ≡ grammar) }
{
    let grammar = bank_forms(alloc)?;
    let grammar = with_form(alloc, grammar, "decompile", &["FORM", "FILE", "OUT"])?;
    let grammar = with_form(alloc, grammar, "play", &["FORM", "FILE", "ENTRY", "COUNT"])?;
    with_form(alloc, grammar, "make", &["NUMBER"])
}
