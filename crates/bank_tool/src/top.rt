ghost use Rattle.std.specs.Prelude.{◌≡◌, ℕ, List, true, false, map, string_bytes, IsSome, Some, None};
ghost use Rattle.adpcm_nums.specs.Outcome.{Tells};
ghost use Rattle.machine_core.specs.declared.state.Kind.{Kind};
ghost use Rattle.host_files.specs.Outside.{Files, Rose};
ghost use Rattle.command_plan.specs.Ending.{is_device};
ghost use Rattle.command_plan.specs.Steps.{Keeps};
ghost use Rattle.command_plan.specs.Promise.{Promises, Finishes};
ghost use Rattle.tool_words.specs.Words.{command_of};
ghost use Rattle.tool_block.specs.Block.{AnswersBlock};
ghost use Rattle.tool_compile.specs.Compiled.{AnswersCompile};
ghost use Rattle.tool_compare.specs.Checked.{AnswersCheck};
ghost use Rattle.tool_compare.specs.Bounded.{AnswersBound};
ghost use Rattle.tool_decompile.specs.Decompile.{AnswersDecompile};
ghost use Rattle.tool_play.specs.Played.{AnswersPlay};
ghost use Rattle.tool_compile.specs.Make.{AnswersMake};
ghost use Rattle.bank_tool.specs.Commands.{course_of, choice_of};

use adpcm_nums::NoMemory;
use command_faults::Status;
use command_plan::finish;
use decompile_core::sounds_for_ever;
use host_files::Host;
use std::alloc::Global;
use tool_block::run_block;
use tool_compare::{run_bound, run_check};
use tool_compile::{run_compile, run_make};
use tool_decompile::run_decompile;
use tool_play::run_play;
use tool_words::{Command, read_words};

/// Does what the words after the program's name ask for, and says how that ended.
pub fn run<H: Host>(alloc: Global, host: &mut H, words: &[String]) -> Status
    // How the world stands, whatever the host did: some plan of the words' command was followed.
    ensures told { (files : Files) → (H.world host.old).files ≡ Some files →
        let command = command_of (map string_bytes words.now) in
        Promises (course_of command files) (choice_of command files) (H.world host.old) (H.world host.new) result }
    // At `Done` one choice was made, and all of it was stored and said.
    ensures done { (files : Files) → (H.world host.old).files ≡ Some files → result ≡ Status.Done →
        let command = command_of (map string_bytes words.now) in
        Finishes (course_of command files) (choice_of command files) (H.world host.old) (H.world host.new) }
    // What that says of `block` in its own words.
    ensures block { (files : Files) (input output : List ℕ) → (H.world host.old).files ≡ Some files → command_of (map string_bytes words.now) ≡ Some (Command.Block input output) →
        AnswersBlock files input output (H.world host.old) (H.world host.new) result }
    // What it says of `compile`: the stored bank plays as its first passes sound, the told errors are exact, no list of
    // blocks that may be stored has an error below a told bound, and a told gap of 0 means that none has a smaller error; a told error
    // is at most the sum of the beams' errors, and the bound where every segment was searched state by state.
    ensures compile { (files : Files) (manifest : List ℕ) → (H.world host.old).files ≡ Some files → command_of (map string_bytes words.now) ≡ Some (Command.Compile manifest) →
        AnswersCompile files manifest (H.world host.old) (H.world host.new) result }
    // What it says of `check`, whoever made the stored files: each stored list is legal, its told error is exact, and no list of
    // blocks that may be stored has an error below a told bound. The files stay as they were.
    ensures check { (files : Files) (manifest : List ℕ) → (H.world host.old).files ≡ Some files → command_of (map string_bytes words.now) ≡ Some (Command.Check manifest) →
        AnswersCheck files manifest (H.world host.old) (H.world host.new) result }
    // What it says of `bound`, whoever made the stored files and whatever the effort: each stored list is legal, its told error is exact,
    // and no list of blocks that may be stored has an error below a told bound. The files stay as they were.
    ensures bound { (files : Files) (manifest : List ℕ) (effort : ℕ) → (H.world host.old).files ≡ Some files → command_of (map string_bytes words.now) ≡ Some (Command.Bound manifest effort) →
        AnswersBound files manifest (H.world host.old) (H.world host.new) result }
    // What it says of `decompile`: the stored files hold the entries, which sound as their players.
    ensures decompile { (files : Files) (kind : Kind) (file output : List ℕ) → (H.world host.old).files ≡ Some files → command_of (map string_bytes words.now) ≡ Some (Command.Decompile kind file output) →
        AnswersDecompile files kind file output (H.world host.old) (H.world host.new) result }
    // And what it says of `play`.
    ensures play { (files : Files) (kind : Kind) (file : List ℕ) (entry count : ℕ) → (H.world host.old).files ≡ Some files → command_of (map string_bytes words.now) ≡ Some (Command.Play kind file entry count) →
        AnswersPlay files kind file entry count (H.world host.old) (H.world host.new) result }
    // And what it says of `make`.
    ensures make { (files : Files) (number : ℕ) → (H.world host.old).files ≡ Some files → command_of (map string_bytes words.now) ≡ Some (Command.Make number) →
        AnswersMake number (H.world host.old) (H.world host.new) result }
    // Where the host does not fail, the answer is the one of the words' course, unless there was no memory.
    ensures course { (files : Files) → (H.world host.old).files ≡ Some files → is_device result ≡ false →
        Tells Status.Memory result (course_of (command_of (map string_bytes words.now)) files).outcome }
    // These hold of a host that tells nothing, too.
    ensures done_command { result ≡ Status.Done → IsSome (command_of (map string_bytes words.now)) }
    ensures words { result ≡ Status.Words → command_of (map string_bytes words.now) ≡ None }
    ensures no_command { command_of (map string_bytes words.now) ≡ None → Tells Status.Memory result Status.Words }
    ensures device { is_device result ≡ true → Rose (H.world host.old).faults (H.world host.new).faults }
{
    sounds_for_ever();
    match read_words(alloc, words) {
        Err(NoMemory) => Status::Memory,
        Ok(None) => finish(alloc, host, Status::Words),
        Ok(Some(command)) => obey(alloc, host, &command),
    }
}

/// Does what a command asks for.
fn obey<H: Host>(alloc: Global, host: &mut H, command: &Command) -> Status
    ensures told { (files : Files) → (H.world host.old).files ≡ Some files →
        Promises (course_of (Some command.now) files) (choice_of (Some command.now) files) (H.world host.old) (H.world host.new) result }
    ensures keeps { Keeps (H.world host.old) (H.world host.new) result }
{
    match command {
        Command::Block { input, output } => {
            run_block(alloc, host, input.as_str(), output.as_str())
        }
        Command::Compile { manifest } => run_compile(alloc, host, manifest.as_str()),
        Command::Check { manifest } => run_check(alloc, host, manifest.as_str()),
        Command::Bound { manifest, effort } => {
            run_bound(alloc, host, manifest.as_str(), u64::from(*effort))
        }
        Command::Decompile { kind, file, output } => {
            run_decompile(alloc, host, *kind, file.as_str(), output.as_str())
        }
        Command::Play {
            kind,
            file,
            entry,
            count,
        } => run_play(alloc, host, *kind, file.as_str(), *entry, *count),
        Command::Make { number } => run_make(alloc, host, *number),
    }
}
