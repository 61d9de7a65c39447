ghost use Rattle.std.specs.Prelude.{◌≡◌, ◌≤◌, length, All, IfOk, Some, Ok};
ghost use Rattle.adpcm_nums.specs.Outcome.{Gives, Tells};
ghost use Rattle.host_files.specs.Outside.{Files};
ghost use Rattle.decompile_core.specs.Recovered.{IsEntry};
ghost use Rattle.command_plan.specs.Promise.{Reaches, Promises};
ghost use Rattle.command_plan.specs.Reading.{status_of};
ghost use Rattle.command_plan.specs.Steps.{Keeps, ReadsTo};
ghost use Rattle.tool_decompile.specs.Decompile.{form_of, refusal_of, entries_from, entries_in, entries_reading, decompile_course, IsDecompiled, AnswersDecompile};

use crate::entry_files::entry_files;
use crate::entry_lines::entry_lines;
use adpcm_nums::{NoMemory, Text};
use command_faults::{InputFault, Status, input_refused};
use command_plan::{fetch_front, finish, whole_in, write_out};
use decompile_core::{DecompileFault, Form, Recovered, decompile, sounds_for_ever};
use host_files::{Host, NamedFile};
use machine_core::Kind;
use std::alloc::Global;

/// The command `decompile FORM FILE OUT`: stores each entry of a file as a WAVE file, `OUT.0.wav`, `OUT.1.wav` and so on, and says a
/// line of each. For `Brr` the file is an image, for `Spu` a VAG file and for `Ima` a WAVE file of IMA ADPCM, which have one entry.
///
/// Where an entry settles or has no loop, the stored samples and then their loop are what its player gives for ever. No entry
/// of the file may have more than 4,096 blocks, or more than 262,144 samples in them (this project's own choice). A refused run
/// stores nothing.
pub fn run_decompile<H: Host>(
    alloc: Global,
    host: &mut H,
    kind: Kind,
    file: &str,
    output: &str,
) -> Status
    // How the world stands, whatever the host did.
    ensures told { (files : Files) → (H.world host.old).files ≡ Some files →
        Promises (decompile_course files kind file.now output.now) (IsDecompiled (entries_in files kind file.now) output.now) (H.world host.old) (H.world host.new) result }
    // What that says in the command's own words.
    ensures answer { (files : Files) → (H.world host.old).files ≡ Some files →
        AnswersDecompile files kind file.now output.now (H.world host.old) (H.world host.new) result }
    // These hold of a host that tells nothing, too.
    ensures keeps { Keeps (H.world host.old) (H.world host.new) result }
{
    sounds_for_ever();
    let status = come_decompile(alloc, host, kind, file, output);
    finish(alloc, host, status)
}

/// The command `decompile` up to the line of its status.
fn come_decompile<H: Host>(
    alloc: Global,
    host: &mut H,
    kind: Kind,
    file: &str,
    output: &str,
) -> Status
    ensures keeps { Keeps (H.world host.old) (H.world host.new) result }
    ensures told { (files : Files) → (H.world host.old).files ≡ Some files →
        Reaches (decompile_course files kind file.now output.now) (IsDecompiled (entries_in files kind file.now) output.now) (H.world host.old) (H.world host.new) result }
{
    let entries = match fetch_entries(alloc, host, kind, file) {
        Ok(entries) => entries,
        Err(status) => return status,
    };
    match form_entries(alloc, output, entries.as_slice()) {
        Ok((files, lines)) => write_out(alloc, host, files.as_slice(), lines.as_str()),
        Err(NoMemory) => Status::Memory,
    }
}

/// The entries of a file.
fn fetch_entries<H: Host>(
    alloc: Global,
    host: &mut H,
    kind: Kind,
    file: &str,
) -> Result<Vec<Recovered>, Status>
    ensures keeps { Keeps (H.world host.old) (H.world host.new) (status_of result) }
    ensures told { (files : Files) → (H.world host.old).files ≡ Some files →
        ReadsTo (entries_reading files kind file.now) (H.world host.old) (H.world host.new) result (λ entries. entries_in files kind file.now ≡ Ok entries.items) }
    ensures few { IfOk result (λ entries. length entries.items ≤ 64) }
    ensures kept { IfOk result (λ entries. All IsEntry entries.items) }
{
    let front = fetch_front(alloc, host, file, 8_388_608)?;
    entries_from(alloc, kind, file, front.as_slice())
}

/// The entries of the file that a front is.
#[tactic(auto, unfolding(crate::specs::Decompile::entries_from))]
fn entries_from(
    alloc: Global,
    kind: Kind,
    file: &str,
    front: &[u8],
) -> Result<Vec<Recovered>, Status>
    ensures exact { Gives Status.Memory (λ entries. entries.items) result (entries_from kind file.now front.now) }
    ensures few { IfOk result (λ entries. length entries.items ≤ 64) }
    ensures kept { IfOk result (λ entries. All IsEntry entries.items) }
{
    let bytes = whole_in(alloc, file, front)?;
    match decompile(alloc, bytes, form_of(kind)) {
        Ok(entries) => Ok(entries),
        Err(fault) => Err(refused(alloc, file, fault)),
    }
}

/// The files of a format.
fn form_of(kind: Kind) -> Form
    ensures { result ≡ form_of kind }
{
    match kind {
        Kind::Brr => Form::Brr,
        Kind::Spu => Form::Vag,
        Kind::Ima => Form::Ima,
    }
}

/// The status of a file that is not taken apart.
fn refused(alloc: Global, file: &str, fault: DecompileFault) -> Status
    ensures { Tells Status.Memory result (refusal_of file.now fault) }
{
    match fault {
        DecompileFault::Image { fault } => input_refused(alloc, file, InputFault::Image { fault }),
        DecompileFault::Vag { fault } => input_refused(alloc, file, InputFault::Vag { fault }),
        DecompileFault::Ima { fault } => input_refused(alloc, file, InputFault::Ima { fault }),
        DecompileFault::Track { fault } => input_refused(alloc, file, InputFault::Track { fault }),
        DecompileFault::TooMuch { blocks } => {
            input_refused(alloc, file, InputFault::TooMuch { blocks })
        }
        DecompileFault::NoMemory => Status::Memory,
    }
}

/// The files and the lines of entries.
fn form_entries(
    alloc: Global,
    output: &str,
    entries: &[Recovered],
) -> Result<(Vec<NamedFile>, Text), NoMemory>
    requires few { length entries.now ≤ 64 }
    requires kept { All IsEntry entries.now }
    ensures { IfOk result (λ r. IsDecompiled (Ok entries.now) output.now r.0.items r.1) }
{
    let files = entry_files(alloc, output, entries)?;
    let lines = entry_lines(alloc, entries)?;
    Ok((files, lines))
}
