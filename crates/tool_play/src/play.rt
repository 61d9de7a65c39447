ghost use Rattle.std.specs.Prelude.{◌≡◌, Some};
ghost use Rattle.host_files.specs.Outside.{Files};
ghost use Rattle.command_plan.specs.Promise.{Reaches, Promises};
ghost use Rattle.command_plan.specs.Read.{Reads};
ghost use Rattle.command_plan.specs.Steps.{Keeps};
ghost use Rattle.tool_play.specs.Played.{said_read, play_course, IsPlayed, AnswersPlay};
ghost use Rattle.command_plan.specs.Reading.{status_of};

use crate::outputs::said_of;
use adpcm_nums::Text;
use command_faults::Status;
use command_plan::{fetch_front, finish, write_out};
use host_files::Host;
use machine_core::Kind;
use std::alloc::Global;

/// The command `play FORM FILE ENTRY COUNT`: says the first `count` outputs of an entry of a file, one in a line. For `Brr`
/// the file is an image, for `Spu` a VAG file and for `Ima` a WAVE file of IMA ADPCM, which have one entry.
///
/// No entry of the file may have more than 4,096 blocks, or in IMA ADPCM more than 262,144 samples in them (this project's own
/// choice). Nothing is said where `count` is 0.
pub fn run_play<H: Host>(
    alloc: Global,
    host: &mut H,
    kind: Kind,
    file: &str,
    entry: u32,
    count: u32,
) -> Status
    // How the world stands, whatever the host did.
    ensures told { (files : Files) → (H.world host.old).files ≡ Some files →
        Promises (play_course files kind file.now entry count) (IsPlayed (said_read files kind file.now entry count).gives) (H.world host.old) (H.world host.new) result }
    // What that says in the command's own words.
    ensures answer { (files : Files) → (H.world host.old).files ≡ Some files →
        AnswersPlay files kind file.now entry count (H.world host.old) (H.world host.new) result }
    // These hold of a host that tells nothing, too.
    ensures keeps { Keeps (H.world host.old) (H.world host.new) result }
{
    let status = come_play(alloc, host, kind, file, entry, count);
    finish(alloc, host, status)
}

/// The command `play` up to the line of its status.
fn come_play<H: Host>(
    alloc: Global,
    host: &mut H,
    kind: Kind,
    file: &str,
    entry: u32,
    count: u32,
) -> Status
    ensures keeps { Keeps (H.world host.old) (H.world host.new) result }
    ensures told { (files : Files) → (H.world host.old).files ≡ Some files →
        Reaches (play_course files kind file.now entry count) (IsPlayed (said_read files kind file.now entry count).gives) (H.world host.old) (H.world host.new) result }
{
    let lines = match fetch_outputs(alloc, host, kind, file, entry, count) {
        Ok(lines) => lines,
        Err(status) => return status,
    };
    if count == 0 {
        return Status::Done;
    }
    write_out(alloc, host, &[], lines.as_str())
}

/// The first outputs of an entry of a file, one in a line.
fn fetch_outputs<H: Host>(
    alloc: Global,
    host: &mut H,
    kind: Kind,
    file: &str,
    entry: u32,
    count: u32,
) -> Result<Text, Status>
    ensures keeps { Keeps (H.world host.old) (H.world host.new) (status_of result) }
    ensures told { (files : Files) → (H.world host.old).files ≡ Some files →
        Reads (λ lines. lines) (said_read files kind file.now entry count) (H.world host.old) (H.world host.new) result }
{
    let front = fetch_front(alloc, host, file, 8_388_608)?;
    said_of(alloc, kind, file, front.as_slice(), entry, count)
}
