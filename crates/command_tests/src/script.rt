//! Scripts of lines. A name or a number in them is apart from the next by one space.
//!
//! | Line | What it means |
//! |---|---|
//! | `host CALLS` | a new host with no files, which fails at these calls |
//! | `file NAME FORM` | sets a file |
//! | `$ COMMAND` | runs a command |
//! | `> LINE`, `~ FRONT` | the next line that was said is this, or begins so |
//! | `< LOW..HIGH FRONT` | it begins so, and goes on with a number in this range |
//! | `keep NAME` | sets a file to the next line that was said |
//! | `= CODE` | the command ended with this code, and said no more |
//! | `failed COUNT` | so many calls have failed |
//! | `holds NAME BYTES` | a file has these bytes |
//! | `same NAME NAME` | two files are equal |
//! | `there NAMES`, `none NAMES` | these files stand, or none of them |

use crate::stage::Stage;
use std::alloc::Global;
use std::process::Abort;
use std::test::Fail;

/// Plays a script.
pub(crate) fn plays(rt: &impl Abort, alloc: Global, script: &str) -> Result<(), Fail> {
    let mut stage = Stage::new(alloc, "")?;
    for line in script.lines() {
        let (verb, rest) = line.split_once(' ').unwrap_or((line, ""));
        match verb {
            "" => {}
            "host" => stage = Stage::new(alloc, rest)?,
            "file" => {
                let (name, form) = rest.split_once(' ').ok_or("a file's form")?;
                stage.set(alloc, name, form)?;
            }
            "$" => stage.command(alloc, rest)?,
            _ => compares(rt, alloc, &mut stage, verb, rest)?,
        }
    }
    Ok(())
}

/// One line that tells what must be.
fn compares(
    rt: &impl Abort,
    alloc: Global,
    stage: &mut Stage,
    verb: &str,
    rest: &str,
) -> Result<(), Fail> {
    match verb {
        ">" => stage.says(rt, alloc, rest),
        "~" => stage.says_front(rt, alloc, rest),
        "<" => stage.says_between(rt, alloc, rest),
        "keep" => stage.keep(alloc, rest),
        "=" => stage.ends(rt, rest),
        "failed" => stage.failed(rt, rest),
        "holds" => stage.holds(rt, alloc, rest),
        "same" => stage.same(rt, rest),
        "there" => {
            stage.stand(rt, true, rest);
            Ok(())
        }
        "none" => {
            stage.stand(rt, false, rest);
            Ok(())
        }
        _ => Err("a verb")?,
    }
}
