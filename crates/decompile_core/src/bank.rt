ghost use Rattle.std.specs.Prelude.{◌≡◌, ◌^◌, ◌<◌, ◌≤◌, ◌∷◌, [], length, All, IfOk, Ok};
ghost use Rattle.adpcm_nums.specs.Outcome.{Gives};
ghost use Rattle.decompile_core.specs.declared.fault.DecompileFault.TheVariants.{NoMemory as OutOfMemory};
ghost use Rattle.decompile_core.specs.Recovered.{IsEntry};
ghost use Rattle.decompile_core.specs.Decompiled.{decompiled};

use crate::fault::DecompileFault;
use crate::form::Form;
use crate::ima::recover_ima;
use crate::image::decompile_image;
use crate::recovered::Recovered;
use crate::vag::recover_vag;
use std::alloc::Global;

/// A list of one entry.
fn only(alloc: Global, entry: Recovered) -> Result<Vec<Recovered>, DecompileFault>
    requires { IsEntry entry }
    ensures one { IfOk result (λ list. length list.items ≡ 1) }
    ensures exact { Gives OutOfMemory (λ list. list.items) result (Ok (entry ∷ [])) }
    ensures kept { IfOk result (λ list. All IsEntry list.items) }
{
    let mut list = Vec::new(alloc);
    match list.push(entry) {
        Ok(()) => Ok(list),
        Err(_) => Err(DecompileFault::NoMemory),
    }
}

/// Every entry of a bank file as samples with a loop, in the file's order.
///
/// The samples are those of the playings of the loop up to the first that is given again by the next one, and that playing is
/// the loop: from there on the player gives it for ever. The playings 0 to 63 are tried; where none of them is given again,
/// the samples are the first pass with its loop.
///
/// # Errors
/// The reader's fault, then that of the track, then `TooMuch` with the first entry of more than 4,096 blocks or of more than
/// 262,144 samples in its blocks (this project's own choice), before anything is played. Want of memory is named at any time.
#[tactic(auto, unfolding(crate::specs::Decompiled::decompiled))]
pub fn decompile(alloc: Global, bytes: &[u8], form: Form) -> Result<Vec<Recovered>, DecompileFault>
    requires { length bytes.now < 2 ^ 31 }
    // Exactly what the bytes give, or their first fault, unless there is no memory.
    ensures exact { Gives OutOfMemory (λ list. list.items) result (decompiled form bytes.now) }
    ensures some { IfOk result (λ list. 1 ≤ length list.items) }
    ensures few { IfOk result (λ list. length list.items ≤ 64) }
    // What every entry keeps.
    ensures kept { IfOk result (λ list. All IsEntry list.items) }
{
    match form {
        Form::Brr => decompile_image(alloc, bytes),
        Form::Vag => {
            let entry = recover_vag(alloc, bytes)?;
            only(alloc, entry)
        }
        Form::Ima => {
            let entry = recover_ima(alloc, bytes)?;
            only(alloc, entry)
        }
    }
}
