ghost use Rattle.std.specs.Prelude.{◌≤◌, length, IfOk};
ghost use Rattle.adpcm_nums.specs.Outcome.{Gives};
ghost use Rattle.command_plan.specs.Front.{whole_in};

use command_faults::{InputFault, Status, input_refused};
use std::alloc::Global;

/// The front of a file that may have 8,388,608 bytes.
#[tactic(auto, unfolding(crate::specs::Front::whole_in))]
pub fn whole_in<'b>(alloc: Global, file: &str, front: &'b [u8]) -> Result<&'b [u8], Status>
    ensures exact { Gives Status.Memory (λ bytes. bytes.now) result (whole_in file.now front.now) }
    ensures few { IfOk result (λ bytes. length bytes.now ≤ 8388608) }
{
    if front.len() > 8_388_608 {
        let most = 8_388_608;
        return Err(input_refused(alloc, file, InputFault::FileLong { most }));
    }
    Ok(front)
}
