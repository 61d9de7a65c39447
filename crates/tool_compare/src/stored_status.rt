ghost use Rattle.std.specs.Prelude.{◌≡◌, ℕ, IfOk, Ok, Result};
ghost use Rattle.adpcm_nums.specs.Outcome.{Gives};
ghost use Rattle.command_faults.specs.declared.input_fault.InputFault.{InputFault};
ghost use Rattle.bank_check.specs.Errors.{or_stored};
ghost use Rattle.command_plan.specs.Reading.{status_of};
ghost use Rattle.command_plan.specs.Steps.{IsPlain};
ghost use Rattle.command_plan.specs.Front.{or_told};

use bank_check::StoredFailure;
use command_faults::{InputFault, Status, input_refused};
use std::alloc::Global;

/// The error of what is stored for a sample, or the status of its fault.
pub(crate) fn or_refused(
    alloc: Global,
    name: &str,
    answer: Result<u64, InputFault>,
) -> Result<u64, Status>
    ensures same { IfOk result (λ e. answer ≡ Ok e) }
    ensures plain { IsPlain (status_of result) }
    ensures value { Gives Status.Memory (λ e. e) result (or_told (λ f. Status.Input name.now f) answer) }
{
    match answer {
        Ok(error) => Ok(error),
        Err(fault) => Err(input_refused(alloc, name, fault)),
    }
}

/// The same of a file of its own, for which there may have been no memory.
pub(crate) fn or_failed(
    alloc: Global,
    name: &str,
    answer: Result<u64, StoredFailure>,
) -> Result<u64, Status>
    ensures same { IfOk result (λ e. answer ≡ Ok e) }
    ensures plain { IsPlain (status_of result) }
    ensures value { (read : Result ℕ InputFault) → Gives StoredFailure.NoMemory (λ e. e) answer (or_stored read)
        → Gives Status.Memory (λ e. e) result (or_told (λ f. Status.Input name.now f) read) }
{
    match answer {
        Ok(error) => Ok(error),
        Err(StoredFailure::NoMemory) => Err(Status::Memory),
        Err(StoredFailure::Fault { fault }) => Err(input_refused(alloc, name, fault)),
    }
}
