ghost use Rattle.adpcm_nums.specs.Outcome.{Tells};

use crate::input_fault::InputFault;
use crate::refusal::CertRefusal;
use crate::status::{HostCall, Status};
use adpcm_nums::{NoMemory, Text};
use loop_fit::FitFault;
use std::alloc::Global;

/// A file could not be fetched.
pub fn fetch_failed(alloc: Global, name: &str) -> Status
    ensures { Tells Status.Memory result (Status.Device (HostCall.Fetch name.now)) }
{
    match Text::copy_of(alloc, name) {
        Ok(name) => Status::Device {
            at: HostCall::Fetch { name },
        },
        Err(NoMemory) => Status::Memory,
    }
}

/// A file could not be stored.
pub fn store_failed(alloc: Global, name: &str) -> Status
    ensures { Tells Status.Memory result (Status.Device (HostCall.Store name.now)) }
{
    match Text::copy_of(alloc, name) {
        Ok(name) => Status::Device {
            at: HostCall::Store { name },
        },
        Err(NoMemory) => Status::Memory,
    }
}

/// A fetched file has a fault, which is told under this name.
pub fn input_refused(alloc: Global, name: &str, fault: InputFault) -> Status
    ensures { Tells Status.Memory result (Status.Input name.now fault) }
{
    match Text::copy_of(alloc, name) {
        Ok(name) => Status::Input { name, fault },
        Err(NoMemory) => Status::Memory,
    }
}

/// A sound cannot be fitted to blocks.
pub fn unfit(alloc: Global, name: &str, fault: FitFault) -> Status
    ensures { Tells Status.Memory result (Status.Unfit name.now fault) }
{
    match Text::copy_of(alloc, name) {
        Ok(name) => Status::Unfit { name, fault },
        Err(NoMemory) => Status::Memory,
    }
}

/// The bank does not fit into sound memory.
pub fn full(alloc: Global, bank: &str, total: u64) -> Status
    ensures { Tells Status.Memory result (Status.Full bank.now total) }
{
    match Text::copy_of(alloc, bank) {
        Ok(bank) => Status::Full { bank, total },
        Err(NoMemory) => Status::Memory,
    }
}

/// A stored certificate is refused.
pub fn cert_refused(alloc: Global, name: &str, fault: CertRefusal) -> Status
    ensures { Tells Status.Memory result (Status.Refused name.now fault) }
{
    match Text::copy_of(alloc, name) {
        Ok(name) => Status::Refused { name, fault },
        Err(NoMemory) => Status::Memory,
    }
}
