ghost use Rattle.std.specs.Prelude.{◌≡◌, ◌+◌, ◌≤◌, IfErr, OnOk, Some, None, length};
ghost use Rattle.ima_machine.specs.Faults.{fault_in};

use crate::fault::ImaFault;

/// Whether the bytes at an address are the head of a block (IMA recommended practices, 1992).
///
/// # Errors
/// An index above 88, then a fourth byte that is not 0.
pub fn check_head(memory: &[u8], address: usize) -> Result<(), ImaFault>
    requires { address + 4 ≤ length memory.now }
    ensures sound { OnOk result (fault_in memory.now address ≡ None) }
    ensures fault { IfErr result (λ e. fault_in memory.now address ≡ Some e) }
{
    let index = memory[address + 2];
    if index > 88 {
        return Err(ImaFault::BadIndex { index });
    }
    let value = memory[address + 3];
    if value != 0 {
        return Err(ImaFault::BadReserved { value });
    }
    Ok(())
}
