ghost use Rattle.std.specs.Prelude.{◌≡◌, ◌+◌, ◌*◌, ◌^◌, ◌≤◌, ◌<◌, IfErr, OnOk, IfOk, Some, None, length, Ok, Err};
ghost use Rattle.ima_wave.specs.Heads.{AreBlocks, block_count, blocks_of, first_bad_head, block_fault};

use crate::fault::ImaWaveFault;
use ima_machine::check_head;

/// Whether the block at a number begins with the head of one.
fn check_block(align: usize, bytes: &[u8], block: usize) -> Result<(), ImaWaveFault>
    requires whole { block * align + align ≤ length bytes.now }
    requires head { 4 ≤ align }
    requires few { block * align < 2 ^ 32 }
    ensures sound { OnOk result (block_fault align bytes.now block ≡ None) }
    ensures fault { IfErr result (λ e. block_fault align bytes.now block ≡ Some e) }
{
    match check_head(bytes, block * align) {
        Ok(()) => Ok(()),
        Err(fault) => Err(ImaWaveFault::BadHead {
            block: block as u64,
            fault,
        }),
    }
}

/// Whether all whole blocks begin with the head of one.
fn check_heads(align: usize, bytes: &[u8]) -> Result<(), ImaWaveFault>
    requires some { 8 ≤ align }
    requires few { length bytes.now < 2 ^ 32 }
    ensures sound { OnOk result (first_bad_head align bytes.now (block_count align bytes.now) 0 ≡ None) }
    ensures fault { IfErr result (λ e. first_bad_head align bytes.now (block_count align bytes.now) 0 ≡ Some e) }
{
    for block in 0..bytes.len() / align {
        match check_block(align, bytes, block) {
            Ok(()) => {}
            Err(fault) => return Err(fault),
        }
    }
    Ok(())
}

/// The whole blocks of a `data` body; a rest behind the last one is not looked at (this project's own choice).
#[tactic(auto, unfolding(crate::specs::Heads::blocks_of))]
pub(crate) fn read_blocks(align: u32, bytes: &[u8]) -> Result<&[u8], ImaWaveFault>
    requires some { 8 ≤ align }
    requires few { length bytes.now < 2 ^ 32 }
    ensures blocks { IfOk result (λ blocks. blocks_of align bytes.now ≡ Ok blocks.now) }
    ensures fault { IfErr result (λ e. blocks_of align bytes.now ≡ Err e) }
    ensures are { IfOk result (λ blocks. AreBlocks align bytes.now blocks.now) }
{
    let size = align as usize;
    match check_heads(size, bytes) {
        Ok(()) => Ok(&bytes[..bytes.len() / size * size]),
        Err(fault) => Err(fault),
    }
}
