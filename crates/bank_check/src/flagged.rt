ghost use Rattle.std.specs.Prelude.{◌≡◌, ◌+◌, ◌*◌, ◌^◌, ◌<◌, ◌≤◌, IfOk, length};
ghost use Rattle.machine_core.specs.Blocks.{IsInRange, must_forget};
ghost use Rattle.loop_fit.specs.Fit.{IsWhole};
ghost use Rattle.player_model.specs.Stored.{blocks_in};
ghost use Rattle.brr_machine.specs.Brr.{brr};
ghost use Rattle.spu_machine.specs.Spu.{spu};
ghost use Rattle.bank_kinds.specs.Kinds.{brr_codec, spu_codec};
ghost use Rattle.bank_check.specs.Errors.{brr_list, spu_list, error_in, where_shaped, IsStoredError};
ghost use Rattle.bank_check.specs.Shape.{flagged_shape};

use crate::fields::Fields;
use crate::hearing::stored_error;
use crate::shape::flagged_shape;
use brr_machine::Brr;
use command_faults::InputFault;
use loop_fit::Fitted;
use player_model::{brr_track, spu_track};
use spu_machine::Spu;

/// The error of blocks with flags that stand in a memory from an address on, where they have the shape of a fitted sound.
fn flagged_error<C: Fields>(
    codec: &C,
    memory: &[u8],
    start: u32,
    blocks: u32,
    loop_block: Option<u32>,
    fitted: &Fitted,
) -> Result<u64, InputFault>
    requires within { start + (C.format codec.now).size * blocks ≤ length memory.now }
    requires small { length memory.now < 2 ^ 31 }
    requires in_range { IsInRange (C.rules codec.now).decoder blocks (blocks_in (C.rules codec.now).decoder (C.format codec.now) memory.now start blocks) }
    requires whole { IsWhole (C.rules codec.now).decoder.samples fitted.now }
    ensures { result ≡ error_in (C.rules codec.now).decoder fitted.now (where_shaped
        (flagged_shape (C.rules codec.now).decoder (must_forget (C.rules codec.now).kind fitted.now.loop_block) fitted.now blocks loop_block
        (blocks_in (C.rules codec.now).decoder (C.format codec.now) memory.now start blocks))
        (blocks_in (C.rules codec.now).decoder (C.format codec.now) memory.now start blocks)) }
{
    match flagged_shape(codec, memory, start, blocks, loop_block, fitted) {
        Ok(()) => {
            let targets = fitted.targets.as_slice();
            Ok(stored_error(codec, memory, start, blocks, targets))
        }
        Err(fault) => Err(fault),
    }
}

/// The error of the BRR blocks of two addresses of a memory.
pub(crate) fn brr_error(
    memory: &[u8],
    start: u32,
    again: u32,
    fitted: &Fitted,
) -> Result<u64, InputFault>
    requires small { length memory.now < 2 ^ 31 }
    requires whole { IsWhole 16 fitted.now }
    ensures value { result ≡ error_in brr fitted.now (brr_list memory.now start again fitted.now) }
    ensures stored { IfOk result (IsStoredError brr_codec fitted.now (brr_list memory.now start again fitted.now)) }
{
    match brr_track(memory, start, again) {
        Ok(track) => {
            let looped = track.loop_block();
            flagged_error(&Brr, memory, start, track.blocks(), looped, fitted)
        }
        Err(fault) => Err(InputFault::Track { fault }),
    }
}

/// The error of bytes of SPU-ADPCM.
pub(crate) fn spu_error(bytes: &[u8], fitted: &Fitted) -> Result<u64, InputFault>
    requires small { length bytes.now < 2 ^ 31 }
    requires whole { IsWhole 28 fitted.now }
    ensures value { result ≡ error_in spu fitted.now (spu_list bytes.now fitted.now) }
    ensures stored { IfOk result (IsStoredError spu_codec fitted.now (spu_list bytes.now fitted.now)) }
{
    match spu_track(bytes) {
        Ok(track) => {
            let looped = track.loop_block();
            flagged_error(&Spu, bytes, 0, track.blocks(), looped, fitted)
        }
        Err(fault) => Err(InputFault::Track { fault }),
    }
}
