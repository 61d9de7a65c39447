ghost use Rattle.std.specs.Prelude.{◌≡◌, ◌+◌, ◌*◌, ◌^◌, ◌<◌, ◌≤◌, OnOk, length, Ok};
ghost use Rattle.machine_core.specs.Blocks.{IsInRange, IsLegal, must_forget};
ghost use Rattle.player_model.specs.Stored.{blocks_in};
ghost use Rattle.bank_check.specs.Shape.{block_number, end_number, flagged_shape, framed_shape, head_tested, start_number, tested};

use crate::fields::Fields;
use crate::hearing::first_unruled;
use adpcm_nums::LoopAt;
use command_faults::{InputFault, ShapePart};
use ima_wave::ImaFile;
use loop_fit::Fitted;

/// A part that must be what is asked for.
pub(crate) fn tested(what: ShapePart, have: u32, need: u32) -> Result<(), InputFault>
    ensures { result ≡ tested what have need }
{
    if have == need {
        Ok(())
    } else {
        Err(InputFault::Shape {
            what,
            have: u64::from(have),
            need: u64::from(need),
        })
    }
}

/// The number of a loop block.
fn block_number(block: Option<u32>) -> u32
    ensures { result ≡ block_number block }
{
    match block {
        Some(block) => block,
        None => 4_294_967_295,
    }
}

/// The number of a loop's first frame.
fn start_number(at: Option<LoopAt>) -> u32
    ensures { result ≡ start_number at }
{
    match at {
        Some(at) => at.start,
        None => 4_294_967_295,
    }
}

/// The number of its last frame.
fn end_number(at: Option<LoopAt>) -> u32
    ensures { result ≡ end_number at }
{
    match at {
        Some(at) => at.end,
        None => 4_294_967_295,
    }
}

/// A block that must forget what was played before it and does not.
fn head_tested(unruled: Option<u32>) -> Result<(), InputFault>
    ensures { result ≡ head_tested unruled }
{
    match unruled {
        Some(block) => Err(InputFault::Shape {
            what: ShapePart::Head,
            have: u64::from(block),
            need: 0,
        }),
        None => Ok(()),
    }
}

/// Whether blocks with flags, which stand in a memory from an address on, have the shape of a fitted sound.
#[tactic(auto, unfolding(crate::specs::Shape::flagged_shape))]
pub(crate) fn flagged_shape<C: Fields>(
    codec: &C,
    memory: &[u8],
    start: u32,
    blocks: u32,
    loop_block: Option<u32>,
    fitted: &Fitted,
) -> Result<(), InputFault>
    requires within { start + (C.format codec.now).size * blocks ≤ length memory.now }
    requires small { length memory.now < 2 ^ 31 }
    requires in_range { IsInRange (C.rules codec.now).decoder blocks (blocks_in (C.rules codec.now).decoder (C.format codec.now) memory.now start blocks) }
    ensures { result ≡ flagged_shape (C.rules codec.now).decoder (must_forget (C.rules codec.now).kind fitted.now.loop_block) fitted.now blocks loop_block
        (blocks_in (C.rules codec.now).decoder (C.format codec.now) memory.now start blocks) }
{
    match tested(ShapePart::Blocks, blocks, fitted.blocks) {
        Ok(()) => {}
        Err(fault) => return Err(fault),
    }
    let looped = block_number(fitted.loop_block);
    match tested(ShapePart::LoopBlock, block_number(loop_block), looped) {
        Ok(()) => {}
        Err(fault) => return Err(fault),
    }
    head_tested(first_unruled(codec, memory, start, blocks, fitted.loop_block))
}

/// Whether a WAVE file of IMA ADPCM has the shape of a fitted sound.
#[tactic(auto, unfolding(crate::specs::Shape::framed_shape))]
pub(crate) fn framed_shape(
    align: u32,
    file: &ImaFile,
    blocks: u32,
    fitted: &Fitted,
) -> Result<(), InputFault>
    ensures { result ≡ framed_shape align fitted.now file.now.align blocks file.now.frames file.now.at }
{
    match tested(ShapePart::Align, file.align, align) {
        Ok(()) => {}
        Err(fault) => return Err(fault),
    }
    match tested(ShapePart::Blocks, blocks, fitted.blocks) {
        Ok(()) => {}
        Err(fault) => return Err(fault),
    }
    match tested(ShapePart::Frames, file.frames, fitted.frames) {
        Ok(()) => {}
        Err(fault) => return Err(fault),
    }
    let started = start_number(fitted.loop_frames);
    match tested(ShapePart::LoopStart, start_number(file.at), started) {
        Ok(()) => {}
        Err(fault) => return Err(fault),
    }
    let ended = end_number(fitted.loop_frames);
    tested(ShapePart::LoopEnd, end_number(file.at), ended)
}
