ghost use Rattle.std.specs.Prelude.{◌≡◌, ◌<◌, ◌++◌, IfOk, OnOk, IfSome};
ghost use Rattle.machine_core.specs.Blocks.{IsInRange};
ghost use Rattle.block_flags.specs.Flags.{flags_of_block};
ghost use Rattle.player_model.specs.Stored.{stored_block, stored_blocks};
ghost use Rattle.bank_kinds.specs.Chosen.{list_of};

use crate::encode::Stored;
use adpcm_nums::{Bytes, NoMemory};
use block_flags::flagged;
use machine_core::{Choice, Kind};
use std::alloc::Global;

/// The written flags of a block; in IMA ADPCM it has none.
fn written_flags(kind: Kind, b: u32, blocks: u32, loop_block: Option<u32>) -> u8
    ensures { result ≡ flags_of_block kind b blocks loop_block }
{
    match kind {
        Kind::Brr | Kind::Spu => flagged(kind, b, blocks, loop_block),
        Kind::Ima => 0,
    }
}

/// Adds the bytes of block `b` of a list, with its written flags.
fn push_stored<C: Stored>(
    codec: &C,
    bytes: &mut Vec<u8>,
    choice: &Choice,
    blocks: u32,
    loop_block: Option<u32>,
    b: u32,
) -> Result<(), NoMemory>
    requires in_range { IsInRange (C.rules codec.now).decoder blocks (list_of choice.now) }
    requires loop_block { IfSome loop_block (λ l. l < blocks) }
    requires block { b < blocks }
    ensures { OnOk result (bytes.new.items ≡ bytes.old.items ++ stored_block (C.rules codec.now).decoder (C.format codec.now) (list_of choice.now) blocks loop_block b) }
{
    let samples = codec.block_samples() as usize;
    let first = b as usize * samples;
    let head = choice.heads.as_slice()[b as usize];
    let symbols = &choice.symbols.as_slice()[first..first + samples];
    let flags = written_flags(codec.kind(), b, blocks, loop_block);
    codec.push_block(bytes, head, flags, symbols)
}

/// The bytes of a list of blocks as they are stored, each block with its written flags.
#[tactic(auto, unfolding(player_model::specs::Stored::stored_front))]
pub fn spell_blocks<C: Stored>(
    alloc: Global,
    codec: &C,
    choice: &Choice,
    blocks: u32,
    loop_block: Option<u32>,
) -> Result<Bytes, NoMemory>
    requires in_range { IsInRange (C.rules codec.now).decoder blocks (list_of choice.now) }
    requires loop_block { IfSome loop_block (λ l. l < blocks) }
    ensures { IfOk result (λ bytes. bytes ≡ stored_blocks (C.rules codec.now).decoder (C.format codec.now) (list_of choice.now) blocks loop_block) }
{
    let room = codec.block_size() as usize * blocks as usize;
    let mut bytes = match Vec::with_capacity(alloc, room) {
        Ok(bytes) => bytes,
        Err(_) => return Err(NoMemory),
    };
    for b in 0..blocks {
        push_stored(codec, &mut bytes, choice, blocks, loop_block, b)?;
    }
    Ok(Bytes::from_vec(bytes))
}
