ghost use Rattle.std.specs.Prelude.{◌≡◌, ◌≢◌, suc, ◌*◌, ◌^◌, ◌≤◌, ◌<◌, length, IfSome};
ghost use Rattle.adpcm_nums.specs.First.{first_where};
ghost use Rattle.machine_core.specs.declared.state.Kind.TheVariants.{Ima};
ghost use Rattle.block_flags.specs.Flags.{has_repeat};
ghost use Rattle.block_flags.specs.Last.{last_where};
ghost use Rattle.block_flags.specs.Split.{block_bytes, flag_byte, ends_at, starts_at, loop_start_of, closed_split, split_of};

use crate::flags::{FlagSet, flags_of};
use machine_core::Kind;
use thiserror::Error;

/// How stored bytes split at the first block with the end flag.
#[derive(Clone, Copy, Debug, PartialEq, Eq)]
pub struct Split {
    /// The blocks up to that one, which is the last of them.
    pub blocks: u32,
    /// Whether that block repeats.
    pub looped: bool,
    /// The block at which the loop begins, where the bytes tell it. In BRR they do not.
    pub loop_block: Option<u32>,
    /// The bytes after that block.
    pub trailing: u64,
}

/// Why stored bytes do not split.
#[derive(Clone, Copy, Debug, PartialEq, Eq, Error)]
pub enum SplitFault {
    /// The length is no multiple of the length of a block.
    #[error("{len} bytes are no whole blocks")]
    Ragged {
        /// The length in bytes.
        len: u64,
    },
    /// No block has the end flag.
    #[error("no block has the end flag")]
    NoEnd,
    /// The end block repeats, and no block up to it starts a loop. In BRR this does not happen.
    #[error("the block at byte {at} repeats, and no loop was started")]
    NoLoopStart {
        /// The byte at which the end block begins.
        at: u64,
    },
}

/// Bytes in a block.
fn block_bytes(kind: Kind) -> usize
    requires { kind ≢ Ima }
    ensures value { result ≡ block_bytes kind }
    ensures some { 9 ≤ result }
    ensures few { result ≤ 16 }
{
    if kind == Kind::Brr { 9 } else { 16 }
}

/// The flags of a block of whole blocks.
fn flags_at(kind: Kind, bytes: &[u8], block: u32) -> FlagSet
    requires kind { kind ≢ Ima }
    requires within { block_bytes kind * suc block ≤ length bytes.now }
    ensures end { result.end ≡ ends_at kind bytes.now block }
    ensures repeat { result.repeat ≡ has_repeat (flag_byte kind bytes.now block) }
    ensures start { result.start ≡ starts_at kind bytes.now block }
{
    let byte = if kind == Kind::Brr {
        bytes[9 * block as usize]
    } else {
        bytes[16 * block as usize + 1]
    };
    flags_of(kind, byte)
}

/// The first block with the end flag, where there is one.
#[tactic(auto, using(adpcm_nums::proofs::FirstLaws::none_at_zero, adpcm_nums::proofs::FirstLaws::none_more, adpcm_nums::proofs::FirstLaws::first_found))]
fn first_end(kind: Kind, bytes: &[u8], blocks: u32) -> Option<u32>
    requires kind { kind ≢ Ima }
    requires blocks { block_bytes kind * blocks ≤ length bytes.now }
    requires small { length bytes.now < 2 ^ 31 }
    ensures value { result ≡ first_where (ends_at kind bytes.now) blocks }
    ensures within { IfSome result (λ block. block < blocks) }
{
    for block in 0..blocks {
        if flags_at(kind, bytes, block).end {
            return Some(block);
        }
    }
    None
}

/// The last of so many blocks with the start flag, where there is one.
#[tactic(auto, using(crate::proofs::LastLaws::last_none, crate::proofs::LastLaws::last_more_here, crate::proofs::LastLaws::last_more_before))]
fn last_start(kind: Kind, bytes: &[u8], blocks: u32) -> Option<u32>
    requires kind { kind ≢ Ima }
    requires blocks { block_bytes kind * blocks ≤ length bytes.now }
    requires small { length bytes.now < 2 ^ 31 }
    ensures { result ≡ last_where (starts_at kind bytes.now) blocks }
{
    let mut last = None;
    for block in 0..blocks {
        if flags_at(kind, bytes, block).start {
            last = Some(block);
        }
    }
    last
}

/// The block from which an end block repeats, or that none was started. In BRR no block tells it.
fn loop_start(kind: Kind, bytes: &[u8], last: u32) -> Result<Option<u32>, SplitFault>
    requires kind { kind ≢ Ima }
    requires within { block_bytes kind * suc last ≤ length bytes.now }
    requires small { length bytes.now < 2 ^ 31 }
    ensures { result ≡ loop_start_of kind bytes.now last }
{
    if kind == Kind::Brr {
        return Ok(None);
    }
    match last_start(kind, bytes, last + 1) {
        None => Err(SplitFault::NoLoopStart {
            at: 16 * u64::from(last),
        }),
        Some(block) => Ok(Some(block)),
    }
}

/// The split at an end block.
fn closed(kind: Kind, bytes: &[u8], last: u32) -> Result<Split, SplitFault>
    requires kind { kind ≢ Ima }
    requires within { block_bytes kind * suc last ≤ length bytes.now }
    requires small { length bytes.now < 2 ^ 31 }
    ensures { result ≡ closed_split kind bytes.now last }
{
    let looped = flags_at(kind, bytes, last).repeat;
    let loop_block = if looped {
        loop_start(kind, bytes, last)?
    } else {
        None
    };
    let blocks = last + 1;
    Ok(Split {
        blocks,
        looped,
        loop_block,
        trailing: (bytes.len() - block_bytes(kind) * blocks as usize) as u64,
    })
}

/// Splits bytes of whole blocks at the first block with the end flag (fullsnes, BRR samples; PSX-SPX, SPU ADPCM samples).
///
/// In SPU-ADPCM, where that block repeats, the loop begins at the last block up to it with the start flag. The first
/// fault is answered, in the order of `SplitFault`.
#[tactic(auto, unfolding(crate::specs::Split::split_of))]
pub fn split_blocks(kind: Kind, bytes: &[u8]) -> Result<Split, SplitFault>
    requires kind { kind ≢ Ima }
    requires small { length bytes.now < 2 ^ 31 }
    ensures { result ≡ split_of kind bytes.now }
{
    let size = block_bytes(kind);
    if bytes.len() % size != 0 {
        return Err(SplitFault::Ragged {
            len: bytes.len() as u64,
        });
    }
    match first_end(kind, bytes, (bytes.len() / size) as u32) {
        None => Err(SplitFault::NoEnd),
        Some(last) => closed(kind, bytes, last),
    }
}
