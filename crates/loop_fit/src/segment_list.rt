ghost use Rattle.std.specs.Prelude.{◌≡◌, ◌<◌, All, IfOk, IfSome, replicate, sum};
ghost use Rattle.machine_core.specs.Blocks.{must_forget};
ghost use Rattle.machine_core.specs.Segments.{AreSegments};
ghost use Rattle.loop_fit.specs.Segments.{loop_segments, segments_of};

use adpcm_nums::{NoMemory, Words32};
use machine_core::Kind;
use std::alloc::Global;

/// The blocks before the loop, where there are some, and those from its first block on.
fn loop_segments(alloc: Global, blocks: u32, loop_block: Option<u32>) -> Result<Words32, NoMemory>
    requires { IfSome loop_block (λ l. l < blocks) }
    ensures { IfOk result (λ list. list ≡ loop_segments blocks loop_block) }
{
    match loop_block {
        Some(first) if first > 0 => Words32::copy_of(alloc, &[first, blocks - first]),
        _ => Words32::copy_of(alloc, &[blocks]),
    }
}

/// As many segments as blocks, each of one block.
fn single_blocks(alloc: Global, blocks: u32) -> Result<Words32, NoMemory>
    ensures { IfOk result (λ list. list ≡ replicate blocks 1) }
{
    match vec![in alloc; 1u32; blocks as usize] {
        Ok(ones) => Ok(Words32::from_vec(ones)),
        Err(_) => Err(NoMemory),
    }
}

/// How many blocks each segment of a sample has, in order. A segment is a run of blocks whose outputs do not depend
/// on what came before: in BRR and SPU-ADPCM the blocks before the loop and those of the loop, in IMA ADPCM each block.
/// So each begins with a block that must forget, and has no other.
pub fn segments(
    alloc: Global,
    kind: Kind,
    blocks: u32,
    loop_block: Option<u32>,
) -> Result<Words32, NoMemory>
    requires some { 0 < blocks }
    requires within { IfSome loop_block (λ l. l < blocks) }
    ensures exact { IfOk result (λ list. list ≡ segments_of kind blocks loop_block) }
    ensures cut { IfOk result (λ list. AreSegments (must_forget kind loop_block) 0 list blocks) }
    ensures whole { IfOk result (λ list. sum list ≡ blocks) }
    ensures none_empty { IfOk result (λ list. All (λ n. 0 < n) list) }
{
    match kind {
        Kind::Brr => loop_segments(alloc, blocks, loop_block),
        Kind::Spu => loop_segments(alloc, blocks, loop_block),
        Kind::Ima => single_blocks(alloc, blocks),
    }
}
