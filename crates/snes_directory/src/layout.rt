ghost use Rattle.std.specs.Prelude.{◌≡◌, ◌+◌, ◌*◌, ◌^◌, ◌<◌, ◌≤◌, IfOk, length, map, sum, take};
ghost use Rattle.std.specs.List.{range_with_len};
ghost use Rattle.adpcm_nums.specs.Outcome.{Gives};
ghost use Rattle.snes_directory.specs.Layout.{end_address, is_past_end, end_of, layout_of};
ghost use Rattle.snes_directory.specs.declared.fault.LayFault.TheVariants.{NoMemory as OutOfMemory};

use crate::fault::LayFault;
use adpcm_nums::{NoMemory, Words32};
use std::alloc::Global;

/// Where the samples of an image lie in the console's memory.
#[derive(Debug, Drop)]
pub struct Layout {
    /// The address of the directory, a multiple of 256.
    pub base: u32,
    /// The address of each sample's first block.
    pub starts: Words32,
    /// The address behind the last sample, at most 65,536.
    pub total: u64,
}

/// The address behind so many entries of four bytes and blocks of nine (fullsnes, BRR samples and the sample directory).
pub fn end_address(base: u32, entries: u64, blocks: u64) -> u64
    requires entries { entries ≤ 64 }
    requires blocks { blocks < 2 ^ 40 }
    ensures { result ≡ end_address base entries blocks }
{
    u64::from(base) + 4 * entries + 9 * blocks
}

/// Whether the console's memory of 65,536 bytes ends before an address.
pub fn is_past_end(address: u64) -> bool
    ensures { result ≡ is_past_end address }
{
    address > 65_536
}

/// The address behind so many entries and blocks, unless it is too high.
#[tactic(auto, unfolding(crate::specs::Layout::end_of))]
pub(crate) fn memory_end(base: u32, entries: u64, blocks: u64) -> Result<u64, LayFault>
    requires entries { entries ≤ 64 }
    requires blocks { blocks < 2 ^ 40 }
    ensures value { result ≡ end_of base entries blocks }
    ensures sum { IfOk result (λ total. total ≡ end_address base entries blocks) }
    ensures high { IfOk result (λ total. total ≤ 65536) }
{
    if base % 256 != 0 || base > 65_280 {
        return Err(LayFault::BadBase { base });
    }
    let total = end_address(base, entries, blocks);
    if is_past_end(total) {
        return Err(LayFault::ImageFull { total });
    }
    Ok(total)
}

/// The number of all blocks.
fn all_blocks(blocks: &[u32]) -> u64
    requires { length blocks.now ≤ 64 }
    ensures value { result ≡ sum blocks.now }
    ensures high { result < 2 ^ 40 }
{
    let mut all = 0u64;
    for &count in blocks {
        all += u64::from(count);
    }
    all
}

/// The addresses of samples that lie one behind the other, from the first address on.
fn starts(alloc: Global, first: u32, blocks: &[u32]) -> Result<Words32, NoMemory>
    requires { first + 9 * sum blocks.now ≤ 65536 }
    ensures { IfOk result (λ list. list ≡ map (λ i. first + 9 * sum (take i blocks.now)) (range_with_len 0 (length blocks.now))) }
{
    let room = Vec::with_capacity(alloc, blocks.len()).map_err(|_| NoMemory)?;
    let mut starts = Words32::from_vec(room);
    let mut at = first;
    for &count in blocks {
        starts.push(at)?;
        at += 9 * count;
    }
    Ok(starts)
}

/// Lays samples of so many blocks each behind their directory, in order and with nothing between. An entry of the
/// directory has four bytes and a block nine (fullsnes, BRR samples and the sample directory).
///
/// Refused are, in this order, a base that is no multiple of 256 in 0 to 65,280, and samples that would pass the
/// memory's 65,536 bytes.
#[tactic(auto, unfolding(crate::specs::Layout::layout_of))]
pub fn lay_out(alloc: Global, base: u32, blocks: &[u32]) -> Result<Layout, LayFault>
    requires some { 1 ≤ length blocks.now }
    requires few { length blocks.now ≤ 64 }
    ensures { Gives OutOfMemory (λ layout. layout) result (layout_of base blocks.now) }
{
    let total = memory_end(base, blocks.len() as u64, all_blocks(blocks))?;
    let starts = starts(alloc, base + 4 * blocks.len() as u32, blocks)?;
    Ok(Layout {
        base,
        starts,
        total,
    })
}
