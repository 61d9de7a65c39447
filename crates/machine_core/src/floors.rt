ghost use Rattle.std.specs.Prelude.{◌≡◌, None, ◌+◌, ◌*◌, ◌-◌, ◌<◌, ◌≤◌, ◌^◌, length, slice_range};
ghost use Rattle.adpcm_nums.specs.Sample.{AreSamples};
ghost use Rattle.machine_core.specs.Blocks.{rule_of, is_first, must_forget, first_only};
ghost use Rattle.machine_core.specs.Floors.{block_floor, floor_of_blocks, HoldsRests};

use crate::machine::Machine;
use crate::state::{HeadRule, Kind};
use adpcm_nums::MOST_SAMPLES;

/// The rule for the heads of a segment's block: the first block forgets what was played before it (this project's own choice).
pub fn rule_at(block: u32) -> HeadRule
    ensures { result ≡ rule_of first_only block }
{
    if block == 0 {
        HeadRule::FilterZero
    } else {
        HeadRule::AnyHead
    }
}

/// The rule for the heads of a sample's block: the first block and the first of the loop forget what was played before them.
pub fn rule_in(loop_block: Option<u32>, block: u32) -> HeadRule
    ensures { result ≡ rule_of (is_first loop_block) block }
{
    match loop_block {
        Some(first) => {
            if block == first {
                HeadRule::FilterZero
            } else {
                rule_at(block)
            }
        }
        None => rule_at(block),
    }
}

/// The rule for the heads of a sample's block in a format: in IMA ADPCM every block forgets, since it begins with its own first output.
pub fn rule_for(kind: Kind, loop_block: Option<u32>, block: u32) -> HeadRule
    ensures { result ≡ rule_of (must_forget kind loop_block) block }
{
    match kind {
        Kind::Brr => rule_in(loop_block, block),
        Kind::Spu => rule_in(loop_block, block),
        Kind::Ima => HeadRule::FilterZero,
    }
}

/// The targets of a block.
fn window(targets: &[i32], samples: u32, block: u32) -> &[i32]
    requires range { AreSamples targets.now }
    requires within { block * samples + samples ≤ length targets.now }
    ensures value { result.now ≡ slice_range targets.now (block * samples) (block * samples + samples) }
    ensures count { length result.now ≡ samples }
    ensures range { AreSamples result.now }
{
    let from = block as usize * samples as usize;
    &targets[from..from + samples as usize]
}

/// The floor under a block of a sample.
fn floor_at_block<M: Machine>(
    machine: &M,
    loop_block: Option<u32>,
    targets: &[i32],
    block: u32,
) -> u64
    requires range { AreSamples targets.now }
    requires within { block * (M.rules machine.now).decoder.samples + (M.rules machine.now).decoder.samples ≤ length targets.now }
    ensures value { result ≡ block_floor (M.rules machine.now) (must_forget (M.rules machine.now).kind loop_block) targets.now block }
    ensures small { result ≤ (M.rules machine.now).decoder.samples * 2 ^ 36 }
{
    let window = window(targets, machine.block_samples(), block);
    machine.block_floor(rule_for(machine.kind(), loop_block, block), window)
}

/// The floor under a sample of so many blocks with this loop block, or under a segment of one, in squared 16-bit steps.
///
/// No legal list of blocks has a lower error.
pub fn floor_of_blocks<M: Machine>(
    machine: &M,
    loop_block: Option<u32>,
    targets: &[i32],
    blocks: u32,
) -> u64
    requires count { length targets.now ≡ blocks * (M.rules machine.now).decoder.samples }
    requires few { length targets.now ≤ MOST_SAMPLES }
    requires range { AreSamples targets.now }
    ensures value { result ≡ floor_of_blocks (M.rules machine.now) (must_forget (M.rules machine.now).kind loop_block) targets.now blocks }
    ensures small { result ≤ blocks * ((M.rules machine.now).decoder.samples * 2 ^ 36) }
{
    let mut sum = 0;
    for block in 0..blocks {
        sum += floor_at_block(machine, loop_block, targets, block);
    }
    sum
}

/// Fills in the floor under what comes from each block on, up to the end of a sample or a segment; the last place holds 0.
///
/// `rests` has one place more than there are blocks.
pub fn fill_rests<M: Machine>(
    machine: &M,
    loop_block: Option<u32>,
    targets: &[i32],
    rests: &mut [u64],
)
    requires places { 0 < length rests.old }
    requires blocks { length rests.old < 2 ^ 32 }
    requires count { length targets.now ≡ (length rests.old - 1) * (M.rules machine.now).decoder.samples }
    requires few { length targets.now ≤ MOST_SAMPLES }
    requires range { AreSamples targets.now }
    ensures { HoldsRests (M.rules machine.now) (must_forget (M.rules machine.now).kind loop_block) targets.now (length rests.old - 1) rests.new }
{
    let blocks = rests.len() - 1;
    let mut sum = 0;
    let mut block = blocks;
    rests[block] = sum;
    while block > 0 {
        block -= 1;
        let floor = floor_at_block(machine, loop_block, targets, block as u32);
        sum += floor;
        rests[block] = sum;
    }
}
