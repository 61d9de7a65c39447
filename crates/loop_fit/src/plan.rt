ghost use Rattle.std.specs.Prelude.{◌≡◌, ◌*◌, ◌^◌, ◌<◌, ◌≤◌, IfOk, IfSome};
ghost use Rattle.loop_fit.specs.Source.{IsLoopIn};
ghost use Rattle.loop_fit.specs.Plan.{rounds_of, sized, plan_of};

use crate::align::{front, loop_length, loop_target, unrolled};
use crate::fault::FitFault;
use crate::rule::{FitRule, Length};
use adpcm_nums::{LoopAt, MOST_BLOCKS, MOST_SAMPLES};

/// The numbers of a fit, before its targets are laid.
#[derive(Clone, Copy, Debug, PartialEq, Eq)]
pub(crate) struct Plan {
    /// The zeros before the sound.
    pub front: u32,
    /// How often the loop stands among the targets.
    pub unroll: u32,
    /// The number of blocks.
    pub blocks: u32,
    /// The first block of the loop.
    pub loop_block: Option<u32>,
}

/// How often the loop stands among the targets.
#[tactic(auto, unfolding(crate::specs::Plan::rounds_of))]
fn rounds(length: Length, block: u32, len: u32) -> Result<u32, FitFault>
    requires { 0 < block }
    ensures value { result ≡ rounds_of length block len }
    ensures high { IfOk result (λ rounds. rounds ≤ block) }
{
    match length {
        Length::Exact => {
            if len % block == 0 {
                Ok(1)
            } else {
                Err(FitFault::LoopLength { len, block })
            }
        }
        Length::Unroll => Ok(unrolled(block, len)),
    }
}

/// So many blocks, if they and their targets are not too many.
#[tactic(auto, unfolding(crate::specs::Plan::sized))]
fn sized(block: u32, blocks: u64) -> Result<u32, FitFault>
    requires blocks { blocks < 2 ^ 48 }
    requires block { block < 2 ^ 12 }
    ensures value { result ≡ sized block blocks }
    ensures small { IfOk result (λ n. n * block ≤ 262144) }
{
    if blocks > u64::from(MOST_BLOCKS) || blocks * u64::from(block) > u64::from(MOST_SAMPLES) {
        return Err(FitFault::TooLong { blocks });
    }
    Ok(blocks as u32)
}

/// The numbers of the fit of so many frames, with the loop that has to lie on whole blocks.
#[tactic(auto, unfolding(crate::specs::Plan::plan_of))]
pub(crate) fn plan_fit(frames: u32, looped: Option<LoopAt>, rule: FitRule) -> Result<Plan, FitFault>
    requires some { 0 < rule.block }
    requires few { rule.block ≤ 2041 }
    requires loop_in { IfSome looped (IsLoopIn frames) }
    ensures value { result ≡ plan_of frames looped rule }
    ensures small { IfOk result (λ plan. plan.blocks * rule.block ≤ 262144) }
{
    let block = u64::from(rule.block);
    match looped {
        None => {
            let blocks = sized(rule.block, u64::from(frames).div_ceil(block))?;
            Ok(Plan {
                front: 0,
                unroll: 1,
                blocks,
                loop_block: None,
            })
        }
        Some(at) => {
            let len = loop_length(at);
            let unroll = rounds(rule.length, rule.block, len)?;
            let start = loop_target(rule.block, at);
            let blocks = sized(
                rule.block,
                (start + u64::from(unroll) * u64::from(len)) / block,
            )?;
            let front = front(rule.start, rule.block, at);
            Ok(Plan {
                front,
                unroll,
                blocks,
                loop_block: Some((start / block) as u32),
            })
        }
    }
}
