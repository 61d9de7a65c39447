ghost use Rattle.std.specs.Prelude.{◌≡◌, ◌^◌, ◌<◌, length, IfOk, IfSome};
ghost use Rattle.adpcm_nums.specs.Outcome.{Gives};
ghost use Rattle.adpcm_nums.specs.Sample.{AreSamples};
ghost use Rattle.loop_fit.specs.Source.{IsLoopIn, IsBlockOf};
ghost use Rattle.loop_fit.specs.Fit.{GoesRound, HasTargets, IsWhole, fit_of};
ghost use Rattle.loop_fit.specs.declared.fault.FitFault.TheVariants.{NoMemory as OutOfMemory};

use crate::align::block_loop;
use crate::fault::FitFault;
use crate::fitted::Fitted;
use crate::plan::plan_fit;
use crate::rule::FitRule;
use crate::targets::lay_plan;
use adpcm_nums::LoopAt;
use std::alloc::Global;

/// Fits a sound to whole blocks (this project's own choice): its samples in 16-bit steps, and the loop among them.
///
/// Without a loop, and in IMA ADPCM, zeros fill the last block. In BRR and SPU-ADPCM the frames after the loop are
/// dropped, its start is brought to the start of a block and its length to whole blocks, as the rule says.
/// Refused are, in this order, a sound of no frames; under `Exact` a loop that takes no whole blocks; more than
/// 4,096 blocks or 262,144 targets.
#[tactic(auto, unfolding(crate::specs::Fit::fit_of))]
pub fn fit(
    alloc: Global,
    samples: &[i32],
    at: Option<LoopAt>,
    rule: FitRule,
) -> Result<Fitted, FitFault>
    requires count { length samples.now < 2 ^ 32 }
    requires range { AreSamples samples.now }
    requires loop_in { IfSome at (IsLoopIn (length samples.now)) }
    requires block { IsBlockOf rule.kind rule.block }
    // The fit, or the first refusal.
    ensures exact { Gives OutOfMemory (λ fitted. fitted) result (fit_of samples.now at rule) }
    ensures targets { IfOk result (HasTargets samples.now at rule) }
    ensures whole { IfOk result (IsWhole rule.block) }
    // Played with their loop for ever, the targets are the sound going round its own, after the zeros in front.
    ensures law { IfOk result (GoesRound samples.now at rule) }
{
    if samples.is_empty() {
        return Err(FitFault::EmptySample);
    }
    let plan = plan_fit(samples.len() as u32, block_loop(rule.kind, at), rule)?;
    Ok(lay_plan(alloc, samples, at, rule, plan)?)
}
