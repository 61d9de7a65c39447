ghost use Rattle.std.specs.Prelude.{◌≡◌, ◌*◌, ◌^◌, ◌<◌, ◌≤◌, length, IfOk, IfSome};
ghost use Rattle.adpcm_nums.specs.Round.{round_place, round_of};
ghost use Rattle.adpcm_nums.specs.Sample.{IsSample, AreSamples};
ghost use Rattle.loop_fit.specs.Source.{IsLoopIn};
ghost use Rattle.loop_fit.specs.Fit.{target_of, targets_of, fitted_of};

use crate::align::{block_loop, frame_loop};
use crate::fitted::Fitted;
use crate::plan::Plan;
use crate::rule::FitRule;
use adpcm_nums::{LoopAt, NoMemory, Samples};
use std::alloc::Global;

/// The frame that stands at place `i` of a sound going round its loop.
fn round_place(at: LoopAt, i: u32) -> u32
    requires ordered { at.start ≤ at.end }
    ensures { result ≡ round_place at i }
{
    if i <= at.end {
        i
    } else {
        at.start + (i - at.start) % (at.end - at.start + 1)
    }
}

/// Sample `i` of a sound going round its loop, or silence after its end.
fn round_sample(samples: &[i32], looped: Option<LoopAt>, i: u32) -> i32
    requires range { AreSamples samples.now }
    requires loop_in { IfSome looped (IsLoopIn (length samples.now)) }
    ensures value { result ≡ round_of samples.now looped i }
    ensures range { IsSample result }
{
    let place = match looped {
        Some(at) => round_place(at, i),
        None => i,
    };
    match samples.get(place as usize) {
        Some(&sample) => sample,
        None => 0,
    }
}

/// Target `i`, where so many zeros come before the sound.
fn target(samples: &[i32], looped: Option<LoopAt>, front: u32, i: u32) -> i32
    requires range { AreSamples samples.now }
    requires loop_in { IfSome looped (IsLoopIn (length samples.now)) }
    ensures value { result ≡ target_of samples.now looped front i }
    ensures range { IsSample result }
{
    if i < front {
        0
    } else {
        round_sample(samples, looped, i - front)
    }
}

/// The first `count` targets.
fn lay_targets(
    alloc: Global,
    samples: &[i32],
    looped: Option<LoopAt>,
    front: u32,
    count: u32,
) -> Result<Samples, NoMemory>
    requires range { AreSamples samples.now }
    requires loop_in { IfSome looped (IsLoopIn (length samples.now)) }
    ensures { IfOk result (λ targets. targets ≡ targets_of samples.now looped front count) }
{
    let room = Vec::with_capacity(alloc, count as usize).map_err(|_| NoMemory)?;
    let mut targets = Samples::from_vec(room);
    for i in 0..count {
        targets.push(target(samples, looped, front, i))?;
    }
    Ok(targets)
}

/// The fit with these numbers.
pub(crate) fn lay_plan(
    alloc: Global,
    samples: &[i32],
    at: Option<LoopAt>,
    rule: FitRule,
    plan: Plan,
) -> Result<Fitted, NoMemory>
    requires count { length samples.now < 2 ^ 32 }
    requires range { AreSamples samples.now }
    requires loop_in { IfSome at (IsLoopIn (length samples.now)) }
    requires small { plan.blocks * rule.block ≤ 262144 }
    ensures { IfOk result (λ fitted. fitted ≡ fitted_of samples.now at rule plan) }
{
    let looped = block_loop(rule.kind, at);
    let targets = lay_targets(alloc, samples, looped, plan.front, plan.blocks * rule.block)?;
    Ok(Fitted {
        targets,
        blocks: plan.blocks,
        loop_block: plan.loop_block,
        front: plan.front,
        unroll: plan.unroll,
        frames: samples.len() as u32,
        loop_frames: frame_loop(rule.kind, at),
    })
}
