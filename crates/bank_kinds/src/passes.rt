ghost use Rattle.std.specs.Prelude.{◌≡◌, ◌*◌, ◌≤◌, ◌*ℤ◌, pos, IsTrue, IfOk};
ghost use Rattle.adpcm_nums.specs.Sample.{IsSample, AreSamples};
ghost use Rattle.machine_core.specs.declared.state.State.{State};
ghost use Rattle.machine_core.specs.Blocks.{IsInRange};
ghost use Rattle.bank_kinds.specs.Chosen.{list_of};
ghost use Rattle.bank_kinds.specs.Passes.{outputs_of};

use adpcm_nums::{NoMemory, Samples};
use machine_core::{Choice, Machine, State};
use std::alloc::Global;

/// The last output of a state, `scale` times.
fn scaled(scale: i32, at: State) -> i32
    requires { IsSample (scale *ℤ at.a) }
    ensures value { result ≡ scale *ℤ at.a }
    ensures range { IsSample result }
{
    scale * at.a
}

/// The first outputs of a list of blocks in 16-bit steps, each `scale` times what the decoder gives.
pub fn outputs<M: Machine>(
    alloc: Global,
    machine: &M,
    scale: i32,
    choice: &Choice,
    blocks: u32,
    count: u32,
) -> Result<Samples, NoMemory>
    requires in_range { IsInRange (M.rules machine.now).decoder blocks (list_of choice.now) }
    requires few { blocks * (M.rules machine.now).decoder.samples ≤ 262144 }
    requires within { count ≤ blocks * (M.rules machine.now).decoder.samples }
    requires scale { scale ≡ pos (M.rules machine.now).decoder.scale }
    requires range { (at : State) → IsTrue ((M.rules machine.now).decoder.is_state at) → IsSample (scale *ℤ at.a) }
    ensures range { IfOk result AreSamples }
    ensures value { IfOk result (λ samples. samples ≡ outputs_of (M.rules machine.now).decoder (list_of choice.now) count) }
{
    let samples = machine.block_samples();
    let heads = choice.heads.as_slice();
    let symbols = choice.symbols.as_slice();
    let room = Vec::with_capacity(alloc, count as usize).map_err(|_| NoMemory)?;
    let mut outputs = Samples::from_vec(room);
    let mut state = State { a: 0, b: 0 };
    for i in 0..count {
        state = machine.step(
            heads[(i / samples) as usize],
            i % samples,
            symbols[i as usize],
            state,
        );
        outputs.push(scaled(scale, state))?;
    }
    Ok(outputs)
}
