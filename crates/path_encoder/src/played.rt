ghost use Rattle.std.specs.Prelude.{ℕ, ◌≡◌, ◌<◌, ◌*◌, ◌/◌, ◌%◌, ◌≤◌, true, get_or, length, IsTrue};
ghost use Rattle.adpcm_nums.specs.Sample.{AreSamples};
ghost use Rattle.machine_core.specs.Blocks.{IsInRange, IsLegal, first_only, rule_of, step_at};
ghost use Rattle.machine_core.specs.Decoder.{miss};
ghost use Rattle.machine_core.specs.Sums.{sum_of};
ghost use Rattle.beam_encoder.specs.Near.{AreTargets};

use machine_core::{Machine, State, rule_at};

/// Whether heads are as many as there are blocks and allowed: any that the decoder has, in the first block one that forgets.
fn heads_are_legal<M: Machine>(machine: &M, blocks: u32, heads: &[u32]) -> bool
    ensures count { result ≡ true → length heads.now ≡ blocks }
    ensures fit { result ≡ true → (b : ℕ) → b < blocks → get_or heads.now b 0 < (M.rules machine.now).decoder.heads }
    ensures allowed { result ≡ true → (b : ℕ) → b < blocks → IsTrue ((M.rules machine.now).decoder.allows (get_or heads.now b 0) (rule_of first_only b)) }
{
    if heads.len() != blocks as usize {
        return false;
    }
    for b in 0..blocks {
        let head = heads[b as usize];
        if head >= machine.heads() || !machine.allows(head, rule_at(b)) {
            return false;
        }
    }
    true
}

/// Whether symbols are such as their places have.
fn symbols_fit<M: Machine>(machine: &M, symbols: &[u32]) -> bool
    ensures { result ≡ true → (i : ℕ) → i < length symbols.now → get_or symbols.now i 0 < (M.rules machine.now).decoder.symbols (i % (M.rules machine.now).decoder.samples) }
{
    let samples = machine.block_samples() as usize;
    for i in 0..symbols.len() {
        if symbols[i] >= machine.symbols((i % samples) as u32) {
            return false;
        }
    }
    true
}

/// Whether heads and symbols are a legal list of so many blocks for one segment.
pub(crate) fn is_legal<M: Machine>(machine: &M, blocks: u32, heads: &[u32], symbols: &[u32]) -> bool
    ensures { result ≡ true → IsLegal (M.rules machine.now).decoder blocks first_only (record { heads = heads.now; symbols = symbols.now }) }
{
    let count = u64::from(blocks) * u64::from(machine.block_samples());
    heads_are_legal(machine, blocks, heads)
        && symbols.len() as u64 == count
        && symbols_fit(machine, symbols)
}

/// The state after sample `i` of a list of blocks, from the state before it.
fn step_in<M: Machine>(
    machine: &M,
    blocks: u32,
    heads: &[u32],
    symbols: &[u32],
    i: usize,
    from: State,
) -> State
    requires in_range { IsInRange (M.rules machine.now).decoder blocks (record { heads = heads.now; symbols = symbols.now }) }
    requires i { i < length symbols.now }
    requires from { IsTrue ((M.rules machine.now).decoder.is_state from) }
    ensures value { result ≡ step_at (M.rules machine.now).decoder (record { heads = heads.now; symbols = symbols.now }) i from }
    ensures fits { IsTrue ((M.rules machine.now).decoder.is_state result) }
{
    let samples = machine.block_samples() as usize;
    machine.step(heads[i / samples], (i % samples) as u32, symbols[i], from)
}

/// What sample `i` costs, from the state after it.
fn cost_at<M: Machine>(machine: &M, targets: &[i32], i: usize, at: State) -> u64
    requires i { i < length targets.now }
    requires range { AreSamples targets.now }
    requires at { IsTrue ((M.rules machine.now).decoder.is_state at) }
    ensures { result ≡ miss (M.rules machine.now).decoder targets.now i at }
{
    machine.cost(at, targets[i])
}

/// The exact error of a list of blocks, played by the decoder from its start.
pub(crate) fn played<M: Machine>(
    machine: &M,
    targets: &[i32],
    blocks: u32,
    heads: &[u32],
    symbols: &[u32],
) -> u64
    requires targets { AreTargets (M.rules machine.now).decoder blocks targets.now }
    requires in_range { IsInRange (M.rules machine.now).decoder blocks (record { heads = heads.now; symbols = symbols.now }) }
    ensures { result ≡ sum_of (M.rules machine.now).decoder (record { heads = heads.now; symbols = symbols.now }) targets.now blocks }
{
    let mut sum = 0;
    let mut state = State { a: 0, b: 0 };
    for i in 0..targets.len() {
        state = step_in(machine, blocks, heads, symbols, i, state);
        sum += cost_at(machine, targets, i, state);
    }
    sum
}
