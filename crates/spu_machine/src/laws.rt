ghost use Rattle.std.specs.Prelude.{◌≡◌, ◌^◌, ◌<◌, ◌≤◌, ℕ, ℤ, All, IsTrue, List, get_or, length};
ghost use Rattle.adpcm_nums.specs.Sample.{IsSample};
ghost use Rattle.machine_core.specs.declared.state.State.{State};
ghost use Rattle.machine_core.specs.Decoder.{Forgets, cost_of};
ghost use Rattle.spu_machine.specs.Spu.{spu, spu_step, is_spu_state, lane_of};
ghost use Rattle.machine_core.specs.Rules.{IsMachine};
ghost use Rattle.spu_machine.specs.SpuRules.{spu_rules};
ghost use Rattle.spu_machine.specs.Spelling.{IsSpelled, code_in, spelling};

/// Under a head of filter 0 neither the outputs of a block nor the state after it depend on the state before it.
pub fn spu_forgets()
    ensures { Forgets spu }
{}

/// The decoder keeps the laws of every decoder.
pub fn spu_keeps_the_laws()
    ensures { IsMachine spu_rules }
{}

/// A step leads from a state to a state, and no output costs more than 2^32.
pub fn states_and_costs_fit()
    ensures steps { (head place code : ℕ) (from : State) → IsTrue (is_spu_state from) → IsTrue (is_spu_state (spu_step head place code from)) }
    ensures costs { (at : State) (target : ℤ) → IsTrue (is_spu_state at) → IsSample target → cost_of spu at target ≤ 2 ^ 32 }
{}

/// Heads of one lane act alike.
pub fn lanes_act_alike()
    ensures { (g h place code : ℕ) (from : State) → lane_of g ≡ lane_of h → spu_step g place code from ≡ spu_step h place code from }
{}

/// A block that was spelled is read again.
pub fn spelled_is_read()
    ensures fields { (head flags : ℕ) (codes : List ℕ) → head < 80 → flags < 8 → IsSpelled head flags codes (spelling head flags codes) }
    ensures codes { (head flags : ℕ) (codes : List ℕ) (k : ℕ) → length codes ≡ 28 → All (λ c. c < 16) codes → k < 28 → code_in (spelling head flags codes) 0 k ≡ get_or codes k 0 }
{}
