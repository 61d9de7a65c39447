ghost use Rattle.std.specs.Prelude.{◌≡◌, ◌<◌, ◌≤◌, ◌-◌, ◌*◌, ◌^◌, ℕ, suc, ℤ, List};
ghost use Rattle.adpcm_nums.specs.Sample.{AreSamples};
ghost use Rattle.machine_core.specs.declared.state.State.{State};
ghost use Rattle.machine_core.specs.Decoder.{miss};
ghost use Rattle.machine_core.specs.Blocks.{Blocks, head_at, symbol_at, state_at, output_at};
ghost use Rattle.machine_core.specs.Rules.{tail_cost};
ghost use Rattle.window_floor.specs.Windows.{floor_from};
ghost use Rattle.window_floor.specs.Clamps.{MayCome};
ghost use Rattle.linear_machine.specs.Linear.{Linear, IsLinear};

/// Each output of a list of blocks is one that may come after the two before it, which the state before it holds.
pub fn outputs_follow()
    ensures outcome { (l : Linear) (list : Blocks) (from : State) (i : ℕ) → IsLinear l → symbol_at list i < 16
        → MayCome (l.windows (head_at l.decoder list i)) (state_at l.decoder list from i).b (state_at l.decoder list from i).a (output_at l.decoder list from i) }
    ensures older { (l : Linear) (list : Blocks) (from : State) (i : ℕ) → IsLinear l → (state_at l.decoder list from (suc i)).b ≡ (state_at l.decoder list from i).a }
{}

/// The floor of a head's windows from a place on is no more than what any codes cost there, whatever the state, and fits
/// into 64 bits.
pub fn floors_hold()
    ensures below { (l : Linear) (head p : ℕ) (targets : List ℤ) (symbol : ℕ → ℕ) (at : State) → IsLinear l → p ≤ l.decoder.samples
        → ((q : ℕ) → q < l.decoder.samples → symbol q < 16)
        → floor_from (l.windows head) targets p ≤ tail_cost l.decoder (miss l.decoder targets) head symbol p at (l.decoder.samples - p) }
    ensures small { (l : Linear) (head p : ℕ) (targets : List ℤ) → IsLinear l → AreSamples targets → floor_from (l.windows head) targets p ≤ l.decoder.samples * 2 ^ 34 }
{}
