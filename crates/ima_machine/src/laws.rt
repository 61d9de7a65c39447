ghost use Rattle.std.specs.Prelude.{◌≡◌, ℕ, ◌+◌, ◌-◌, ◌*◌, ◌<◌, ◌≤◌, ℤ, List, suc, drop, length, get_or, All, None, IsTrue, unsigned_abs};
ghost use Rattle.ima_machine.specs.Spelling.{spelling, head_in, first_in, code_in};
ghost use Rattle.ima_machine.specs.Faults.{fault_in};
ghost use Rattle.adpcm_nums.specs.Sample.{AreSamples};
ghost use Rattle.machine_core.specs.declared.state.State.{State};
ghost use Rattle.machine_core.specs.Decoder.{miss};
ghost use Rattle.machine_core.specs.Rules.{tail_cost};
ghost use Rattle.ima_machine.specs.Ima.{ima, is_ima_state, symbols_at};
ghost use Rattle.ima_machine.specs.Steps.{step_size};
ghost use Rattle.ima_machine.specs.Floors.{floor_sum, ima_floor};

/// The chain floor is the least sum of the pairs' floors over all lists of codes.
pub fn floor_is_least()
    ensures below { (samples head p index : ℕ) (targets : List ℤ) (code : ℕ → ℕ) → ((q : ℕ) → code q < 16) → ima_floor samples head p index targets ≤ floor_sum samples head p index targets code }
    ensures reached { (samples head p index : ℕ) (targets : List ℤ) → samples ≤ 4095 → AreSamples targets → (code : ℕ → ℕ) × ((q : ℕ) → code q < 16) × (ima_floor samples head p index targets ≡ floor_sum samples head p index targets code) }
{}

/// No continuation of a block costs less, from whatever state with this index.
pub fn floors_hold()
    ensures { (samples head p : ℕ) (targets : List ℤ) (symbol : ℕ → ℕ) (at : State) → head < 89 → p < samples → ((q : ℕ) → q < samples → symbol q < symbols_at q) → IsTrue (is_ima_state at)
        → ima_floor samples head p (unsigned_abs at.b) targets ≤ tail_cost (ima samples) (miss (ima samples) targets) head symbol p at (samples - p) }
{}

/// What is spelled is read.
pub fn spelled_is_read()
    ensures head { (head symbol : ℕ) (codes : List ℕ) → head_in (spelling head symbol codes) 0 ≡ head }
    ensures first { (head symbol : ℕ) (codes : List ℕ) → symbol < 65536 → first_in (spelling head symbol codes) 0 ≡ symbol }
    ensures code { (head symbol : ℕ) (codes : List ℕ) (n k : ℕ) → length codes ≡ 2 * n → All (λ c. c < 16) codes → k < 2 * n → code_in (spelling head symbol codes) 0 k ≡ get_or codes k 0 }
    ensures sound { (head symbol : ℕ) (codes : List ℕ) → head < 89 → fault_in (spelling head symbol codes) 0 ≡ None }
{}

/// Bytes without a fault are spelled by what is read in them.
pub fn read_is_spelled()
    ensures { (bytes codes : List ℕ) (n : ℕ) → length bytes ≡ n + 4 → ((i : ℕ) → get_or bytes i 0 < 256) → fault_in bytes 0 ≡ None → length codes ≡ 2 * n
        → ((k : ℕ) → k < 2 * n → get_or codes k 0 ≡ code_in bytes 0 k) → bytes ≡ spelling (head_in bytes 0) (first_in bytes 0) codes }
{}

/// What stands at an address of a memory is what stands at the front of the memory from there on.
pub fn blocks_are_read_in_place()
    ensures head { (memory : List ℕ) (address : ℕ) → head_in (drop address memory) 0 ≡ head_in memory address }
    ensures first { (memory : List ℕ) (address : ℕ) → first_in (drop address memory) 0 ≡ first_in memory address }
    ensures code { (memory : List ℕ) (address k : ℕ) → code_in (drop address memory) 0 k ≡ code_in memory address k }
    ensures fault { (memory : List ℕ) (address : ℕ) → fault_in (drop address memory) 0 ≡ fault_in memory address }
{}

/// The step sizes rise with the index.
pub fn step_sizes_rise()
    ensures { (index : ℕ) → index < 88 → step_size index < step_size (suc index) }
{}
