ghost use Rattle.std.specs.Prelude.{◌≡◌, ℕ, ◌+◌, ◌-◌, ◌*◌, ◌%◌, ◌/◌, ◌^◌, ◌<◌, ◌≤◌, ℤ, IsTrue, List, length, get_or, Bool};
ghost use Rattle.adpcm_nums.specs.Sample.{IsSample, AreSamples};
ghost use Rattle.machine_core.specs.declared.state.State.{State};
ghost use Rattle.machine_core.specs.declared.state.HeadRule.TheVariants.{FilterZero};
ghost use Rattle.machine_core.specs.declared.boxes.Bx.{Bx};
ghost use Rattle.machine_core.specs.declared.boxes.Cell.{Cell};
ghost use Rattle.machine_core.specs.Boxes.{InBox, point_box, low_corner, high_corner};
ghost use Rattle.machine_core.specs.Cells.{Grid, is_level, cell_of, cell_box, is_cell, IsBetween};
ghost use Rattle.machine_core.specs.Boxed.{IsBoxed};
ghost use Rattle.machine_core.specs.Decoder.{Decoder, Forgets, miss};
ghost use Rattle.machine_core.specs.Blocks.{Blocks, IsInRange, IsLegal, head_at, state_at, output_at};
ghost use Rattle.machine_core.specs.Sums.{sum_after, sum_of};
ghost use Rattle.machine_core.specs.Rules.{Rules, IsMachine, grid};
ghost use Rattle.machine_core.specs.Floors.{block_targets, floor_in, may_take, rest, floor_of_blocks};

/// The floor under a sample or a segment is at most the error of every legal list of blocks.
pub fn floors_hold()
    ensures { (r : Rules) (fixed : ℕ → Bool) (blocks : ℕ) (targets : List ℤ) (list : Blocks) → IsMachine r → IsLegal r.decoder blocks fixed list
        → length targets ≡ blocks * r.decoder.samples → AreSamples targets → floor_of_blocks r fixed targets blocks ≤ sum_of r.decoder list targets blocks }
{}

/// The floor under what comes from a sample on, for a box and a lane in which the list's head may be taken, is at most what the list costs from there on,
/// from every state of the box.
pub fn rests_hold()
    ensures { (r : Rules) (fixed : ℕ → Bool) (blocks : ℕ) (targets : List ℤ) (list : Blocks) (i lane : ℕ) (bx : Bx) (at : State) → IsMachine r → IsLegal r.decoder blocks fixed list
        → length targets ≡ blocks * r.decoder.samples → AreSamples targets → i < blocks * r.decoder.samples
        → IsTrue (r.is_box (i % r.decoder.samples) bx) → IsTrue (r.decoder.is_state at) → InBox at bx → IsTrue (may_take r fixed i lane (head_at r.decoder list i))
        → rest r fixed targets blocks i lane bx ≤ sum_after r.decoder (miss r.decoder targets) list at i (blocks * r.decoder.samples - i) }
{}

/// From every state on, the states of a list whose heads and symbols the decoder has are states of the decoder.
pub fn states_fit()
    ensures { (r : Rules) (blocks : ℕ) (list : Blocks) (from : State) (i : ℕ) → IsMachine r → IsInRange r.decoder blocks list
        → IsTrue (r.decoder.is_state from) → i ≤ blocks * r.decoder.samples → IsTrue (r.decoder.is_state (state_at r.decoder list from i)) }
{}

/// The error of a list whose heads and symbols the decoder has is at most 2^32 a sample.
pub fn sums_fit()
    ensures { (r : Rules) (blocks : ℕ) (targets : List ℤ) (list : Blocks) → IsMachine r → IsInRange r.decoder blocks list
        → length targets ≡ blocks * r.decoder.samples → AreSamples targets → sum_of r.decoder list targets blocks ≤ blocks * r.decoder.samples * 2 ^ 32 }
{}

/// Where a block's head is one that the first block of a sample or a loop may have, neither the outputs from there on nor the states after the block depend on the state before it.
pub fn histories_fall_away()
    ensures outputs { (d : Decoder) (list : Blocks) (b : ℕ) (s t : State) (i : ℕ) → Forgets d → IsTrue (d.allows (get_or list.heads b 0) FilterZero)
        → b * d.samples ≤ i → output_at d list s i ≡ output_at d list t i }
    ensures states { (d : Decoder) (list : Blocks) (b : ℕ) (s t : State) (i : ℕ) → Forgets d → IsTrue (d.allows (get_or list.heads b 0) FilterZero)
        → b * d.samples + d.samples ≤ i → state_at d list s i ≡ state_at d list t i }
{}

/// At a later place every head of a lane has the lane's floor, so one table of floors serves the lane.
pub fn lanes_have_floors()
    ensures { (r : Rules) (fixed : ℕ → Bool) (targets : List ℤ) (i lane head : ℕ) (bx : Bx) → IsMachine r → 0 < i % r.decoder.samples → head < r.decoder.heads
        → r.lane head (i % r.decoder.samples) ≡ lane → IsTrue (r.is_box (i % r.decoder.samples) bx)
        → length (block_targets r targets (i / r.decoder.samples)) ≡ r.decoder.samples → AreSamples (block_targets r targets (i / r.decoder.samples))
        → floor_in r fixed targets i lane bx ≡ r.floor head (i % r.decoder.samples) bx (block_targets r targets (i / r.decoder.samples)) }
{}

/// Each state is in its cell's box, and cells stand in the order of their states.
pub fn states_have_cells()
    ensures held { (g : Grid) (level : ℕ) (at : State) → IsTrue (is_level level) → InBox at (cell_box g level (cell_of g level at)) }
    ensures exact { (g : Grid) (at : State) → cell_box g 0 (cell_of g 0 at) ≡ point_box at }
    ensures between { (g : Grid) (level : ℕ) (bx : Bx) (at : State) → IsTrue (is_level level) → InBox at bx
        → IsBetween (cell_of g level (low_corner bx)) (cell_of g level (high_corner bx)) (cell_of g level at) }
    ensures is_cell { (r : Rules) (level : ℕ) (at : State) → IsMachine r → IsTrue (is_level level) → IsTrue (r.decoder.is_state at)
        → IsTrue (is_cell (grid r) level (cell_of (grid r) level at)) }
{}

/// The cells that a box meets are cells of states, and a file tells their numbers in 16 bits.
pub fn boxes_meet_cells()
    ensures met { (r : Rules) (level p : ℕ) (bx : Bx) (cell : Cell) → IsBoxed r → IsTrue (is_level level) → p < r.decoder.samples → IsTrue (r.is_box p bx)
        → IsBetween (cell_of (grid r) level (low_corner bx)) (cell_of (grid r) level (high_corner bx)) cell → IsTrue (is_cell (grid r) level cell) }
    ensures small { (r : Rules) (level : ℕ) (cell : Cell) → IsBoxed r → IsTrue (is_level level) → IsTrue (is_cell (grid r) level cell) → IsSample cell.a × IsSample cell.b }
{}
