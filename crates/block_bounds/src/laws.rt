ghost use Rattle.std.specs.Prelude.{◌≡◌, ◌⊎◌, ◌≤◌, ◌*◌, ℕ, ℤ, pos, ◌*ℤ◌, ◌-ℤ◌, Bool, List, []};
ghost use Rattle.machine_core.specs.Decoder.{Decoder};
ghost use Rattle.machine_core.specs.Blocks.{Blocks};
ghost use Rattle.machine_core.specs.Sums.{cost_at, sum_of};
ghost use Rattle.row_bound.specs.Windows.{sum_from, AreBounds};
ghost use Rattle.row_bound.specs.declared.layer.Layer.{Layer};
ghost use Rattle.row_bound.specs.Ladder.{IsLadder};
ghost use Rattle.row_bound.specs.Paths.{Path};
ghost use Rattle.window_floor.specs.Windows.{Windows};
ghost use Rattle.block_bounds.specs.Outputs.{Outputs};
ghost use Rattle.block_bounds.specs.Covers.{AreSteps, LayersFor};

/// What a linear decoder gives, clamps and wraps included, is a path of the layers that stand for it, at the same cost.
pub fn outputs_are_paths()
    ensures { (b : Windows) (leaving : Bool) (steps ts : List ℤ) (layers : List Layer) (tr to r o : ℤ) (c : ℕ) → (b.row.scale ≡ pos 1) ⊎ (b.row.scale ≡ pos 2) → IsLadder steps → AreSteps b steps
        → LayersFor b leaving ts tr to layers → Outputs b leaving ts tr to r o c → Path steps [] layers (b.row.scale *ℤ o -ℤ to) (b.row.scale *ℤ r -ℤ tr) c }
{}

/// Bounds under the windows of a list's blocks sum to at most twice its error.
pub fn bounds_of_blocks()
    ensures { (d : Decoder) (list : Blocks) (targets : List ℤ) (bounds : ℕ → ℕ) (blocks : ℕ) → 2 ≤ d.samples → AreBounds d.samples (cost_at d list targets) blocks bounds
        → sum_from bounds 0 blocks ≤ 2 * sum_of d list targets blocks }
{}
