ghost use Rattle.std.specs.Prelude.{◌≡◌, ◌≤◌, ◌<◌, ◌+◌, ◌*◌, ◌^◌, ℕ, ℤ, pos, ◌*ℤ◌, ◌-ℤ◌, List, get_or, ◌-◌};
ghost use Rattle.adpcm_nums.specs.Nums.{square_of};
ghost use Rattle.window_floor.specs.Row.{Row, IsNormed};
ghost use Rattle.window_floor.specs.Miss.{miss_of, least_miss};
ghost use Rattle.window_floor.specs.Floor.{output_cost, window_floor};
ghost use Rattle.window_floor.specs.Outcome.{IsWrap, IsOutcome};
ghost use Rattle.window_floor.specs.Windows.{Windows, target_at, floor_from, IsSound};
ghost use Rattle.window_floor.specs.Following.{Follow};
ghost use Rattle.adpcm_nums.specs.RangeSum.{sum_range};
ghost use Rattle.adpcm_nums.specs.Sample.{AreSamples};

/// The inequality that a floor rests on: no three numbers whose sum weighted with d, -a and -b is c have squares that
/// sum to less than `c² / (d² + a² + b²)`.
pub fn three_products()
    ensures { (d a b x y z : ℤ) → square_of (d *ℤ x -ℤ a *ℤ y -ℤ b *ℤ z) ≤ (square_of d + square_of a + square_of b) * (square_of x + square_of y + square_of z) }
{}

/// The least miss is at most that of each sample, wrap and rounding, and is that of one of them.
pub fn miss_is_least()
    ensures least { (w : Row) (rho : ℤ) (samples : List ℤ) (i e : ℕ) (k : ℤ) → i < 16 → e ≤ w.errs → IsWrap w.wraps k
        → least_miss w rho samples ≤ miss_of w rho (get_or samples i (pos 0) -ℤ pos 32768 *ℤ k) e }
    ensures reached { (w : Row) (rho : ℤ) (samples : List ℤ) → (i : ℕ) × (e : ℕ) × (k : ℤ) × (i < 16) × (e ≤ w.errs) × IsWrap w.wraps k
        × (least_miss w rho samples ≡ miss_of w rho (get_or samples i (pos 0) -ℤ pos 32768 *ℤ k) e) }
{}

/// No outputs of three places in a row cost less than the window's floor, whatever the targets.
pub fn no_three_are_cheaper()
    ensures { (w : Row) (samples : List ℤ) (first second r o x at_r at_o at_x : ℤ) → IsNormed w → IsOutcome w samples first second at_r at_o at_x
        → window_floor w samples first second r o x ≤ output_cost w at_x x + output_cost w at_o o + output_cost w at_r r }
{}

/// No outputs of two places in a row cost less than the floor of a window that leaves the output before them out.
pub fn no_pair_is_cheaper()
    ensures { (w : Row) (samples : List ℤ) (first second o x at_r at_o at_x : ℤ) → IsNormed w → w.cb ≡ pos 0 → IsOutcome w samples first second at_r at_o at_x
        → window_floor w samples first second (pos 0) o x ≤ output_cost w at_x x + output_cost w at_o o }
{}

/// No outputs that follow one another as a filter says cost less than the floor of a block's windows.
pub fn floors_hold()
    ensures { (b : Windows) (from : ℕ) (y : ℕ → ℤ) (targets : List ℤ) → IsSound b → Follow b from y → from ≤ b.places
        → floor_from b targets from ≤ sum_range (λ p. output_cost b.row (y p) (target_at targets p)) from (b.places - from) }
{}

/// The floor of a block's windows is at most 2^34 a place.
pub fn floors_fit()
    ensures { (b : Windows) (targets : List ℤ) (p : ℕ) → IsSound b → AreSamples targets → floor_from b targets p ≤ b.places * 2 ^ 34 }
{}
