ghost use Rattle.std.specs.Prelude.{◌≡◌, ◌≤◌, ◌<◌, ◌+◌, ◌*◌, ℕ, ℤ, pos, ◌*ℤ◌, ◌+ℤ◌, ◌-ℤ◌, ◌≤ℤ◌, List, ◌++◌, ◌∷◌, [], length};
ghost use Rattle.adpcm_nums.specs.Nums.{square_of};
ghost use Rattle.row_bound.specs.declared.row.Row.{Row};
ghost use Rattle.row_bound.specs.declared.layer.Layer.{Layer};
ghost use Rattle.row_bound.specs.Rows.{At, Fits};
ghost use Rattle.row_bound.specs.Paths.{Path, Owes};
ghost use Rattle.row_bound.specs.Bound.{bound, factor, Outward};
ghost use Rattle.row_bound.specs.Windows.{sum_from, AreBounds};

/// The dual lemma: whatever the factors, the bound of rows, with what the layers after them owe, is below what a path of
/// them costs. q and p are what stands with the two errors before so far.
pub fn dual_lemma()
    ensures { (steps : List ℤ) (ws : List Row) (mus : List ℤ) (i n : ℕ) (layers : List Layer) (v u : Row) (q p y x : ℤ) (c : ℕ)
        → Owes steps layers n → At v y → At u x → Path steps ws layers x y c
        → (bound ws mus i v u q p +ℤ pos 128 *ℤ (q *ℤ y) +ℤ pos 128 *ℤ (p *ℤ x) +ℤ pos (4096 * n)) ≤ℤ pos (4096 * (v.weight * square_of y + u.weight * square_of x + c)) }
{}

/// The direction lemma: the bound grows as the last row's interval moves to the side of its factor's sign.
pub fn direction_lemma()
    ensures { (ws : List Row) (mus : List ℤ) (i : ℕ) (v u w z : Row) (q p : ℤ) → Outward (factor mus (length ws + i)) w z
        → bound (ws ++ (w ∷ [])) mus i v u q p ≤ℤ bound (ws ++ (z ∷ [])) mus i v u q p }
{}

/// The clamp lemma. Where clamping left an output, the filter's own error z is past the error at which clamping begins. So
/// what the filter's row says of the errors x and y before fits a row with d = 0, the filter's a and b, and one end of its
/// interval; the place's error is known.
pub fn clamp_lemma()
    ensures high { (w : Row) (d x y z most least : ℤ) → w.d ≡ pos 0 → pos 0 ≤ℤ d → (d *ℤ z -ℤ w.a *ℤ x -ℤ w.b *ℤ y) ≤ℤ most → least ≤ℤ z
        → (most -ℤ d *ℤ least) ≤ℤ w.high → w.low ≤ℤ (pos 0 -ℤ w.a *ℤ x -ℤ w.b *ℤ y) → Fits w x y w.out }
    ensures low { (w : Row) (d x y z most least : ℤ) → w.d ≡ pos 0 → pos 0 ≤ℤ d → least ≤ℤ (d *ℤ z -ℤ w.a *ℤ x -ℤ w.b *ℤ y) → z ≤ℤ most
        → w.low ≤ℤ (least -ℤ d *ℤ most) → (pos 0 -ℤ w.a *ℤ x -ℤ w.b *ℤ y) ≤ℤ w.high → Fits w x y w.out }
{}

/// The sum theorem: bounds under the windows of all blocks, two samples at each border weighed half, sum to at most twice
/// the cost of the samples.
pub fn sum_theorem()
    ensures { (n : ℕ) (f bounds : ℕ → ℕ) (blocks : ℕ) → 2 ≤ n → AreBounds n f blocks bounds → sum_from bounds 0 blocks ≤ 2 * sum_from f 0 (blocks * n) }
{}
