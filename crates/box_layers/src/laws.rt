ghost use Rattle.std.specs.Prelude.{◌≡◌, ◌⊎◌, ◌≤◌, ◌*◌, ℕ, ℤ, IsTrue, List, Option, length};
ghost use Rattle.adpcm_nums.specs.Sample.{AreSamples};
ghost use Rattle.machine_core.specs.Blocks.{Blocks, IsLegal, first_only};
ghost use Rattle.machine_core.specs.Boxed.{IsBoxed};
ghost use Rattle.machine_core.specs.declared.boxes.Bx.{Bx};
ghost use Rattle.machine_core.specs.declared.boxes.Cell.{Cell};
ghost use Rattle.machine_core.specs.Boxes.{low_corner, high_corner};
ghost use Rattle.machine_core.specs.Cells.{is_level, cell_of, IsBetween};
ghost use Rattle.machine_core.specs.Floors.{top};
ghost use Rattle.machine_core.specs.Rules.{Rules, IsMachine, grid};
ghost use Rattle.machine_core.specs.Sums.{sum_of};
ghost use Rattle.box_layers.specs.Looking.{look_over, or_else};
ghost use Rattle.box_layers.specs.Certificates.{Certificate, IsAccepted, value};

use machine_core::{floors_hold, rests_hold, states_have_cells};

/// Whoever made a certificate: where it is accepted, no legal list of blocks of the segment has a lower error than it shows.
pub fn accepted_values_hold()
    ensures { (r : Rules) (targets : List ℤ) (c : Certificate) (list : Blocks) → IsMachine r → IsBoxed r → IsTrue (is_level c.level)
        → IsLegal r.decoder c.blocks first_only list → length targets ≡ c.blocks * r.decoder.samples → AreSamples targets
        → IsAccepted r targets c → value r targets c ≤ sum_of r.decoder list targets c.blocks }
{
    states_have_cells();
    rests_hold();
    floors_hold();
}

/// A look is at most what each cell is worth that the box meets, and it is what one of them is worth, or the largest number of the code.
pub fn looks_are_least()
    ensures below { (r : Rules) (level : ℕ) (listed : Cell → Option ℕ) (unlisted : ℕ) (bx : Bx) (cell : Cell)
        → IsBetween (cell_of (grid r) level (low_corner bx)) (cell_of (grid r) level (high_corner bx)) cell → look_over r level listed unlisted bx ≤ or_else (listed cell) unlisted }
    ensures reached { (r : Rules) (level : ℕ) (listed : Cell → Option ℕ) (unlisted : ℕ) (bx : Bx) → IsTrue (is_level level)
        → (look_over r level listed unlisted bx ≡ top) ⊎ ((cell : Cell) × IsBetween (cell_of (grid r) level (low_corner bx)) (cell_of (grid r) level (high_corner bx)) cell
        × (look_over r level listed unlisted bx ≡ or_else (listed cell) unlisted)) }
{
    states_have_cells();
}
