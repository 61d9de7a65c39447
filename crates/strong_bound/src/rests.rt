ghost use Rattle.std.specs.Prelude.{◌≡◌, ◌≤◌, ◌<◌, ◌+◌, ℕ, ℤ, List, take, length, get_or};
ghost use Rattle.adpcm_nums.specs.Sample.{AreSamples};
ghost use Rattle.window_floor.specs.Numbers.{StandFor, windows_of};
ghost use Rattle.window_floor.specs.Windows.{floor_from};
ghost use Rattle.strong_bound.specs.Quiet.{shortened};

use window_floor::{BlockWindows, fill_floors};

/// Adds numbers to the first ones of a table.
fn add_front(table: &mut [u64], front: &[u64])
    requires { length front.now ≤ length table.old }
    ensures size { length table.new ≡ length table.old }
    ensures front { (p : ℕ) → p < length front.now → get_or table.new p 0 ≤ get_or table.old p 0 + get_or front.now p 0 }
    ensures back { (p : ℕ) → length front.now ≤ p → get_or table.new p 0 ≡ get_or table.old p 0 }
{
    for place in 0..front.len() {
        table[place] = table[place].saturating_add(front[place]);
    }
}

/// Fills the table of bounds under what is counted from each place on, where the first `twice` places are counted twice:
/// the floors of all places, and once more those of the first ones alone.
pub(crate) fn fill_rests(
    b: BlockWindows,
    targets: &[i32],
    twice: usize,
    table: &mut [u64],
    front: &mut [u64],
)
    requires count { length targets.now ≡ b.places }
    requires targets { AreSamples targets.now }
    requires twice { twice ≤ b.places }
    requires table { length table.old ≡ b.places + 1 }
    requires front { length front.old ≡ twice + 1 }
    ensures size { length table.new ≡ b.places + 1 }
    ensures front { (samples : List ℤ) (p : ℕ) → StandFor b samples → p ≤ twice
        → get_or table.new p 0 ≤ floor_from (windows_of b samples) targets.now p + floor_from (shortened (windows_of b samples) twice) (take twice targets.now) p }
    ensures back { (samples : List ℤ) (p : ℕ) → StandFor b samples → twice < p → p ≤ b.places
        → get_or table.new p 0 ≤ floor_from (windows_of b samples) targets.now p }
{
    fill_floors(b, targets, table);
    let ends = b.ends;
    let shorter = BlockWindows {
        places: twice,
        row: b.row,
        levels: b.levels,
        ends,
    };
    fill_floors(shorter, &targets[..twice], front);
    add_front(table, front);
}
