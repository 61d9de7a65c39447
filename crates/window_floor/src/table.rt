ghost use Rattle.std.specs.Prelude.{◌≡◌, ◌≤◌, ◌+◌, ◌*◌, ◌^◌, ℕ, ℤ, List, length, get_or, min};
ghost use Rattle.adpcm_nums.specs.Sample.{AreSamples};
ghost use Rattle.window_floor.specs.Numbers.{StandFor, windows_of};
ghost use Rattle.window_floor.specs.Windows.{floor_from};

use crate::block::BlockWindows;
use crate::places::own;

/// Fills the table of a block's floors: at each place the floor from there on, and 0 at the end.
pub fn fill_floors(b: BlockWindows, targets: &[i32], table: &mut [u64])
    requires count { length targets.now ≡ b.places }
    requires targets { AreSamples targets.now }
    requires table { length table.old ≡ b.places + 1 }
    ensures size { length table.new ≡ b.places + 1 }
    ensures floors { (samples : List ℤ) → StandFor b samples → (p : ℕ) → p ≤ b.places → get_or table.new p 0 ≡ floor_from (windows_of b samples) targets.now p }
{
    let mut sum = 0;
    let mut place = b.places;
    table[place] = sum;
    while place > 0 {
        place -= 1;
        sum += own(b, targets, place);
        table[place] = sum;
    }
}

/// The floor under a block where that is less than `most`, and else some number that is at least `most`: windows are
/// added up only as long as the sum may still be the least.
pub fn floor_below(b: BlockWindows, targets: &[i32], most: u64) -> u64
    requires count { length targets.now ≡ b.places }
    requires targets { AreSamples targets.now }
    ensures { (samples : List ℤ) → StandFor b samples → min result most ≡ min (floor_from (windows_of b samples) targets.now 0) most }
{
    let mut sum = 0;
    for place in 0..b.places {
        if sum >= most {
            return sum;
        }
        sum += own(b, targets, place);
    }
    sum
}
