ghost use Rattle.std.specs.Prelude.{◌≡◌, ◌≤◌, ◌<◌, ℕ, length, get_or};
ghost use Rattle.adpcm_nums.specs.Sample.{AreSamples};
ghost use Rattle.window_floor.specs.Numbers.{StandFor, windows_of};
ghost use Rattle.spu_machine.specs.Spu.{shift_of};
ghost use Rattle.spu_machine.specs.Floors.{samples_under, spu_windows, spu_floor};

use crate::levels::quantizer;
use crate::row::row;
use window_floor::BlockWindows;

/// The windows of a block under a head.
pub(crate) fn windows(head: u32) -> BlockWindows
    requires { head < 80 }
    ensures samples { StandFor result (samples_under (shift_of head)) }
    ensures windows { windows_of result (samples_under (shift_of head)) ≡ spu_windows head }
{
    BlockWindows {
        places: 28,
        row: row(head / 16),
        levels: quantizer(head % 16),
        ends: [32767, -32768],
    }
}

/// Fills the table of a block's floors under a head: at each place the floor from there on, and 0 at the end.
#[tactic(auto, unfolding(crate::specs::Floors::spu_floor))]
pub(crate) fn fill_floors(head: u32, targets: &[i32], table: &mut [u64])
    requires head { head < 80 }
    requires count { length targets.now ≡ 28 }
    requires targets { AreSamples targets.now }
    requires table { length table.old ≡ 29 }
    ensures size { length table.new ≡ 29 }
    ensures floors { (p : ℕ) → p ≤ 28 → get_or table.new p 0 ≡ spu_floor head p targets.now }
{
    window_floor::fill_floors(windows(head), targets, table);
}
