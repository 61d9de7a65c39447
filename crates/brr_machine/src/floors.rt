ghost use Rattle.std.specs.Prelude.{◌≡◌, ◌≤◌, ◌<◌, ◌*◌, ◌-◌, ◌^◌, ℕ, ℤ, List, length, get_or};
ghost use Rattle.adpcm_nums.specs.Sample.{AreSamples};
ghost use Rattle.machine_core.specs.declared.state.State.{State};
ghost use Rattle.machine_core.specs.Decoder.{miss};
ghost use Rattle.machine_core.specs.Rules.{tail_cost};
ghost use Rattle.window_floor.specs.Numbers.{StandFor, windows_of};
ghost use Rattle.brr_machine.specs.Brr.{brr, shift_of};
ghost use Rattle.brr_machine.specs.Floors.{samples_under, brr_windows, brr_floor};

use crate::levels::quantizer;
use crate::row::row;
use window_floor::BlockWindows;

/// The windows of a block under a head. Clamping gives 32767 and -32768, wrapped to 15 bits.
pub(crate) fn windows(head: u32) -> BlockWindows
    requires { head < 64 }
    ensures samples { StandFor result (samples_under (shift_of head)) }
    ensures windows { windows_of result (samples_under (shift_of head)) ≡ brr_windows head }
{
    BlockWindows {
        places: 16,
        row: row(head % 4),
        levels: quantizer(head / 4),
        ends: [-1, 0],
    }
}

/// Fills the table of a block's floors under a head: at each place the floor from there on, and 0 at the end.
#[tactic(auto, unfolding(crate::specs::Floors::brr_floor))]
pub(crate) fn fill_floors(head: u32, targets: &[i32], table: &mut [u64])
    requires head { head < 64 }
    requires count { length targets.now ≡ 16 }
    requires targets { AreSamples targets.now }
    requires table { length table.old ≡ 17 }
    ensures size { length table.new ≡ 17 }
    ensures floors { (p : ℕ) → p ≤ 16 → get_or table.new p 0 ≡ brr_floor head p targets.now }
{
    window_floor::fill_floors(windows(head), targets, table);
}

/// The floor from a place on is no more than what any codes cost there, whatever the state.
pub fn floors_hold()
    ensures { (head p : ℕ) (targets : List ℤ) (symbol : ℕ → ℕ) (at : State) → p < 16 → ((q : ℕ) → q < 16 → symbol q < 16) → brr_floor head p targets ≤ tail_cost brr (miss brr targets) head symbol p at (16 - p) }
{}

/// Floors are far below what a sum of 64 bits holds.
pub fn floors_fit()
    ensures { (head p : ℕ) (targets : List ℤ) → AreSamples targets → brr_floor head p targets ≤ 16 * 2 ^ 34 }
{}
