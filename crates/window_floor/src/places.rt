ghost use Rattle.std.specs.Prelude.{◌≡◌, ◌≤◌, ◌<◌, ◌+◌, ◌-◌, ◌*◌, ◌%◌, ◌^◌, nat_le, ◌==◌, ℕ, ℤ, pos, List, length, get_or, min};
ghost use Rattle.adpcm_nums.specs.Sample.{IsSample, AreSamples};
ghost use Rattle.window_floor.specs.Row.{size_of};
ghost use Rattle.window_floor.specs.Quantizer.{AreLevels};
ghost use Rattle.window_floor.specs.Numbers.{row_of, StandFor, windows_of};
ghost use Rattle.window_floor.specs.Windows.{single_floor, sample_floor, one_window, two_window, three_window, window_at, own_at, floor_from};

use crate::block::BlockWindows;
use crate::floor::cost;
use crate::levels::quantizer_floor;
use crate::quantizer::Quantizer;
use crate::window::Window;

/// How far a target is from every multiple of the scale, squared: 1 for an odd target where outputs count twice, else 0.
fn single(w: Window, target: i32) -> u64
    ensures value { result ≡ single_floor (row_of w) target }
    ensures small { result ≤ 1 }
{
    if w.scale == 1 {
        0
    } else {
        u64::from(target.unsigned_abs() % 2)
    }
}

/// What the level costs that is nearest to a target.
fn nearest_cost(w: Window, levels: Quantizer, target: i32) -> u64
    requires { IsSample target }
    ensures value { (samples : List ℤ) → AreLevels levels.step levels.low levels.high samples → result ≡ sample_floor (row_of w) samples target }
    ensures small { result ≤ 2 ^ 34 }
{
    cost(w, levels.level(levels.nearest(w.scale, target)), target)
}

/// The floor of a window of one place, whose outputs are the levels.
fn one(b: BlockWindows, x: i32) -> u64
    requires { IsSample x }
    ensures value { (samples : List ℤ) → StandFor b samples → result ≡ one_window (windows_of b samples) x }
    ensures small { result ≤ 2 ^ 34 }
{
    nearest_cost(b.row, b.levels, x).max(single(b.row, x))
}

/// The floor of a window of two places.
fn two(b: BlockWindows, o: i32, x: i32) -> u64
    requires o { IsSample o }
    requires x { IsSample x }
    ensures value { (samples : List ℤ) → StandFor b samples → result ≡ two_window (windows_of b samples) o x }
    ensures small { result ≤ 2 ^ 34 }
{
    quantizer_floor(b.row, b.levels, b.ends, [0, o, x]).max(single(b.row, o) + single(b.row, x))
}

/// The floor of a window of three places.
fn three(b: BlockWindows, r: i32, o: i32, x: i32) -> u64
    requires r { IsSample r }
    requires o { IsSample o }
    requires x { IsSample x }
    ensures value { (samples : List ℤ) → StandFor b samples → result ≡ three_window (windows_of b samples) r o x }
    ensures small { result ≤ 2 ^ 34 }
{
    quantizer_floor(b.row, b.levels, b.ends, [r, o, x]).max(
        single(b.row, r) + single(b.row, o) + single(b.row, x),
    )
}

/// The first of the places that are left over when `places` places are cut into windows of this size.
fn first_left(size: usize, places: usize) -> usize
    requires some { 1 ≤ size }
    requires few { size ≤ 3 }
    ensures { result ≡ places - places % size }
{
    match size {
        1 => places,
        2 => places - places % 2,
        _ => places - places % 3,
    }
}

/// Whether a window of this size begins at a place that is not left over.
fn begins(size: usize, place: usize) -> bool
    requires some { 1 ≤ size }
    requires few { size ≤ 3 }
    ensures { result ≡ (place % size == 0) }
{
    match size {
        1 => true,
        2 => place % 2 == 0,
        _ => place % 3 == 0,
    }
}

/// The floor of the window that begins at a place.
#[tactic(auto, unfolding(crate::specs::Windows::window_at))]
fn window(b: BlockWindows, size: usize, targets: &[i32], place: usize) -> u64
    requires some { 1 ≤ size }
    requires few { size ≤ 3 }
    requires targets { AreSamples targets.now }
    requires inside { place + size ≤ length targets.now }
    ensures value { (samples : List ℤ) → StandFor b samples → result ≡ window_at (windows_of b samples) size targets.now place }
    ensures small { result ≤ 2 ^ 34 }
{
    match size {
        1 => one(b, targets[place]),
        2 => two(b, targets[place], targets[place + 1]),
        _ => three(b, targets[place], targets[place + 1], targets[place + 2]),
    }
}

/// The floor of the window or the single place that begins at a place of a block, or 0 where none does.
#[tactic(auto, unfolding(crate::specs::Windows::own_at, crate::specs::Cut::own_floor))]
pub(crate) fn own(b: BlockWindows, targets: &[i32], place: usize) -> u64
    requires count { length targets.now ≡ b.places }
    requires targets { AreSamples targets.now }
    requires place { place < b.places }
    ensures value { (samples : List ℤ) → StandFor b samples → result ≡ own_at (windows_of b samples) targets.now place }
    ensures small { result ≤ 2 ^ 34 }
{
    let size = b.row.size();
    if first_left(size, b.places) <= place {
        single(b.row, targets[place])
    } else if begins(size, place) {
        window(b, size, targets, place)
    } else {
        0
    }
}
