ghost use Rattle.std.specs.Prelude.{◌≡◌, ◌≤◌, ◌<◌, ◌-◌, ◌/◌, ◌%◌, ◌^◌, ◌-ℤ◌, ◌*ℤ◌, ℤ, pos, negsuc, ◌≤ℤ◌, List, length, take, get_or, true, false};
ghost use Rattle.std.specs.Int.{int_min, int_max};
ghost use Rattle.window_floor.specs.Numbers.{StandFor, windows_of};
ghost use Rattle.block_bounds.specs.Covers.{AreSteps};
ghost use Rattle.block_bounds.specs.Steps.{top_wrap, number_at, moved_by, step_value};

use crate::products::scaled;
use adpcm_nums::multiple;
use window_floor::{BlockWindows, Quantizer, Window};

/// `step * n`, a level.
pub(crate) fn level_of(step: i64, n: i64) -> i64
    requires step_low { pos 1 ≤ℤ step }
    requires step_high { step ≤ℤ pos 4096 }
    requires n_low { negsuc 7 ≤ℤ n }
    requires n_high { n ≤ℤ pos 7 }
    ensures value { result ≡ step *ℤ n }
    ensures low { negsuc (2 ^ 16) ≤ℤ result }
    ensures high { result ≤ℤ pos (2 ^ 16) }
{
    step * n
}

/// A level less `k` wraps.
fn lowered(level: i64, k: i64) -> i64
    requires low { negsuc (2 ^ 16) ≤ℤ level }
    requires high { level ≤ℤ pos (2 ^ 16) }
    requires k_low { negsuc 1 ≤ℤ k }
    requires k_high { k ≤ℤ pos 1 }
    ensures value { result ≡ level -ℤ pos 32768 *ℤ k }
    ensures low { negsuc (2 ^ 17) ≤ℤ result }
    ensures high { result ≤ℤ pos (2 ^ 17) }
{
    level - 32768 * k
}

/// A level less a number of wraps, as it moves a row: `scale * (d * (step * n - 32768 * k))`.
fn moved(b: BlockWindows, n: i64, k: i64) -> i64
    requires n_low { negsuc 7 ≤ℤ n }
    requires n_high { n ≤ℤ pos 7 }
    requires k_low { negsuc 1 ≤ℤ k }
    requires k_high { k ≤ℤ pos 1 }
    ensures value { result ≡ moved_by b n k }
    ensures low { negsuc (2 ^ 42) ≤ℤ result }
    ensures high { result ≤ℤ pos (2 ^ 42) }
{
    let level = level_of(b.levels.step, n);
    let part = scaled(b.row.d, lowered(level, k));
    multiple(b.row.scale, part)
}

/// The greatest number of wraps.
fn most_wraps(w: Window) -> i64
    ensures value { result ≡ top_wrap w.wraps }
    ensures low { pos 0 ≤ℤ result }
    ensures high { result ≤ℤ pos 1 }
{
    if w.wraps { 1 } else { 0 }
}

/// A number of sixteen, -8 to 7.
fn digit_of(i: usize) -> i64
    ensures value { result ≡ pos (i % 16) -ℤ pos 8 }
    ensures low { negsuc 7 ≤ℤ result }
    ensures high { result ≤ℤ pos 7 }
{
    (i % 16) as i64 - 8
}

/// The number of the levels that is nearest to `n`.
fn within(levels: Quantizer, n: i64) -> i64
    ensures value { result ≡ int_max (int_min n levels.high) levels.low }
    ensures low { levels.low ≤ℤ result }
    ensures high { result ≤ℤ levels.high }
{
    n.min(levels.high).max(levels.low)
}

/// The code's number of the i-th step: past an end of the levels it is that end.
fn number_of(b: BlockWindows, i: usize) -> i64
    ensures value { result ≡ number_at b i }
    ensures low { negsuc 7 ≤ℤ result }
    ensures high { result ≤ℤ pos 7 }
{
    within(b.levels, digit_of(i))
}

/// The number of wraps of the i-th step.
fn wraps_of(b: BlockWindows, i: usize) -> i64
    requires { i < 48 }
    ensures value { result ≡ top_wrap b.row.wraps -ℤ pos (i / 16) }
    ensures low { negsuc 1 ≤ℤ result }
    ensures high { result ≤ℤ pos 1 }
{
    most_wraps(b.row) - (i / 16) as i64
}

/// The i-th of the steps, with some of them more than once: sixteen numbers a wrap.
fn step_at(b: BlockWindows, i: usize) -> i64
    requires { i < 48 }
    ensures value { result ≡ step_value b i }
    ensures low { negsuc (2 ^ 42) ≤ℤ result }
    ensures high { result ≤ℤ pos (2 ^ 42) }
{
    moved(b, number_of(b, i), wraps_of(b, i))
}

/// Whether a step is the last one of those so far.
fn is_last(steps: &[i64], count: usize, step: i64) -> bool
    requires { count ≤ length steps.now }
    ensures some { result ≡ true → 0 < count }
    ensures same { result ≡ true → get_or steps.now (count - 1) (pos 0) ≡ step }
{
    count > 0 && steps[count - 1] == step
}

/// How many numbers there are, with some of them more than once.
fn count_of(w: Window) -> usize
    ensures wraps { w.wraps ≡ true → result ≡ 48 }
    ensures plain { w.wraps ≡ false → result ≡ 16 }
    ensures most { result ≤ 48 }
{
    if w.wraps { 48 } else { 16 }
}

/// The steps of a block's layers, in their order and each once, and how many they are.
pub(crate) fn steps_of(b: BlockWindows) -> ([i64; 48], usize)
    ensures few { result.1 ≤ 48 }
    ensures steps { (samples : List ℤ) → StandFor b samples → AreSteps (windows_of b samples) (take result.1 result.0) }
{
    let mut steps = [0i64; 48];
    let mut count = 0usize;
    for i in 0..count_of(b.row) {
        let step = step_at(b, i);
        if !is_last(&steps, count, step) {
            steps[count] = step;
            count += 1;
        }
    }
    (steps, count)
}
