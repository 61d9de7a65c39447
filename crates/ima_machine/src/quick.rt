ghost use Rattle.std.specs.Prelude.{◌≡◌, ℕ, ◌-◌, ◌+◌, ◌*◌, ◌^◌, ◌<◌, ◌≤◌, ℤ, ◌-ℤ◌, length, get_or, min, unsigned_abs};
ghost use Rattle.adpcm_nums.specs.Sample.{IsSample};
ghost use Rattle.adpcm_nums.specs.LeastValue.{least};
ghost use Rattle.machine_core.specs.Floors.{top};
ghost use Rattle.ima_machine.specs.Rows.{ahead_of, paid_ahead};
ghost use Rattle.ima_machine.specs.Quick.{miss_of, small_miss, ends_of, half_cost, quick_open, quick_paid};

use crate::costs::{end_cost, half_up};
use crate::steps::{distance, step_size};

/// How far a code's distance is from what the targets rise or fall.
#[tactic(auto, unfolding(crate::specs::Quick::miss_of))]
fn miss(index: u32, code: u32, rise: u32) -> u32
    requires index { index < 89 }
    requires rise { rise ≤ 65535 }
    ensures value { result ≡ miss_of index code rise }
    ensures small { result ≤ 65535 }
{
    distance(step_size(index), code).abs_diff(rise)
}

/// The least over the four codes that lower the index.
#[tactic(auto, unfolding(crate::specs::Quick::small_miss))]
fn small_miss(index: u32, rise: u32) -> u32
    requires index { index < 89 }
    requires rise { rise ≤ 65535 }
    ensures value { result ≡ small_miss index rise }
    ensures small { result ≤ 65535 }
{
    miss(index, 0, rise)
        .min(miss(index, 1, rise))
        .min(miss(index, 2, rise).min(miss(index, 3, rise)))
}

/// What the nearer end costs.
#[tactic(auto, unfolding(crate::specs::Quick::ends_of))]
fn ends_cost(here: i32) -> u64
    requires { IsSample here }
    ensures value { result ≡ ends_of here }
    ensures small { result ≤ 2 ^ 32 }
{
    end_cost(0, here).min(end_cost(8, here))
}

/// The square of a number.
fn squared(n: u32) -> u64
    requires { n ≤ 65535 }
    ensures value { result ≡ n * n }
    ensures small { result ≤ 2 ^ 40 }
{
    u64::from(n) * u64::from(n)
}

/// What a miss costs, if no more than an end.
#[tactic(auto, unfolding(crate::specs::Quick::half_cost))]
fn half_cost(ends: u64, miss: u32) -> u64
    requires { miss ≤ 65535 }
    ensures value { result ≡ half_cost ends miss }
    ensures small { result ≤ ends }
{
    half_up(squared(miss)).min(ends)
}

/// What the targets of two places in a row rise or fall.
fn rise(before: i32, here: i32) -> u32
    requires before { IsSample before }
    requires here { IsSample here }
    ensures value { result ≡ unsigned_abs (here -ℤ before) }
    ensures small { result ≤ 65535 }
{
    (here - before).unsigned_abs()
}

/// A row's least over the five next indices.
#[tactic(auto, unfolding(crate::specs::Quick::quick_open))]
fn quick_open(index: usize, row: &[u64]) -> u64
    requires index { index < 89 }
    requires row { length row.now ≡ 89 }
    ensures { result ≡ quick_open row.now index }
{
    row[index.saturating_sub(1)]
        .min(row[(index + 2).min(88)])
        .min(row[(index + 4).min(88)])
        .min(row[(index + 6).min(88)])
        .min(row[(index + 8).min(88)])
}

/// What a miss costs, and what a row says ahead of it.
fn paid_at(ends: u64, miss: u32, row: &[u64], next: usize) -> u64
    requires ends { ends ≤ 2 ^ 32 }
    requires miss { miss ≤ 65535 }
    requires next { next < 89 }
    requires row { length row.now ≡ 89 }
    requires small { (i : ℕ) → i < 89 → get_or row.now i 0 ≤ 2 ^ 60 }
    ensures { result ≡ half_cost ends miss + get_or row.now next 0 }
{
    half_cost(ends, miss) + row[next]
}

/// The same with what the codes' misses cost.
#[tactic(auto, unfolding(crate::specs::Quick::quick_paid))]
fn quick_paid(rise: u32, ends: u64, index: u32, row: &[u64]) -> u64
    requires rise { rise ≤ 65535 }
    requires ends { ends ≤ 2 ^ 32 }
    requires index { index < 89 }
    requires row { length row.now ≡ 89 }
    requires small { (i : ℕ) → i < 89 → get_or row.now i 0 ≤ 2 ^ 60 }
    ensures { result ≡ quick_paid rise ends row.now index }
{
    let at = index as usize;
    paid_at(ends, small_miss(index, rise), row, at.saturating_sub(1))
        .min(paid_at(ends, miss(index, 4, rise), row, (at + 2).min(88)))
        .min(paid_at(ends, miss(index, 5, rise), row, (at + 4).min(88)))
        .min(paid_at(ends, miss(index, 6, rise), row, (at + 6).min(88)))
        .min(paid_at(ends, miss(index, 7, rise), row, (at + 8).min(88)))
}

/// The least that a row says ahead of any code, by the index before the code.
pub(crate) fn open_floor(index: usize, ahead: &[u64]) -> u64
    requires index { index < 89 }
    requires ahead { length ahead.now ≡ 89 }
    ensures { result ≡ least 16 (ahead_of ahead.now index) top }
{
    quick_open(index, ahead)
}

/// A row of these numbers.
pub(crate) fn open_row(ahead: &[u64]) -> [u64; 89]
    requires { length ahead.now ≡ 89 }
    ensures size { length result ≡ 89 }
    ensures each { (i : ℕ) → i < 89 → get_or result i 0 ≡ least 16 (ahead_of ahead.now i) top }
{
    let mut row = [0; 89];
    for index in 0..89usize {
        row[index] = open_floor(index, ahead);
    }
    row
}

/// A row with the floors of the pair of places that the codes end.
pub(crate) fn paid_row(before: i32, here: i32, ahead: &[u64]) -> [u64; 89]
    requires before { IsSample before }
    requires here { IsSample here }
    requires ahead { length ahead.now ≡ 89 }
    requires small { (i : ℕ) → i < 89 → get_or ahead.now i 0 ≤ 2 ^ 60 }
    ensures size { length result ≡ 89 }
    ensures each { (i : ℕ) → i < 89 → get_or result i 0 ≡ least 16 (paid_ahead before here ahead.now i) top }
{
    let rise = rise(before, here);
    let ends = ends_cost(here);
    let mut row = [0; 89];
    for index in 0..89u32 {
        row[index as usize] = quick_paid(rise, ends, index, ahead);
    }
    row
}
