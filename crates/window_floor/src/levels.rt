ghost use Rattle.std.specs.Prelude.{◌≡◌, ◌≤◌, ◌^◌, ℤ, pos, negsuc, ◌≤ℤ◌, ◌-ℤ◌, ◌*ℤ◌, List};
ghost use Rattle.adpcm_nums.specs.Sample.{AreSamples};
ghost use Rattle.window_floor.specs.Numbers.{row_of};
ghost use Rattle.window_floor.specs.Miss.{rounded_miss, least_miss};
ghost use Rattle.window_floor.specs.Floor.{floor_of_window};
ghost use Rattle.window_floor.specs.Quantizer.{AreLevels, IsAim, IsLevelMiss};

use crate::floor::floor_at;
use crate::miss::{WRAP, at_rounding, rho};
use crate::quantizer::Quantizer;
use crate::window::Window;
use adpcm_nums::{floor_div, multiple};

/// The greatest a with `scale * (d * a + bias)` at most `rho`. Of two samples on one side of it the nearer one does not
/// miss by more.
fn aim(w: Window, rho: i64) -> i64
    requires rho_low { negsuc (2 ^ 27) ≤ℤ rho }
    requires rho_high { rho ≤ℤ pos (2 ^ 27) }
    ensures aim { IsAim (row_of w) rho result }
    ensures low { negsuc (2 ^ 28) ≤ℤ result }
    ensures high { result ≤ℤ pos (2 ^ 28) }
{
    let bias = multiple(w.scale, w.bias);
    floor_div(rho - bias, multiple(w.scale, w.d))
}

/// The least miss over the roundings at a level, less `wraps` times a wrap.
fn at_level(w: Window, rho: i64, quantizer: Quantizer, n: i64, wraps: i32) -> u64
    requires rho_low { negsuc (2 ^ 27) ≤ℤ rho }
    requires rho_high { rho ≤ℤ pos (2 ^ 27) }
    requires low { quantizer.low ≤ℤ n }
    requires high { n ≤ℤ quantizer.high }
    requires wraps_low { negsuc 0 ≤ℤ wraps }
    requires wraps_high { wraps ≤ℤ pos 1 }
    ensures value { result ≡ rounded_miss (row_of w) rho (quantizer.step *ℤ n -ℤ pos 32768 *ℤ wraps) }
    ensures small { result ≤ 2 ^ 30 }
{
    at_rounding(w, rho, quantizer.level(n) - WRAP * wraps)
}

/// The least miss over the roundings and the levels, less `wraps` times a wrap: it is that of the last level up to
/// `aim`, or of the next one.
fn at_copy(w: Window, rho: i64, aim: i64, quantizer: Quantizer, wraps: i32) -> u64
    requires rho_low { negsuc (2 ^ 27) ≤ℤ rho }
    requires rho_high { rho ≤ℤ pos (2 ^ 27) }
    requires aim { IsAim (row_of w) rho aim }
    requires aim_low { negsuc (2 ^ 28) ≤ℤ aim }
    requires aim_high { aim ≤ℤ pos (2 ^ 28) }
    requires wraps_low { negsuc 0 ≤ℤ wraps }
    requires wraps_high { wraps ≤ℤ pos 1 }
    ensures miss { IsLevelMiss (row_of w) rho quantizer.step quantizer.low quantizer.high wraps wraps result }
    ensures small { result ≤ 2 ^ 30 }
{
    let n = quantizer.under(aim + i64::from(WRAP * wraps));
    let next = quantizer.next(n);
    at_level(w, rho, quantizer, n, wraps).min(at_level(w, rho, quantizer, next, wraps))
}

/// The least miss over the roundings, the levels and the levels less a wrap, where `plain` is that of the levels.
fn with_lower(w: Window, rho: i64, aim: i64, quantizer: Quantizer, plain: u64) -> u64
    requires rho_low { negsuc (2 ^ 27) ≤ℤ rho }
    requires rho_high { rho ≤ℤ pos (2 ^ 27) }
    requires aim { IsAim (row_of w) rho aim }
    requires aim_low { negsuc (2 ^ 28) ≤ℤ aim }
    requires aim_high { aim ≤ℤ pos (2 ^ 28) }
    requires plain { IsLevelMiss (row_of w) rho quantizer.step quantizer.low quantizer.high (pos 0) (pos 0) plain }
    requires small { plain ≤ 2 ^ 30 }
    ensures miss { IsLevelMiss (row_of w) rho quantizer.step quantizer.low quantizer.high (pos 0) (pos 1) result }
    ensures small { result ≤ 2 ^ 30 }
{
    if quantizer.beats_lower(aim) {
        plain
    } else {
        plain.min(at_copy(w, rho, aim, quantizer, 1))
    }
}

/// The least miss over the roundings, the wraps and the levels, where `lower` is that without a wrap added.
fn with_upper(w: Window, rho: i64, aim: i64, quantizer: Quantizer, lower: u64) -> u64
    requires rho_low { negsuc (2 ^ 27) ≤ℤ rho }
    requires rho_high { rho ≤ℤ pos (2 ^ 27) }
    requires aim { IsAim (row_of w) rho aim }
    requires aim_low { negsuc (2 ^ 28) ≤ℤ aim }
    requires aim_high { aim ≤ℤ pos (2 ^ 28) }
    requires lower { IsLevelMiss (row_of w) rho quantizer.step quantizer.low quantizer.high (pos 0) (pos 1) lower }
    requires small { lower ≤ 2 ^ 30 }
    ensures miss { IsLevelMiss (row_of w) rho quantizer.step quantizer.low quantizer.high (negsuc 0) (pos 1) result }
    ensures small { result ≤ 2 ^ 30 }
{
    if quantizer.beats_upper(aim) {
        lower
    } else {
        lower.min(at_copy(w, rho, aim, quantizer, -1))
    }
}

/// The least miss over the roundings, the wraps and the levels.
fn at_quantizer(w: Window, rho: i64, quantizer: Quantizer) -> u64
    requires rho_low { negsuc (2 ^ 27) ≤ℤ rho }
    requires rho_high { rho ≤ℤ pos (2 ^ 27) }
    ensures value { (samples : List ℤ) → AreLevels quantizer.step quantizer.low quantizer.high samples → result ≡ least_miss (row_of w) rho samples }
    ensures small { result ≤ 2 ^ 30 }
{
    let aim = aim(w, rho);
    let plain = at_copy(w, rho, aim, quantizer, 0);
    if w.wraps {
        let lower = with_lower(w, rho, aim, quantizer, plain);
        with_upper(w, rho, aim, quantizer, lower)
    } else {
        plain
    }
}

/// A floor under the squared errors of three places that a filter ties together, or of two where `w.cb` is 0, where the
/// sixteen codes of the last place stand for the levels of a quantizer, in any order, some more than once. It is found by
/// dividing in place of trying each (this project's own choice).
///
/// `ends` are the outputs that clamping may give at the last place. The targets stand in the order of the places; where
/// there are two places the first is 0.
pub fn quantizer_floor(w: Window, quantizer: Quantizer, ends: [i32; 2], targets: [i32; 3]) -> u64
    requires ends { AreSamples ends }
    requires targets { AreSamples targets }
    ensures value { (samples : List ℤ) → AreLevels quantizer.step quantizer.low quantizer.high samples → result ≡ floor_of_window (row_of w) samples ends targets }
    ensures small { result ≤ 2 ^ 34 }
{
    let rho = rho(w, targets[0], targets[1], targets[2]);
    floor_at(w, at_quantizer(w, rho, quantizer), ends, targets[2])
}
