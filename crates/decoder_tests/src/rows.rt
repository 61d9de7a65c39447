//! Bounds of one block by rows: sums by hand, and a value of a plain program in another language.

ghost use Rattle.std.specs.Prelude.{◌≡◌, pos, negsuc, false};
ghost use Rattle.adpcm_nums.specs.Ranges.{IsWithin};

use block_bounds::head_bound;
use row_bound::{Layer, Row, block_bound};
use window_floor::{BlockWindows, Quantizer, Window};

/// The row `2 z - x` from `low` to `high`, where z counts twice.
fn doubled(low: i8, high: i8) -> Row
    ensures free { result.known ≡ false }
    ensures weight { result.weight ≡ 2 }
    ensures low { IsWithin result.low (negsuc 127) (pos 127) }
    ensures high { IsWithin result.high (negsuc 127) (pos 127) }
{
    Row {
        d: 2,
        a: 1,
        b: 0,
        low: i64::from(low),
        high: i64::from(high),
        weight: 2,
        known: false,
        out: 0,
    }
}

/// One place with that row, or an error of 9.
fn place(low: i8, high: i8) -> Layer {
    Layer {
        base: doubled(low, high),
        first: NINE,
        second: NINE,
    }
}

/// An error of 9.
const NINE: Row = Row {
    d: 0,
    a: 0,
    b: 0,
    low: 0,
    high: 0,
    weight: 2,
    known: true,
    out: 9,
};

/// Of `2 z - x = 10` the least of `x² + 2 z²` is `100 / (4 / 2 + 1 / 1)`, so whole numbers cost at least 34, and z = 3 with
/// x = -4 does. Where 0 is in the interval, nothing costs anything.
#[test]
fn one_row_by_hand(rt: HostRuntime) {
    assert_eq!(rt; block_bound(&[place(10, 10)], &[0], 1, 1000, 10), 34);
    assert_eq!(rt; block_bound(&[place(-5, 5); 3], &[0, 3], 1, 1000, 10), 0);
}

/// Noise under one head of BRR. The value is that of a plain program in another language.
#[test]
fn noise_under_a_head(rt: HostRuntime) {
    let windows = BlockWindows {
        places: 16,
        row: Window {
            d: 32,
            ca: 61,
            cb: -30,
            bias: 0,
            errs: 61,
            scale: 2,
            norm: 5645,
            wraps: true,
        },
        levels: Quantizer {
            step: 2048,
            low: -8,
            high: 7,
        },
        ends: [-1, 0],
    };
    let targets = [
        10498, 11073, -5262, -2655, 5796, -21544, 16440, 17093, 17185, -7125, 20448, -13271,
        -10961, -11592, 16573, -24241, -12469, 17852,
    ];
    let bound = head_bound(windows, &targets, 1, true, 1_000_000_000_000, 500);
    assert_eq!(rt; bound, 21_267_281);
}

/// By hand: under SPU's filter 1, where samples go from -4096 to 3584, an output 31128 leads to 32767 by clamping, at
/// 31128². Without clamping `64 z - 60 y` is 1867680 or 1834977 away from 0 where one of 0 leads to an end of 16 bits, and
/// `y² + 2 z²` at least that squared by `64² / 2 + 60²`. Samples up to 28672 clamp freely after 20000.
#[test]
fn clamped_outputs_by_hand(rt: HostRuntime) {
    let narrow = BlockWindows {
        places: 1,
        row: Window {
            d: 64,
            ca: 60,
            cb: 0,
            bias: 32,
            errs: 63,
            scale: 1,
            norm: 7696,
            wraps: false,
        },
        levels: Quantizer {
            step: 512,
            low: -8,
            high: 7,
        },
        ends: [32767, -32768],
    };
    let wide = BlockWindows {
        places: 1,
        row: narrow.row,
        levels: Quantizer {
            step: 4096,
            low: -8,
            high: 7,
        },
        ends: [32767, -32768],
    };
    let over = head_bound(narrow, &[0, 0, 32767], 1, false, 1 << 40, 500);
    let under = head_bound(narrow, &[0, 0, -32768], 1, false, 1 << 40, 500);
    let free = head_bound(wide, &[0, 20000, 32767], 1, false, 1 << 40, 500);
    assert_eq!(rt; over / 100_000, 6176);
    assert_eq!(rt; under / 100_000, 5961);
    assert_eq!(rt; free, 0);
}
