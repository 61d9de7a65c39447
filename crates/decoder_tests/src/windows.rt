//! Values of tests/outside/window_floor.py, which tries every sample, rounding and wrap.

ghost use Rattle.std.specs.Prelude.{pos, ◌≤ℤ◌};

use window_floor::{Quantizer, Window, linear_floor, quantizer_floor};

/// `15/16` of the last output, which counts twice and wraps.
fn wrapping_pair() -> Window {
    Window {
        d: 16,
        ca: 15,
        cb: 0,
        bias: 0,
        errs: 15,
        scale: 2,
        norm: 481,
        wraps: true,
    }
}

/// `115/64` of the last output less `52/64` of the one before it; outputs count twice and wrap.
fn wrapping_triple() -> Window {
    Window {
        d: 64,
        ca: 115,
        cb: -52,
        bias: 0,
        errs: 123,
        scale: 2,
        norm: 20025,
        wraps: true,
    }
}

/// `60/64` of the last output, rounded to the nearest number.
fn plain_pair() -> Window {
    Window {
        d: 64,
        ca: 60,
        cb: 0,
        bias: 32,
        errs: 63,
        scale: 1,
        norm: 7696,
        wraps: false,
    }
}

/// `98/64` of the last output less `55/64` of the one before it, rounded to the nearest number.
fn plain_triple() -> Window {
    Window {
        d: 64,
        ca: 98,
        cb: -55,
        bias: 32,
        errs: 63,
        scale: 1,
        norm: 16725,
        wraps: false,
    }
}

/// The quantizer of all sixteen codes.
fn sixteen(step: i64) -> Quantizer
    requires low { pos 1 ≤ℤ step }
    requires high { step ≤ℤ pos 4096 }
{
    Quantizer {
        step,
        low: -8,
        high: 7,
    }
}

/// The multiples of 32 for all sixteen codes.
const BY_32: [i32; 16] = [
    0, 32, 64, 96, 128, 160, 192, 224, -256, -224, -192, -160, -128, -96, -64, -32,
];

/// The multiples of 256.
const BY_256: [i32; 16] = [
    0, 256, 512, 768, 1024, 1280, 1536, 1792, -2048, -1792, -1536, -1280, -1024, -768, -512, -256,
];

#[test]
fn tried_samples(rt: HostRuntime) {
    assert_eq!(rt;
        linear_floor(wrapping_pair(), &BY_32, [-1, 0], [0, 480, 405]),
        193
    );
    assert_eq!(rt;
        linear_floor(wrapping_pair(), &BY_32, [-1, 0], [0, 1288, -19463]),
        216237256
    );
    assert_eq!(rt;
        linear_floor(wrapping_triple(), &BY_32, [-1, 0], [-167, -847, -789]),
        4558
    );
    assert_eq!(rt;
        linear_floor(plain_pair(), &BY_256, [32767, -32768], [0, -5420, -6578]),
        800
    );
    assert_eq!(rt;
        linear_floor(plain_triple(), &BY_256, [32767, -32768], [-811, 285, 60]),
        586
    );
}

#[test]
fn clamped_outputs(rt: HostRuntime) {
    assert_eq!(rt;
        linear_floor(wrapping_pair(), &BY_32, [-1, 0], [0, -30000, -2]),
        0
    );
    assert_eq!(rt;
        linear_floor(plain_pair(), &BY_256, [32767, -32768], [0, 5, 32766]),
        1
    );
    assert_eq!(rt;
        linear_floor(plain_pair(), &BY_256, [32767, -32768], [0, 5, -32768]),
        0
    );
}

#[test]
fn tried_levels(rt: HostRuntime) {
    assert_eq!(rt;
        quantizer_floor(wrapping_pair(), sixteen(32), [-1, 0], [0, 480, 405]),
        193
    );
    assert_eq!(rt;
        quantizer_floor(
            wrapping_triple(),
            sixteen(32),
            [-1, 0],
            [-16374, 9062, 29413]
        ),
        66
    );
    assert_eq!(rt;
        quantizer_floor(
            plain_triple(),
            sixteen(256),
            [32767, -32768],
            [31734, 20307, -22091]
        ),
        113998329
    );
}

#[test]
fn coarse_levels(rt: HostRuntime) {
    assert_eq!(rt;
        quantizer_floor(wrapping_pair(), sixteen(1024), [-1, 0], [0, 2, 6144]),
        0
    );
    let two = Quantizer {
        step: 2048,
        low: -1,
        high: 0,
    };
    assert_eq!(rt;
        quantizer_floor(wrapping_pair(), two, [-1, 0], [0, 0, 100]),
        5323
    );
}
