//! Bounds of quiet samples: those of tests/outside/strong_bound.cpp.

use crate::fixtures::targets;
use brr_machine::Brr;
use spu_machine::Spu;
use strong_bound::strong_bound;

/// Two blocks of zeros are met, and a block of ones costs 16, since twice an output is even.
#[test]
fn ones(rt: HostRuntime) {
    let targets = targets(&[
        0, 0, 0, 0, 0, 0, 0, 0, 0, 0, 0, 0, 0, 0, 0, 0, 0, 0, 0, 0, 0, 0, 0, 0, 0, 0, 0, 0, 0, 0,
        0, 0, 1, 1, 1, 1, 1, 1, 1, 1, 1, 1, 1, 1, 1, 1, 1, 1,
    ]);
    assert_eq!(rt; strong_bound(&Brr, None, &targets, 3, 500), 16);
}

/// Two blocks of zeros, and one of noise.
#[test]
fn noise_in_brr(rt: HostRuntime) {
    let targets = targets(&[
        0, 0, 0, 0, 0, 0, 0, 0, 0, 0, 0, 0, 0, 0, 0, 0, 0, 0, 0, 0, 0, 0, 0, 0, 0, 0, 0, 0, 0, 0,
        0, 0, -20, 13, -12, -20, -21, -21, 25, 25, 20, 18, 15, -20, -13, -13, 3, 17,
    ]);
    assert_eq!(rt; strong_bound(&Brr, None, &targets, 3, 500), 14);
}

/// The same in SPU-ADPCM.
#[test]
fn noise_in_spu(rt: HostRuntime) {
    let targets = targets(&[
        0, 0, 0, 0, 0, 0, 0, 0, 0, 0, 0, 0, 0, 0, 0, 0, 0, 0, 0, 0, 0, 0, 0, 0, 0, 0, 0, 0, 0, 0,
        0, 0, 0, 0, 0, 0, 0, 0, 0, 0, 0, 0, 0, 0, 0, 0, 0, 0, 0, 0, 0, 0, 0, 0, 0, 0, -14, -3, 16,
        -5, 1, 8, 8, 8, 9, 2, 13, 16, -16, 1, -19, -20, -11, 9, 0, -1, -14, 7, -12, 4, -12, 3, 20,
        -9,
    ]);
    assert_eq!(rt; strong_bound(&Spu, None, &targets, 3, 500), 25);
}
