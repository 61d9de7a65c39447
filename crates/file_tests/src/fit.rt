//! Sounds and their loops, fitted to whole blocks.

use adpcm_nums::{LoopAt, Samples};
use loop_fit::{FitRule, Length, Start, fit, segments};
use machine_core::Kind;
use std::test::*;

const BRR: FitRule = FitRule {
    kind: Kind::Brr,
    block: 16,
    length: Length::Unroll,
    start: Start::Front,
};

// Frames 5 to 20 are the loop.
const SOUND: [i32; 21] = [
    1, 2, 3, 4, 5, 6, 7, 8, 9, 10, 11, 12, 13, 14, 15, 16, 17, 18, 19, 20, 21,
];

const FRONT: [i32; 32] = [
    0, 0, 0, 0, 0, 0, 0, 0, 0, 0, 0, 1, 2, 3, 4, 5, 6, 7, 8, 9, 10, 11, 12, 13, 14, 15, 16, 17, 18,
    19, 20, 21,
];

const ROTATED: [i32; 32] = [
    1, 2, 3, 4, 5, 6, 7, 8, 9, 10, 11, 12, 13, 14, 15, 16, 17, 18, 19, 20, 21, 6, 7, 8, 9, 10, 11,
    12, 13, 14, 15, 16,
];

#[test]
fn starts(rt: HostRuntime) -> Result<(), Fail> {
    let alloc = rt.alloc();
    let samples = Samples::copy_of(alloc, &SOUND).ok().ok_or("memory")?;
    let at = Some(LoopAt { start: 5, end: 20 });
    let front = fit(alloc, samples.as_slice(), at, BRR).ok().ok_or("a fit")?;
    assert_eq!(rt; front.targets.as_slice(), FRONT.as_slice());
    assert!(rt; front.loop_block == Some(1) && front.front == 11);
    let rotated = fit(
        alloc,
        samples.as_slice(),
        at,
        FitRule {
            start: Start::Rotate,
            ..BRR
        },
    )
    .ok()
    .ok_or("a fit")?;
    assert_eq!(rt; rotated.targets.as_slice(), ROTATED.as_slice());
    assert!(rt; rotated.loop_block == Some(1) && rotated.front == 0);
    Ok(())
}

#[test]
fn lists_segments(rt: HostRuntime) -> Result<(), Fail> {
    let looped = segments(rt.alloc(), Kind::Brr, 3, Some(1))
        .ok()
        .ok_or("memory")?;
    assert_eq!(rt; looped.as_slice(), [1, 2].as_slice());
    let single = segments(rt.alloc(), Kind::Ima, 3, None)
        .ok()
        .ok_or("memory")?;
    assert_eq!(rt; single.as_slice(), [1, 1, 1].as_slice());
    Ok(())
}
