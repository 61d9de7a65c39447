ghost use Rattle.std.specs.Prelude.{◌<◌, ◌^◌};
ghost use Rattle.adpcm_nums.specs.Sample.{IsSample, AreSamples};

use adpcm_nums::{Span, clamp16};
use ima_machine::Ima;
use machine_core::{Bx, HeadRule, Machine};
use std::test::*;

/// Places and step indices, and the floors from there on of the walk below: those that tests/outside/ima_chain.py finds.
const FLOORS: [(usize, usize, u64); 7] = [
    (0, 0, 55525),
    (0, 30, 37402),
    (0, 88, 22969633),
    (1, 40, 37764),
    (2, 40, 37569),
    (250, 50, 20546),
    (251, 50, 20405),
];

/// The next number of a linear congruence.
fn congruence(state: u64) -> u64
    requires { state < 2 ^ 32 }
    ensures { result < 2 ^ 32 }
{
    (state * 1664525 + 1013904223) % 4294967296
}

/// The next sample of a walk of small steps.
fn walked(value: i32, state: u64) -> i32
    requires { state < 2 ^ 32 }
    ensures { IsSample result }
{
    clamp16(i64::from(value) + (state / 4194304) as i64 - 512)
}

/// A walk of small random steps.
fn walk() -> [i32; 505]
    ensures { AreSamples result }
{
    let mut state: u64 = 1;
    let mut value = 0;
    let mut out = [0; 505];
    for i in 0..505usize {
        state = congruence(state);
        value = walked(value, state);
        out[i] = value;
    }
    out
}

#[test]
fn floors_as_another_program(rt: HostRuntime) -> Result<(), Fail> {
    let ima = Ima::new(256).ok_or("256 bytes")?;
    let targets = walk();
    let mut table = [0; 44945];
    ima.fill_floor(0, &targets, &mut table);
    for (place, index, floor) in FLOORS {
        assert_eq!(rt;
            table[(89 * place + index) % 44945],
            floor,
            "at {place} and {index}"
        );
    }
    assert_eq!(rt; ima.block_floor(HeadRule::AnyHead, &targets), 37325);
    let one = Bx {
        a: Span { lo: -5, hi: 9 },
        b: Span { lo: 40, hi: 40 },
    };
    assert_eq!(rt; ima.floor_at(7, 1, one, &table), 37764);
    assert_eq!(rt; ima.floor_at(30, 0, one, &table), 37402);
    Ok(())
}
