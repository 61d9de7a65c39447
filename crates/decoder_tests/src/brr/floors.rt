ghost use Rattle.std.specs.Prelude.{◌<◌};
ghost use Rattle.adpcm_nums.specs.Sample.{AreSamples};

use crate::fixtures::targets;
use brr_machine::Brr;
use machine_core::{Machine, fill_rests, floor_of_blocks};

/// A slope that is broken at each third target. Its floors are those that tests/outside/brr_machine.py finds.
const SLOPE: [i16; 48] = [
    0, 977, 1954, -2931, 3908, 4885, -862, 1839, 2816, -3793, 4770, 747, -1724, 2701, 3678, -4655,
    632, 1609, -2586, 3563, 4540, -517, 1494, 2471, -3448, 4425, 402, -1379, 2356, 3333, -4310,
    287, 1264, -2241, 3218, 4195, -172, 1149, 2126, -3103, 4080, 57, -1034, 2011, 2988, -3965,
    4942, 919,
];

/// Zeros, then 2 and 6144 in turn, then ones.
const STEPS: [i16; 48] = [
    0, 0, 0, 0, 0, 0, 0, 0, 0, 0, 0, 0, 0, 0, 0, 0, 2, 6144, 2, 6144, 2, 6144, 2, 6144, 2, 6144, 2,
    6144, 2, 6144, 2, 6144, 1, 1, 1, 1, 1, 1, 1, 1, 1, 1, 1, 1, 1, 1, 1, 1,
];

/// The floors under what comes from each of three blocks on, and the floor under all.
fn rests(loop_block: Option<u32>, targets: &[i32; 48]) -> ([u64; 4], u64)
    requires { AreSamples targets.now }
{
    let mut rests = [0u64; 4];
    fill_rests(&Brr, loop_block, targets, &mut rests);
    (rests, floor_of_blocks(&Brr, loop_block, targets, 3))
}

#[test]
fn floors_as_a_program_that_tries_everything(rt: HostRuntime) {
    let slope = targets(&SLOPE);
    for (loop_block, want) in [
        (None, [1493093, 311533, 250120, 0]),
        (Some(1), [3339736, 2158176, 250120, 0]),
        (Some(2), [1493093, 311533, 250120, 0]),
    ] {
        assert_eq!(rt; rests(loop_block, &slope), (want, want[0]));
    }
    assert_eq!(rt; rests(None, &targets(&STEPS)), ([16, 16, 16, 0], 16));
}

/// A loud block. Its floors are those that tests/outside/brr_floors.py finds, which tries every code, rounding and wrap.
const LOUD: [i16; 16] = [
    -3260, 3496, 14736, -18100, 10515, -3679, -16602, -9721, -12581, 4365, 10740, -3841, 4953,
    15635, -13318, -4321,
];

/// A head, a place, and the floor from there on.
const FLOORS: [(u32, usize, u64); 11] = [
    (20, 0, 1_762_630_449),
    (20, 15, 16_524_225),
    (37, 0, 422_626_553),
    (37, 1, 417_937_384),
    (37, 3, 90_399_780),
    (42, 0, 100_383_490),
    (42, 3, 100_381_650),
    (42, 14, 1),
    (47, 0, 54_700_408),
    (47, 16, 0),
    (57, 2, 475_976_077),
];

/// The floor from a place on under a head.
fn floor_from(head: u32, place: usize, targets: &[i32; 16]) -> u64
    requires head { head < 64 }
    requires place { place < 17 }
    requires range { AreSamples targets.now }
{
    let mut table = [0; 17];
    Brr.fill_floor(head, targets, &mut table);
    table[place]
}

#[test]
fn floors_of_a_loud_block(rt: HostRuntime) {
    let loud = targets(&LOUD);
    for (head, place, floor) in FLOORS {
        assert_eq!(rt;
            floor_from(head % 64, place % 17, &loud),
            floor,
            "under head {head} from {place} on"
        );
    }
    assert_eq!(rt; floor_from(48, 15, &targets(&[32767; 16])), 16_769_025);
}
