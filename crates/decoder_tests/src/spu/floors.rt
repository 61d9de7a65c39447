ghost use Rattle.std.specs.Prelude.{◌<◌};

use crate::fixtures::targets;
use machine_core::{HeadRule, Machine};
use spu_machine::Spu;

/// A slope that is broken at each third target. Its floors are those that tests/outside/spu_machine.py finds.
const SLOPE: [i16; 28] = [
    0, 1977, 3954, -5931, 7908, 885, -2862, 4839, 6816, -8793, 1770, 3747, -5724, 7701, 678, -2655,
    4632, 6609, -8586, 1563, 3540, -5517, 7494, 471, -2448, 4425, 6402, -8379,
];

/// A head, and the floors from the places 0, 1, 2, 3, 26 and 27 on.
const FLOORS: [(u32, [u64; 6]); 6] = [
    (
        3,
        [
            150795954, 150795954, 150790913, 150654013, 26285213, 18344089,
        ],
    ),
    (
        13,
        [
            752718690, 752718690, 749028449, 733834045, 109410941, 69139225,
        ],
    ),
    (
        20,
        [381027687, 381009569, 381009569, 350354047, 80944890, 0],
    ),
    (38, [204871034, 204870974, 204870974, 204870974, 0, 0]),
    (55, [206051351, 205930586, 205930586, 205930586, 0, 0]),
    (76, [237468963, 237463225, 237463225, 237463225, 0, 0]),
];

/// The slope's floors under a head.
fn filled(head: u32) -> [u64; 29]
    requires { head < 80 }
{
    let mut table = [0; 29];
    Spu.fill_floor(head, &targets(&SLOPE), &mut table);
    table
}

#[test]
fn floors_as_a_program_that_tries_everything(rt: HostRuntime) {
    for (head, want) in FLOORS {
        let table = filled(head % 80);
        let found = [table[0], table[1], table[2], table[3], table[26], table[27]];
        assert_eq!(rt; found, want, "under head {head}");
    }
    assert_eq!(rt;
        Spu.block_floor(HeadRule::AnyHead, &targets(&SLOPE)),
        795399
    );
    assert_eq!(rt;
        Spu.block_floor(HeadRule::FilterZero, &targets(&SLOPE)),
        4118194
    );
    assert_eq!(rt;
        Spu.block_floor(HeadRule::FilterZero, &[32767; 28]),
        469532700
    );
}
