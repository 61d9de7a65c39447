use super::state;
use machine_core::Machine;
use spu_machine::Spu;

/// Head, last output, the output before it, target, and the first code of least cost.
const NEAREST: [(u8, i16, i16, i16, u32); 25] = [
    (8, -39, 20, 22874, 7),
    (11, -14, -34, -11, 10),
    (16, -31, 48, -30852, 8),
    (17, 433, -1819, 390, 0),
    (23, 24, 23, -127, 11),
    (28, -24660, 19225, -24837, 8),
    (32, -2468, 218, -222, 1),
    (32, -1860, -1883, -31920, 8),
    (32, -1, 5, -30728, 8),
    (39, -21, 9, -29, 0),
    (41, 0, 33, -26440, 8),
    (46, -25166, -4628, -212, 0),
    (48, -31, -40, -113, 0),
    (48, 2, 35, -32306, 8),
    (48, 4185, -1021, 5643, 0),
    (55, -44, 40, -54, 1),
    (58, 31, 33, 29, 2),
    (64, -30661, -2630, -21615, 7),
    (64, -7936, 29459, -8082, 7),
    (64, 2129, -2704, 32684, 7),
    (65, 32061, 10098, 31890, 0),
    (66, 30472, -18861, -46, 0),
    (72, -40, 34, -116, 0),
    (78, 29406, 13160, -12333, 0),
    (79, -25692, 27085, 107, 0),
];

#[test]
fn nearest_codes_as_a_program_that_tries_everything(rt: HostRuntime) {
    for (head, last, older, target, code) in NEAREST {
        let from = state(i64::from(last), i64::from(older));
        let found = Spu.nearest(u32::from(head) % 80, 0, from, i32::from(target));
        assert_eq!(rt; found, code, "at head {head}, {last}, {older} and {target}");
    }
}
