use super::state;
use ima_machine::Ima;
use machine_core::Machine;
use std::test::*;

/// Last output, step index, target, and the first code of least cost: the rows of tests/outside/ima_machine.py.
const NEAREST: [(i32, u8, i16, u32); 22] = [
    (-32768, 1, -32764, 1),
    (-32768, 36, -32754, 0),
    (-32768, 49, -32746, 8),
    (-32700, 1, -24489, 7),
    (-32700, 18, -32768, 15),
    (-32700, 20, -32762, 12),
    (-32700, 50, -32700, 8),
    (-32700, 59, -32700, 8),
    (-32700, 72, -32574, 8),
    (-27695, 62, -32632, 15),
    (-8366, 57, 6999, 7),
    (32700, 0, 32700, 0),
    (32700, 15, 32700, 0),
    (32700, 17, 32764, 7),
    (32700, 17, 32767, 7),
    (32700, 48, 32767, 0),
    (32700, 70, 32767, 0),
    (32700, 75, -7167, 15),
    (32767, 2, 32756, 12),
    (32767, 65, 5117, 15),
    (32767, 65, 32767, 0),
    (32767, 76, 32767, 0),
];

#[test]
fn nearest_codes_as_a_program_that_tries_everything(rt: HostRuntime) -> Result<(), Fail> {
    let ima = Ima::new(8).ok_or("eight bytes")?;
    for (last, index, target, code) in NEAREST {
        let from = state(last, index % 89);
        let target = i32::from(target);
        assert_eq!(rt;
            ima.nearest(0, 1, from, target),
            code,
            "at {last}, {index} and {target}"
        );
        assert_eq!(rt; ima.take_nearest(0, 1, from, target).symbol, code);
    }
    assert_eq!(rt; ima.nearest(3, 0, state(32767, 88), -5), 32763);
    assert_eq!(rt;
        ima.take_nearest(3, 0, state(32767, 88), -5).state,
        state(-5, 3)
    );
    Ok(())
}
