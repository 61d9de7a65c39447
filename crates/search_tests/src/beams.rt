//! The beam over BRR.
ghost use Rattle.std.specs.Prelude.{◌<◌, ◌≤◌};

use crate::fixtures::targets_of;
use beam_encoder::beam;
use brr_machine::Brr;
use std::test::*;

/// A saw. What is chosen for it is what tests/outside/brr_beam.py finds.
const SAW: [i16; 48] = [
    -2500, -1899, -1298, -697, -96, 505, 1106, 1707, 2308, -2091, -1490, -889, -288, 313, 914,
    1515, 2116, -2283, -1682, -1081, -480, 121, 722, 1323, 1924, -2475, -1874, -1273, -672, -71,
    530, 1131, 1732, 2333, -2066, -1465, -864, -263, 338, 939, 1540, 2141, -2258, -1657, -1056,
    -455, 146, 747,
];

#[test]
fn beams_of_a_saw(rt: HostRuntime) -> Result<(), Fail> {
    let one: [u32; 48] = [
        11, 12, 13, 15, 0, 1, 2, 3, 5, 12, 13, 14, 15, 1, 2, 3, 4, 12, 13, 14, 15, 0, 1, 3, 4, 11,
        12, 14, 15, 0, 1, 2, 3, 5, 12, 13, 14, 15, 1, 2, 3, 4, 12, 13, 14, 15, 0, 1,
    ];
    let four: [u32; 48] = [
        11, 12, 13, 15, 0, 1, 2, 3, 5, 12, 13, 14, 15, 1, 2, 3, 1, 8, 1, 1, 1, 1, 1, 1, 2, 8, 0, 1,
        1, 1, 1, 2, 1, 1, 8, 1, 1, 1, 1, 1, 2, 1, 8, 1, 1, 1, 1, 1,
    ];
    for (width, sum, heads, codes) in [
        (1, 1065384, [36, 36, 36], one),
        (4, 990380, [36, 37, 37], four),
    ] {
        let targets = targets_of(rt.alloc(), &SAW)?;
        let choice = beam(rt.alloc(), &Brr, targets.as_slice(), width)?;
        assert_eq!(rt; choice.sum, sum, "width {width}");
        assert_eq!(rt; choice.heads.as_slice(), heads.as_slice(), "width {width}");
        assert_eq!(rt;
            choice.symbols.as_slice(),
            codes.as_slice(),
            "width {width}"
        );
    }
    Ok(())
}
