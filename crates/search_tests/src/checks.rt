//! The checker over BRR, and its room.
ghost use Rattle.std.specs.Prelude.{◌≡◌, ◌<◌, ◌*◌, ◌^◌, length};
ghost use Rattle.adpcm_nums.specs.Sample.{AreSamples};

use crate::fixtures::shape_of;
use bound_cert::{read_cert, segments_fit};
use brr_machine::Brr;
use cert_check::{CellFault, check, scratch_need};

/// What a check of a segment of so many blocks finds, and the room that it asks for; nothing where the bytes are no certificate of one such segment.
pub(crate) fn checked(
    bytes: &[u8],
    targets: &[i32],
    blocks: u32,
) -> Option<(Result<u64, CellFault>, usize)>
    requires bytes { length bytes.now < 2 ^ 31 }
    requires count { length targets.now ≡ blocks * 16 }
    requires few { blocks < 3 }
    requires range { AreSamples targets.now }
{
    segments_fit();
    let mut scratch = [7u64; 1091];
    match read_cert(bytes, &shape_of(&[blocks])) {
        Ok(certificate) => {
            let segment = certificate.segment(0);
            let room = scratch_need(&Brr, &segment);
            Some((check(&Brr, &segment, targets, &mut scratch), room))
        }
        Err(_) => None,
    }
}

/// Level 0, bound 16, and at the segment's start the cell (0, 0) of this value.
fn one_cell(value: u8) -> [u8; 46] {
    [
        0x41, 0x44, 0x42, 0x43, 1, 0, 1, 0, 1, 0, 0, 0, 16, 0, 0, 0, 0, 0, 0, 0, 1, 0, 0, 0, 0, 0,
        0, 0, 255, 255, 1, 0, 0, 0, 0, 0, 0, 0, value, 0, 0, 0, 0, 0, 0, 0,
    ]
}

// Of sixteen samples of 1 no output is nearer than 1.
#[test]
fn values_of_one_cell(rt: HostRuntime) {
    let fault = CellFault {
        layer: 0,
        cell: 0,
        value: 17,
        found: 16,
    };
    for (value, found) in [(10, Ok(16)), (16, Ok(16)), (17, Err(fault))] {
        assert_eq!(rt;
            checked(&one_cell(value), &[1; 16], 1),
            Some((found, 1090)),
            "value {value}"
        );
    }
}
