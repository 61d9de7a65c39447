//! Certificates by their bytes.
ghost use Rattle.std.specs.Prelude.{◌≡◌, ◌<◌, ◌^◌, length};

use crate::fixtures::{SHORTEST, shape_of};
use bound_cert::{CertFault, SegmentCert, read_cert, write_cert};
use machine_core::Kind;

/// Two cells of a block, (0, 0) of value 16 and (0, 1) of value 17, at the segment's start.
const TWO_CELLS: [u8; 58] = [
    0x41, 0x44, 0x42, 0x43, 1, 0, 1, 0, 1, 0, 0, 0, 16, 0, 0, 0, 0, 0, 0, 0, 1, 0, 0, 0, 0, 0, 0,
    0, 255, 255, 2, 0, 0, 0, 0, 0, 0, 0, 16, 0, 0, 0, 0, 0, 0, 0, 0, 0, 1, 0, 17, 0, 0, 0, 0, 0, 0,
    0,
];

fn fault_of(bytes: &[u8]) -> Option<CertFault>
    requires { length bytes.now < 2 ^ 31 }
{
    match read_cert(bytes, &shape_of(&[1])) {
        Ok(_) => None,
        Err(fault) => Some(fault),
    }
}

// The first fault of so many bytes of `SHORTEST`.
fn fault_of_front(len: usize) -> Option<CertFault> {
    match len {
        0..=3 => Some(CertFault::BadMagic),
        4 => Some(CertFault::Short { at: 4 }),
        5 => Some(CertFault::Short { at: 5 }),
        6..=7 => Some(CertFault::Short { at: 6 }),
        8..=9 => Some(CertFault::Short { at: 8 }),
        10 => Some(CertFault::Short { at: 10 }),
        11 => Some(CertFault::Short { at: 11 }),
        12..=19 => Some(CertFault::Short { at: 12 }),
        20..=23 => Some(CertFault::Short { at: 20 }),
        _ => None,
    }
}

#[test]
fn every_front(rt: HostRuntime) {
    for len in 0..25 {
        let front = &SHORTEST[..len];
        assert_eq!(rt; fault_of(front), fault_of_front(len), "at {len}");
    }
    let mut longer = [0u8; 25];
    longer[..24].copy_from_slice(&SHORTEST);
    assert_eq!(rt; fault_of(&longer), Some(CertFault::Trailing { at: 24 }));
}

#[test]
fn faults_of_two_cells(rt: HostRuntime) {
    assert_eq!(rt; fault_of(&TWO_CELLS), None);
    for (at, byte, fault) in [
        (0, 0x42, CertFault::BadMagic),
        (4, 2, CertFault::BadVersion { version: 2 }),
        (5, 1, CertFault::ShapeDiffers { have: 1, need: 0 }),
        (6, 3, CertFault::ShapeDiffers { have: 3, need: 1 }),
        (8, 2, CertFault::ShapeDiffers { have: 2, need: 1 }),
        (10, 5, CertFault::BadLevel { level: 5 }),
        (10, 255, CertFault::LayerRange { at: 20 }),
        (11, 1, CertFault::BadZero { at: 11 }),
        (20, 2, CertFault::Short { at: 58 }),
        (24, 1, CertFault::LayerRange { at: 24 }),
        (26, 16, CertFault::LayerRange { at: 24 }),
        (29, 0, CertFault::LayerRange { at: 24 }),
        (30, 0, CertFault::LayerRange { at: 24 }),
        (30, 3, CertFault::Short { at: 58 }),
        (35, 0x40, CertFault::CellRange { at: 34 }),
        (45, 0x10, CertFault::CellRange { at: 34 }),
        (48, 0, CertFault::CellOrder { at: 46 }),
        (36, 2, CertFault::CellOrder { at: 46 }),
    ] {
        let mut bytes = TWO_CELLS;
        if let Some(place) = bytes.get_mut(at) {
            *place = byte;
        }
        assert_eq!(rt; fault_of(&bytes), Some(fault), "byte {at}");
    }
}

#[test]
fn views_show_the_fields(rt: HostRuntime) {
    let shape = shape_of(&[1]);
    let Ok(certificate) = read_cert(&TWO_CELLS, &shape) else {
        panic!(rt; "it is a certificate");
    };
    let segment = certificate.segment(0);
    assert_eq!(rt; (segment.blocks(), segment.level()), (1, 0));
    assert_eq!(rt; (segment.bound(), segment.layer_count()), (16, 1));
    let Some(layer) = segment.first_layer() else {
        panic!(rt; "it has a layer");
    };
    assert_eq!(rt;
        (layer.at(), layer.cells(), layer.key().lane),
        (24, 2, 65535)
    );
    assert!(rt; layer.next().is_none());
}

#[test]
fn a_certificate_is_written(rt: HostRuntime) {
    let segment = SegmentCert::new(1, 0, 0, Vec::new(rt.alloc()));
    match write_cert(rt.alloc(), Kind::Brr, &[segment]) {
        Ok(bytes) => assert_eq!(rt; bytes.as_slice(), SHORTEST.as_slice()),
        Err(_) => panic!(rt; "there is memory"),
    }
}
