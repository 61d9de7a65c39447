//! The search over BRR, at each of its levels.
ghost use Rattle.std.specs.Prelude.{◌≡◌, ◌<◌, ◌*◌, ◌^◌, IfOk, length};
ghost use Rattle.adpcm_nums.specs.Sample.{AreSamples};
ghost use Rattle.bound_cert.specs.Spelling.{IsWritable};

use crate::checks::checked;
use crate::fixtures::targets_of;
use adpcm_nums::{Bytes, NoMemory};
use beam_encoder::beam;
use bound_cert::{SegmentCert, writable_is_small, write_cert};
use branch_bound::{Found, bound_search};
use brr_machine::Brr;
use machine_core::Kind;
use std::alloc::Global;
use std::test::*;

/// What a search finds for two blocks, beginning with the choice of a beam of one prefix.
fn searched(alloc: Global, targets: &[i32], share: u32) -> Result<Found, NoMemory>
    requires count { length targets.now ≡ 32 }
    requires range { AreSamples targets.now }
    ensures { IfOk result (λ f. IsWritable Kind.Brr 16 f.cert) }
{
    let best = beam(alloc, &Brr, targets, 1)?;
    bound_search(alloc, &Brr, targets, best, share)
}

/// The bytes of a certificate of one segment.
fn written(alloc: Global, cert: SegmentCert) -> Result<Bytes, NoMemory>
    requires { IsWritable Kind.Brr 16 cert }
{
    writable_is_small();
    write_cert(alloc, Kind::Brr, &[cert])
}

/// Two blocks for which a beam of one prefix does not choose the least list. What is found for them is what tests/outside/plain_search.py finds.
const TURNS: [i16; 32] = [
    -1, 20, 10, -12, -20, -1, 19, 11, -12, -20, 1, 20, 10, -11, -19, -1, 18, 10, -12, -18, -1, 20,
    11, -12, -20, 1, 20, 10, -11, -18, 0, 20,
];

#[test]
fn the_least_list_is_found(rt: HostRuntime) -> Result<(), Fail> {
    let targets = targets_of(rt.alloc(), &TURNS)?;
    let targets = targets.as_slice();
    let found = searched(rt.alloc(), targets, 101)?;
    let codes: [u32; 32] = [
        0, 5, 2, 13, 11, 0, 5, 3, 13, 11, 0, 5, 2, 13, 11, 0, 0, 10, 13, 4, 6, 2, 9, 13, 5, 6, 1,
        9, 14, 3, 7, 1,
    ];
    assert_eq!(rt; found.choice.sum, 28);
    assert_eq!(rt; found.choice.heads.as_slice(), [8, 10].as_slice());
    assert_eq!(rt; found.choice.symbols.as_slice(), codes.as_slice());
    assert_eq!(rt; found.cert.level(), 0);
    assert_eq!(rt; found.cert.bound(), 28);
    let bytes = written(rt.alloc(), found.cert)?;
    let bytes = bytes.as_slice();
    if bytes.len() < 100000 {
        assert_eq!(rt; checked(bytes, targets, 2), Some((Ok(28), 1091)));
    }
    Ok(())
}
