//! Targets and certificates of BRR that several tests use.
ghost use Rattle.std.specs.Prelude.{◌≡◌, IfOk, length};
ghost use Rattle.adpcm_nums.specs.Sample.{AreSamples};
ghost use Rattle.machine_core.specs.declared.state.Kind.TheVariants.{Brr};

use adpcm_nums::NoMemory;
use bound_cert::CertShape;
use machine_core::Kind;
use std::alloc::Global;

/// A certificate with one segment of one block at level 0, with bound 0 and no layers.
pub(crate) const SHORTEST: [u8; 24] = [
    0x41, 0x44, 0x42, 0x43, 1, 0, 1, 0, 1, 0, 0, 0, 0, 0, 0, 0, 0, 0, 0, 0, 0, 0, 0, 0,
];

/// The shape of a certificate with one segment of so many blocks.
pub(crate) fn shape_of<'a>(segments: &'a [u32]) -> CertShape<'a>
    ensures kind { result.kind ≡ Brr }
    ensures samples { result.block_samples ≡ 16 }
    ensures segments { result.segments.now ≡ segments.now }
{
    CertShape {
        kind: Kind::Brr,
        block_samples: 16,
        segments,
    }
}

/// The same numbers as targets.
pub(crate) fn targets_of(alloc: Global, from: &[i16]) -> Result<Vec<i32>, NoMemory>
    ensures count { IfOk result (λ targets. length targets.items ≡ length from.now) }
    ensures range { IfOk result (λ targets. AreSamples targets.items) }
{
    let mut targets = match Vec::with_capacity(alloc, from.len()) {
        Ok(targets) => targets,
        Err(_) => return Err(NoMemory),
    };
    for x in from {
        match targets.push(i32::from(*x)) {
            Ok(()) => {}
            Err(_) => return Err(NoMemory),
        }
    }
    Ok(targets)
}
