ghost use Rattle.std.specs.Prelude.{◌≡◌, ◌+◌, ◌*◌, ◌^◌, ◌<◌, ◌≤◌, IsTrue, IfOk, length};
ghost use Rattle.adpcm_nums.specs.Outcome.{Gives};
ghost use Rattle.ima_machine.specs.Ima.{is_align};
ghost use Rattle.bank_kinds.specs.Codec.{codec_of};
ghost use Rattle.bank_kinds.specs.Kinds.{codec_for};
ghost use Rattle.bank_kinds.specs.Fits.{IsFit};
ghost use Rattle.bank_kinds.specs.Certified.{IsCertified, segments_in};
ghost use Rattle.bank_check.specs.Proven.{proven_of};
ghost use Rattle.bank_check.specs.Failure.{or_failure};

use crate::failure::CertFailure;
use crate::proven::Proven;
use crate::tally::tally_all;
use adpcm_nums::NoMemory;
use bank_kinds::Encode;
use bound_cert::{CertShape, read_cert};
use brr_machine::Brr;
use command_faults::CertRefusal;
use ima_machine::Ima;
use loop_fit::{Fitted, segments};
use machine_core::Kind;
use spu_machine::Spu;
use std::alloc::Global;

/// What the bytes of a certificate prove of a fitted sound with these segments, in a lent room.
fn proven_in<C: Encode>(
    codec: &C,
    fitted: &Fitted,
    segments: &[u32],
    bytes: &[u8],
    scratch: &mut [u64],
) -> Result<Proven, CertRefusal>
    requires fit { IsFit (codec_of (C.rules codec.now) (C.bytes codec.now)) fitted.now }
    requires segments { segments.now ≡ segments_in (codec_of (C.rules codec.now) (C.bytes codec.now)) fitted.now }
    requires small { length bytes.now < 2 ^ 31 }
    requires scratch { (C.rules codec.now).decoder.heads * (C.rules codec.now).floor_len + (fitted.now.blocks + 1) ≤ length scratch.old }
    ensures value { result ≡ proven_of (codec_of (C.rules codec.now) (C.bytes codec.now)) fitted.now bytes.now }
    ensures certified { IfOk result (λ p. IsCertified (codec_of (C.rules codec.now) (C.bytes codec.now)) bytes.now fitted.now p.bound p.levels) }
{
    let shape = CertShape {
        kind: codec.kind(),
        block_samples: codec.block_samples(),
        segments,
    };
    let cert = match read_cert(bytes, &shape) {
        Ok(cert) => cert,
        Err(fault) => return Err(CertRefusal::Grammar { fault }),
    };
    let count = segments.len() as u32;
    match tally_all(codec, &cert, count, fitted.targets.as_slice(), scratch) {
        Ok(tally) => Ok(Proven {
            bound: tally.bound,
            levels: [tally.exact, tally.fine, tally.coarse, tally.bare],
        }),
        Err(refusal) => Err(refusal),
    }
}

/// The room that a check of a certificate needs: no segment has more blocks than the sound.
fn room<C: Encode>(codec: &C, blocks: u32) -> usize
    requires few { blocks ≤ 4096 }
    ensures { result ≡ (C.rules codec.now).decoder.heads * (C.rules codec.now).floor_len + (blocks + 1) }
{
    codec.heads() as usize * codec.floor_len() as usize + (blocks as usize + 1)
}

/// The same, with a list and a room of its own: they are taken before anything is checked.
fn proven_by<C: Encode>(
    alloc: Global,
    codec: &C,
    fitted: &Fitted,
    bytes: &[u8],
) -> Result<Proven, CertFailure>
    requires fit { IsFit (codec_of (C.rules codec.now) (C.bytes codec.now)) fitted.now }
    requires small { length bytes.now < 2 ^ 31 }
    ensures value { Gives CertFailure.NoMemory (λ p. p) result (or_failure (proven_of (codec_of (C.rules codec.now) (C.bytes codec.now)) fitted.now bytes.now)) }
    ensures certified { IfOk result (λ p. IsCertified (codec_of (C.rules codec.now) (C.bytes codec.now)) bytes.now fitted.now p.bound p.levels) }
{
    let list = match segments(alloc, codec.kind(), fitted.blocks, fitted.loop_block) {
        Ok(list) => list,
        Err(NoMemory) => return Err(CertFailure::NoMemory),
    };
    let mut scratch = match vec![in alloc; 0u64; room(codec, fitted.blocks)] {
        Ok(scratch) => scratch,
        Err(_) => return Err(CertFailure::NoMemory),
    };
    match proven_in(
        codec,
        fitted,
        list.as_slice(),
        bytes,
        scratch.as_mut_slice(),
    ) {
        Ok(proven) => Ok(proven),
        Err(fault) => Err(CertFailure::Refused { fault }),
    }
}

/// What a certificate proves of a sound that was fitted to blocks of a kind, where blocks of IMA ADPCM have so many bytes (this project's own file).
///
/// Whoever made it, no list of blocks that may be stored for the sound has an error below the bound. It is refused with the first fault: of its bytes;
/// then, segment after segment, of the listed values and of the recorded bound. Memory is taken before the first segment is checked.
pub fn check_certificate(
    alloc: Global,
    kind: Kind,
    block: u32,
    fitted: &Fitted,
    bytes: &[u8],
) -> Result<Proven, CertFailure>
    requires block { IsTrue (is_align block) }
    requires fit { IsFit (codec_for kind block) fitted.now }
    requires small { length bytes.now < 2 ^ 31 }
    ensures value { Gives CertFailure.NoMemory (λ p. p) result (or_failure (proven_of (codec_for kind block) fitted.now bytes.now)) }
    ensures certified { IfOk result (λ p. IsCertified (codec_for kind block) bytes.now fitted.now p.bound p.levels) }
{
    match kind {
        Kind::Brr => proven_by(alloc, &Brr, fitted, bytes),
        Kind::Spu => proven_by(alloc, &Spu, fitted, bytes),
        Kind::Ima => proven_by(alloc, &Ima { align: block }, fitted, bytes),
    }
}
