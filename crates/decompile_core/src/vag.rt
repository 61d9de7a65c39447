ghost use Rattle.std.specs.Prelude.{◌≡◌, ◌*◌, ◌^◌, ◌<◌, ◌≤◌, length, IfOk, Ok};
ghost use Rattle.player_model.specs.SpuTrack.{spu_track_of};
ghost use Rattle.adpcm_nums.specs.Outcome.{Gives};
ghost use Rattle.decompile_core.specs.declared.fault.DecompileFault.TheVariants.{NoMemory as OutOfMemory};
ghost use Rattle.decompile_core.specs.Recovered.{IsEntry};
ghost use Rattle.decompile_core.specs.Decompiled.{vag_in, vag_recovered, vag_track};

use crate::fault::DecompileFault;
use crate::recovered::Recovered;
use crate::stored::recover;
use player_model::{SpuTrack, is_much, spu_track};
use std::alloc::Global;
use vag_writer::{Vag, VagFault, read_vag};

/// The VAG file that bytes are.
#[tactic(auto, unfolding(crate::specs::Decompiled::vag_in))]
fn vag_in(alloc: Global, bytes: &[u8]) -> Result<Vag, DecompileFault>
    requires { length bytes.now < 2 ^ 31 }
    ensures exact { Gives OutOfMemory (λ vag. vag) result (vag_in bytes.now) }
    ensures some { IfOk result (λ vag. 1 ≤ vag.rate) }
    ensures high { IfOk result (λ vag. vag.rate ≤ 1000000) }
    ensures few { IfOk result (λ vag. length vag.blocks < 2 ^ 31) }
{
    match read_vag(alloc, bytes) {
        Ok(vag) => Ok(vag),
        Err(VagFault::NoMemory) => Err(DecompileFault::NoMemory),
        Err(fault) => Err(DecompileFault::Vag { fault }),
    }
}

/// Its track, unless that is too long.
#[tactic(auto, unfolding(crate::specs::Decompiled::vag_track))]
fn vag_track(vag: &Vag) -> Result<SpuTrack<'_>, DecompileFault>
    requires { length vag.now.blocks < 2 ^ 31 }
    ensures exact { result ≡ vag_track vag.now }
    ensures way { IfOk result (λ track. spu_track_of vag.now.blocks ≡ Ok track) }
    ensures within { IfOk result (λ track. 16 * track.blocks ≤ length vag.now.blocks) }
    ensures few { IfOk result (λ track. track.blocks * 28 ≤ 262144) }
{
    match spu_track(vag.blocks.as_slice()) {
        Ok(track) => {
            let blocks = track.blocks();
            if is_much(blocks, 28) {
                let blocks = u64::from(blocks);
                return Err(DecompileFault::TooMuch { blocks });
            }
            Ok(track)
        }
        Err(fault) => Err(DecompileFault::Track { fault }),
    }
}

/// The entry of a VAG file.
#[tactic(auto, unfolding(crate::specs::Decompiled::vag_recovered))]
pub(crate) fn recover_vag(alloc: Global, bytes: &[u8]) -> Result<Recovered, DecompileFault>
    requires { length bytes.now < 2 ^ 31 }
    ensures exact { Gives OutOfMemory (λ entry. entry) result (vag_recovered bytes.now) }
    ensures kept { IfOk result IsEntry }
{
    let vag = vag_in(alloc, bytes)?;
    let track = vag_track(&vag)?;
    let trailing = vag.blocks.as_slice().len() as u64 - 16 * u64::from(track.blocks());
    Ok(recover(alloc, track, 1, vag.rate, trailing)?)
}
