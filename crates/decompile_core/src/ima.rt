ghost use Rattle.std.specs.Prelude.{◌≡◌, ◌^◌, ◌<◌, ◌≤◌, length, IfOk, None};
ghost use Rattle.adpcm_nums.specs.Outcome.{Gives};
ghost use Rattle.adpcm_nums.specs.Sample.{AreSamples};
ghost use Rattle.ima_wave.specs.Files.{IsImaFile};
ghost use Rattle.player_model.specs.ImaTrack.{first_outputs};
ghost use Rattle.decompile_core.specs.declared.fault.DecompileFault.TheVariants.{NoMemory as OutOfMemory};
ghost use Rattle.decompile_core.specs.Recovered.{IsEntry};
ghost use Rattle.decompile_core.specs.Decompiled.{ima_in, ima_recovered, ima_track_in};

use crate::fault::DecompileFault;
use crate::recovered::{Recovered, Settles};
use adpcm_nums::{NoMemory, Samples};
use ima_machine::Ima;
use ima_wave::{ImaFile, ImaWaveFault, read_ima};
use machine_core::Machine;
use player_model::{ImaPlayer, ImaTrack, ima_track, is_much};
use std::alloc::Global;

/// The WAVE file of IMA ADPCM that bytes are.
#[tactic(auto, unfolding(crate::specs::Decompiled::ima_in))]
fn ima_in(alloc: Global, bytes: &[u8]) -> Result<ImaFile, DecompileFault>
    requires { length bytes.now < 2 ^ 31 }
    ensures exact { Gives OutOfMemory (λ file. file) result (ima_in bytes.now) }
    ensures kept { IfOk result IsImaFile }
    ensures few { IfOk result (λ file. length file.blocks < 2 ^ 31) }
{
    match read_ima(alloc, bytes) {
        Ok(file) => Ok(file),
        Err(ImaWaveFault::NoMemory) => Err(DecompileFault::NoMemory),
        Err(fault) => Err(DecompileFault::Ima { fault }),
    }
}

/// Its frames as a track without the loop, unless there are too many blocks or samples in them.
#[tactic(auto, unfolding(crate::specs::Decompiled::ima_track_in))]
fn ima_track_in(file: &ImaFile) -> Result<ImaTrack<'_>, DecompileFault>
    requires kept { IsImaFile file.now }
    requires few { length file.now.blocks < 2 ^ 31 }
    ensures exact { result ≡ ima_track_in file.now }
    ensures once { IfOk result (λ track. track.loop_at ≡ None) }
    ensures range { IfOk result (λ track. AreSamples (first_outputs track)) }
    ensures long { IfOk result (λ track. length (first_outputs track) ≡ file.now.frames) }
    ensures short { IfOk result (λ _. file.now.frames ≤ 262144) }
{
    let machine = Ima { align: file.align };
    let samples = machine.block_samples();
    match ima_track(machine, file.blocks.as_slice(), file.frames, None) {
        Ok(track) => {
            let blocks = track.blocks();
            if is_much(blocks, samples) {
                let blocks = u64::from(blocks);
                return Err(DecompileFault::TooMuch { blocks });
            }
            Ok(track)
        }
        Err(fault) => Err(DecompileFault::Track { fault }),
    }
}

/// All frames of a track without a loop.
fn play_frames(alloc: Global, track: ImaTrack<'_>) -> Result<Samples, NoMemory>
    requires once { track.loop_at ≡ None }
    requires range { AreSamples (first_outputs track) }
    ensures { IfOk result (λ samples. samples ≡ first_outputs track.entry) }
{
    let frames = track.frames();
    let mut player = ImaPlayer::new(track);
    let mut samples = Vec::new(alloc);
    for _ in 0..frames {
        let output = player.next();
        match samples.push(output) {
            Ok(()) => {}
            Err(_) => return Err(NoMemory),
        }
    }
    Ok(Samples::from_vec(samples))
}

/// The entry of a WAVE file of IMA ADPCM.
#[tactic(auto, unfolding(crate::specs::Decompiled::ima_recovered))]
pub(crate) fn recover_ima(alloc: Global, bytes: &[u8]) -> Result<Recovered, DecompileFault>
    requires { length bytes.now < 2 ^ 31 }
    ensures exact { Gives OutOfMemory (λ entry. entry) result (ima_recovered bytes.now) }
    ensures kept { IfOk result IsEntry }
{
    let file = ima_in(alloc, bytes)?;
    let track = ima_track_in(&file)?;
    let samples = play_frames(alloc, track)?;
    let settles = match file.at {
        None => Settles::NoLoop,
        Some(_) => Settles::From { playing: 0 },
    };
    Ok(Recovered {
        rate: file.rate,
        samples,
        loop_at: file.at,
        settles,
        trailing: 0,
    })
}
