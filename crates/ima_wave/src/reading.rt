ghost use Rattle.std.specs.Prelude.{◌≡◌, ◌≤◌, ◌<◌, ◌*◌, ◌/◌, ◌^◌, length, option_map, IfOk};
ghost use Rattle.adpcm_nums.specs.Outcome.{Gives};
ghost use Rattle.ima_machine.specs.Ima.{samples_in};
ghost use Rattle.ima_wave.specs.declared.fault.ImaWaveFault.TheVariants.{NoMemory as OutOfMemory};
ghost use Rattle.ima_wave.specs.Files.{IsImaFile};
ghost use Rattle.ima_wave.specs.Reading.{frames_of, ima_of};

use crate::fault::ImaWaveFault;
use crate::file::ImaFile;
use crate::format::read_format;
use crate::heads::read_blocks;
use adpcm_nums::Bytes;
use byteorder::{ByteOrder, LittleEndian};
use smpl_loops::first_loop;
use std::alloc::Global;
use wave_form::walk;

/// The frames of so many bytes of blocks.
fn count_frames(align: u32, len: usize) -> u32
    requires some { 8 ≤ align }
    requires few { align ≤ 1024 }
    requires len { len < 2 ^ 31 }
    ensures { result ≡ len / align * samples_in align }
{
    (len / align as usize * (2 * (align as usize - 4) + 1)) as u32
}

/// The frames that a `fact` body says, if there are so many.
fn read_frames(fact: Option<&[u8]>, all: u32) -> u32
    ensures value { result ≡ frames_of (option_map (λ body. body.now) fact.entry) all }
    ensures within { result ≤ all }
{
    match fact {
        Some(body) => {
            if body.len() < 4 {
                return all;
            }
            let frames = LittleEndian::read_u32(body);
            if frames > all { all } else { frames }
        }
        None => all,
    }
}

/// Reads a WAVE file of IMA ADPCM of one channel (format tag 0x0011; IMA recommended practices, 1992; RIFF WAVE).
///
/// The blocks are the whole blocks of `data`, and a rest behind them is dropped. The frames are those that `fact` says; where
/// it does not stand, is shorter than four bytes or says more than there are, they are all samples of the blocks (this
/// project's own choice). The loop is the first of `smpl`.
///
/// # Errors
/// The first fault, in the order in which [`ImaWaveFault`] lists them. Want of memory is named behind them.
#[tactic(auto, unfolding(crate::specs::Reading::ima_of))]
pub fn read_ima(alloc: Global, bytes: &[u8]) -> Result<ImaFile, ImaWaveFault>
    requires { length bytes.now < 2 ^ 31 }
    // What the file says, or its first fault, unless there is no memory.
    ensures exact { Gives OutOfMemory (λ file. file) result (ima_of bytes.now) }
    // What every file keeps.
    ensures kept { IfOk result (λ file. IsImaFile file) }
    ensures small { IfOk result (λ file. length file.blocks ≤ length bytes.now) }
{
    let chunks = walk(bytes)?;
    let fmt = chunks.fmt.ok_or(ImaWaveFault::NoFmt)?;
    let format = read_format(fmt.bytes_in(bytes))?;
    let pcm = chunks.pcm.ok_or(ImaWaveFault::NoData)?;
    let sound = pcm.bytes_in(bytes);
    let blocks = read_blocks(format.align, sound)?;
    let fact = match chunks.fact {
        Some(fact) => Some(fact.bytes_in(bytes)),
        None => None,
    };
    let frames = read_frames(fact, count_frames(format.align, sound.len()));
    let smpl = match chunks.smpl {
        Some(smpl) => Some(smpl.bytes_in(bytes)),
        None => None,
    };
    let at = first_loop(smpl, frames)?;
    Ok(ImaFile {
        rate: format.rate,
        align: format.align,
        frames,
        at,
        blocks: Bytes::copy_of(alloc, blocks)?,
    })
}
