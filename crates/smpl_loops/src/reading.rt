ghost use Rattle.std.specs.Prelude.{◌≡◌, ◌≤◌, ◌<◌, IfOk, IfSome, option_map};
ghost use Rattle.smpl_loops.specs.Loops.{loop_in, first_loop_of};

use crate::fault::LoopFault;
use adpcm_nums::LoopAt;
use byteorder::{ByteOrder, LittleEndian};

/// The first loop of a `smpl` body, for a sound of so many frames (RIFF WAVE, sampler chunk).
///
/// There is none where there is no sampler, or where it counts no loops. Later loops, play counts and
/// fractions are not looked at.
///
/// # Errors
/// The first fault of the body, in the order in which [`LoopFault`] lists them.
pub fn first_loop(sampler: Option<&[u8]>, frames: u32) -> Result<Option<LoopAt>, LoopFault>
    // The loop, or the first fault.
    ensures exact { result ≡ first_loop_of (option_map (λ body. body.now) sampler.entry) frames }
    // A loop lies in the sound.
    ensures forward { IfOk result (λ found. IfSome found (λ at. at.start ≤ at.end)) }
    ensures inside { IfOk result (λ found. IfSome found (λ at. at.end < frames)) }
{
    match sampler {
        None => Ok(None),
        Some(body) => first_loop_in(body, frames),
    }
}

#[tactic(auto, unfolding(crate::specs::Loops::loop_in))]
fn first_loop_in(body: &[u8], frames: u32) -> Result<Option<LoopAt>, LoopFault>
    ensures exact { result ≡ loop_in body.now frames }
    ensures forward { IfOk result (λ found. IfSome found (λ at. at.start ≤ at.end)) }
    ensures inside { IfOk result (λ found. IfSome found (λ at. at.end < frames)) }
{
    if body.len() < 36 {
        return Err(LoopFault::SmplShort {
            len: body.len() as u64,
        });
    }
    let loops = LittleEndian::read_u32(&body[28..]);
    if loops == 0 {
        return Ok(None);
    }
    if body.len() < 60 {
        return Err(LoopFault::SmplShort {
            len: body.len() as u64,
        });
    }
    let kind = LittleEndian::read_u32(&body[40..]);
    if kind != 0 {
        return Err(LoopFault::LoopKind {
            kind: u64::from(kind),
        });
    }
    let start = LittleEndian::read_u32(&body[44..]);
    let end = LittleEndian::read_u32(&body[48..]);
    if start > end {
        return Err(LoopFault::LoopBackwards {
            start: u64::from(start),
            end: u64::from(end),
        });
    }
    if end >= frames {
        return Err(LoopFault::LoopOutside {
            end: u64::from(end),
            frames: u64::from(frames),
        });
    }
    Ok(Some(LoopAt { start, end }))
}
