ghost use Rattle.std.specs.Prelude.{◌≡◌, ◌+◌, ◌*◌, ◌^◌, ◌<◌, ◌≤◌, length, IfOk};
ghost use Rattle.snes_directory.specs.Entry.{again_in, again_place, entry_fault, entry_of, rate_of, start_in};

use crate::fault::ImageFault;
use byteorder::{ByteOrder, LittleEndian};
use player_model::{TrackFault, brr_track};

/// An entry of an image. Its places are those of bytes in the memory.
#[derive(Clone, Copy, Debug, PartialEq, Eq)]
pub(crate) struct Entry {
    /// Its samples a second.
    pub rate: u32,
    /// The place of its first block.
    pub start: u32,
    /// The place at which its player goes on.
    pub again: u32,
}

/// The rate of an entry.
#[tactic(auto, unfolding(crate::specs::Entry::rate_of))]
fn read_rate(bytes: &[u8], i: u32) -> Result<u32, ImageFault>
    requires few { i < 64 }
    requires within { 20 + 4 * i ≤ length bytes.now }
    ensures { result ≡ rate_of bytes.now i }
{
    let rate = LittleEndian::read_u32(&bytes[16 + 4 * i as usize..]);
    if rate == 0 || rate > 1_000_000 {
        return Err(ImageFault::BadRate {
            entry: u64::from(i),
            rate: u64::from(rate),
        });
    }
    Ok(rate)
}

/// The place of an entry's first block.
#[tactic(auto, unfolding(crate::specs::Entry::start_in))]
fn read_start(base: u32, memory: &[u8], i: u32) -> Result<u32, ImageFault>
    requires { i < 64 }
    ensures value { result ≡ start_in base memory.now i }
    ensures within { IfOk result (λ _. 4 * i + 4 ≤ length memory.now) }
{
    let place = 4 * i as usize;
    if memory.len() < place + 4 {
        return Err(ImageFault::BadEntry {
            entry: u64::from(i),
        });
    }
    let address = u32::from(LittleEndian::read_u16(&memory[place..]));
    if address < base {
        return Err(ImageFault::BadEntry {
            entry: u64::from(i),
        });
    }
    Ok(address - base)
}

/// What a fault of its track says of an entry.
fn entry_fault(i: u32, fault: TrackFault) -> ImageFault
    ensures { result ≡ entry_fault i fault }
{
    let entry = u64::from(i);
    match fault {
        TrackFault::BadAgain { .. } => ImageFault::BadLoopAddress { entry },
        TrackFault::NoEnd { .. }
        // Faults of other formats, which no track of BRR has.
        | TrackFault::Split { .. }
        | TrackFault::BadFilter { .. }
        | TrackFault::BadHead { .. } => ImageFault::BadEntry { entry },
    }
}

/// The place at which the player of an entry goes on.
#[tactic(auto, unfolding(crate::specs::Entry::again_in))]
fn read_again(base: u32, memory: &[u8], i: u32, start: u32) -> Result<u32, ImageFault>
    requires few { i < 64 }
    requires within { 4 * i + 4 ≤ length memory.now }
    requires small { length memory.now < 2 ^ 31 }
    ensures { result ≡ again_in base memory.now i start }
{
    let address = u32::from(LittleEndian::read_u16(&memory[4 * i as usize + 2..]));
    let place = if address < base {
        start
    } else {
        address - base
    };
    match brr_track(memory, start, place) {
        Ok(track) => match track.loop_block() {
            None => Ok(start),
            Some(_) => {
                if address < base {
                    Err(ImageFault::BadLoopAddress {
                        entry: u64::from(i),
                    })
                } else {
                    Ok(address - base)
                }
            }
        },
        Err(fault) => Err(entry_fault(i, fault)),
    }
}

/// Reads an entry: its rate, and where its blocks lie in the memory.
#[tactic(auto, unfolding(crate::specs::Entry::entry_of))]
pub(crate) fn read_entry(
    bytes: &[u8],
    base: u32,
    memory: &[u8],
    i: u32,
) -> Result<Entry, ImageFault>
    requires few { i < 64 }
    requires within { 20 + 4 * i ≤ length bytes.now }
    requires small { length memory.now < 2 ^ 31 }
    ensures { result ≡ entry_of bytes.now base memory.now i }
{
    let rate = read_rate(bytes, i)?;
    let start = read_start(base, memory, i)?;
    let again = read_again(base, memory, i, start)?;
    Ok(Entry { rate, start, again })
}
