ghost use Rattle.std.specs.Prelude.{◌≡◌, ◌+◌, ◌^◌, ◌<◌, ◌≤◌, IfOk, length};
ghost use Rattle.adpcm_nums.specs.Outcome.{Gives};
ghost use Rattle.vag_writer.specs.Reading.{blocks_in, name_in, rate_in, vag_of};
ghost use Rattle.vag_writer.specs.declared.fault.VagFault.TheVariants.{NoMemory as OutOfMemory};

use crate::fault::VagFault;
use crate::vag::Vag;
use adpcm_nums::Bytes;
use byteorder::{BigEndian, ByteOrder};
use std::alloc::Global;

/// The rate of a file that has the mark and a whole header.
#[tactic(auto, unfolding(crate::specs::Reading::rate_in))]
fn read_rate(bytes: &[u8]) -> Result<u32, VagFault>
    ensures value { result ≡ rate_in bytes.now }
    ensures some { IfOk result (λ rate. 1 ≤ rate) }
    ensures high { IfOk result (λ rate. rate ≤ 1000000) }
    ensures whole { IfOk result (λ _. 48 ≤ length bytes.now) }
{
    if bytes.len() < 4 || &bytes[..4] != b"VAGp".as_slice() {
        return Err(VagFault::NotVag);
    }
    if bytes.len() < 48 {
        return Err(VagFault::VagShort {
            len: bytes.len() as u64,
        });
    }
    let rate = BigEndian::read_u32(&bytes[16..]);
    if rate == 0 || rate > 1_000_000 {
        return Err(VagFault::BadRate {
            rate: u64::from(rate),
        });
    }
    Ok(rate)
}

/// The sixteen bytes of the name.
fn read_name(bytes: &[u8]) -> [u8; 16]
    requires { 48 ≤ length bytes.now }
    ensures { result ≡ name_in bytes.now }
{
    let mut name = [0u8; 16];
    name.copy_from_slice(&bytes[32..48]);
    name
}

/// The blocks: as many bytes as the header says, if the file has them.
fn read_blocks(bytes: &[u8]) -> &[u8]
    requires { 48 ≤ length bytes.now }
    ensures { result.now ≡ blocks_in bytes.now }
{
    let rest = &bytes[48..];
    let size = BigEndian::read_u32(&bytes[12..]) as usize;
    &rest[..size.min(rest.len())]
}

/// Reads a VAG file (PSX-SPX, VAG files).
///
/// The version and the fields that are not named here are not looked at. The blocks are as many bytes behind the header as
/// the size field says, or all that there are; they need not be whole blocks.
///
/// # Errors
/// The first fault: of the mark, the header's length and the rate. Want of memory is named behind them.
#[tactic(auto, unfolding(crate::specs::Reading::vag_of))]
pub fn read_vag(alloc: Global, bytes: &[u8]) -> Result<Vag, VagFault>
    requires { length bytes.now < 2 ^ 31 }
    ensures exact { Gives OutOfMemory (λ vag. vag) result (vag_of bytes.now) }
    ensures some { IfOk result (λ vag. 1 ≤ vag.rate) }
    ensures high { IfOk result (λ vag. vag.rate ≤ 1000000) }
    ensures within { IfOk result (λ vag. 48 + length vag.blocks ≤ length bytes.now) }
{
    let rate = read_rate(bytes)?;
    let blocks = Bytes::copy_of(alloc, read_blocks(bytes))?;
    Ok(Vag {
        rate,
        name: read_name(bytes),
        blocks,
    })
}
