ghost use Rattle.std.specs.Prelude.{◌≡◌, ◌^◌, ◌%◌, ◌<◌, ◌≤◌, length, IfOk};
ghost use Rattle.snes_directory.specs.Header.{sized_header, numbered_header, header_of};
ghost use Rattle.snes_directory.specs.Sizes.{IsHeaderOf};

use crate::fault::ImageFault;
use crate::layout::is_past_end;
use byteorder::{ByteOrder, LittleEndian};

/// What stands in front of an image file.
#[derive(Clone, Copy, Debug, PartialEq, Eq)]
pub(crate) struct Header {
    /// The number of its entries.
    pub entries: u32,
    /// The address at which its memory begins.
    pub base: u32,
}

/// The header of these numbers, if the file has exactly that memory and the console has room for it.
#[tactic(auto, unfolding(crate::specs::Header::sized_header))]
fn sized(bytes: &[u8], entries: u32, base: u32, len: u32) -> Result<Header, ImageFault>
    requires small { length bytes.now < 2 ^ 31 }
    requires some { 1 ≤ entries }
    requires few { entries ≤ 64 }
    requires page { base % 256 ≡ 0 }
    requires low { base ≤ 65280 }
    ensures value { result ≡ sized_header bytes.now entries base len }
    ensures fits { IfOk result (IsHeaderOf (length bytes.now)) }
{
    let total = u64::from(base) + u64::from(len);
    if is_past_end(total) {
        return Err(ImageFault::ImageFull { total });
    }
    let have = bytes.len() as u64;
    let need = u64::from(16 + 4 * entries) + u64::from(len);
    if have != need {
        return Err(ImageFault::ImageLength { have, need });
    }
    Ok(Header { entries, base })
}

/// The header behind its mark.
#[tactic(auto, unfolding(crate::specs::Header::numbered_header))]
fn numbered(bytes: &[u8]) -> Result<Header, ImageFault>
    requires small { length bytes.now < 2 ^ 31 }
    requires whole { 16 ≤ length bytes.now }
    ensures value { result ≡ numbered_header bytes.now }
    ensures fits { IfOk result (IsHeaderOf (length bytes.now)) }
{
    let version = LittleEndian::read_u16(&bytes[4..]);
    if version != 1 {
        return Err(ImageFault::BadVersion {
            version: u64::from(version),
        });
    }
    let entries = u32::from(LittleEndian::read_u16(&bytes[6..]));
    if entries == 0 || entries > 64 {
        return Err(ImageFault::BadEntries {
            count: u64::from(entries),
        });
    }
    let base = LittleEndian::read_u32(&bytes[8..]);
    if base % 256 != 0 || base > 65_280 {
        return Err(ImageFault::BadBase {
            base: u64::from(base),
        });
    }
    sized(bytes, entries, base, LittleEndian::read_u32(&bytes[12..]))
}

/// Reads what stands in front of an image file.
#[tactic(auto, unfolding(crate::specs::Header::header_of))]
pub(crate) fn read_header(bytes: &[u8]) -> Result<Header, ImageFault>
    requires { length bytes.now < 2 ^ 31 }
    ensures value { result ≡ header_of bytes.now }
    ensures fits { IfOk result (IsHeaderOf (length bytes.now)) }
{
    if bytes.len() < 16 || &bytes[..4] != b"SNBI".as_slice() {
        return Err(ImageFault::NotImage);
    }
    numbered(bytes)
}
