ghost use Rattle.std.specs.Prelude.{◌≡◌, ◌++◌, ◌+◌, ◌^◌, ◌<◌, ◌≤◌, OnOk, IfOk, length};
ghost use Rattle.adpcm_nums.specs.Outcome.{Gives};
ghost use Rattle.vag_writer.specs.Spelling.{filled, number_bytes, vag_file, vag_header, written_vag};
ghost use Rattle.vag_writer.specs.declared.fault.VagFault.TheVariants.{NoMemory as OutOfMemory};

use crate::fault::VagFault;
use adpcm_nums::Bytes;
use byteorder::{BigEndian, ByteOrder};
use std::alloc::{AllocError, Global};

/// A name, filled with zeros to sixteen bytes.
#[tactic(auto, unfolding(crate::specs::Spelling::filled), using(crate::proofs::Lengths::zeros_left))]
fn put_name(out: &mut Vec<u8>, name: &[u8]) -> Result<(), AllocError>
    requires { length name.now ≤ 16 }
    ensures { OnOk result (out.new.items ≡ out.old.items ++ filled name.now) }
{
    let zeros = [0u8; 16];
    out.extend_from_slice(name)?;
    out.extend_from_slice(&zeros[name.len()..])
}

/// The numbers of a header.
#[tactic(auto, unfolding(crate::specs::Spelling::number_bytes))]
fn header_numbers(rate: u32, size: u32) -> [u8; 28]
    ensures { result ≡ number_bytes rate size }
{
    let fields = [32, 0, size, rate, 0, 0, 0];
    let mut numbers = [0u8; 28];
    BigEndian::write_u32_into(&fields, &mut numbers);
    numbers
}

/// The header of a file with so many bytes of blocks.
#[tactic(auto, unfolding(crate::specs::Spelling::vag_header))]
fn put_header(out: &mut Vec<u8>, name: &[u8], rate: u32, size: u32) -> Result<(), AllocError>
    requires { length name.now ≤ 16 }
    ensures { OnOk result (out.new.items ≡ out.old.items ++ vag_header name.now rate size) }
{
    out.extend_from_slice(b"VAGp")?;
    out.extend_from_slice(&header_numbers(rate, size))?;
    put_name(out, name)
}

/// The file of these blocks.
#[tactic(auto, unfolding(crate::specs::Spelling::vag_file))]
fn put_file(alloc: Global, name: &[u8], rate: u32, blocks: &[u8]) -> Result<Vec<u8>, AllocError>
    requires name { length name.now ≤ 16 }
    requires small { length blocks.now < 2 ^ 30 }
    ensures { IfOk result (λ file. file.items ≡ vag_file name.now rate blocks.now) }
{
    let mut out = Vec::with_capacity(alloc, 48 + blocks.len())?;
    put_header(&mut out, name, rate, blocks.len() as u32)?;
    out.extend_from_slice(blocks)?;
    Ok(out)
}

/// Writes a VAG file of these blocks, at this rate in samples a second (PSX-SPX, VAG files).
///
/// The version is 32, the name is filled with zeros, and what is not known is 0, which is this project's own choice. No
/// empty block is put in front.
///
/// # Errors
/// A name of more than 16 bytes, and want of memory.
#[tactic(auto, unfolding(crate::specs::Spelling::written_vag), using(crate::proofs::Lengths::file_long))]
pub fn write_vag(alloc: Global, name: &str, rate: u32, blocks: &[u8]) -> Result<Bytes, VagFault>
    requires some_rate { 1 ≤ rate }
    requires low_rate { rate ≤ 1000000 }
    requires small { length blocks.now < 2 ^ 30 }
    ensures exact { Gives OutOfMemory (λ file. file) result (written_vag name.now rate blocks.now) }
    ensures long { IfOk result (λ file. length file ≡ 48 + length blocks.now) }
{
    if name.len() > 16 {
        return Err(VagFault::NameLong {
            len: name.len() as u64,
        });
    }
    let file = put_file(alloc, name.as_bytes(), rate, blocks)?;
    Ok(Bytes::from_vec(file))
}
