ghost use Rattle.std.specs.Prelude.{◌≡◌, ◌≤◌, ◌==◌, ◌&&◌, IsTrue, IfOk, length};
ghost use Rattle.ima_machine.specs.Ima.{is_align, samples_in};
ghost use Rattle.ima_wave.specs.Format.{format_of, layout_of};

use crate::fault::ImaWaveFault;
use byteorder::{ByteOrder, LittleEndian};
use ima_machine::Ima;

/// How the frames of a sound are coded.
#[derive(Clone, Copy, Debug, PartialEq, Eq)]
pub(crate) struct Format {
    /// Frames per second.
    pub rate: u32,
    /// The size of a block in bytes.
    pub align: u32,
}

/// Whether blocks of so many bytes have so many samples.
fn has_samples(align: u32, samples: u32) -> bool
    ensures { result ≡ (is_align align && samples == samples_in align) }
{
    Ima::new(align).is_some() && samples == 2 * (align - 4) + 1
}

/// The rate and the block align of a `fmt ` body that says IMA ADPCM.
#[tactic(auto, unfolding(crate::specs::Format::layout_of))]
fn read_layout(body: &[u8]) -> Result<Format, ImaWaveFault>
    requires { 20 ≤ length body.now }
    ensures exact { result ≡ layout_of body.now }
    ensures some_rate { IfOk result (λ format. 1 ≤ format.rate) }
    ensures low_rate { IfOk result (λ format. format.rate ≤ 1000000) }
    ensures align { IfOk result (λ format. IsTrue (is_align format.align)) }
{
    let channels = u32::from(LittleEndian::read_u16(&body[2..]));
    if channels != 1 {
        return Err(ImaWaveFault::BadChannels {
            channels: u64::from(channels),
        });
    }
    let rate = LittleEndian::read_u32(&body[4..]);
    if rate == 0 || rate > 1_000_000 {
        return Err(ImaWaveFault::BadRate {
            rate: u64::from(rate),
        });
    }
    let bits = u32::from(LittleEndian::read_u16(&body[14..]));
    if bits != 4 {
        return Err(ImaWaveFault::BadBits {
            bits: u64::from(bits),
        });
    }
    let align = u32::from(LittleEndian::read_u16(&body[12..]));
    if !has_samples(align, u32::from(LittleEndian::read_u16(&body[18..]))) {
        return Err(ImaWaveFault::BadAlign {
            align: u64::from(align),
        });
    }
    Ok(Format { rate, align })
}

/// What a `fmt ` body says (RIFF WAVE, format tag 0x0011). Bytes per second and the size of the extension are not looked at.
#[tactic(auto, unfolding(crate::specs::Format::format_of))]
pub(crate) fn read_format(body: &[u8]) -> Result<Format, ImaWaveFault>
    ensures exact { result ≡ format_of body.now }
    ensures some_rate { IfOk result (λ format. 1 ≤ format.rate) }
    ensures low_rate { IfOk result (λ format. format.rate ≤ 1000000) }
    ensures align { IfOk result (λ format. IsTrue (is_align format.align)) }
{
    if body.len() < 20 {
        return Err(ImaWaveFault::BadFmt {
            len: body.len() as u64,
        });
    }
    let tag = LittleEndian::read_u16(body);
    if tag != 17 {
        return Err(ImaWaveFault::NotIma {
            tag: u64::from(tag),
        });
    }
    read_layout(body)
}
