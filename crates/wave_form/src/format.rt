ghost use Rattle.std.specs.Prelude.{◌≡◌, ◌≤◌, ◌<◌, length, IfOk};
ghost use Rattle.wave_form.specs.Format.{format_of, layout_of, channel_of, FormatFits};

use crate::fault::WaveFault;
use byteorder::{ByteOrder, LittleEndian};

/// How many bits a sample has.
#[derive(Clone, Copy, Debug, PartialEq, Eq)]
pub(crate) enum Depth {
    /// Eight, counted from 128.
    Eight,
    /// Sixteen, signed.
    Sixteen,
}

impl Depth {
    ghost use Rattle.wave_form.specs.Format.{width_of};

    /// The bytes of a sample.
    pub fn width(self) -> usize
        ensures { result ≡ width_of self }
    {
        match self {
            Depth::Eight => 1,
            Depth::Sixteen => 2,
        }
    }
}

/// How the frames of a sound are laid out.
#[derive(Clone, Copy, Debug, PartialEq, Eq)]
pub(crate) struct Format {
    /// Samples in a frame, 1 or 2.
    pub channels: u32,
    /// Frames per second.
    pub rate: u32,
    /// The bits of each sample.
    pub depth: Depth,
}

/// The sub-format of an extensible header that says PCM (`KSDATAFORMAT_SUBTYPE_PCM`).
const PCM: [u8; 16] = [1, 0, 0, 0, 0, 0, 16, 0, 128, 0, 0, 170, 0, 56, 155, 113];

impl Format {
    /// What a `fmt ` body says (RIFF WAVE, format chunk). Bytes per second and the fields of an extension
    /// besides its sub-format are not looked at.
    #[tactic(auto, unfolding(crate::specs::Format::format_of))]
    pub fn read(body: &[u8]) -> Result<Format, WaveFault>
        ensures exact { result ≡ format_of body.now }
        ensures fits { IfOk result FormatFits }
    {
        if body.len() < 16 {
            return Err(WaveFault::BadFmt {
                len: body.len() as u64,
            });
        }
        let tag = LittleEndian::read_u16(body);
        if tag == 0xFFFE && body.len() < 40 {
            return Err(WaveFault::BadFmt {
                len: body.len() as u64,
            });
        }
        if tag != 1 && !(tag == 0xFFFE && &body[24..40] == PCM.as_slice()) {
            return Err(WaveFault::NotPcm {
                tag: u64::from(tag),
            });
        }
        Format::read_layout(body)
    }

    // The fields after the tag.
    #[tactic(auto, unfolding(crate::specs::Format::layout_of))]
    fn read_layout(body: &[u8]) -> Result<Format, WaveFault>
        requires { 16 ≤ length body.now }
        ensures exact { result ≡ layout_of body.now }
        ensures fits { IfOk result FormatFits }
    {
        let channels = u32::from(LittleEndian::read_u16(&body[2..]));
        if channels != 1 && channels != 2 {
            return Err(WaveFault::BadChannels {
                channels: u64::from(channels),
            });
        }
        let rate = LittleEndian::read_u32(&body[4..]);
        if rate == 0 || rate > 1_000_000 {
            return Err(WaveFault::BadRate {
                rate: u64::from(rate),
            });
        }
        let bits = u32::from(LittleEndian::read_u16(&body[14..]));
        if bits != 8 && bits != 16 {
            return Err(WaveFault::BadBits {
                bits: u64::from(bits),
            });
        }
        let align = u32::from(LittleEndian::read_u16(&body[12..]));
        if align != channels * (bits / 8) {
            return Err(WaveFault::BadAlign {
                align: u64::from(align),
            });
        }
        let depth = if bits == 8 {
            Depth::Eight
        } else {
            Depth::Sixteen
        };
        Ok(Format {
            channels,
            rate,
            depth,
        })
    }
}

/// The channel to read, from 0: the given one, or the only one.
#[tactic(auto, unfolding(crate::specs::Format::channel_of))]
pub(crate) fn choose_channel(channels: u32, given: Option<u32>) -> Result<u32, WaveFault>
    requires { 0 < channels }
    ensures exact { result ≡ channel_of channels given }
    ensures below { IfOk result (λ channel. channel < channels) }
{
    match given {
        Some(channel) => {
            if channel < channels {
                Ok(channel)
            } else {
                Err(WaveFault::NoChannel {
                    channel: u64::from(channel),
                })
            }
        }
        None => {
            if channels == 2 {
                Err(WaveFault::NeedsChannel)
            } else {
                Ok(0)
            }
        }
    }
}
