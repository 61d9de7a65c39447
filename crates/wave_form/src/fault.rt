ghost use Rattle.std.specs.Prelude.{◌≡◌};
ghost use Rattle.wave_form.specs.declared.fault.WaveFault.TheVariants.{NoMemory};

use std::alloc::{AllocError, AllocFailed};
use thiserror::Error;

/// Why bytes are not read as a WAVE file: the first fault.
#[derive(Clone, Copy, Debug, PartialEq, Eq, Error)]
pub enum WaveFault {
    /// The first four bytes are not `RIFF`, or there are fewer.
    #[error("this is no RIFF file")]
    NotRiff,
    /// Bytes 8 to 11 are not `WAVE`, or there are fewer than twelve bytes.
    #[error("this is no WAVE file")]
    NotWave,
    /// The size of `data` is 0xFFFFFFFF, as a writer leaves it that does not know it yet.
    #[error("the length of the sound was left open")]
    Streaming,
    /// A chunk's body goes on past the end of the file.
    #[error("the chunk at byte {at} is cut off")]
    Truncated {
        /// The place of the chunk's id.
        at: u64,
    },
    /// There is a second `data` chunk.
    #[error("there are two data chunks")]
    DataTwice,
    /// There is no `fmt ` chunk.
    #[error("there is no fmt chunk")]
    NoFmt,
    /// The `fmt ` body has fewer than 16 bytes, or fewer than 40 although it is extended.
    #[error("the fmt chunk has only {len} bytes")]
    BadFmt {
        /// The body's length in bytes.
        len: u64,
    },
    /// The format tag does not say PCM.
    #[error("format tag {tag} is not PCM")]
    NotPcm {
        /// The tag.
        tag: u64,
    },
    /// There are neither one nor two channels.
    #[error("there are {channels} channels, not 1 or 2")]
    BadChannels {
        /// The number of channels.
        channels: u64,
    },
    /// The rate is not in 1..=1,000,000.
    #[error("the rate is {rate} frames per second, not 1 to 1000000")]
    BadRate {
        /// The rate in frames per second.
        rate: u64,
    },
    /// A sample has neither 8 nor 16 bits.
    #[error("a sample has {bits} bits, not 8 or 16")]
    BadBits {
        /// The bits of a sample.
        bits: u64,
    },
    /// The block align is not the number of bytes of a frame.
    #[error("the block align {align} is not the size of a frame")]
    BadAlign {
        /// The block align in bytes.
        align: u64,
    },
    /// There are two channels, and none was chosen.
    #[error("there are two channels, and none is chosen")]
    NeedsChannel,
    /// The chosen channel is not there.
    #[error("there is no channel {channel}")]
    NoChannel {
        /// The channel, from 0.
        channel: u64,
    },
    /// There is no `data` chunk.
    #[error("there is no data chunk")]
    NoData,
    /// There was no memory.
    #[error("out of memory")]
    NoMemory,
}

impl<T: Drop> From<AllocFailed<T>> for WaveFault {
    ghost from_gives = { λ _ e. e ≡ NoMemory };

    fn from(_e: AllocFailed<T>) -> WaveFault {
        WaveFault::NoMemory
    }
}

impl From<AllocError> for WaveFault {
    ghost from_gives = { λ _ e. e ≡ NoMemory };

    fn from(_e: AllocError) -> WaveFault {
        WaveFault::NoMemory
    }
}

impl From<adpcm_nums::NoMemory> for WaveFault {
    ghost from_gives = { λ _ e. e ≡ NoMemory };

    fn from(_e: adpcm_nums::NoMemory) -> WaveFault {
        WaveFault::NoMemory
    }
}
