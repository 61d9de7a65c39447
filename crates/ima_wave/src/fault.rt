ghost use Rattle.std.specs.Prelude.{◌≡◌};
ghost use Rattle.ima_wave.specs.declared.fault.ImaWaveFault.TheVariants.{Walk as InWalk, Loop as InLoop, NoMemory as OutOfMemory};

use adpcm_nums::NoMemory;
use ima_machine::ImaFault;
use smpl_loops::LoopFault;
use thiserror::Error;
use wave_form::WaveFault;

/// Why bytes are not read as a WAVE file of IMA ADPCM: the first fault.
#[derive(Clone, Copy, Debug, PartialEq, Eq, Error)]
pub enum ImaWaveFault {
    /// The chunks of the file cannot be walked.
    #[error("{fault}")]
    Walk {
        /// Why not.
        fault: WaveFault,
    },
    /// There is no `fmt ` chunk.
    #[error("there is no fmt chunk")]
    NoFmt,
    /// The `fmt ` body has fewer than 20 bytes.
    #[error("the fmt chunk has only {len} bytes")]
    BadFmt {
        /// The body's length in bytes.
        len: u64,
    },
    /// The format tag does not say IMA ADPCM.
    #[error("format tag {tag} is not IMA ADPCM")]
    NotIma {
        /// The tag.
        tag: u64,
    },
    /// There is not one channel.
    #[error("there are {channels} channels, not 1")]
    BadChannels {
        /// The number of channels.
        channels: u64,
    },
    /// The rate is not in 1 to 1,000,000.
    #[error("the rate is {rate} frames per second, not 1 to 1000000")]
    BadRate {
        /// The rate in frames per second.
        rate: u64,
    },
    /// A code has not four bits.
    #[error("a code has {bits} bits, not 4")]
    BadBits {
        /// The bits of a code.
        bits: u64,
    },
    /// The block align is no multiple of 4 in 8 to 1024, or the samples of a block are not as many as fit in it.
    #[error("blocks of {align} bytes do not have as many samples as it says")]
    BadAlign {
        /// The block align in bytes.
        align: u64,
    },
    /// There is no `data` chunk.
    #[error("there is no data chunk")]
    NoData,
    /// A block does not begin with the head of one.
    #[error("block {block}: {fault}")]
    BadHead {
        /// The block's number, from 0.
        block: u64,
        /// What is wrong with its head.
        fault: ImaFault,
    },
    /// The loop is refused.
    #[error("{fault}")]
    Loop {
        /// Why it is.
        fault: LoopFault,
    },
    /// There was no memory.
    #[error("out of memory")]
    NoMemory,
}

impl From<WaveFault> for ImaWaveFault {
    ghost from_gives = { λ fault e. e ≡ InWalk fault };

    fn from(fault: WaveFault) -> ImaWaveFault {
        ImaWaveFault::Walk { fault }
    }
}

impl From<LoopFault> for ImaWaveFault {
    ghost from_gives = { λ fault e. e ≡ InLoop fault };

    fn from(fault: LoopFault) -> ImaWaveFault {
        ImaWaveFault::Loop { fault }
    }
}

impl From<NoMemory> for ImaWaveFault {
    ghost from_gives = { λ _ e. e ≡ OutOfMemory };

    fn from(_none: NoMemory) -> ImaWaveFault {
        ImaWaveFault::NoMemory
    }
}
