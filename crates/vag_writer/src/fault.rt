ghost use Rattle.std.specs.Prelude.{◌≡◌};
ghost use Rattle.vag_writer.specs.declared.fault.VagFault.TheVariants.{NoMemory as OutOfMemory};

use adpcm_nums::NoMemory;
use std::alloc::AllocError;
use thiserror::Error;

/// Why a VAG file is not written, or the first fault of one that is read.
#[derive(Clone, Copy, Debug, PartialEq, Eq, Error)]
pub enum VagFault {
    /// The name has more than 16 bytes.
    #[error("the name has {len} bytes, and 16 is the most")]
    NameLong {
        /// Its length in bytes.
        len: u64,
    },
    /// The file does not begin with `VAGp`.
    #[error("not a VAG file")]
    NotVag,
    /// The file ends within its header of 48 bytes.
    #[error("the file has only {len} bytes")]
    VagShort {
        /// Its length in bytes.
        len: u64,
    },
    /// The rate is not in 1 to 1,000,000.
    #[error("the rate is {rate}")]
    BadRate {
        /// The rate in samples a second.
        rate: u64,
    },
    /// There was no memory.
    #[error("out of memory")]
    NoMemory,
}

impl From<NoMemory> for VagFault {
    ghost from_gives = { λ _ e. e ≡ OutOfMemory };

    fn from(_none: NoMemory) -> VagFault {
        VagFault::NoMemory
    }
}

impl From<AllocError> for VagFault {
    ghost from_gives = { λ _ e. e ≡ OutOfMemory };

    fn from(_none: AllocError) -> VagFault {
        VagFault::NoMemory
    }
}
