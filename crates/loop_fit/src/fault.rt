ghost use Rattle.std.specs.Prelude.{◌≡◌};
ghost use Rattle.loop_fit.specs.declared.fault.FitFault.TheVariants.{NoMemory as OutOfMemory};

use adpcm_nums::NoMemory;
use thiserror::Error;

/// Why a sound is not fitted to blocks.
#[derive(Clone, Copy, Debug, PartialEq, Eq, Error)]
pub enum FitFault {
    /// It has no frame.
    #[error("the sample has no frame")]
    EmptySample,
    /// Its loop takes no whole blocks, and may not be repeated.
    #[error("a loop of {len} frames takes no whole blocks of {block} samples")]
    LoopLength {
        /// The frames of the loop.
        len: u32,
        /// The samples of a block.
        block: u32,
    },
    /// It would take more than 4,096 blocks or 262,144 targets.
    #[error("{blocks} blocks are too many")]
    TooLong {
        /// The blocks that it would take.
        blocks: u64,
    },
    /// There was no memory.
    #[error("out of memory")]
    NoMemory,
}

impl From<NoMemory> for FitFault {
    ghost from_gives = { λ _ e. e ≡ OutOfMemory };

    fn from(_none: NoMemory) -> FitFault {
        FitFault::NoMemory
    }
}
