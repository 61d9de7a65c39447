use block_flags::SplitFault;
use ima_machine::ImaFault;
use thiserror::Error;

/// Why stored bytes are no track.
#[derive(Clone, Copy, Debug, PartialEq, Eq, Error)]
pub enum TrackFault {
    /// The walk comes to a block, at this byte, that does not fit, before an end flag.
    #[error("no end flag before byte {at}")]
    NoEnd {
        /// The byte at which that block begins.
        at: u64,
    },
    /// The end block repeats, and this address is that of no block of the track.
    #[error("no block of the track begins at byte {at}")]
    BadAgain {
        /// The address at which the player would go on.
        at: u64,
    },
    /// The bytes do not split at an end block.
    #[error("{fault}")]
    Split {
        /// Why they do not.
        fault: SplitFault,
    },
    /// A block up to the end has a filter that the decoder has not.
    #[error("block {block} has filter {filter}")]
    BadFilter {
        /// The number of the first such block.
        block: u32,
        /// Its filter, from 5 to 7.
        filter: u8,
    },
    /// A block of IMA ADPCM has no head of the decoder.
    #[error("block {block}: {fault}")]
    BadHead {
        /// The number of the first such block.
        block: u32,
        /// What is wrong with its head.
        fault: ImaFault,
    },
}
