ghost use Rattle.std.specs.Prelude.{◌≡◌};
ghost use Rattle.decompile_core.specs.declared.fault.DecompileFault.TheVariants.{NoMemory as OutOfMemory};

use adpcm_nums::NoMemory;
use ima_wave::ImaWaveFault;
use player_model::TrackFault;
use snes_directory::ImageFault;
use std::alloc::AllocError;
use thiserror::Error;
use vag_writer::VagFault;

/// Why a bank is not taken apart: the first fault.
#[derive(Clone, Copy, Debug, PartialEq, Eq, Error)]
pub enum DecompileFault {
    /// The bytes are no SNES image.
    #[error("{fault}")]
    Image {
        /// Why not.
        fault: ImageFault,
    },
    /// The bytes are no VAG file.
    #[error("{fault}")]
    Vag {
        /// Why not.
        fault: VagFault,
    },
    /// The bytes are no WAVE file of IMA ADPCM.
    #[error("{fault}")]
    Ima {
        /// Why not.
        fault: ImaWaveFault,
    },
    /// The blocks of an entry are no track.
    #[error("{fault}")]
    Track {
        /// Why not.
        fault: TrackFault,
    },
    /// An entry, the first of them, has more than 4,096 blocks or more than 262,144 samples in its blocks.
    #[error("an entry has {blocks} blocks, which are too many")]
    TooMuch {
        /// Its blocks.
        blocks: u64,
    },
    /// There was no memory.
    #[error("out of memory")]
    NoMemory,
}

impl From<NoMemory> for DecompileFault {
    ghost from_gives = { λ _ e. e ≡ OutOfMemory };

    fn from(_none: NoMemory) -> DecompileFault {
        DecompileFault::NoMemory
    }
}
