ghost use Rattle.std.specs.Prelude.{◌≡◌};
ghost use Rattle.snes_directory.specs.declared.fault.LayFault.TheVariants.{NoMemory as NoMemoryToLay};
ghost use Rattle.snes_directory.specs.declared.fault.ImageFault.TheVariants.{NoMemory as NoMemoryToRead};

use adpcm_nums::NoMemory;
use std::alloc::AllocError;
use thiserror::Error;

/// Why samples are not laid into the console's memory.
#[derive(Clone, Copy, Debug, PartialEq, Eq, Error)]
pub enum LayFault {
    /// The directory's address is no multiple of 256 in 0 to 65,280.
    #[error("a directory cannot begin at address {base}")]
    BadBase {
        /// That address.
        base: u32,
    },
    /// The samples would pass the memory's 65,536 bytes.
    #[error("the samples would end at address {total} of 65536")]
    ImageFull {
        /// The address behind the last of them.
        total: u64,
    },
    /// There was no memory.
    #[error("out of memory")]
    NoMemory,
}

impl From<NoMemory> for LayFault {
    ghost from_gives = { λ _ e. e ≡ NoMemoryToLay };

    fn from(_none: NoMemory) -> LayFault {
        LayFault::NoMemory
    }
}

impl From<AllocError> for LayFault {
    ghost from_gives = { λ _ e. e ≡ NoMemoryToLay };

    fn from(_none: AllocError) -> LayFault {
        LayFault::NoMemory
    }
}

/// The first fault of an image file. Entries are counted from 0.
#[derive(Clone, Copy, Debug, PartialEq, Eq, Error)]
pub enum ImageFault {
    /// It does not begin with `SNBI`, or has fewer than 16 bytes.
    #[error("not an SNES image")]
    NotImage,
    /// Its version is not 1.
    #[error("version {version} is not known")]
    BadVersion {
        /// That version.
        version: u64,
    },
    /// It has no entry, or more than 64.
    #[error("{count} entries are none or too many")]
    BadEntries {
        /// Its entries.
        count: u64,
    },
    /// Its base is no multiple of 256 in 0 to 65,280.
    #[error("a directory cannot begin at address {base}")]
    BadBase {
        /// Its base.
        base: u64,
    },
    /// Its memory passes the console's 65,536 bytes.
    #[error("the memory would end at address {total} of 65536")]
    ImageFull {
        /// The address behind its memory.
        total: u64,
    },
    /// It has more or fewer bytes than it tells of.
    #[error("{have} bytes in place of {need}")]
    ImageLength {
        /// The bytes that it has.
        have: u64,
        /// The bytes that it tells of.
        need: u64,
    },
    /// The rate of an entry is not in 1 to 1,000,000.
    #[error("entry {entry} has rate {rate}")]
    BadRate {
        /// The entry.
        entry: u64,
        /// Its rate in samples a second.
        rate: u64,
    },
    /// An entry does not stand in the memory, or its blocks do not, up to the end flag.
    #[error("entry {entry} is no sample of the memory")]
    BadEntry {
        /// The entry.
        entry: u64,
    },
    /// An entry repeats, and its loop address is that of none of its blocks.
    #[error("entry {entry} goes on at none of its blocks")]
    BadLoopAddress {
        /// The entry.
        entry: u64,
    },
    /// There was no memory.
    #[error("out of memory")]
    NoMemory,
}

impl From<NoMemory> for ImageFault {
    ghost from_gives = { λ _ e. e ≡ NoMemoryToRead };

    fn from(_none: NoMemory) -> ImageFault {
        ImageFault::NoMemory
    }
}
