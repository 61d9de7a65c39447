ghost use Rattle.adpcm_nums.specs.Outcome.{Tells};
ghost use Rattle.manifest_reader.specs.declared.fault.ManifestFault.TheVariants.{WrongKind, BadWord};

use adpcm_nums::{NoMemory, Text};
use std::alloc::{AllocFailed, Global};
use thiserror::Error;

/// What is wrong with a manifest: its first fault, in the order in which the variants stand here
/// (this project's own choice). Keys of samples stand without `sample.`.
#[derive(Debug, Drop, Error)]
pub enum ManifestFault {
    /// It has more than 65,536 bytes.
    #[error("the manifest is too long")]
    TooLong {
        /// How many bytes there are.
        len: u64,
    },
    /// It is no TOML text, or not UTF-8.
    #[error("the manifest is not TOML")]
    NotToml,
    /// A key stands there that no manifest has, the first such one in byte order.
    #[error("a key is not known")]
    UnknownKey {
        /// The key.
        key: Text,
    },
    /// A key is not there that has to be.
    #[error("a key is missing")]
    MissingKey {
        /// The key.
        key: Text,
    },
    /// What stands at a key is of another kind: no text, no number, no array or no table.
    #[error("a value is of the wrong kind")]
    WrongKind {
        /// The key.
        key: Text,
    },
    /// The number at a key is out of its range, or no multiple of what it has to be.
    #[error("a number is out of range")]
    OutOfRange {
        /// The key.
        key: Text,
        /// The number, as it stands.
        value: i64,
    },
    /// The text at a key is none of those that may stand there.
    #[error("a text does not fit its key")]
    BadWord {
        /// The key.
        key: Text,
    },
    /// There is no sample.
    #[error("the manifest has no samples")]
    NoSamples,
    /// There are more than 64 samples.
    #[error("the manifest has too many samples")]
    TooMany {
        /// How many there are.
        count: u64,
    },
    /// A sample has the name of an earlier one.
    #[error("two samples have one name")]
    SameName {
        /// The name.
        name: Text,
    },
    /// The file of a sample, or the manifest itself, has a name under which the bank is stored.
    #[error("a file would be overwritten")]
    Clash {
        /// The name of the file.
        name: Text,
    },
    /// There was no memory.
    #[error("out of memory")]
    NoMemory,
}

/// What stands at this key is of another kind.
pub(crate) fn wrong_kind(alloc: Global, key: &str) -> ManifestFault
    ensures { Tells ManifestFault.NoMemory result (WrongKind key.now) }
{
    match Text::copy_of(alloc, key) {
        Ok(key) => ManifestFault::WrongKind { key },
        Err(_) => ManifestFault::NoMemory,
    }
}

/// The text at this key may not stand there.
pub(crate) fn bad_word(alloc: Global, key: &str) -> ManifestFault
    ensures { Tells ManifestFault.NoMemory result (BadWord key.now) }
{
    match Text::copy_of(alloc, key) {
        Ok(key) => ManifestFault::BadWord { key },
        Err(_) => ManifestFault::NoMemory,
    }
}

impl From<NoMemory> for ManifestFault {
    ghost use Rattle.std.specs.Prelude.{◌≡◌};
    ghost use Rattle.manifest_reader.specs.declared.fault.ManifestFault.TheVariants.{NoMemory};

    ghost from_gives = { λ _ e. e ≡ NoMemory };

    fn from(_e: NoMemory) -> ManifestFault {
        ManifestFault::NoMemory
    }
}

impl<T: Drop> From<AllocFailed<T>> for ManifestFault {
    ghost use Rattle.std.specs.Prelude.{◌≡◌};
    ghost use Rattle.manifest_reader.specs.declared.fault.ManifestFault.TheVariants.{NoMemory};

    ghost from_gives = { λ _ e. e ≡ NoMemory };

    fn from(_e: AllocFailed<T>) -> ManifestFault {
        ManifestFault::NoMemory
    }
}
