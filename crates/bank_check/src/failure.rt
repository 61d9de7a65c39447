use command_faults::{CertRefusal, InputFault};
use thiserror::Error;

/// Why a certificate proves nothing of a sound.
#[derive(Clone, Copy, Debug, PartialEq, Eq, Error)]
pub enum CertFailure {
    /// It is refused.
    #[error("{fault}")]
    Refused {
        /// The first reason.
        fault: CertRefusal,
    },
    /// There was no memory for the list of segments or for the room in which they are checked.
    #[error("no memory")]
    NoMemory,
}

/// Why a stored file has no error for a sound.
#[derive(Clone, Copy, Debug, PartialEq, Eq, Error)]
pub enum StoredFailure {
    /// It cannot be read, or is not what the sound asks for.
    #[error("{fault}")]
    Fault {
        /// The first fault.
        fault: InputFault,
    },
    /// There was no memory.
    #[error("no memory")]
    NoMemory,
}
