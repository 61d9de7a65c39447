use bound_cert::CertFault;
use cert_check::CellFault;
use thiserror::Error;

/// Why a stored certificate is refused.
#[derive(Clone, Copy, Debug, PartialEq, Eq, Error)]
pub enum CertRefusal {
    /// Its bytes are no certificate of the sample's segments.
    #[error("{fault}")]
    Grammar {
        /// The first fault of the bytes.
        fault: CertFault,
    },
    /// A listed value is above what is found.
    #[error("CellFault {segment} {fault}")]
    Cell {
        /// The segment, from 0.
        segment: u32,
        /// The first such cell of it.
        fault: CellFault,
    },
    /// It records another bound than it shows.
    #[error("Bound {segment} {have} {found}")]
    Bound {
        /// The segment, from 0.
        segment: u32,
        /// What is recorded, in squared 16-bit steps.
        have: u64,
        /// What is shown.
        found: u64,
    },
}
