use thiserror::Error;

/// The first fault of a certificate's bytes.
#[derive(Clone, Copy, Debug, PartialEq, Eq, Error)]
pub enum CertFault {
    /// The file does not begin with `ADBC`.
    #[error("BadMagic")]
    BadMagic,
    /// The version is not 1.
    #[error("BadVersion {version}")]
    BadVersion {
        /// The version.
        version: u64,
    },
    /// The kind, the number of segments, or a segment's number of blocks is another.
    #[error("ShapeDiffers {have} {need}")]
    ShapeDiffers {
        /// The number in the file.
        have: u64,
        /// The number that is needed.
        need: u64,
    },
    /// A level is not 0, 4, 8 or 255.
    #[error("BadLevel {level}")]
    BadLevel {
        /// The level.
        level: u64,
    },
    /// The byte after a segment's level is not 0.
    #[error("BadZero {at}")]
    BadZero {
        /// Its place.
        at: u64,
    },
    /// A layer's block, place or lane is out of range, or it has no cells; or a segment without cells has layers.
    #[error("LayerRange {at}")]
    LayerRange {
        /// The layer's place, or that of the number of layers.
        at: u64,
    },
    /// A layer is not above the one before.
    #[error("LayerOrder {at}")]
    LayerOrder {
        /// The layer's place.
        at: u64,
    },
    /// A cell is not one of its level, or its value is 2^60 or more.
    #[error("CellRange {at}")]
    CellRange {
        /// The cell's place.
        at: u64,
    },
    /// A cell is not above the one before.
    #[error("CellOrder {at}")]
    CellOrder {
        /// The cell's place.
        at: u64,
    },
    /// The file ends within a field.
    #[error("Short {at}")]
    Short {
        /// The place where the field begins.
        at: u64,
    },
    /// Bytes follow the last segment.
    #[error("Trailing {at}")]
    Trailing {
        /// Their place.
        at: u64,
    },
}
