use thiserror::Error;

/// Why bytes are no block (IMA recommended practices, 1992).
#[derive(Clone, Copy, Debug, PartialEq, Eq, Error)]
pub enum ImaFault {
    /// The step index, the third byte, is above 88.
    #[error("the step index is {index}, and 88 is the most")]
    BadIndex {
        /// The index.
        index: u8,
    },
    /// The fourth byte is not 0.
    #[error("the byte behind the step index is {value}, and not 0")]
    BadReserved {
        /// The byte.
        value: u8,
    },
}
