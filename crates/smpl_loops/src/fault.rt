use thiserror::Error;

/// Why a sampler's first loop is refused: the first fault.
#[derive(Clone, Copy, Debug, PartialEq, Eq, Error)]
pub enum LoopFault {
    /// Fewer than 36 bytes, or fewer than 60 although there is a loop.
    #[error("the sampler has only {len} bytes")]
    SmplShort {
        /// The sampler's length in bytes.
        len: u64,
    },
    /// The loop does not simply run forward: its type is not 0.
    #[error("the loop has type {kind} and not 0")]
    LoopKind {
        /// The type that is given.
        kind: u64,
    },
    /// The loop starts after its end.
    #[error("the loop starts at frame {start} and ends before it at {end}")]
    LoopBackwards {
        /// The first frame of the loop.
        start: u64,
        /// The last frame of the loop.
        end: u64,
    },
    /// The loop ends at or after the end of the sound.
    #[error("the loop ends at frame {end} of a sound of {frames} frames")]
    LoopOutside {
        /// The last frame of the loop.
        end: u64,
        /// The frames of the sound.
        frames: u64,
    },
}
