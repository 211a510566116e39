//! Why a stream does not go on.
ghost use Rattle.std.specs.Prelude.{◌≡◌};

use bytes::Bytes;
use std::alloc::AllocError;
use thiserror::Error;

/// Why no frame is taken off a stream.
#[derive(Clone, Debug, PartialEq, Eq, Drop, Error)]
pub enum FrameError {
    /// The varint of a length goes on past ten bytes, or its tenth byte has a bit beyond the 64th.
    #[error("length of a frame exceeded 10 bytes")]
    LengthTooLong,

    /// The flag of a gRPC frame is neither 0 nor 1.
    #[error("unknown flag of a frame: {0}")]
    UnknownFlag(u8),

    /// The length is above the limit; it is given.
    #[error("frame of {0} bytes exceeds the limit")]
    FrameTooLarge(u64),

    /// The input ends inside of a frame.
    #[error("input ends inside of a frame")]
    Truncated,

    /// Memory ran out.
    #[error("out of memory")]
    OutOfMemory,
}

impl From<AllocError> for FrameError {
    ghost use Rattle.wire_frames.specs.declared.error.FrameError.TheVariants.{OutOfMemory};

    ghost from_gives = { λ _ e. e ≡ OutOfMemory };

    fn from(_error: AllocError) -> FrameError {
        FrameError::OutOfMemory
    }
}

/// Why a chunk is not taken.
#[derive(Clone, Copy, Debug, PartialEq, Eq)]
pub enum UnfedCause {
    /// A whole frame or a fault waits: `next` gives it.
    NextWaits,
    /// There is no memory for the rest of the chunk before.
    OutOfMemory,
}

/// A chunk that was not taken, to be fed again.
#[derive(Debug, Drop)]
pub struct Unfed {
    pub chunk: Bytes,
    pub cause: UnfedCause,
}
