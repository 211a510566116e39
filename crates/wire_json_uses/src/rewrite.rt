//! Why a value is not read and written again.
use thiserror::Error;
use wire_protojson::{ReadError, WriteError};

/// Why a value is not read and written again.
#[derive(Clone, Copy, Debug, PartialEq, Eq, Drop, Error)]
pub enum RewriteError {
    /// The text is refused, or memory ran out where it was read.
    #[error("{0}")]
    Read(#[from] ReadError),

    /// The value has no text, or memory ran out where it was written.
    #[error("{0}")]
    Write(#[from] WriteError),
}
