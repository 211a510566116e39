//! Why a run fails.
ghost use Rattle.std.specs.Prelude.{◌≡◌};

use std::alloc::AllocError;
use thiserror::Error;
use wire_codec::DecodeError;
use wire_read::Fault;

/// Why a run fails. `{}` shows the line for standard error.
#[derive(Debug, PartialEq, Drop, Error)]
pub enum RunError {
    /// The input is not a list of fields within 100 levels and 1,000,000 fields.
    #[error("wire_min: refused: {0}")]
    Refused(DecodeError),

    /// Memory ran out, before anything was written.
    #[error("wire_min: out of memory")]
    OutOfMemory,

    /// The reader failed, before anything was written.
    #[error("wire_min: read failed")]
    ReadFailed,

    /// The writer failed, in a write or the flush, or took no byte. A front of the text may be
    /// written.
    #[error("wire_min: write failed")]
    WriteFailed,
}

impl RunError {
    ghost use Rattle.wire_min.specs.Outcome.{failure_status};

    /// The exit status: 1 for input that is refused, and 2 for the rest.
    pub fn status(&self) -> u8
        ensures { result ≡ failure_status self.now }
    {
        match self {
            RunError::Refused(_) => 1,
            RunError::OutOfMemory | RunError::ReadFailed | RunError::WriteFailed => 2,
        }
    }
}

impl From<AllocError> for RunError {
    ghost use Rattle.wire_min.specs.declared.error.RunError.TheVariants.{OutOfMemory};

    ghost from_gives = { λ _ e. e ≡ OutOfMemory };

    fn from(_error: AllocError) -> RunError {
        RunError::OutOfMemory
    }
}

impl From<Fault> for RunError {
    ghost use Rattle.wire_min.specs.declared.error.RunError.TheVariants.{Refused};

    ghost from_gives = { λ fault e. e ≡ Refused fault.error };

    fn from(fault: Fault) -> RunError {
        RunError::Refused(fault.error)
    }
}
