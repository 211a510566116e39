//! Why a text is refused.
ghost use Rattle.std.specs.Prelude.{◌≡◌};

use std::alloc::AllocError;
use thiserror::Error;

/// What is wrong with a text.
#[derive(Clone, Copy, Debug, PartialEq, Eq)]
pub enum FaultKind {
    /// What stands here, or the end of the text, goes on no JSON.
    Syntax,

    /// The escape that begins here is a surrogate that is in no pair.
    LoneSurrogate,

    /// An array or an object begins here that nests deeper than the limit.
    TooDeep,
}

/// The first fault of a text, with the byte where it stands: the length of the text at its end.
#[derive(Clone, Copy, Debug, PartialEq, Eq)]
pub struct Fault {
    pub kind: FaultKind,
    pub at: usize,
}

/// Why a call that wants memory answers nothing.
#[derive(Clone, Copy, Debug, PartialEq, Eq, Drop, Error)]
pub enum JsonError {
    /// The text has a fault.
    #[error("no JSON at byte {}", .0.at)]
    Refused(Fault),

    /// Memory ran out.
    #[error("out of memory")]
    OutOfMemory,
}

impl From<AllocError> for JsonError {
    ghost use Rattle.wire_json.specs.declared.fault.JsonError.TheVariants.{OutOfMemory};

    ghost from_gives = { λ _ e. e ≡ OutOfMemory };

    fn from(_error: AllocError) -> JsonError {
        JsonError::OutOfMemory
    }
}

impl From<Fault> for JsonError {
    ghost use Rattle.wire_json.specs.declared.fault.JsonError.TheVariants.{Refused};

    ghost from_gives = { λ fault e. e ≡ Refused fault };

    fn from(fault: Fault) -> JsonError {
        JsonError::Refused(fault)
    }
}
