//! Why nothing is generated.
use std::alloc::{AllocError, AllocFailed};
use wire_codec::{DecodeError, EncodeError};

/// Why no crate is generated of a schema.
#[derive(Drop)]
pub enum GenerateError {
    /// What the schema has and a crate can't have, in a line.
    Refused(String),
    /// The request is none.
    Request(DecodeError),
    /// The answer can't be written.
    Answer(EncodeError),
    OutOfMemory,
}

impl<T: Drop> From<AllocFailed<T>> for GenerateError {
    ghost use Rattle.std.specs.Prelude.{◌≡◌};
    ghost use Rattle.wire_schema.specs.declared.error.GenerateError.TheVariants.{OutOfMemory};

    ghost from_gives = { λ _ e. e ≡ OutOfMemory };

    fn from(_error: AllocFailed<T>) -> GenerateError {
        GenerateError::OutOfMemory
    }
}

impl From<AllocError> for GenerateError {
    ghost use Rattle.std.specs.Prelude.{◌≡◌};
    ghost use Rattle.wire_schema.specs.declared.error.GenerateError.TheVariants.{OutOfMemory};

    ghost from_gives = { λ _ e. e ≡ OutOfMemory };

    fn from(_error: AllocError) -> GenerateError {
        GenerateError::OutOfMemory
    }
}
