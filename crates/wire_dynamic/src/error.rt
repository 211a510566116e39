//! Why a descriptor set is none.
ghost use Rattle.std.specs.Prelude.{◌≡◌};

use std::alloc::{AllocError, AllocFailed};
use thiserror::Error;
use wire_codec::DecodeError;

/// Why a descriptor set is none whose types can be looked up.
#[derive(Debug, Drop, Error)]
pub enum SchemaError {
    /// The bytes are no descriptor set.
    #[error("no descriptor set: {0}")]
    NotDecoded(DecodeError),

    /// A file of a syntax or an edition that is not known; its name is given.
    #[error("{0}: no syntax or edition that is known")]
    UnknownEdition(String),

    /// More than one message type or more than one enum has this full name.
    #[error("{0}: more than one type has this name")]
    NameTwice(String),

    /// The number of a field of this name is below 1 or above 536,870,911.
    #[error("field {0}: its number is none")]
    NoNumber(String),

    /// More than one field of a message has the number of the field of this name.
    #[error("field {0}: another field has its number")]
    NumberTwice(String),

    /// The type of a field of this name is none of those that a field can have.
    #[error("field {0}: its type is none")]
    NoKind(String),

    /// A type of this name is not in the set.
    #[error("{0}: no such type is in the descriptor set")]
    NoType(String),

    /// A message type of this name stands in 100 others, and has one nested in it.
    #[error("{0}: too many message types within one another")]
    TooMany(String),

    /// Memory ran out.
    #[error("out of memory")]
    OutOfMemory,
}

impl From<AllocError> for SchemaError {
    ghost use Rattle.wire_dynamic.specs.declared.error.SchemaError.TheVariants.{OutOfMemory};

    ghost from_gives = { λ _ e. e ≡ OutOfMemory };

    fn from(_error: AllocError) -> SchemaError {
        SchemaError::OutOfMemory
    }
}

impl<T: Drop> From<AllocFailed<T>> for SchemaError {
    ghost use Rattle.wire_dynamic.specs.declared.error.SchemaError.TheVariants.{OutOfMemory};

    ghost from_gives = { λ _ e. e ≡ OutOfMemory };

    fn from(_error: AllocFailed<T>) -> SchemaError {
        SchemaError::OutOfMemory
    }
}

impl From<DecodeError> for SchemaError {
    ghost use Rattle.wire_dynamic.specs.Errors.{decode_failed};

    ghost from_gives = { λ error e. e ≡ decode_failed error };

    fn from(error: DecodeError) -> SchemaError {
        match error {
            DecodeError::OutOfMemory => SchemaError::OutOfMemory,
            _ => SchemaError::NotDecoded(error),
        }
    }
}
