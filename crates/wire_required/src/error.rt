//! Why bytes, or a message, are refused.
ghost use Rattle.std.specs.Prelude.{◌≡◌};

use crate::path::FieldPath;
use std::alloc::AllocError;
use thiserror::Error;
use wire_codec::DecodeError;

/// Why bytes do not parse.
#[derive(Debug, Drop, Error)]
pub enum ParseError {
    /// They do not decode, or memory ran out.
    #[error("{0}")]
    Decode(DecodeError),

    /// They decode to a message that lacks a required field, to which the path leads.
    #[error("missing required field: {0}")]
    MissingRequiredField(FieldPath),
}

impl From<DecodeError> for ParseError {
    ghost use Rattle.wire_required.specs.declared.error.ParseError.TheVariants.{Decode};

    ghost from_gives = { λ error e. e ≡ Decode error };

    fn from(error: DecodeError) -> ParseError {
        ParseError::Decode(error)
    }
}

impl From<AllocError> for ParseError {
    ghost use Rattle.wire_codec.specs.DecodeError.TheVariants.{OutOfMemory};
    ghost use Rattle.wire_required.specs.declared.error.ParseError.TheVariants.{Decode};

    ghost from_gives = { λ _ e. e ≡ Decode OutOfMemory };

    fn from(_error: AllocError) -> ParseError {
        ParseError::Decode(DecodeError::OutOfMemory)
    }
}
