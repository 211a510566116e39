//! Why bytes are refused, and why a value cannot be written.
ghost use Rattle.std.specs.Prelude.{◌≡◌};

use bytes::TryGetError;
use std::alloc::{AllocError, AllocFailed};
use thiserror::Error;

/// Why bytes do not decode.
#[derive(Clone, Debug, PartialEq, Eq, Drop, Error)]
pub enum DecodeError {
    /// The bytes end before a varint, a fixed-width value, a payload or a group does, or a record
    /// runs past the payload that it stands in.
    #[error("unexpected end of buffer")]
    UnexpectedEof,

    /// A varint goes on past ten bytes, or its tenth byte has a bit beyond the 64th.
    #[error("varint exceeded maximum length of 10 bytes")]
    VarintTooLong,

    /// A wire type that is none (6 and 7), or that may not stand where it does.
    #[error("invalid wire type: {0}")]
    InvalidWireType(u32),

    /// A field number that is 0 or past `MAX_FIELD_NUMBER`.
    #[error("invalid field number")]
    InvalidFieldNumber,

    /// An input, or the length before a payload, is past a limit on its size.
    #[error("message length exceeds the size limit (2 GiB protobuf maximum, or a configured DecodeOptions limit)")]
    MessageTooLarge,

    /// A known field came with another wire type than its own; both are given by their numbers.
    #[error("wire type mismatch on field {field_number}: expected {expected}, got {actual}")]
    WireTypeMismatch {
        field_number: u32,
        expected: u8,
        actual: u8,
    },

    /// A string's payload is not UTF-8.
    #[error("invalid UTF-8 in string field")]
    InvalidUtf8,

    /// Groups or messages nest deeper than the limit.
    #[error("recursion limit exceeded")]
    RecursionLimitExceeded,

    /// A group was ended by the end tag of another field number, which is given.
    #[error("invalid end-group tag: field number {0}")]
    InvalidEndGroup(u32),

    /// For layers above: this crate never answers it.
    #[error("invalid MessageSet item: {0}")]
    InvalidMessageSet(&'static str),

    /// There are more unknown fields than the limit, or more bytes in their payloads.
    #[error("unknown field limit exceeded")]
    UnknownFieldLimitExceeded,

    /// Repeated elements take more memory than the limit.
    #[error("element memory limit exceeded")]
    ElementMemoryLimitExceeded,

    /// A type that a user plugged in refused the value.
    #[error("custom representation rejected the field value: {0}")]
    Custom(&'static str),

    /// Memory ran out.
    #[error("out of memory")]
    OutOfMemory,
}

/// Why a value is not written.
#[derive(Clone, Debug, PartialEq, Eq, Drop, Error)]
pub enum EncodeError {
    /// The message's size is past 2,147,483,647 bytes.
    #[error("message encoded size exceeds the 2 GiB protobuf limit")]
    MessageTooLarge,

    /// The message's size is past the budget that the caller gave.
    #[error("message encoded size {len} exceeds the caller budget of {max_bytes} bytes")]
    ExceedsBudget { len: u32, max_bytes: u32 },

    /// Memory ran out.
    #[error("out of memory")]
    OutOfMemory,

    /// A length is past `usize::MAX`, or past what a sink can count.
    #[error("length does not fit")]
    LengthOverflow,
}

impl From<AllocError> for DecodeError {
    ghost use Rattle.wire_base.specs.declared.error.DecodeError.TheVariants.{OutOfMemory};

    ghost from_gives = { λ _ e. e ≡ OutOfMemory };

    fn from(_error: AllocError) -> DecodeError {
        DecodeError::OutOfMemory
    }
}

impl<T: Drop> From<AllocFailed<T>> for DecodeError {
    ghost use Rattle.wire_base.specs.declared.error.DecodeError.TheVariants.{OutOfMemory};

    ghost from_gives = { λ _ e. e ≡ OutOfMemory };

    fn from(_error: AllocFailed<T>) -> DecodeError {
        DecodeError::OutOfMemory
    }
}

impl From<TryGetError> for DecodeError {
    ghost use Rattle.wire_base.specs.declared.error.DecodeError.TheVariants.{UnexpectedEof};

    ghost from_gives = { λ _ e. e ≡ UnexpectedEof };

    fn from(_error: TryGetError) -> DecodeError {
        DecodeError::UnexpectedEof
    }
}

impl From<AllocError> for EncodeError {
    ghost use Rattle.wire_base.specs.declared.error.EncodeError.TheVariants.{OutOfMemory};

    ghost from_gives = { λ _ e. e ≡ OutOfMemory };

    fn from(_error: AllocError) -> EncodeError {
        EncodeError::OutOfMemory
    }
}

impl<T: Drop> From<AllocFailed<T>> for EncodeError {
    ghost use Rattle.wire_base.specs.declared.error.EncodeError.TheVariants.{OutOfMemory};

    ghost from_gives = { λ _ e. e ≡ OutOfMemory };

    fn from(_error: AllocFailed<T>) -> EncodeError {
        EncodeError::OutOfMemory
    }
}
