//! Why a text is refused, and why nothing is written.
ghost use Rattle.std.specs.Prelude.{◌≡◌};
ghost use Rattle.wire_protojson.specs.declared.refusal.Reason.TheVariants.{NoJson, NoValue};

use std::alloc::AllocError;
use std::fmt;
use thiserror::Error;
use wire_json::{Fault, FaultKind, JsonError};

/// What is wrong with a text.
#[derive(Clone, Copy, Debug, PartialEq, Eq)]
pub enum Reason {
    /// What stands here goes on no JSON.
    NoJson(FaultKind),

    /// The JSON that begins here is no value of the type that is read: it is of another kind, no
    /// whole number, out of range, no base64, or no name that the enum has.
    NoValue,

    /// The value that begins here is of a field, or of a key of a map, that has one already.
    Duplicate,

    /// The value that begins here is of a oneof, of which another member has a value before it.
    SecondOfOneof,

    /// The value that begins here is of no field.
    UnknownName,

    /// The value that begins here is of a name that is no key of the map's type.
    NoKey,
}

impl fmt::Display for Reason {
    fn fmt<W: fmt::Write>(&self, f: &mut fmt::Formatter<W>) -> fmt::Result {
        f.write_str(match self {
            Reason::NoJson(FaultKind::Syntax) => "no JSON",
            Reason::NoJson(FaultKind::LoneSurrogate) => "a lone surrogate",
            Reason::NoJson(FaultKind::TooDeep) => "too many levels",
            Reason::NoValue => "no value of the type",
            Reason::Duplicate => "a second value",
            Reason::SecondOfOneof => "a second member of a oneof",
            Reason::UnknownName => "the value of an unknown name",
            Reason::NoKey => "the value of a name that is no key",
        })
    }
}

/// Why a text is refused, and the byte where that stands: the length of the text at its end.
#[derive(Clone, Copy, Debug, PartialEq, Eq)]
pub struct Refusal {
    pub reason: Reason,
    pub at: usize,
}

/// Why nothing is read.
#[derive(Clone, Copy, Debug, PartialEq, Eq, Drop, Error)]
pub enum ReadError {
    /// The text is refused.
    #[error("{} at byte {}", .0.reason, .0.at)]
    Refused(Refusal),

    /// Memory ran out.
    #[error("out of memory")]
    OutOfMemory,
}

impl From<AllocError> for ReadError {
    ghost use Rattle.wire_protojson.specs.declared.refusal.ReadError.TheVariants.{OutOfMemory};

    ghost from_gives = { λ _ e. e ≡ OutOfMemory };

    fn from(_error: AllocError) -> ReadError {
        ReadError::OutOfMemory
    }
}

/// Why a value is not written.
#[derive(Clone, Copy, Debug, PartialEq, Eq, Drop, Error)]
pub enum WriteError {
    /// The mapping has no text for the value: a timestamp or a duration is out of range, the parts
    /// of a duration have two signs, or a field mask would be read as other paths.
    #[error("a value without a text in JSON")]
    OutOfRange,

    /// Memory ran out.
    #[error("out of memory")]
    OutOfMemory,
}

impl From<AllocError> for WriteError {
    ghost use Rattle.wire_protojson.specs.declared.refusal.WriteError.TheVariants.{OutOfMemory};

    ghost from_gives = { λ _ e. e ≡ OutOfMemory };

    fn from(_error: AllocError) -> WriteError {
        WriteError::OutOfMemory
    }
}

impl From<Fault> for ReadError {
    ghost use Rattle.wire_protojson.specs.declared.refusal.ReadError.TheVariants.{Refused};
    ghost use Rattle.wire_protojson.specs.declared.refusal.Reason.TheVariants.{NoJson};

    ghost from_gives = { λ fault e.
        e ≡ Refused (record { reason = NoJson fault.kind; at = fault.at }) };

    fn from(fault: Fault) -> ReadError {
        no_json(fault)
    }
}

impl From<JsonError> for ReadError {
    ghost use Rattle.wire_protojson.specs.Reads.{of_json_error};

    ghost from_gives = { λ error e. e ≡ of_json_error error };

    fn from(error: JsonError) -> ReadError {
        match error {
            JsonError::Refused(fault) => no_json(fault),
            JsonError::OutOfMemory => ReadError::OutOfMemory,
        }
    }
}

/// The refusal of a text that is no JSON, at the byte of the fault.
pub fn no_json(fault: Fault) -> ReadError
    ensures { result ≡ ReadError.Refused (record { reason = NoJson fault.kind; at = fault.at }) }
{
    ReadError::Refused(Refusal {
        reason: Reason::NoJson(fault.kind),
        at: fault.at,
    })
}

/// The refusal of a value of JSON, at the byte where it begins.
pub fn no_value(at: usize) -> ReadError
    ensures { result ≡ ReadError.Refused (record { reason = NoValue; at = at }) }
{
    ReadError::Refused(Refusal {
        reason: Reason::NoValue,
        at,
    })
}
