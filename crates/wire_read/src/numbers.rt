//! Events, faults and limits as numbers, for callers in other languages.
ghost use Rattle.std.specs.Prelude.{◌≡◌};
ghost use Rattle.wire_read.specs.Numbers.{context_of, detail_of, kind_of, part_of, status_of, told_fault, value_of};

use crate::event::{Fault, Part, Value};
use wire_codec::{DecodeContext, DecodeError};

/// What may be taken at most: records, bytes of payloads, and groups that are open at once. The
/// greatest number of either count is no limit.
#[repr(C)]
#[derive(Debug, Drop)]
pub struct LimitNumbers {
    pub records: usize,
    pub payload_bytes: usize,
    pub depth: u32,
}

/// Where and why bytes do not go on as records.
#[repr(C)]
#[derive(Debug, Drop)]
pub struct FaultNumbers {
    pub status: u32,
    /// The wire type or the field number that the error names, or 0.
    pub detail: u32,
    pub part: u32,
    pub record_place: usize,
    pub part_place: usize,
}

/// The context of limits.
pub fn context_of(limits: &LimitNumbers) -> DecodeContext
    ensures { result ≡ context_of limits.now }
{
    DecodeContext::new(limits.depth, limits.records).with_unknown_bytes(limits.payload_bytes)
}

/// A fault, told in numbers.
pub fn tell_fault(fault: &Fault) -> FaultNumbers
    ensures { result ≡ told_fault fault.now }
{
    FaultNumbers {
        status: status_of(&fault.error),
        detail: detail_of(&fault.error),
        part: part_of(fault.part),
        record_place: fault.record_place,
        part_place: fault.part_place,
    }
}

/// The wire type of a value.
pub fn kind_of(value: Value<'_>) -> u32
    ensures { result ≡ kind_of value.entry }
{
    match value {
        Value::Varint(_) => 0,
        Value::Fixed64(_) => 1,
        Value::Bytes(_) => 2,
        Value::GroupStart => 3,
        Value::GroupEnd => 4,
        Value::Fixed32(_) => 5,
    }
}

/// The number on the wire, or the length of a payload.
pub fn value_of(value: Value<'_>) -> u64
    ensures { result ≡ value_of value.entry }
{
    match value {
        Value::Varint(number) | Value::Fixed64(number) => number,
        Value::Fixed32(number) => u64::from(number),
        Value::Bytes(payload) => payload.len() as u64,
        Value::GroupStart | Value::GroupEnd => 0,
    }
}

fn part_of(part: Part) -> u32
    ensures { result ≡ part_of part }
{
    match part {
        Part::Tag => 0,
        Part::Value => 1,
        Part::Length => 2,
        Part::Payload => 3,
        Part::EndTag => 4,
    }
}

/// An error as a number, from 2 on. None is ever given to another error.
pub fn status_of(error: &DecodeError) -> u32
    ensures { result ≡ status_of error.now }
{
    match error {
        DecodeError::UnexpectedEof => 2,
        DecodeError::VarintTooLong => 3,
        DecodeError::InvalidWireType(_) => 4,
        DecodeError::InvalidFieldNumber => 5,
        DecodeError::MessageTooLarge => 6,
        DecodeError::WireTypeMismatch { .. } => 7,
        DecodeError::InvalidUtf8 => 8,
        DecodeError::RecursionLimitExceeded => 9,
        DecodeError::InvalidEndGroup(_) => 10,
        DecodeError::InvalidMessageSet(_) => 11,
        DecodeError::UnknownFieldLimitExceeded => 12,
        DecodeError::ElementMemoryLimitExceeded => 13,
        DecodeError::Custom(_) => 14,
        DecodeError::OutOfMemory => 15,
    }
}

// The number in an error, where it has one: a wire type or a field number.
fn detail_of(error: &DecodeError) -> u32
    ensures { result ≡ detail_of error.now }
{
    match error {
        DecodeError::InvalidWireType(wire_type) => *wire_type,
        DecodeError::InvalidEndGroup(number) => *number,
        _ => 0,
    }
}
