//! Payloads of records that are no groups.
ghost use Rattle.std.specs.Prelude.{◌≡◌, ◌≢◌, ℕ, ◌^◌, ◌≤◌, List, length, take, drop, true, false, Some, OnOk, IfOk, IfErr, IfSome, IfNone};
ghost use Rattle.wire_base.specs.declared.tag.WireType.TheVariants.{Varint, Fixed64, Fixed32, LengthDelimited, StartGroup, EndGroup};
ghost use Rattle.wire_base.specs.Limits.{Limits, HasRoom};
ghost use Rattle.wire_base.specs.TagView.{tag_type};
ghost use Rattle.wire_read.specs.PartFault.{PayloadPart};
ghost use Rattle.wire_read.specs.Budget.{budget, Spends};
ghost use Rattle.wire_read.specs.Reading.{Stands};

use crate::event::{Part, Value};
use wire_codec::{DecodeError, Tag, WireType, decode_fixed32, decode_fixed64, decode_varint};

/// A part at fault, and the bytes from where it begins.
#[derive(Debug, Drop)]
pub(crate) struct Broken<'a> {
    pub(crate) error: DecodeError,
    pub(crate) part: Part,
    pub(crate) place: &'a [u8],
}

/// A payload, the bytes behind it, and what is left of the budget of payload bytes.
#[derive(Clone, Copy, Debug)]
pub(crate) struct Found<'a> {
    pub(crate) value: Value<'a>,
    pub(crate) rest: &'a [u8],
    pub(crate) unknown_bytes: usize,
}

/// What is left of a budget once so much is taken; none where less is left. `usize::MAX` is no
/// limit.
#[inline(always)]
pub(crate) fn spend(left: usize, count: usize) -> Option<usize>
    ensures some { IfSome result (λ new. Spends count left new) }
    ensures none { IfNone result (¬ HasRoom (budget left) count) }
{
    if left == usize::MAX {
        return Some(left);
    }
    left.checked_sub(count)
}

/// Reads the payload behind the tag of a record that is no group.
#[inline(always)]
pub(crate) fn read_payload<'a>(
    tag: Tag,
    bytes: &'a [u8],
    left: usize,
) -> Result<Found<'a>, Broken<'a>>
    requires start { tag_type tag ≢ StartGroup }
    requires end { tag_type tag ≢ EndGroup }
    ensures ok { IfOk result (λ found. Stands left (tag_type tag) bytes.now found) }
    ensures fault { (l : Limits) → l.counts.unknown_bytes ≡ budget left → IfErr result
        (λ b. PayloadPart l (tag_type tag) bytes.now b.part b.place.now b.error) }
{
    match tag.wire_type() {
        WireType::Varint => read_varint(bytes, left),
        WireType::Fixed64 => read_fixed64(bytes, left),
        WireType::Fixed32 => read_fixed32(bytes, left),
        _ => read_bytes(bytes, left),
    }
}

#[inline(always)]
fn read_varint<'a>(bytes: &'a [u8], left: usize) -> Result<Found<'a>, Broken<'a>>
    ensures ok { IfOk result (λ found. Stands left Varint bytes.now found) }
    ensures fault { (l : Limits) → IfErr result
        (λ b. PayloadPart l Varint bytes.now b.part b.place.now b.error) }
{
    let mut rest = bytes;
    match decode_varint(&mut rest) {
        Ok(value) => Ok(Found {
            value: Value::Varint(value),
            rest,
            unknown_bytes: left,
        }),
        Err(error) => Err(Broken {
            error,
            part: Part::Value,
            place: bytes,
        }),
    }
}

#[inline(always)]
fn read_fixed64<'a>(bytes: &'a [u8], left: usize) -> Result<Found<'a>, Broken<'a>>
    ensures ok { IfOk result (λ found. Stands left Fixed64 bytes.now found) }
    ensures fault { (l : Limits) → IfErr result
        (λ b. PayloadPart l Fixed64 bytes.now b.part b.place.now b.error) }
{
    let mut rest = bytes;
    match decode_fixed64(&mut rest) {
        Ok(value) => Ok(Found {
            value: Value::Fixed64(value),
            rest,
            unknown_bytes: left,
        }),
        Err(error) => Err(Broken {
            error,
            part: Part::Value,
            place: bytes,
        }),
    }
}

#[inline(always)]
fn read_fixed32<'a>(bytes: &'a [u8], left: usize) -> Result<Found<'a>, Broken<'a>>
    ensures ok { IfOk result (λ found. Stands left Fixed32 bytes.now found) }
    ensures fault { (l : Limits) → IfErr result
        (λ b. PayloadPart l Fixed32 bytes.now b.part b.place.now b.error) }
{
    let mut rest = bytes;
    match decode_fixed32(&mut rest) {
        Ok(value) => Ok(Found {
            value: Value::Fixed32(value),
            rest,
            unknown_bytes: left,
        }),
        Err(error) => Err(Broken {
            error,
            part: Part::Value,
            place: bytes,
        }),
    }
}

#[inline(always)]
fn read_bytes<'a>(bytes: &'a [u8], left: usize) -> Result<Found<'a>, Broken<'a>>
    ensures ok { IfOk result (λ found. Stands left LengthDelimited bytes.now found) }
    ensures fault { (l : Limits) → l.counts.unknown_bytes ≡ budget left → IfErr result
        (λ b. PayloadPart l LengthDelimited bytes.now b.part b.place.now b.error) }
{
    let mut place = bytes;
    let len = match decode_varint(&mut place) {
        Ok(len) => len,
        Err(error) => {
            return Err(Broken {
                error,
                part: Part::Length,
                place: bytes,
            });
        }
    };
    if (place.len() as u64) < len {
        return Err(Broken {
            error: DecodeError::UnexpectedEof,
            part: Part::Payload,
            place,
        });
    }
    match spend(left, len as usize) {
        Some(unknown_bytes) => {
            let (payload, rest) = place.split_at(len as usize);
            Ok(Found {
                value: Value::Bytes(payload),
                rest,
                unknown_bytes,
            })
        }
        None => Err(Broken {
            error: DecodeError::UnknownFieldLimitExceeded,
            part: Part::Payload,
            place,
        }),
    }
}
