//! Records one by one.
ghost use Rattle.std.specs.Int.{w32, w64, to_le_bytes};
ghost use Rattle.wire_base.specs.declared.tag.WireType.TheVariants.{StartGroup, EndGroup};
ghost use Rattle.wire_base.specs.Field.{varint, fixed32, fixed64, bytes};
ghost use Rattle.wire_base.specs.FieldNumber.{IsFieldNumber};
ghost use Rattle.wire_base.specs.Tag.{tag_text, tag_value};
ghost use Rattle.wire_base.specs.Text.{record_text};
ghost use Rattle.wire_scalar.specs.ValueMap.{sint64};
ghost use Rattle.wire_read.specs.Reading.{item};
ghost use Rattle.wire_write.specs.Put.{PutsOrNot};
ghost use Rattle.wire_write.specs.Shortest.{item_text};

use crate::item::{self, item_len};
use wire_base::laws::put_fills_a_slice;
use wire_codec::scalar::{Sint64, VarintScalar};
use wire_codec::{MAX_FIELD_NUMBER, Room};
use wire_read::Value;

/// Why a record is not written.
#[derive(Clone, Copy, Debug, PartialEq, Eq)]
pub enum PutError {
    /// The field number is 0 or past `MAX_FIELD_NUMBER`.
    InvalidFieldNumber,
    /// The record takes more bytes than the room has from the place on: so many, or `usize::MAX`
    /// where they are more.
    NoRoom(usize),
}

/// Writes a record with a varint at a place of the room, and answers the place behind it.
pub fn put_varint(room: &mut [u8], place: usize, number: u32, value: u64) -> Result<usize, PutError>
    ensures { PutsOrNot number (record_text number (varint value))
        place room.old room.new result }
{
    put(room, place, number, Value::Varint(value))
}

/// Writes a record of type `sint64` or `sint32`, as `put_varint` does its zigzag number.
pub fn put_sint(room: &mut [u8], place: usize, number: u32, value: i64) -> Result<usize, PutError>
    ensures { PutsOrNot number (record_text number (varint (sint64.enc value)))
        place room.old room.new result }
{
    put_varint(room, place, number, Sint64::number_of(value))
}

/// Writes a record with four bytes, the lowest first, and answers the place behind it.
pub fn put_fixed32(
    room: &mut [u8],
    place: usize,
    number: u32,
    value: u32,
) -> Result<usize, PutError>
    ensures { PutsOrNot number (record_text number (fixed32 value))
        place room.old room.new result }
{
    put(room, place, number, Value::Fixed32(value))
}

/// Writes a record with eight bytes, the lowest first, and answers the place behind it.
pub fn put_fixed64(
    room: &mut [u8],
    place: usize,
    number: u32,
    value: u64,
) -> Result<usize, PutError>
    ensures { PutsOrNot number (record_text number (fixed64 value))
        place room.old room.new result }
{
    put(room, place, number, Value::Fixed64(value))
}

/// Writes a record with a payload behind its length, and answers the place behind it.
pub fn put_bytes(
    room: &mut [u8],
    place: usize,
    number: u32,
    payload: &[u8],
) -> Result<usize, PutError>
    ensures { PutsOrNot number (record_text number (bytes payload.now))
        place room.old room.new result }
{
    put(room, place, number, Value::Bytes(payload))
}

/// Writes the start tag of a group, and answers the place behind it.
pub fn put_group_start(room: &mut [u8], place: usize, number: u32) -> Result<usize, PutError>
    ensures { PutsOrNot number (tag_text number StartGroup)
        place room.old room.new result }
{
    put(room, place, number, Value::GroupStart)
}

/// Writes the end tag of a group, and answers the place behind it.
pub fn put_group_end(room: &mut [u8], place: usize, number: u32) -> Result<usize, PutError>
    ensures { PutsOrNot number (tag_text number EndGroup)
        place room.old room.new result }
{
    put(room, place, number, Value::GroupEnd)
}

// Writes an item at a place of the room, and answers the place behind it.
#[inline(always)]
fn put(room: &mut [u8], place: usize, number: u32, value: Value<'_>) -> Result<usize, PutError>
    ensures { PutsOrNot number (item_text (item number value.entry))
        place room.old room.new result }
{
    if number == 0 || number > MAX_FIELD_NUMBER {
        return Err(PutError::InvalidFieldNumber);
    }
    if place > room.len() {
        return Err(PutError::NoRoom(item_len(number, value)));
    }
    put_fills_a_slice();
    let mut sink = Room { room, place };
    match item::put(number, value, &mut sink) {
        Ok(()) => Ok(sink.place),
        Err(_) => Err(PutError::NoRoom(item_len(number, value))),
    }
}
