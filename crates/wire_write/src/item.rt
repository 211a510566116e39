//! Items in room of the caller's: records, and the starts and ends of groups.
ghost use Rattle.std.specs.Prelude.{◌≡◌, ◌-◌, ◌^◌, length, min};
ghost use Rattle.wire_base.specs.Room.{in_room};
ghost use Rattle.wire_base.specs.Sink.{Puts};
ghost use Rattle.wire_read.specs.Reading.{item};
ghost use Rattle.wire_write.specs.Shortest.{item_text};

use wire_codec::{EncodeError, EncodeSink, Room, WireType, tag_as_number, tag_len, varint_len};
use wire_read::Value;

/// How many bytes the shortest encoding of an item has, or `usize::MAX` where they are more.
#[inline(always)]
pub(crate) fn item_len(number: u32, value: Value<'_>) -> usize
    ensures { result ≡ min (length (item_text (item number value.entry))) (2 ^ 64 - 1) }
{
    match value {
        Value::Varint(value) => {
            tag_len(number, WireType::Varint).saturating_add(varint_len(value))
        }
        Value::Fixed64(_) => tag_len(number, WireType::Fixed64).saturating_add(8),
        Value::Fixed32(_) => tag_len(number, WireType::Fixed32).saturating_add(4),
        Value::Bytes(payload) => tag_len(number, WireType::LengthDelimited)
            .saturating_add(varint_len(payload.len() as u64))
            .saturating_add(payload.len()),
        Value::GroupStart => tag_len(number, WireType::StartGroup),
        Value::GroupEnd => tag_len(number, WireType::EndGroup),
    }
}

/// Writes the shortest encoding of an item, whole or not at all.
#[inline(always)]
pub(crate) fn put(number: u32, value: Value<'_>, sink: &mut Room<'_>) -> Result<(), EncodeError>
    ensures { Puts (item_text (item number value.entry))
        (in_room sink.old) (in_room sink.new) result }
{
    match value {
        Value::Varint(value) => sink.put_varints(tag_as_number(number, WireType::Varint), value),
        Value::Fixed64(value) => sink.put_fixed64(tag_as_number(number, WireType::Fixed64), value),
        Value::Fixed32(value) => sink.put_fixed32(tag_as_number(number, WireType::Fixed32), value),
        Value::Bytes(payload) => {
            sink.put_delimited(tag_as_number(number, WireType::LengthDelimited), payload)
        }
        Value::GroupStart => sink.put_varint(tag_as_number(number, WireType::StartGroup)),
        Value::GroupEnd => sink.put_varint(tag_as_number(number, WireType::EndGroup)),
    }
}
