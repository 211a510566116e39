//! Fields written one by one: a tag and its payload.
ghost use Rattle.std.specs.Prelude.{◌++◌};
ghost use Rattle.wire_base.specs.declared.tag.WireType.TheVariants.{LengthDelimited, StartGroup, EndGroup};
ghost use Rattle.wire_base.specs.Field.{varint, fixed32 as four_bytes, fixed64 as eight_bytes};
ghost use Rattle.wire_base.specs.FieldNumber.{IsFieldNumber};
ghost use Rattle.wire_base.specs.Sink.{Writes};
ghost use Rattle.wire_base.specs.Tag.{tag_text};
ghost use Rattle.wire_base.specs.Text.{record_text};
ghost use Rattle.wire_base.specs.Varint.{shortest_varint};
ghost use Rattle.wire_scalar.specs.ValueMap.{int32, int64, uint32, uint64, sint32, sint64, bool, fixed32, fixed64, sfixed32, sfixed64};

use crate::scalar::{Bool, Int32, Int64, Sint32, Sint64, Uint32, Uint64, VarintScalar};
use wire_base::{EncodeError, EncodeSink, Tag, WireType, tag_as_number};

/// Writes a field of type `int32`, of a number from 1 to `MAX_FIELD_NUMBER`: its tag, and the value
/// as `encode_int32` does. Refused where the sink refuses a put.
#[inline(always)]
pub fn put_int32_field<S: EncodeSink>(
    number: u32,
    value: i32,
    sink: &mut S,
) -> Result<(), EncodeError>
    requires { IsFieldNumber number }
    ensures { Writes (record_text number (varint (int32.enc value)))
        (S.held sink.old) (S.held sink.new) result }
{
    put_varint(number, WireType::Varint, Int32::number_of(value), sink)
}

/// Writes a field of type `int64`, of a number from 1 to `MAX_FIELD_NUMBER`: its tag, and the value
/// as `encode_int64` does. Refused where the sink refuses a put.
#[inline(always)]
pub fn put_int64_field<S: EncodeSink>(
    number: u32,
    value: i64,
    sink: &mut S,
) -> Result<(), EncodeError>
    requires { IsFieldNumber number }
    ensures { Writes (record_text number (varint (int64.enc value)))
        (S.held sink.old) (S.held sink.new) result }
{
    put_varint(number, WireType::Varint, Int64::number_of(value), sink)
}

/// Writes a field of type `uint32`, of a number from 1 to `MAX_FIELD_NUMBER`: its tag, and the
/// value as `encode_uint32` does. Refused where the sink refuses a put.
#[inline(always)]
pub fn put_uint32_field<S: EncodeSink>(
    number: u32,
    value: u32,
    sink: &mut S,
) -> Result<(), EncodeError>
    requires { IsFieldNumber number }
    ensures { Writes (record_text number (varint (uint32.enc value)))
        (S.held sink.old) (S.held sink.new) result }
{
    put_varint(number, WireType::Varint, Uint32::number_of(value), sink)
}

/// Writes a field of type `uint64`, of a number from 1 to `MAX_FIELD_NUMBER`: its tag, and the
/// value as `encode_uint64` does. Refused where the sink refuses a put.
#[inline(always)]
pub fn put_uint64_field<S: EncodeSink>(
    number: u32,
    value: u64,
    sink: &mut S,
) -> Result<(), EncodeError>
    requires { IsFieldNumber number }
    ensures { Writes (record_text number (varint (uint64.enc value)))
        (S.held sink.old) (S.held sink.new) result }
{
    put_varint(number, WireType::Varint, Uint64::number_of(value), sink)
}

/// Writes a field of type `sint32`, of a number from 1 to `MAX_FIELD_NUMBER`: its tag, and the
/// value as `encode_sint32` does. Refused where the sink refuses a put.
#[inline(always)]
pub fn put_sint32_field<S: EncodeSink>(
    number: u32,
    value: i32,
    sink: &mut S,
) -> Result<(), EncodeError>
    requires { IsFieldNumber number }
    ensures { Writes (record_text number (varint (sint32.enc value)))
        (S.held sink.old) (S.held sink.new) result }
{
    put_varint(number, WireType::Varint, Sint32::number_of(value), sink)
}

/// Writes a field of type `sint64`, of a number from 1 to `MAX_FIELD_NUMBER`: its tag, and the
/// value as `encode_sint64` does. Refused where the sink refuses a put.
#[inline(always)]
pub fn put_sint64_field<S: EncodeSink>(
    number: u32,
    value: i64,
    sink: &mut S,
) -> Result<(), EncodeError>
    requires { IsFieldNumber number }
    ensures { Writes (record_text number (varint (sint64.enc value)))
        (S.held sink.old) (S.held sink.new) result }
{
    put_varint(number, WireType::Varint, Sint64::number_of(value), sink)
}

/// Writes a field of type `bool`, of a number from 1 to `MAX_FIELD_NUMBER`: its tag, and the value
/// as `encode_bool` does. Refused where the sink refuses a put.
#[inline(always)]
pub fn put_bool_field<S: EncodeSink>(
    number: u32,
    value: bool,
    sink: &mut S,
) -> Result<(), EncodeError>
    requires { IsFieldNumber number }
    ensures { Writes (record_text number (varint (bool.enc value)))
        (S.held sink.old) (S.held sink.new) result }
{
    put_varint(number, WireType::Varint, Bool::number_of(value), sink)
}

/// Writes a field of type `fixed32`, of a number from 1 to `MAX_FIELD_NUMBER`: its tag, and the
/// value as `encode_fixed32` does. Refused where the sink refuses a put.
#[inline(always)]
pub fn put_fixed32_field<S: EncodeSink>(
    number: u32,
    value: u32,
    sink: &mut S,
) -> Result<(), EncodeError>
    requires { IsFieldNumber number }
    ensures { Writes (record_text number (four_bytes (fixed32.enc value)))
        (S.held sink.old) (S.held sink.new) result }
{
    sink.put_fixed32(tag_as_number(number, WireType::Fixed32), value)
}

/// Writes a field of type `fixed64`, of a number from 1 to `MAX_FIELD_NUMBER`: its tag, and the
/// value as `encode_fixed64` does. Refused where the sink refuses a put.
#[inline(always)]
pub fn put_fixed64_field<S: EncodeSink>(
    number: u32,
    value: u64,
    sink: &mut S,
) -> Result<(), EncodeError>
    requires { IsFieldNumber number }
    ensures { Writes (record_text number (eight_bytes (fixed64.enc value)))
        (S.held sink.old) (S.held sink.new) result }
{
    sink.put_fixed64(tag_as_number(number, WireType::Fixed64), value)
}

/// Writes a field of type `sfixed32`, of a number from 1 to `MAX_FIELD_NUMBER`: its tag, and the
/// value as `encode_sfixed32` does. Refused where the sink refuses a put.
#[inline(always)]
pub fn put_sfixed32_field<S: EncodeSink>(
    number: u32,
    value: i32,
    sink: &mut S,
) -> Result<(), EncodeError>
    requires { IsFieldNumber number }
    ensures { Writes (record_text number (four_bytes (sfixed32.enc value)))
        (S.held sink.old) (S.held sink.new) result }
{
    put_fixed32_field(number, value.cast_unsigned(), sink)
}

/// Writes a field of type `sfixed64`, of a number from 1 to `MAX_FIELD_NUMBER`: its tag, and the
/// value as `encode_sfixed64` does. Refused where the sink refuses a put.
#[inline(always)]
pub fn put_sfixed64_field<S: EncodeSink>(
    number: u32,
    value: i64,
    sink: &mut S,
) -> Result<(), EncodeError>
    requires { IsFieldNumber number }
    ensures { Writes (record_text number (eight_bytes (sfixed64.enc value)))
        (S.held sink.old) (S.held sink.new) result }
{
    put_fixed64_field(number, value.cast_unsigned(), sink)
}

/// Writes what stands before a length-delimited payload of a field of a number from 1 to
/// `MAX_FIELD_NUMBER`: its tag and its length in bytes. Refused where the sink refuses a put. See
/// "Length-Delimited Records" of the encoding document.
#[inline(always)]
pub fn put_len_delimited_header<S: EncodeSink>(
    number: u32,
    len: u64,
    sink: &mut S,
) -> Result<(), EncodeError>
    requires { IsFieldNumber number }
    ensures { Writes (tag_text number LengthDelimited ++ shortest_varint len)
        (S.held sink.old) (S.held sink.new) result }
{
    put_varint(number, WireType::LengthDelimited, len, sink)
}

/// Writes the tag that begins a group of a number from 1 to `MAX_FIELD_NUMBER`. Refused where the
/// sink refuses a put. See "Groups" of the encoding document.
#[inline(always)]
pub fn put_group_start<S: EncodeSink>(number: u32, sink: &mut S) -> Result<(), EncodeError>
    requires { IsFieldNumber number }
    ensures { Writes (tag_text number StartGroup)
        (S.held sink.old) (S.held sink.new) result }
{
    Tag::new(number, WireType::StartGroup).encode(sink)
}

/// Writes the tag that ends a group of a number from 1 to `MAX_FIELD_NUMBER`. Refused where the
/// sink refuses a put. See "Groups" of the encoding document.
#[inline(always)]
pub fn put_group_end<S: EncodeSink>(number: u32, sink: &mut S) -> Result<(), EncodeError>
    requires { IsFieldNumber number }
    ensures { Writes (tag_text number EndGroup)
        (S.held sink.old) (S.held sink.new) result }
{
    Tag::new(number, WireType::EndGroup).encode(sink)
}

// Writes a tag, and a number behind it.
#[inline(always)]
fn put_varint<S: EncodeSink>(
    number: u32,
    wire_type: WireType,
    value: u64,
    sink: &mut S,
) -> Result<(), EncodeError>
    requires { IsFieldNumber number }
    ensures { Writes (tag_text number wire_type ++ shortest_varint value)
        (S.held sink.old) (S.held sink.new) result }
{
    sink.put_varints(tag_as_number(number, wire_type), value)
}
