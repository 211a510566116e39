//! Varints, tags and scalars: read, written and measured.
ghost use Rattle.wire_codec.specs.FieldNumber.{IsFieldNumber};

use crate::counted::Counted;
use crate::row::Row;
use crate::said::Said;
use bytes::Buf;
use wire_codec::{EncodeError, EncodeSink, Tag, WireType, check_wire_type, *};

// ---- reading

pub fn read<B: Buf>(row: &Row<'_>, buf: &mut B, said: &mut Said) -> bool {
    match row.call {
        "decode_varint" => said.read(decode_varint(buf), buf),
        "Tag::decode" => {
            if let Some(tag) = said.answered(Tag::decode(buf)) {
                said.read(Ok((tag.field_number(), tag.wire_type())), buf)
            }
        }
        "decode_int32" => said.read(decode_int32(buf), buf),
        "decode_int64" => said.read(decode_int64(buf), buf),
        "decode_uint32" => said.read(decode_uint32(buf), buf),
        "decode_uint64" => said.read(decode_uint64(buf), buf),
        "decode_sint32" => said.read(decode_sint32(buf), buf),
        "decode_sint64" => said.read(decode_sint64(buf), buf),
        "decode_bool" => said.read(decode_bool(buf), buf),
        "decode_int32_packed" => said.read(decode_int32_packed(buf), buf),
        "decode_int64_packed" => said.read(decode_int64_packed(buf), buf),
        "decode_uint32_packed" => said.read(decode_uint32_packed(buf), buf),
        "decode_uint64_packed" => said.read(decode_uint64_packed(buf), buf),
        "decode_sint32_packed" => said.read(decode_sint32_packed(buf), buf),
        "decode_sint64_packed" => said.read(decode_sint64_packed(buf), buf),
        "decode_bool_packed" => said.read(decode_bool_packed(buf), buf),
        _ => return read_fixed(row.call, buf, said),
    }
    true
}

/// A varint that stands whole in one chunk is taken from it at once: no contract says so, and its
/// bytes one by one take twice the time.
pub fn expect_one_advance(row: &Row<'_>, said: &mut Said) {
    if row.call == "decode_varint" {
        let mut buf = Counted {
            bytes: row.bytes,
            advances: 0,
        };
        let is_read = decode_varint(&mut buf).is_ok();
        said.expect(!is_read | (buf.advances == 1), "not taken at once");
    }
}

// A fixed value that is short leaves the buffer where it was.
fn read_fixed<B: Buf>(call: &str, buf: &mut B, said: &mut Said) -> bool {
    let before = buf.remaining();
    match call {
        "decode_fixed32" => said.read(decode_fixed32(buf), buf),
        "decode_fixed64" => said.read(decode_fixed64(buf), buf),
        "decode_sfixed32" => said.read(decode_sfixed32(buf), buf),
        "decode_sfixed64" => said.read(decode_sfixed64(buf), buf),
        _ => return false,
    }
    if buf.remaining() == before {
        said.word(", not moved");
    }
    true
}

// ---- writing

/// The field number of a row, behind `n=`; 1 without one.
pub fn field_number(row: &Row<'_>) -> u32
    ensures { IsFieldNumber result }
{
    match row.number("n") {
        Some(number @ 1..=MAX_FIELD_NUMBER) => number,
        _ => 1,
    }
}

fn wire_type(row: &Row<'_>, name: &str) -> WireType {
    WireType::from_u32(row.number(name).unwrap_or(0)).unwrap_or(WireType::Varint)
}

/// Writes by the call of this name, and answers how; nothing where none writes.
pub fn put<S: EncodeSink>(row: &Row<'_>, sink: &mut S) -> Option<Result<(), EncodeError>> {
    Some(match row.call {
        "encode_varint" => encode_varint(row.value(), sink),
        "encode_int32" => encode_int32(row.value(), sink),
        "encode_int64" => encode_int64(row.value(), sink),
        "encode_uint32" => encode_uint32(row.value(), sink),
        "encode_uint64" => encode_uint64(row.value(), sink),
        "encode_sint32" => encode_sint32(row.value(), sink),
        "encode_sint64" => encode_sint64(row.value(), sink),
        "encode_bool" => encode_bool(row.value(), sink),
        "encode_fixed32" => encode_fixed32(row.value(), sink),
        "encode_fixed64" => encode_fixed64(row.value(), sink),
        "encode_sfixed32" => encode_sfixed32(row.value(), sink),
        "encode_sfixed64" => encode_sfixed64(row.value(), sink),
        _ => return put_field(row, sink),
    })
}

fn put_field<S: EncodeSink>(row: &Row<'_>, sink: &mut S) -> Option<Result<(), EncodeError>> {
    let number = field_number(row);
    Some(match row.call {
        "put_int32_field" => put_int32_field(number, row.value(), sink),
        "put_int64_field" => put_int64_field(number, row.value(), sink),
        "put_uint32_field" => put_uint32_field(number, row.value(), sink),
        "put_uint64_field" => put_uint64_field(number, row.value(), sink),
        "put_sint32_field" => put_sint32_field(number, row.value(), sink),
        "put_sint64_field" => put_sint64_field(number, row.value(), sink),
        "put_bool_field" => put_bool_field(number, row.value(), sink),
        "put_fixed32_field" => put_fixed32_field(number, row.value(), sink),
        "put_fixed64_field" => put_fixed64_field(number, row.value(), sink),
        "put_sfixed32_field" => put_sfixed32_field(number, row.value(), sink),
        "put_sfixed64_field" => put_sfixed64_field(number, row.value(), sink),
        "Tag::encode" => Tag::new(number, wire_type(row, "type")).encode(sink),
        "put_len_delimited_header" => put_len_delimited_header(number, row.value(), sink),
        "put_group_start" => put_group_start(number, sink),
        "put_group_end" => put_group_end(number, sink),
        _ => return None,
    })
}

// ---- numbers alone

pub fn tell(row: &Row<'_>, said: &mut Said) -> bool {
    match row.call {
        "varint_len" => said.show(&varint_len(row.value())),
        "int32_encoded_len" => said.show(&int32_encoded_len(row.value())),
        "int64_encoded_len" => said.show(&int64_encoded_len(row.value())),
        "uint32_encoded_len" => said.show(&uint32_encoded_len(row.value())),
        "uint64_encoded_len" => said.show(&uint64_encoded_len(row.value())),
        "sint32_encoded_len" => said.show(&sint32_encoded_len(row.value())),
        "sint64_encoded_len" => said.show(&sint64_encoded_len(row.value())),
        "count_varints" => said.show(&count_varints(row.bytes)),
        "WireType::from_u32" => said.show(&WireType::from_u32(row.value())),
        "check_wire_type" => {
            let tag = Tag::new(field_number(row), wire_type(row, "type"));
            said.show(&check_wire_type(tag, wire_type(row, "expected")))
        }
        _ => return false,
    }
    true
}
