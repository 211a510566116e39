//! Scalar values as what stands behind their tags.
ghost use Rattle.std.specs.Prelude.{◌≡◌};
ghost use Rattle.wire_codec.specs.FieldNumber.{IsFieldNumber};
ghost use Rattle.wire_codec.specs.Records.{text, text_size};
ghost use Rattle.wire_codec.specs.Writes.{Writes};
ghost use Rattle.wire_fields.specs.Numbers.{in_64_bits, delimited_size};
ghost use Rattle.wire_structs.specs.Payloads.{payload_record};

use wire_codec::{
    EncodeError, EncodeSink, WireType, put_bytes_field, put_fixed32_field, put_fixed64_field,
    put_uint64_field, tag_len, varint_len,
};

/// What is written of a scalar value behind its tag.
#[derive(Clone, Copy, Debug)]
pub enum ScalarPayload<'a> {
    Varint(u64),
    Fixed64(u64),
    Fixed32(u32),
    /// A payload, its length left out.
    Bytes(&'a [u8]),
}

/// How many bytes a record takes, or `u64::MAX` where it is more.
#[inline(always)]
pub(crate) fn record_len(number: u32, payload: ScalarPayload<'_>) -> u64
    requires { IsFieldNumber number }
    ensures { result ≡ in_64_bits (text_size (payload_record number payload.entry)) }
{
    match payload {
        ScalarPayload::Varint(value) => {
            (tag_len(number, WireType::Varint) as u64).saturating_add(varint_len(value) as u64)
        }
        ScalarPayload::Fixed64(_) => {
            (tag_len(number, WireType::Fixed64) as u64).saturating_add(8)
        }
        ScalarPayload::Fixed32(_) => {
            (tag_len(number, WireType::Fixed32) as u64).saturating_add(4)
        }
        ScalarPayload::Bytes(bytes) => delimited_len(number, bytes.len() as u64),
    }
}

/// How many bytes a record takes whose payload has so many, or `u64::MAX` where it is more.
#[inline(always)]
pub(crate) fn delimited_len(number: u32, len: u64) -> u64
    requires { IsFieldNumber number }
    ensures { result ≡ in_64_bits (delimited_size number len) }
{
    (tag_len(number, WireType::LengthDelimited) as u64)
        .saturating_add(varint_len(len) as u64)
        .saturating_add(len)
}

/// Writes a record. Refused where the sink refuses a put.
#[inline(always)]
pub(crate) fn put_record<E: EncodeSink>(
    number: u32,
    payload: ScalarPayload<'_>,
    sink: &mut E,
) -> Result<(), EncodeError>
    requires { IsFieldNumber number }
    ensures { Writes (text (payload_record number payload.entry)) (E.held sink.old) (E.held sink.new)
        result }
{
    match payload {
        ScalarPayload::Varint(value) => put_uint64_field(number, value, sink),
        ScalarPayload::Fixed64(value) => put_fixed64_field(number, value, sink),
        ScalarPayload::Fixed32(value) => put_fixed32_field(number, value, sink),
        ScalarPayload::Bytes(bytes) => put_bytes_field(number, bytes, sink),
    }
}
