//! Scalars that stand on the wire as varints.
ghost use Rattle.std.specs.Prelude.{◌≡◌, length, IfOk, IfErr};
ghost use Rattle.wire_base.specs.Sink.{Writes};
ghost use Rattle.wire_base.specs.Varint.{IsSpelling, VarintFault, shortest_varint};
ghost use Rattle.wire_scalar.specs.Reading.{ReadsValue};
ghost use Rattle.wire_scalar.specs.ValueMap.{int32, int64, uint32, uint64, sint32, sint64, bool};

use crate::scalar::{Bool, Int32, Int64, Sint32, Sint64, Uint32, Uint64, VarintScalar};
use bytes::Buf;
use wire_base::{DecodeError, EncodeError, EncodeSink, decode_varint, encode_varint, varint_len};

/// How many bytes `encode_bool` writes.
pub const BOOL_ENCODED_LEN: usize = 1;

// Reads a varint as a value of the type.
#[inline(always)]
pub(crate) fn decode_as<T: VarintScalar, B: Buf>(buf: &mut B) -> Result<T::Value, DecodeError>
    ensures ok { IfOk result (λ value.
        ReadsValue IsSpelling T.map (B.unread buf.old) value (B.unread buf.new)) }
    ensures fault { IfErr result (VarintFault (B.unread buf.old)) }
    ensures kept { B.kept buf.new ≡ B.kept buf.old }
{
    Ok(T::value_of(decode_varint(buf)?))
}

/// Writes an `int32` as its shortest varint, a negative one as the 64 bits of its two's complement,
/// in ten bytes. Refused where the sink refuses a byte. See "Signed Integers" of the encoding
/// document.
pub fn encode_int32<S: EncodeSink>(value: i32, sink: &mut S) -> Result<(), EncodeError>
    ensures { Writes (shortest_varint (int32.enc value))
        (S.held sink.old) (S.held sink.new) result }
{
    encode_varint(Int32::number_of(value), sink)
}

/// Reads an `int32`: the low 32 bits of a varint. Refused as `decode_varint`.
#[inline(always)]
pub fn decode_int32<B: Buf>(buf: &mut B) -> Result<i32, DecodeError>
    ensures ok { IfOk result (λ value.
        ReadsValue IsSpelling int32 (B.unread buf.old) value (B.unread buf.new)) }
    ensures fault { IfErr result (VarintFault (B.unread buf.old)) }
    ensures kept { B.kept buf.new ≡ B.kept buf.old }
{
    decode_as::<Int32, B>(buf)
}

/// Reads an element of a packed list, as `decode_int32` does.
#[inline(always)]
pub fn decode_int32_packed<B: Buf>(buf: &mut B) -> Result<i32, DecodeError>
    ensures ok { IfOk result (λ value.
        ReadsValue IsSpelling int32 (B.unread buf.old) value (B.unread buf.new)) }
    ensures fault { IfErr result (VarintFault (B.unread buf.old)) }
    ensures kept { B.kept buf.new ≡ B.kept buf.old }
{
    decode_int32(buf)
}

/// How many bytes `encode_int32` writes: 1 to 5, and 10 for a negative value.
pub fn int32_encoded_len(value: i32) -> usize
    ensures { result ≡ length (shortest_varint (int32.enc value)) }
{
    varint_len(Int32::number_of(value))
}

/// Writes an `int64` as its shortest varint, a negative one as the 64 bits of its two's complement,
/// in ten bytes. Refused where the sink refuses a byte. See "Signed Integers" of the encoding
/// document.
pub fn encode_int64<S: EncodeSink>(value: i64, sink: &mut S) -> Result<(), EncodeError>
    ensures { Writes (shortest_varint (int64.enc value))
        (S.held sink.old) (S.held sink.new) result }
{
    encode_varint(Int64::number_of(value), sink)
}

/// Reads an `int64`: the 64 bits of a varint. Refused as `decode_varint`.
#[inline(always)]
pub fn decode_int64<B: Buf>(buf: &mut B) -> Result<i64, DecodeError>
    ensures ok { IfOk result (λ value.
        ReadsValue IsSpelling int64 (B.unread buf.old) value (B.unread buf.new)) }
    ensures fault { IfErr result (VarintFault (B.unread buf.old)) }
    ensures kept { B.kept buf.new ≡ B.kept buf.old }
{
    decode_as::<Int64, B>(buf)
}

/// Reads an element of a packed list, as `decode_int64` does.
#[inline(always)]
pub fn decode_int64_packed<B: Buf>(buf: &mut B) -> Result<i64, DecodeError>
    ensures ok { IfOk result (λ value.
        ReadsValue IsSpelling int64 (B.unread buf.old) value (B.unread buf.new)) }
    ensures fault { IfErr result (VarintFault (B.unread buf.old)) }
    ensures kept { B.kept buf.new ≡ B.kept buf.old }
{
    decode_int64(buf)
}

/// How many bytes `encode_int64` writes: 1 to 9, and 10 for a negative value.
pub fn int64_encoded_len(value: i64) -> usize
    ensures { result ≡ length (shortest_varint (int64.enc value)) }
{
    varint_len(Int64::number_of(value))
}

/// Writes a `uint32` as its shortest varint. See "Base 128 Varints" of the encoding document.
/// Refused where the sink refuses a byte.
pub fn encode_uint32<S: EncodeSink>(value: u32, sink: &mut S) -> Result<(), EncodeError>
    ensures { Writes (shortest_varint (uint32.enc value))
        (S.held sink.old) (S.held sink.new) result }
{
    encode_varint(Uint32::number_of(value), sink)
}

/// Reads a `uint32`: the low 32 bits of a varint. Refused as `decode_varint`.
#[inline(always)]
pub fn decode_uint32<B: Buf>(buf: &mut B) -> Result<u32, DecodeError>
    ensures ok { IfOk result (λ value.
        ReadsValue IsSpelling uint32 (B.unread buf.old) value (B.unread buf.new)) }
    ensures fault { IfErr result (VarintFault (B.unread buf.old)) }
    ensures kept { B.kept buf.new ≡ B.kept buf.old }
{
    decode_as::<Uint32, B>(buf)
}

/// Reads an element of a packed list, as `decode_uint32` does.
#[inline(always)]
pub fn decode_uint32_packed<B: Buf>(buf: &mut B) -> Result<u32, DecodeError>
    ensures ok { IfOk result (λ value.
        ReadsValue IsSpelling uint32 (B.unread buf.old) value (B.unread buf.new)) }
    ensures fault { IfErr result (VarintFault (B.unread buf.old)) }
    ensures kept { B.kept buf.new ≡ B.kept buf.old }
{
    decode_uint32(buf)
}

/// How many bytes `encode_uint32` writes: 1 to 5.
pub fn uint32_encoded_len(value: u32) -> usize
    ensures { result ≡ length (shortest_varint (uint32.enc value)) }
{
    varint_len(Uint32::number_of(value))
}

/// Writes a `uint64` as its shortest varint. See "Base 128 Varints" of the encoding document.
/// Refused where the sink refuses a byte.
pub fn encode_uint64<S: EncodeSink>(value: u64, sink: &mut S) -> Result<(), EncodeError>
    ensures { Writes (shortest_varint (uint64.enc value))
        (S.held sink.old) (S.held sink.new) result }
{
    encode_varint(Uint64::number_of(value), sink)
}

/// Reads a `uint64`: the number of a varint. Refused as `decode_varint`.
#[inline(always)]
pub fn decode_uint64<B: Buf>(buf: &mut B) -> Result<u64, DecodeError>
    ensures ok { IfOk result (λ value.
        ReadsValue IsSpelling uint64 (B.unread buf.old) value (B.unread buf.new)) }
    ensures fault { IfErr result (VarintFault (B.unread buf.old)) }
    ensures kept { B.kept buf.new ≡ B.kept buf.old }
{
    decode_as::<Uint64, B>(buf)
}

/// Reads an element of a packed list, as `decode_uint64` does.
#[inline(always)]
pub fn decode_uint64_packed<B: Buf>(buf: &mut B) -> Result<u64, DecodeError>
    ensures ok { IfOk result (λ value.
        ReadsValue IsSpelling uint64 (B.unread buf.old) value (B.unread buf.new)) }
    ensures fault { IfErr result (VarintFault (B.unread buf.old)) }
    ensures kept { B.kept buf.new ≡ B.kept buf.old }
{
    decode_uint64(buf)
}

/// How many bytes `encode_uint64` writes: 1 to 10.
pub fn uint64_encoded_len(value: u64) -> usize
    ensures { result ≡ length (shortest_varint (uint64.enc value)) }
{
    varint_len(Uint64::number_of(value))
}

/// Writes a `sint32` as its shortest varint, in zigzag order, in which numbers near zero are short.
/// See "Signed Integers" of the encoding document. Refused where the sink refuses a byte.
pub fn encode_sint32<S: EncodeSink>(value: i32, sink: &mut S) -> Result<(), EncodeError>
    ensures { Writes (shortest_varint (sint32.enc value))
        (S.held sink.old) (S.held sink.new) result }
{
    encode_varint(Sint32::number_of(value), sink)
}

/// Reads a `sint32`: the low 32 bits of a varint, taken as zigzag. Refused as `decode_varint`.
#[inline(always)]
pub fn decode_sint32<B: Buf>(buf: &mut B) -> Result<i32, DecodeError>
    ensures ok { IfOk result (λ value.
        ReadsValue IsSpelling sint32 (B.unread buf.old) value (B.unread buf.new)) }
    ensures fault { IfErr result (VarintFault (B.unread buf.old)) }
    ensures kept { B.kept buf.new ≡ B.kept buf.old }
{
    decode_as::<Sint32, B>(buf)
}

/// Reads an element of a packed list, as `decode_sint32` does.
#[inline(always)]
pub fn decode_sint32_packed<B: Buf>(buf: &mut B) -> Result<i32, DecodeError>
    ensures ok { IfOk result (λ value.
        ReadsValue IsSpelling sint32 (B.unread buf.old) value (B.unread buf.new)) }
    ensures fault { IfErr result (VarintFault (B.unread buf.old)) }
    ensures kept { B.kept buf.new ≡ B.kept buf.old }
{
    decode_sint32(buf)
}

/// How many bytes `encode_sint32` writes: 1 to 5.
pub fn sint32_encoded_len(value: i32) -> usize
    ensures { result ≡ length (shortest_varint (sint32.enc value)) }
{
    varint_len(Sint32::number_of(value))
}

/// Writes a `sint64` as its shortest varint, in zigzag order, in which numbers near zero are short.
/// See "Signed Integers" of the encoding document. Refused where the sink refuses a byte.
pub fn encode_sint64<S: EncodeSink>(value: i64, sink: &mut S) -> Result<(), EncodeError>
    ensures { Writes (shortest_varint (sint64.enc value))
        (S.held sink.old) (S.held sink.new) result }
{
    encode_varint(Sint64::number_of(value), sink)
}

/// Reads a `sint64`: a varint, taken as zigzag. Refused as `decode_varint`.
#[inline(always)]
pub fn decode_sint64<B: Buf>(buf: &mut B) -> Result<i64, DecodeError>
    ensures ok { IfOk result (λ value.
        ReadsValue IsSpelling sint64 (B.unread buf.old) value (B.unread buf.new)) }
    ensures fault { IfErr result (VarintFault (B.unread buf.old)) }
    ensures kept { B.kept buf.new ≡ B.kept buf.old }
{
    decode_as::<Sint64, B>(buf)
}

/// Reads an element of a packed list, as `decode_sint64` does.
#[inline(always)]
pub fn decode_sint64_packed<B: Buf>(buf: &mut B) -> Result<i64, DecodeError>
    ensures ok { IfOk result (λ value.
        ReadsValue IsSpelling sint64 (B.unread buf.old) value (B.unread buf.new)) }
    ensures fault { IfErr result (VarintFault (B.unread buf.old)) }
    ensures kept { B.kept buf.new ≡ B.kept buf.old }
{
    decode_sint64(buf)
}

/// How many bytes `encode_sint64` writes: 1 to 10.
pub fn sint64_encoded_len(value: i64) -> usize
    ensures { result ≡ length (shortest_varint (sint64.enc value)) }
{
    varint_len(Sint64::number_of(value))
}

/// Writes a `bool` as one byte, 00 or 01. See "Bools and Enums" of the encoding document. Refused
/// where the sink refuses a byte.
pub fn encode_bool<S: EncodeSink>(value: bool, sink: &mut S) -> Result<(), EncodeError>
    ensures { Writes (shortest_varint (bool.enc value))
        (S.held sink.old) (S.held sink.new) result }
{
    encode_varint(Bool::number_of(value), sink)
}

/// Reads a `bool`: each varint but 0 is true. Refused as `decode_varint`.
#[inline(always)]
pub fn decode_bool<B: Buf>(buf: &mut B) -> Result<bool, DecodeError>
    ensures ok { IfOk result (λ value.
        ReadsValue IsSpelling bool (B.unread buf.old) value (B.unread buf.new)) }
    ensures fault { IfErr result (VarintFault (B.unread buf.old)) }
    ensures kept { B.kept buf.new ≡ B.kept buf.old }
{
    decode_as::<Bool, B>(buf)
}

/// Reads an element of a packed list, as `decode_bool` does.
#[inline(always)]
pub fn decode_bool_packed<B: Buf>(buf: &mut B) -> Result<bool, DecodeError>
    ensures ok { IfOk result (λ value.
        ReadsValue IsSpelling bool (B.unread buf.old) value (B.unread buf.new)) }
    ensures fault { IfErr result (VarintFault (B.unread buf.old)) }
    ensures kept { B.kept buf.new ≡ B.kept buf.old }
{
    decode_bool(buf)
}
