//! Scalars of four or eight bytes, the lowest first.
ghost use Rattle.std.specs.Prelude.{◌≡◌, ℕ, ◌++◌, ◌<◌, length, refl, OnOk, OnErr, IfOk, IfErr};
ghost use Rattle.std.specs.Int.{Width, byte_len, w32, w64, to_le_bytes};
ghost use Rattle.wire_base.specs.declared.error.DecodeError.TheVariants.{UnexpectedEof};
ghost use Rattle.wire_base.specs.Sink.{Puts};
ghost use Rattle.wire_base.specs.Fixed.{IsFixed};
ghost use Rattle.wire_scalar.specs.Reading.{ReadsValue};
ghost use Rattle.wire_scalar.specs.ValueMap.{ValueMap, fixed32, fixed64, sfixed32, sfixed64};

use bytes::Buf;
use wire_base::{DecodeError, EncodeError, EncodeSink};

/// How many bytes a `fixed32` or a `sfixed32` has on the wire.
pub const FIXED32_ENCODED_LEN: usize = 4;

/// How many bytes a `fixed64` or a `sfixed64` has on the wire.
pub const FIXED64_ENCODED_LEN: usize = 8;

/// Writes a `fixed32`: four bytes, the lowest first. See "Non-varint Numbers" of the encoding
/// document. One put, all or nothing, refused where the sink refuses it.
pub fn encode_fixed32<S: EncodeSink>(value: u32, sink: &mut S) -> Result<(), EncodeError>
    ensures { Puts (to_le_bytes w32 (fixed32.enc value))
        (S.held sink.old) (S.held sink.new) result }
{
    sink.put_u32_le(value)
}

/// Reads a `fixed32`, as `encode_fixed32` writes it. Fewer bytes are `UnexpectedEof`, and stay.
pub fn decode_fixed32<B: Buf>(buf: &mut B) -> Result<u32, DecodeError>
    ensures ok { IfOk result (λ value.
        ReadsValue (IsFixed w32) fixed32 (B.unread buf.old) value (B.unread buf.new)) }
    ensures short { IfErr result (λ e. (e ≡ UnexpectedEof) × (length (B.unread buf.old) < 4)) }
    ensures unchanged { OnErr result (B.unread buf.new ≡ B.unread buf.old) }
    ensures kept { B.kept buf.new ≡ B.kept buf.old }
{
    Ok(buf.try_get_u32_le()?)
}

/// Writes a `fixed64`: eight bytes, the lowest first. See "Non-varint Numbers" of the encoding
/// document. One put, all or nothing, refused where the sink refuses it.
pub fn encode_fixed64<S: EncodeSink>(value: u64, sink: &mut S) -> Result<(), EncodeError>
    ensures { Puts (to_le_bytes w64 (fixed64.enc value))
        (S.held sink.old) (S.held sink.new) result }
{
    sink.put_u64_le(value)
}

/// Reads a `fixed64`, as `encode_fixed64` writes it. Fewer bytes are `UnexpectedEof`, and stay.
pub fn decode_fixed64<B: Buf>(buf: &mut B) -> Result<u64, DecodeError>
    ensures ok { IfOk result (λ value.
        ReadsValue (IsFixed w64) fixed64 (B.unread buf.old) value (B.unread buf.new)) }
    ensures short { IfErr result (λ e. (e ≡ UnexpectedEof) × (length (B.unread buf.old) < 8)) }
    ensures unchanged { OnErr result (B.unread buf.new ≡ B.unread buf.old) }
    ensures kept { B.kept buf.new ≡ B.kept buf.old }
{
    Ok(buf.try_get_u64_le()?)
}

/// Writes a `sfixed32`: the two's complement in four bytes, the lowest first. See "Non-varint
/// Numbers" of the encoding document. One put, all or nothing, refused where the sink refuses it.
pub fn encode_sfixed32<S: EncodeSink>(value: i32, sink: &mut S) -> Result<(), EncodeError>
    ensures { Puts (to_le_bytes w32 (sfixed32.enc value))
        (S.held sink.old) (S.held sink.new) result }
{
    sink.put_i32_le(value)
}

/// Reads a `sfixed32`, as `encode_sfixed32` writes it. Fewer bytes are `UnexpectedEof`, and stay.
pub fn decode_sfixed32<B: Buf>(buf: &mut B) -> Result<i32, DecodeError>
    ensures ok { IfOk result (λ value.
        ReadsValue (IsFixed w32) sfixed32 (B.unread buf.old) value (B.unread buf.new)) }
    ensures short { IfErr result (λ e. (e ≡ UnexpectedEof) × (length (B.unread buf.old) < 4)) }
    ensures unchanged { OnErr result (B.unread buf.new ≡ B.unread buf.old) }
    ensures kept { B.kept buf.new ≡ B.kept buf.old }
{
    Ok(decode_fixed32(buf)?.cast_signed())
}

/// Writes a `sfixed64`: the two's complement in eight bytes, the lowest first. See "Non-varint
/// Numbers" of the encoding document. One put, all or nothing, refused where the sink refuses it.
pub fn encode_sfixed64<S: EncodeSink>(value: i64, sink: &mut S) -> Result<(), EncodeError>
    ensures { Puts (to_le_bytes w64 (sfixed64.enc value))
        (S.held sink.old) (S.held sink.new) result }
{
    sink.put_i64_le(value)
}

/// Reads a `sfixed64`, as `encode_sfixed64` writes it. Fewer bytes are `UnexpectedEof`, and stay.
pub fn decode_sfixed64<B: Buf>(buf: &mut B) -> Result<i64, DecodeError>
    ensures ok { IfOk result (λ value.
        ReadsValue (IsFixed w64) sfixed64 (B.unread buf.old) value (B.unread buf.new)) }
    ensures short { IfErr result (λ e. (e ≡ UnexpectedEof) × (length (B.unread buf.old) < 8)) }
    ensures unchanged { OnErr result (B.unread buf.new ≡ B.unread buf.old) }
    ensures kept { B.kept buf.new ≡ B.kept buf.old }
{
    Ok(decode_fixed64(buf)?.cast_signed())
}

/// A scalar type of a fixed number of bytes.
pub(crate) trait FixedScalar {
    type Value: Copy;

    ghost map: { ValueMap Self.Value };

    ghost width: { Width };

    ghost LEN: { ℕ };

    /// How many bytes a value has.
    const LEN: usize;

    fn decode(buf: &mut &[u8]) -> Result<Self::Value, DecodeError>
        ensures ok { IfOk result (λ value.
            ReadsValue (IsFixed width) map buf.old.now value buf.new.now) }
        ensures short { IfErr result (λ e.
            (e ≡ UnexpectedEof) × (length buf.old.now < byte_len width)) };

    ghost len_is: { LEN ≡ byte_len width };
}

pub(crate) struct Fixed32;

impl FixedScalar for Fixed32 {
    type Value = u32;

    ghost map = { fixed32 };

    ghost width = { w32 };

    ghost LEN = { 4 };

    const LEN: usize = FIXED32_ENCODED_LEN;

    ghost len_is = { refl };

    fn decode(buf: &mut &[u8]) -> Result<u32, DecodeError> {
        decode_fixed32(buf)
    }
}

pub(crate) struct Fixed64;

impl FixedScalar for Fixed64 {
    type Value = u64;

    ghost map = { fixed64 };

    ghost width = { w64 };

    ghost LEN = { 8 };

    const LEN: usize = FIXED64_ENCODED_LEN;

    ghost len_is = { refl };

    fn decode(buf: &mut &[u8]) -> Result<u64, DecodeError> {
        decode_fixed64(buf)
    }
}

pub(crate) struct Sfixed32;

impl FixedScalar for Sfixed32 {
    type Value = i32;

    ghost map = { sfixed32 };

    ghost width = { w32 };

    ghost LEN = { 4 };

    const LEN: usize = FIXED32_ENCODED_LEN;

    ghost len_is = { refl };

    fn decode(buf: &mut &[u8]) -> Result<i32, DecodeError> {
        decode_sfixed32(buf)
    }
}

pub(crate) struct Sfixed64;

impl FixedScalar for Sfixed64 {
    type Value = i64;

    ghost map = { sfixed64 };

    ghost width = { w64 };

    ghost LEN = { 8 };

    const LEN: usize = FIXED64_ENCODED_LEN;

    ghost len_is = { refl };

    fn decode(buf: &mut &[u8]) -> Result<i64, DecodeError> {
        decode_sfixed64(buf)
    }
}
