//! Strings and bytes from a buffer.
ghost use Rattle.std.specs.Prelude.{◌≡◌, ◌≢◌, [], string_bytes, OnOk, OnErr, IfOk, IfErr};
ghost use Rattle.wire_base.specs.declared.error.DecodeError.TheVariants.{InvalidUtf8};
ghost use Rattle.wire_base.specs.Delimited.{IsDelimited};
ghost use Rattle.wire_base.specs.Read.{Reads};
ghost use Rattle.wire_text.specs.BytesPayload.{PassesPayload, BytesRefusal};
ghost use Rattle.wire_text.specs.StringPayload.{IsString, StringRefusal};

use crate::payload::{from_utf8, into_text, make_room, put_text, take_room};
use bytes::{Buf, Bytes};
use std::alloc::Global;
use wire_base::{DecodeError, copy_bytes, decode_length, take_bytes};

/// The bytes of a length-delimited payload, in a vector of just their size. Nothing is reserved
/// before the bytes are known to be there. Refused as `decode_length` without a maximum, or with
/// `OutOfMemory`. See "Length-Delimited Records" of the encoding document.
#[inline(always)]
pub fn decode_bytes<B: Buf>(alloc: Global, buf: &mut B) -> Result<Vec<u8>, DecodeError>
    ensures ok { IfOk result (λ payload. Reads (B.unread buf.old)
        (IsDelimited payload.items) (B.unread buf.new)) }
    ensures fault { IfErr result (BytesRefusal (B.unread buf.old)) }
    ensures kept { B.kept buf.new ≡ B.kept buf.old }
{
    let len = decode_length(buf, None)?;
    Ok(take_bytes(alloc, buf, len)?)
}

/// The bytes of a length-delimited payload, as a run that can be shared. Refused as `decode_bytes`.
pub fn decode_bytes_to_bytes<B: Buf>(alloc: Global, buf: &mut B) -> Result<Bytes, DecodeError>
    ensures ok { IfOk result (λ payload. Reads (B.unread buf.old)
        (IsDelimited payload) (B.unread buf.new)) }
    ensures fault { IfErr result (BytesRefusal (B.unread buf.old)) }
    ensures kept { B.kept buf.new ≡ B.kept buf.old }
{
    let payload = decode_bytes(alloc, buf)?;
    Ok(Bytes::from_vec(payload)?)
}

/// The text of a length-delimited payload. The whole payload is taken also where it is not UTF-8,
/// which is `InvalidUtf8`. Every other refusal is that of `decode_bytes`.
pub fn decode_string<B: Buf>(alloc: Global, buf: &mut B) -> Result<String, DecodeError>
    ensures ok { IfOk result (λ text. Reads (B.unread buf.old)
        (IsString (string_bytes text)) (B.unread buf.new)) }
    ensures fault { IfErr result (StringRefusal (B.unread buf.old)) }
    ensures kept { B.kept buf.new ≡ B.kept buf.old }
    ensures passed { IfErr result (λ e. e ≡ InvalidUtf8
        → PassesPayload (B.unread buf.old) (B.unread buf.new)) }
{
    let payload = decode_bytes(alloc, buf)?;
    into_text(payload)
}

/// Puts the bytes of a length-delimited payload in the place of those that the vector has, and
/// keeps its room where they fit. Refused as `decode_bytes`; the vector is then as it was.
pub fn merge_bytes<B: Buf>(
    alloc: Global,
    value: &mut Vec<u8>,
    buf: &mut B,
) -> Result<(), DecodeError>
    ensures ok { OnOk result (Reads (B.unread buf.old)
        (IsDelimited value.new.items) (B.unread buf.new)) }
    ensures fault { IfErr result (BytesRefusal (B.unread buf.old)) }
    ensures kept { B.kept buf.new ≡ B.kept buf.old }
    ensures unchanged { OnErr result (value.new.items ≡ value.old.items) }
{
    let len = decode_length(buf, None)?;
    make_room(alloc, value, len)?;
    copy_bytes(buf, len, value);
    Ok(())
}

/// Puts the text of a length-delimited payload in the place of the one that the string has, and
/// keeps its room where it fits. A payload that is not UTF-8 is taken whole, leaves the empty text,
/// and is `InvalidUtf8`; every other refusal is that of `decode_bytes`, and leaves the string as it
/// was.
#[inline(always)]
pub fn merge_string<B: Buf>(
    alloc: Global,
    value: &mut String,
    buf: &mut B,
) -> Result<(), DecodeError>
    ensures ok { OnOk result (Reads (B.unread buf.old)
        (IsString (string_bytes value.new)) (B.unread buf.new)) }
    ensures fault { IfErr result (StringRefusal (B.unread buf.old)) }
    ensures kept { B.kept buf.new ≡ B.kept buf.old }
    ensures passed { IfErr result (λ e. e ≡ InvalidUtf8
        → PassesPayload (B.unread buf.old) (B.unread buf.new)) }
    ensures emptied { IfErr result (λ e. e ≡ InvalidUtf8 → string_bytes value.new ≡ []) }
    ensures unchanged { IfErr result (λ e. e ≢ InvalidUtf8
        → string_bytes value.new ≡ string_bytes value.old) }
{
    let len = decode_length(buf, None)?;
    let chunk = buf.chunk();
    if chunk.len() < len {
        let mut payload = take_room(alloc, value, len)?;
        copy_bytes(buf, len, &mut payload);
        *value = into_text(payload)?;
        return Ok(());
    }
    match from_utf8(&chunk[..len]) {
        Ok(text) => {
            put_text(alloc, value, text)?;
            buf.advance(len);
            Ok(())
        }
        Err(_) => {
            value.clear();
            buf.advance(len);
            Err(DecodeError::InvalidUtf8)
        }
    }
}
