//! Strings and bytes that are not copied.
ghost use Rattle.std.specs.Prelude.{◌≡◌, ◌≢◌, None, OnErr, IfOk, IfErr};
ghost use Rattle.wire_base.specs.declared.error.DecodeError.TheVariants.{InvalidUtf8};
ghost use Rattle.wire_base.specs.Delimited.{IsDelimited, DelimitedFault};
ghost use Rattle.wire_base.specs.Read.{Reads};
ghost use Rattle.wire_text.specs.BytesPayload.{PassesPayload};
ghost use Rattle.wire_text.specs.StringPayload.{IsString, StringFault};

use crate::payload::from_utf8;
use wire_base::{DecodeError, decode_length};

/// The bytes of a length-delimited payload. The slice then begins behind them. Refused as
/// `decode_length` without a maximum; the slice then stays. See "Length-Delimited Records" of the
/// encoding document.
#[inline(always)]
pub fn borrow_bytes<'a>(buf: &mut &'a [u8]) -> Result<&'a [u8], DecodeError>
    ensures ok { IfOk result (λ payload. Reads buf.old.now (IsDelimited payload.now) buf.new.now) }
    ensures fault { IfErr result (DelimitedFault None buf.old.now) }
    ensures unchanged { OnErr result (buf.new.now ≡ buf.old.now) }
{
    let mut rest = *buf;
    let len = decode_length(&mut rest, None)?;
    let (payload, behind) = rest.split_at(len);
    *buf = behind;
    Ok(payload)
}

/// The text of a length-delimited payload. The slice then begins behind it, also where the payload
/// is not UTF-8, which is `InvalidUtf8`. Every other refusal is that of `borrow_bytes`.
#[inline(always)]
pub fn borrow_str<'a>(buf: &mut &'a [u8]) -> Result<&'a str, DecodeError>
    ensures ok { IfOk result (λ text. Reads buf.old.now (IsString text.now) buf.new.now) }
    ensures fault { IfErr result (StringFault buf.old.now) }
    ensures passed { IfErr result (λ e. e ≡ InvalidUtf8 → PassesPayload buf.old.now buf.new.now) }
    ensures unchanged { IfErr result (λ e. e ≢ InvalidUtf8 → buf.new.now ≡ buf.old.now) }
{
    let payload = borrow_bytes(buf)?;
    from_utf8(payload).or(Err(DecodeError::InvalidUtf8))
}
