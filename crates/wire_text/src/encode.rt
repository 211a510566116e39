//! Strings and bytes into a sink.
ghost use Rattle.std.specs.Prelude.{◌≡◌, ◌≤◌, ◌^◌, ◌++◌, length, OnOk, OnErr, IfOk, IfErr};
ghost use Rattle.wire_base.specs.declared.error.EncodeError.TheVariants.{LengthOverflow};
ghost use Rattle.wire_base.specs.Delimited.{delimited_text};
ghost use Rattle.wire_base.specs.Field.{bytes};
ghost use Rattle.wire_base.specs.FieldNumber.{IsFieldNumber};
ghost use Rattle.wire_base.specs.Sink.{Writes};
ghost use Rattle.wire_base.specs.Text.{record_text};

use wire_base::{EncodeError, EncodeSink, WireType, encode_varint, laws, varint_len};

/// How many bytes `encode_string` writes. `LengthOverflow` comes exactly where these are more than
/// `usize::MAX`.
pub fn string_encoded_len(value: &str) -> Result<usize, EncodeError>
    ensures ok { IfOk result (λ len. len ≡ length (delimited_text value.now)) }
    ensures err { IfErr result (λ e. e ≡ LengthOverflow) }
    ensures over { OnErr result (2 ^ 64 ≤ length (delimited_text value.now)) }
{
    bytes_encoded_len(value.as_bytes())
}

/// How many bytes `encode_bytes` writes. `LengthOverflow` comes exactly where these are more than
/// `usize::MAX`.
pub fn bytes_encoded_len(value: &[u8]) -> Result<usize, EncodeError>
    ensures ok { IfOk result (λ len. len ≡ length (delimited_text value.now)) }
    ensures err { IfErr result (λ e. e ≡ LengthOverflow) }
    ensures over { OnErr result (2 ^ 64 ≤ length (delimited_text value.now)) }
{
    varint_len(value.len() as u64)
        .checked_add(value.len())
        .ok_or(EncodeError::LengthOverflow)
}

/// Writes the length of a string and its UTF-8 bytes. Refused where the sink refuses a put. See
/// "Length-Delimited Records" of the encoding document.
#[inline(always)]
pub fn encode_string<S: EncodeSink>(value: &str, sink: &mut S) -> Result<(), EncodeError>
    ensures { Writes (delimited_text value.now) (S.held sink.old) (S.held sink.new) result }
{
    encode_bytes(value.as_bytes(), sink)
}

/// Writes the length of the bytes, and the bytes. Refused where the sink refuses a put. See
/// "Length-Delimited Records" of the encoding document.
#[inline(always)]
pub fn encode_bytes<S: EncodeSink>(value: &[u8], sink: &mut S) -> Result<(), EncodeError>
    ensures { Writes (delimited_text value.now) (S.held sink.old) (S.held sink.new) result }
{
    laws::two_parts();
    laws::put_is_a_write();
    encode_varint(value.len() as u64, sink)?;
    sink.put_slice(value)
}

/// Writes a record with a string, of a number from 1 to `MAX_FIELD_NUMBER`: its tag, its length and
/// its UTF-8 bytes. Refused where the sink refuses a put. See "Length-Delimited Records" of the
/// encoding document.
#[inline(always)]
pub fn put_string_field<S: EncodeSink>(
    number: u32,
    value: &str,
    sink: &mut S,
) -> Result<(), EncodeError>
    requires { IsFieldNumber number }
    ensures { Writes (record_text number (bytes value.now))
        (S.held sink.old) (S.held sink.new) result }
{
    put_bytes_field(number, value.as_bytes(), sink)
}

/// Writes a record with bytes, of a number from 1 to `MAX_FIELD_NUMBER`: its tag, their length and
/// the bytes. Refused where the sink refuses a put. See "Length-Delimited Records" of the encoding
/// document.
#[inline(always)]
pub fn put_bytes_field<S: EncodeSink>(
    number: u32,
    value: &[u8],
    sink: &mut S,
) -> Result<(), EncodeError>
    requires { IsFieldNumber number }
    ensures { Writes (record_text number (bytes value.now))
        (S.held sink.old) (S.held sink.new) result }
{
    sink.put_delimited(
        8 * u64::from(number) + WireType::LengthDelimited as u64,
        value,
    )
}
