//! Compact text, put behind what a vector holds.
ghost use Rattle.std.specs.Prelude.{◌≡◌, ◌<◌, ◌++◌, ◌∷◌, [], false, codes, OnOk, OnErr};
ghost use Rattle.std.specs.Char.{digit_char};
ghost use Rattle.wire_json.specs.Compact.{Extends};
ghost use Rattle.wire_json.specs.Part.{is_plain};
ghost use Rattle.wire_json.specs.Written.{mark_byte, written_byte, written_bytes, written_string, written_name, word_text};

use crate::bytes::byte_at;
use crate::part::plain_end;
use std::alloc::AllocError;

/// What stands between values.
#[derive(Clone, Copy, Debug, PartialEq, Eq)]
pub enum Mark {
    BeginArray,
    EndArray,
    BeginObject,
    EndObject,
    Comma,
}

/// Writes a mark. Memory that is refused leaves the vector as it was.
pub fn write_mark(out: &mut Vec<u8>, mark: Mark) -> Result<(), AllocError>
    ensures ok { OnOk result (out.new.items ≡ out.old.items ++ mark_byte mark ∷ []) }
    ensures err { OnErr result (out.new.items ≡ out.old.items) }
{
    let byte = match mark {
        Mark::BeginArray => b'[',
        Mark::EndArray => b']',
        Mark::BeginObject => b'{',
        Mark::EndObject => b'}',
        Mark::Comma => b',',
    };
    write_byte(out, byte)
}

/// Writes `null`. Memory that is refused leaves the vector as it was.
pub fn write_null(out: &mut Vec<u8>) -> Result<(), AllocError>
    ensures ok { OnOk result (out.new.items ≡ out.old.items ++ codes "null") }
    ensures err { OnErr result (out.new.items ≡ out.old.items) }
{
    out.extend_from_slice(b"null")
}

/// Writes `true` or `false`. Memory that is refused leaves the vector as it was.
pub fn write_bool(out: &mut Vec<u8>, value: bool) -> Result<(), AllocError>
    ensures ok { OnOk result (out.new.items ≡ out.old.items ++ word_text value) }
    ensures err { OnErr result (out.new.items ≡ out.old.items) }
{
    if value {
        out.extend_from_slice(b"true")
    } else {
        out.extend_from_slice(b"false")
    }
}

/// Writes a number as its text, which is JSON where that is a number. Memory that is refused leaves
/// the vector as it was.
pub fn write_number(out: &mut Vec<u8>, text: &[u8]) -> Result<(), AllocError>
    ensures ok { OnOk result (out.new.items ≡ out.old.items ++ text.now) }
    ensures err { OnErr result (out.new.items ≡ out.old.items) }
{
    out.extend_from_slice(text)
}

/// Writes a string. A front of it may stand in the vector where memory is refused.
pub fn write_string(out: &mut Vec<u8>, text: &str) -> Result<(), AllocError>
    ensures ok { OnOk result (out.new.items ≡ out.old.items ++ written_string text.now) }
    ensures err { OnErr result (Extends out.old.items out.new.items) }
{
    write_byte(out, b'"')?;
    write_bytes(out, text.as_bytes())?;
    write_byte(out, b'"')
}

/// Writes the name of a member, and its colon. A front of it may stand in the vector where memory
/// is refused.
pub fn write_name(out: &mut Vec<u8>, name: &str) -> Result<(), AllocError>
    ensures ok { OnOk result (out.new.items ≡ out.old.items ++ written_name name.now) }
    ensures err { OnErr result (Extends out.old.items out.new.items) }
{
    write_string(out, name)?;
    write_byte(out, b':')
}

/// Writes one byte.
pub(crate) fn write_byte(out: &mut Vec<u8>, byte: u8) -> Result<(), AllocError>
    ensures ok { OnOk result (out.new.items ≡ out.old.items ++ byte ∷ []) }
    ensures err { OnErr result (out.new.items ≡ out.old.items) }
{
    Ok(out.push(byte)?)
}

/// Writes bytes of a string, with escapes where they are wanted.
pub(crate) fn write_bytes(out: &mut Vec<u8>, bytes: &[u8]) -> Result<(), AllocError>
    ensures ok { OnOk result (out.new.items ≡ out.old.items ++ written_bytes bytes.now) }
    ensures err { OnErr result (Extends out.old.items out.new.items) }
{
    let mut place = 0;
    loop {
        let end = plain_end(bytes, place);
        out.extend_from_slice(&bytes[place..end])?;
        match byte_at(bytes, end) {
            None => return Ok(()),
            Some(byte) => write_escape(out, byte)?,
        }
        place = end + 1;
    }
}

// Writes a byte that is to be escaped.
fn write_escape(out: &mut Vec<u8>, byte: u8) -> Result<(), AllocError>
    requires { is_plain byte ≡ false }
    ensures ok { OnOk result (out.new.items ≡ out.old.items ++ written_byte byte) }
    ensures err { OnErr result (out.new.items ≡ out.old.items) }
{
    match byte {
        b'"' => out.extend_from_slice(b"\\\""),
        b'\\' => out.extend_from_slice(b"\\\\"),
        8 => out.extend_from_slice(b"\\b"),
        12 => out.extend_from_slice(b"\\f"),
        b'\n' => out.extend_from_slice(b"\\n"),
        b'\r' => out.extend_from_slice(b"\\r"),
        b'\t' => out.extend_from_slice(b"\\t"),
        _ => {
            let high = hex_digit(byte / 16);
            let low = hex_digit(byte % 16);
            out.extend_from_slice(&[b'\\', b'u', b'0', b'0', high, low])
        }
    }
}

fn hex_digit(digit: u8) -> u8
    requires { digit < 16 }
    ensures { result ≡ digit_char digit }
{
    if digit < 10 {
        b'0' + digit
    } else {
        b'a' + (digit - 10)
    }
}
