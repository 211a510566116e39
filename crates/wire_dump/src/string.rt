//! Strings of a dump: payloads between double quotes.
ghost use Rattle.std.specs.Prelude.{◌≡◌, ◌≢◌, ◌<◌, ◌≤◌, [], ◌∷◌, ◌++◌, length, take, IsTrue, IfOk, OnOk};
ghost use Rattle.wire_dump.specs.Lines.{escaped, escaped_byte, octal, string_line};
ghost use Rattle.wire_dump.specs.Places.{range_text};

use crate::layout::Margin;
use crate::line::put_head;
use std::alloc::AllocError;

// How many bytes are compared at once.
const BLOCK: usize = 8;

// A backslash and three digits to the base 8.
fn put_octal(out: &mut Vec<u8>, byte: u8) -> Result<(), AllocError>
    ensures { OnOk result (out.new.items ≡ out.old.items ++ octal byte) }
{
    out.extend_from_slice(&[92, 48 + byte / 64, 48 + byte / 8 % 8, 48 + byte % 8])
}

fn put_escaped_byte(out: &mut Vec<u8>, byte: u8) -> Result<(), AllocError>
    ensures { OnOk result (out.new.items ≡ out.old.items ++ escaped_byte byte) }
{
    match byte {
        b'\n' => out.extend_from_slice(b"\\n"),
        b'\r' => out.extend_from_slice(b"\\r"),
        b'\t' => out.extend_from_slice(b"\\t"),
        b'"' => out.extend_from_slice(b"\\\""),
        b'\'' => out.extend_from_slice(b"\\'"),
        b'\\' => out.extend_from_slice(b"\\\\"),
        0..32 | 127.. => put_octal(out, byte),
        _ => {
            out.push(byte)?;
            Ok(())
        }
    }
}

// Whether a byte stands for itself between double quotes. Each test is made, so that many bytes are
// compared at once.
fn is_plain(byte: u8) -> bool
    ensures { IsTrue result → escaped_byte byte ≡ byte ∷ [] }
{
    (byte >= 32) & (byte < 127) & (byte != b'"') & (byte != b'\'') & (byte != b'\\')
}

// Whether all of the bytes stand for themselves. No byte is left out once one is found that does
// not, so that many are compared at once.
#[inline(always)]
fn are_plain(bytes: &[u8]) -> bool
    ensures { IsTrue result → escaped bytes.now ≡ bytes.now }
{
    let mut are = true;
    for &byte in bytes {
        are = is_plain(byte) && are;
    }
    are
}

// How many bytes at the front stand for themselves, in whole blocks.
fn plain_blocks_len(bytes: &[u8]) -> usize
    ensures within { result ≤ length bytes.now }
    ensures plain { escaped (take result bytes.now) ≡ take result bytes.now }
{
    let mut count = 0;
    while bytes.len() - count >= BLOCK && are_plain(&bytes[count..count + BLOCK]) {
        count += BLOCK;
    }
    count
}

// How many bytes at the front stand for themselves.
fn plain_len(bytes: &[u8]) -> usize
    ensures within { result ≤ length bytes.now }
    ensures plain { escaped (take result bytes.now) ≡ take result bytes.now }
{
    let mut count = plain_blocks_len(bytes);
    while count < bytes.len() && is_plain(bytes[count]) {
        count += 1;
    }
    count
}

// Puts the bytes at the front that stand for themselves and the byte behind them, and answers what
// follows.
fn put_run<'a>(out: &mut Vec<u8>, bytes: &'a [u8]) -> Result<&'a [u8], AllocError>
    ensures ok { IfOk result (λ rest. out.new.items ++ escaped rest.now
        ≡ out.old.items ++ escaped bytes.now) }
    ensures shorter { IfOk result (λ rest. bytes.now ≢ [] → length rest.now < length bytes.now) }
{
    let (plain, behind) = bytes.split_at(plain_len(bytes));
    out.extend_from_slice(plain)?;
    let Some((byte, rest)) = behind.split_first() else {
        return Ok(behind);
    };
    put_escaped_byte(out, *byte)?;
    Ok(rest)
}

pub(crate) fn put_escaped(out: &mut Vec<u8>, bytes: &[u8]) -> Result<(), AllocError>
    ensures { OnOk result (out.new.items ≡ out.old.items ++ escaped bytes.now) }
{
    let mut rest = bytes;
    while !rest.is_empty() {
        rest = put_run(out, rest)?;
    }
    Ok(())
}

pub(crate) fn put_string(
    out: &mut Vec<u8>,
    margin: Margin,
    level: u32,
    number: u32,
    bytes: &[u8],
) -> Result<(), AllocError>
    ensures { OnOk result (out.new.items ≡ out.old.items
        ++ (range_text margin.is_shown margin.start margin.end
        ++ string_line level number bytes.now)) }
{
    put_head(out, margin, level, number)?;
    out.extend_from_slice(b": \"")?;
    put_escaped(out, bytes)?;
    out.extend_from_slice(b"\"\n")
}
