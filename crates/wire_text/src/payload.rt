//! The bytes of a payload, copied once.
ghost use Rattle.std.specs.Prelude.{◌≡◌, ◌≤◌, [], string_bytes, IsUtf8};
ghost use Rattle.std.specs.Prelude.{MatchResult, OnOk, OnErr, IfOk, IfErr};
ghost use Rattle.std.specs.Vec.{vec_capacity};
ghost use Rattle.wire_base.specs.declared.error.DecodeError.TheVariants.{InvalidUtf8};

use simdutf8::basic::Utf8Error;
use std::alloc::{AllocError, Global};
use std::mem;
use wire_base::DecodeError;

// Fewer bytes than these `simdutf8` leaves to std's loop.
const SHORT: usize = 64;

/// Empties a vector, which then has room for so many bytes. What it held is not copied.
pub(crate) fn make_room(alloc: Global, value: &mut Vec<u8>, len: usize) -> Result<(), AllocError>
    ensures empty { OnOk result (value.new.items ≡ []) }
    ensures room { OnOk result (len ≤ vec_capacity value.new) }
    ensures unchanged { OnErr result (value.new.items ≡ value.old.items) }
{
    if value.capacity() < len {
        *value = Vec::with_capacity(alloc, len)?;
    } else {
        value.clear();
    }
    Ok(())
}

/// Empties a string, and hands out its room, or room for so many bytes where it has less.
pub(crate) fn take_room(
    alloc: Global,
    value: &mut String,
    len: usize,
) -> Result<Vec<u8>, AllocError>
    ensures empty { IfOk result (λ room. room.items ≡ []) }
    ensures room { IfOk result (λ room. len ≤ vec_capacity room) }
    ensures emptied { OnOk result (string_bytes value.new ≡ []) }
    ensures unchanged { OnErr result (string_bytes value.new ≡ string_bytes value.old) }
{
    if value.capacity() < len {
        let room = Vec::with_capacity(alloc, len)?;
        *value = String::new(alloc);
        return Ok(room);
    }
    let mut room = mem::replace(value, String::new(alloc)).into_bytes();
    room.clear();
    Ok(room)
}

/// Puts a text in the place of the one that a string has, and keeps its room where it fits.
#[inline(always)]
pub(crate) fn put_text(alloc: Global, value: &mut String, text: &str) -> Result<(), AllocError>
    ensures ok { OnOk result (string_bytes value.new ≡ text.now) }
    ensures unchanged { OnErr result (string_bytes value.new ≡ string_bytes value.old) }
{
    if value.capacity() < text.len() {
        *value = String::from_str(alloc, text)?;
        return Ok(());
    }
    value.clear();
    value.push_str(text).unwrap();
    Ok(())
}

/// The text of the bytes. A short one is mostly ASCII, which is tested eight bytes at a time.
#[inline(always)]
pub(crate) fn from_utf8(bytes: &[u8]) -> Result<&str, Utf8Error>
    ensures { MatchResult result (λ text. (text.now ≡ bytes.now) × IsUtf8 bytes.now)
        (λ _. ¬ (IsUtf8 bytes.now)) }
{
    if bytes.len() < SHORT && bytes.is_ascii() {
        return Ok(unsafe { std::str::from_utf8_unchecked(bytes) });
    }
    simdutf8::basic::from_utf8(bytes)
}

/// The text of these bytes, which are not copied.
#[inline(always)]
pub(crate) fn into_text(payload: Vec<u8>) -> Result<String, DecodeError>
    ensures ok { IfOk result (λ text. string_bytes text ≡ payload.items) }
    ensures utf8 { OnOk result (IsUtf8 payload.items) }
    ensures err { IfErr result (λ e. e ≡ InvalidUtf8) }
    ensures not_utf8 { OnErr result (¬ IsUtf8 payload.items) }
{
    match from_utf8(&payload) {
        Ok(_) => Ok(unsafe { String::from_utf8_unchecked(payload) }),
        Err(_) => Err(DecodeError::InvalidUtf8),
    }
}
