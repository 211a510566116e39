//! Strings: in place where they have no escape, else with their escapes undone.
ghost use Rattle.std.specs.Prelude.{◌≡◌, ◌+◌, ◌≤◌, ◌<◌, ◌++◌, ◌∷◌, List, ℕ, length, drop, encode_utf8_all, string_bytes, OnErr, IfOk, IfErr};
ghost use Rattle.std.specs.Cow.{cow_str_bytes};
ghost use Rattle.wire_json.specs.Answer.{FaultAt, IfRefused, IsBehind};
ghost use Rattle.wire_json.specs.Fault.{CharsFault, QuoteFault};
ghost use Rattle.wire_json.specs.Text.{ReadsChars, ReadsString};

use crate::bytes::{stands, syntax};
use crate::fault::{Fault, JsonError};
use crate::part::read_part;
use std::alloc::Global;
use std::borrow::CowStr;

/// A string that was read, and the place behind it.
#[derive(Drop)]
pub struct StringRead<'a> {
    pub value: CowStr<'a>,
    pub after: usize,
}

/// Reads a string. It is borrowed where it has no escape, and else copied.
pub fn read_string<'a>(
    alloc: Global,
    text: &'a [u8],
    at: usize,
) -> Result<StringRead<'a>, JsonError>
    ensures ok { IfOk result (λ read.
        ReadsString (cow_str_bytes read.value) (drop at text.now) (drop read.after text.now)) }
    ensures behind { IfOk result (λ read. IsBehind at read.after text.now) }
    ensures fault { IfErr result (λ e. IfRefused e
        (λ fault. FaultAt text.now fault (QuoteFault (drop at text.now)))) }
{
    if !stands(text, at, b'"') {
        return Err(JsonError::Refused(syntax(at)));
    }
    let part = read_part(text, at + 1)?;
    match part.character {
        None => Ok(StringRead {
            value: CowStr::Borrowed(part.run),
            after: part.after,
        }),
        Some(character) => {
            let mut value = String::from_str(alloc, part.run)?;
            value.push(character)?;
            let after = push_chars(text, part.after, &mut value)?;
            Ok(StringRead {
                value: CowStr::Owned(value),
                after,
            })
        }
    }
}

/// Reads a string, and puts it behind what the other one holds, where a front of it may stand
/// after an error.
pub fn push_string(text: &[u8], at: usize, out: &mut String) -> Result<usize, JsonError>
    ensures ok { IfOk result (λ after. (bytes : List ℕ)
        × ReadsString bytes (drop at text.now) (drop after text.now)
        × (string_bytes out.new ≡ string_bytes out.old ++ bytes)) }
    ensures behind { IfOk result (λ after. IsBehind at after text.now) }
    ensures fault { IfErr result (λ e. IfRefused e
        (λ fault. FaultAt text.now fault (QuoteFault (drop at text.now)))) }
    ensures kept { OnErr result ((front : List ℕ)
        × (string_bytes out.new ≡ string_bytes out.old ++ front)) }
{
    if !stands(text, at, b'"') {
        return Err(JsonError::Refused(syntax(at)));
    }
    push_chars(text, at + 1, out)
}

// Puts the characters up to the closing quotation mark behind what the string holds.
fn push_chars(text: &[u8], at: usize, out: &mut String) -> Result<usize, JsonError>
    requires { at ≤ length text.now }
    ensures ok { IfOk result (λ after. (chars : List ℕ)
        × ReadsChars chars (drop at text.now) (drop after text.now)
        × (string_bytes out.new ≡ string_bytes out.old ++ encode_utf8_all chars)) }
    ensures behind { IfOk result (λ after. IsBehind at after text.now) }
    ensures fault { IfErr result (λ e. IfRefused e
        (λ fault. FaultAt text.now fault (CharsFault (drop at text.now)))) }
    ensures kept { OnErr result ((front : List ℕ)
        × (string_bytes out.new ≡ string_bytes out.old ++ front)) }
{
    let mut place = at;
    loop {
        let part = read_part(text, place)?;
        out.push_str(part.run)?;
        match part.character {
            None => return Ok(part.after),
            Some(character) => out.push(character)?,
        }
        place = part.after;
    }
}

/// Passes over a string.
pub fn skip_string(text: &[u8], at: usize) -> Result<usize, Fault>
    ensures ok { IfOk result (λ after. (bytes : List ℕ)
        × ReadsString bytes (drop at text.now) (drop after text.now)) }
    ensures behind { IfOk result (λ after. IsBehind at after text.now) }
    ensures fault { IfErr result (λ fault.
        FaultAt text.now fault (QuoteFault (drop at text.now))) }
{
    if !stands(text, at, b'"') {
        return Err(syntax(at));
    }
    skip_chars(text, at + 1)
}

// Passes over the characters of a string, and its closing quotation mark.
fn skip_chars(text: &[u8], at: usize) -> Result<usize, Fault>
    requires { at ≤ length text.now }
    ensures ok { IfOk result (λ after. (chars : List ℕ)
        × ReadsChars chars (drop at text.now) (drop after text.now)) }
    ensures behind { IfOk result (λ after. IsBehind at after text.now) }
    ensures fault { IfErr result (λ fault.
        FaultAt text.now fault (CharsFault (drop at text.now))) }
{
    let mut place = at;
    loop {
        let part = read_part(text, place)?;
        match part.character {
            None => return Ok(part.after),
            Some(_) => place = part.after,
        }
    }
}
