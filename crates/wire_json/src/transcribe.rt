//! Strings, numbers and words that are read and written again at once.
ghost use Rattle.std.specs.Prelude.{◌≡◌, ◌≢◌, ◌<◌, ◌≤◌, ◌++◌, ℕ, Some, length, drop, encode_utf8, OnOk, OnErr, IfOk, IfErr};
ghost use Rattle.wire_json.specs.Answer.{FaultAt, IfRefused, IsBehind};
ghost use Rattle.wire_json.specs.Compact.{Extends, PutsChars, PutsName, PutsString, PutsValue};
ghost use Rattle.wire_json.specs.Fault.{CharsFault, QuoteFault, NameFault, ValueFault};
ghost use Rattle.wire_json.specs.Kind.{kind_begun};
ghost use Rattle.wire_json.specs.Written.{written_bytes};

use crate::bytes::{stands, syntax};
use crate::container::skip_colon;
use crate::fault::JsonError;
use crate::kind::Kind;
use crate::part::read_part;
use crate::value::skip_simple;
use crate::write::{write_byte, write_bytes};
use std::alloc::AllocError;

/// Reads a string and writes its compact text.
pub(crate) fn copy_string(text: &[u8], at: usize, out: &mut Vec<u8>) -> Result<usize, JsonError>
    ensures ok { IfOk result (λ after. PutsString (drop at text.now) (drop after text.now)
        out.old.items out.new.items) }
    ensures behind { IfOk result (λ after. IsBehind at after text.now) }
    ensures fault { IfErr result (λ e. IfRefused e
        (λ fault. FaultAt text.now fault (QuoteFault (drop at text.now)))) }
    ensures kept { OnErr result (Extends out.old.items out.new.items) }
{
    if !stands(text, at, b'"') {
        return Err(JsonError::Refused(syntax(at)));
    }
    write_byte(out, b'"')?;
    let after = copy_chars(text, at + 1, out)?;
    write_byte(out, b'"')?;
    Ok(after)
}

// Reads the characters of a string, and writes them.
fn copy_chars(text: &[u8], at: usize, out: &mut Vec<u8>) -> Result<usize, JsonError>
    requires { at ≤ length text.now }
    ensures ok { IfOk result (λ after. PutsChars (drop at text.now) (drop after text.now)
        out.old.items out.new.items) }
    ensures behind { IfOk result (λ after. IsBehind at after text.now) }
    ensures fault { IfErr result (λ e. IfRefused e
        (λ fault. FaultAt text.now fault (CharsFault (drop at text.now)))) }
    ensures kept { OnErr result (Extends out.old.items out.new.items) }
{
    let mut place = at;
    loop {
        let part = read_part(text, place)?;
        out.extend_from_slice(part.run.as_bytes())?;
        match part.character {
            None => return Ok(part.after),
            Some(character) => write_char(out, character)?,
        }
        place = part.after;
    }
}

// Writes a character of a string.
fn write_char(out: &mut Vec<u8>, character: char) -> Result<(), AllocError>
    ensures ok { OnOk result (out.new.items
        ≡ out.old.items ++ written_bytes (encode_utf8 character)) }
    ensures err { OnErr result (Extends out.old.items out.new.items) }
{
    let mut buffer = [0; 4];
    write_bytes(out, character.encode_utf8(&mut buffer).as_bytes())
}

/// Reads the name of a member and its colon, up to the value, and writes their compact text.
pub(crate) fn copy_name(text: &[u8], at: usize, out: &mut Vec<u8>) -> Result<usize, JsonError>
    ensures ok { IfOk result (λ after. PutsName (drop at text.now) (drop after text.now)
        out.old.items out.new.items) }
    ensures behind { IfOk result (λ after. at < after) }
    ensures fault { IfErr result (λ e. IfRefused e
        (λ fault. FaultAt text.now fault (NameFault (drop at text.now)))) }
    ensures kept { OnErr result (Extends out.old.items out.new.items) }
{
    let behind = copy_string(text, at, out)?;
    let value = skip_colon(text, behind)?;
    write_byte(out, b':')?;
    Ok(value)
}

/// Reads a number or a word, and writes it.
pub(crate) fn copy_simple(
    text: &[u8],
    at: usize,
    kind: Kind,
    out: &mut Vec<u8>,
) -> Result<usize, JsonError>
    requires kind { kind_begun (drop at text.now) ≡ Some kind }
    requires no_string { kind ≢ Kind.String }
    requires no_array { kind ≢ Kind.Array }
    requires no_object { kind ≢ Kind.Object }
    ensures ok { IfOk result (λ after. PutsValue 0 (drop at text.now) (drop after text.now)
        out.old.items out.new.items) }
    ensures behind { IfOk result (λ after. IsBehind at after text.now) }
    ensures fault { IfErr result (λ e. IfRefused e (λ fault. (l : ℕ)
        → FaultAt text.now fault (ValueFault l (drop at text.now)))) }
    ensures kept { OnErr result (Extends out.old.items out.new.items) }
{
    let after = skip_simple(text, at, kind)?;
    out.extend_from_slice(&text[at..after])?;
    Ok(after)
}
