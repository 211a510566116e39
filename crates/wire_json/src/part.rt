//! Parts of a string: characters as they are, and then an escape or the closing quotation mark.
ghost use Rattle.std.specs.Prelude.{◌≡◌, ◌≤◌, length, drop, IfOk, IfErr};
ghost use Rattle.wire_json.specs.Answer.{FaultAt, IsBehind, IsOnward};
ghost use Rattle.wire_json.specs.Bytes.{past};
ghost use Rattle.wire_json.specs.Fault.{CharsFault};
ghost use Rattle.wire_json.specs.Part.{ReadsPart, ReadsRun, is_plain};

use crate::bytes::{byte_at, stands, syntax};
use crate::escape::read_escape;
use crate::fault::Fault;
use std::str::from_utf8;

/// Characters as they are, what an escape behind them stands for or none at the closing quotation
/// mark, and the place behind that.
#[derive(Clone, Copy)]
pub(crate) struct Part<'a> {
    pub(crate) run: &'a str,
    pub(crate) character: Option<char>,
    pub(crate) after: usize,
}

/// The part of a string that begins at this place.
pub(crate) fn read_part<'a>(text: &'a [u8], at: usize) -> Result<Part<'a>, Fault>
    requires { at ≤ length text.now }
    ensures ok { IfOk result (λ part. ReadsPart part.run.now part.character
        (drop at text.now) (drop part.after text.now)) }
    ensures behind { IfOk result (λ part. IsBehind at part.after text.now) }
    ensures fault { IfErr result (λ fault.
        FaultAt text.now fault (CharsFault (drop at text.now))) }
{
    let end = plain_end(text, at);
    let run = read_run(text, at, end)?;
    if stands(text, end, b'"') {
        return Ok(Part {
            run,
            character: None,
            after: end + 1,
        });
    }
    if !stands(text, end, b'\\') {
        return Err(syntax(end));
    }
    let escape = read_escape(text, end)?;
    Ok(Part {
        run,
        character: Some(escape.character),
        after: escape.after,
    })
}

/// Passes over plain bytes.
pub(crate) fn plain_end(text: &[u8], at: usize) -> usize
    ensures plain { drop result text.now ≡ past is_plain (drop at text.now) }
    ensures onward { IsOnward at result text.now }
{
    let mut place = at;
    while let Some(b' '..=b'!' | b'#'..=b'[' | b']'..) = byte_at(text, place) {
        place += 1;
    }
    place
}

// The characters between these places, which are plain.
fn read_run<'a>(text: &'a [u8], at: usize, end: usize) -> Result<&'a str, Fault>
    requires order { at ≤ end }
    requires within { end ≤ length text.now }
    requires plain { drop end text.now ≡ past is_plain (drop at text.now) }
    ensures ok { IfOk result (λ run. ReadsRun run.now (drop at text.now) (drop end text.now)) }
    ensures fault { IfErr result (λ fault.
        FaultAt text.now fault (CharsFault (drop at text.now))) }
{
    match from_utf8(&text[at..end]) {
        Ok(run) => Ok(run),
        Err(error) => Err(syntax(at + error.valid_up_to())),
    }
}
