//! The compact text of what a text spells.
ghost use Rattle.std.specs.Prelude.{◌≡◌, ◌++◌, ◌∷◌, List, ℕ, true, drop, OnOk, OnErr, IfOk, IfErr};
ghost use Rattle.wire_json.specs.Answer.{FaultAt, IfRefused, IsBehind};
ghost use Rattle.wire_json.specs.Bytes.{begins, is_byte};
ghost use Rattle.wire_json.specs.Compact.{Extends, PutsCompact, PutsElements, PutsMembers, PutsValue};
ghost use Rattle.wire_json.specs.Container.{separator};
ghost use Rattle.wire_json.specs.Fault.{ValueFault, ElementsFault, MembersFault, TextFault};

use crate::bytes::{skip_space, syntax};
use crate::container::{Next, first_element, first_member, next_element, next_member};
use crate::fault::JsonError;
use crate::kind::{Kind, kind_at};
use crate::transcribe::{copy_name, copy_simple, copy_string};
use crate::value::too_deep;
use crate::write::{Mark, write_mark};
use std::alloc::AllocError;

/// Writes the compact text of a value behind what the vector holds: no white space, the members of
/// an object in their order, numbers by their text, and strings with the fewest escapes. The text is
/// refused as `check` refuses it; after an error a front of the compact text may stand in the
/// vector. It calls itself once for each array or object that stands in another.
pub fn compact(text: &[u8], levels: u32, out: &mut Vec<u8>) -> Result<(), JsonError>
    ensures ok { OnOk result (PutsCompact levels text.now out.old.items out.new.items) }
    ensures fault { IfErr result (λ e. IfRefused e
        (λ fault. FaultAt text.now fault (TextFault levels text.now))) }
    ensures kept { OnErr result (Extends out.old.items out.new.items) }
{
    let after = compact_value(text, skip_space(text, 0), levels, out)?;
    let end = skip_space(text, after);
    if end < text.len() {
        return Err(JsonError::Refused(syntax(end)));
    }
    Ok(())
}

#[cycle(compact)]
fn compact_value(text: &[u8], at: usize, levels: u32, out: &mut Vec<u8>) -> Result<usize, JsonError>
    ensures ok { IfOk result (λ after. PutsValue levels (drop at text.now) (drop after text.now)
        out.old.items out.new.items) }
    ensures behind { IfOk result (λ after. IsBehind at after text.now) }
    ensures fault { IfErr result (λ e. IfRefused e
        (λ fault. FaultAt text.now fault (ValueFault levels (drop at text.now)))) }
    ensures kept { OnErr result (Extends out.old.items out.new.items) }
{
    match kind_at(text, at) {
        None => Err(JsonError::Refused(syntax(at))),
        Some(Kind::Array) => {
            if levels == 0 {
                return Err(JsonError::Refused(too_deep(at)));
            }
            compact_elements(text, at, levels - 1, out)
        }
        Some(Kind::Object) => {
            if levels == 0 {
                return Err(JsonError::Refused(too_deep(at)));
            }
            compact_members(text, at, levels - 1, out)
        }
        Some(Kind::String) => copy_string(text, at, out),
        Some(kind) => copy_simple(text, at, kind, out),
    }
}

// The array at this place, whose elements nest at most so deep.
#[cycle(compact)]
fn compact_elements(
    text: &[u8],
    at: usize,
    levels: u32,
    out: &mut Vec<u8>,
) -> Result<usize, JsonError>
    requires { begins (is_byte 91) (drop at text.now) ≡ true }
    ensures ok { IfOk result (λ after. PutsElements levels (drop at text.now)
        (drop after text.now) out.old.items out.new.items) }
    ensures behind { IfOk result (λ after. IsBehind at after text.now) }
    ensures fault { IfErr result (λ e. IfRefused e (λ fault. (inside : List ℕ)
        × (drop at text.now ≡ 91 ∷ inside)
        × FaultAt text.now fault (ElementsFault levels inside))) }
    ensures kept { OnErr result (Extends out.old.items out.new.items) }
{
    let mut next = first_element(text, at)?;
    write_mark(out, Mark::BeginArray)?;
    loop {
        match next {
            Next::End(after) => {
                write_mark(out, Mark::EndArray)?;
                return Ok(after);
            }
            Next::Item(place) => {
                let after = compact_value(text, place, levels, out)?;
                next = next_element(text, after)?;
                write_separator(out, next)?;
            }
        }
    }
}

// The object at this place, whose members nest at most so deep.
#[cycle(compact)]
fn compact_members(
    text: &[u8],
    at: usize,
    levels: u32,
    out: &mut Vec<u8>,
) -> Result<usize, JsonError>
    requires { begins (is_byte 123) (drop at text.now) ≡ true }
    ensures ok { IfOk result (λ after. PutsMembers levels (drop at text.now)
        (drop after text.now) out.old.items out.new.items) }
    ensures behind { IfOk result (λ after. IsBehind at after text.now) }
    ensures fault { IfErr result (λ e. IfRefused e (λ fault. (inside : List ℕ)
        × (drop at text.now ≡ 123 ∷ inside)
        × FaultAt text.now fault (MembersFault levels inside))) }
    ensures kept { OnErr result (Extends out.old.items out.new.items) }
{
    let mut next = first_member(text, at)?;
    write_mark(out, Mark::BeginObject)?;
    loop {
        match next {
            Next::End(after) => {
                write_mark(out, Mark::EndObject)?;
                return Ok(after);
            }
            Next::Item(place) => {
                let value = copy_name(text, place, out)?;
                let after = compact_value(text, value, levels, out)?;
                next = next_member(text, after)?;
                write_separator(out, next)?;
            }
        }
    }
}

// A comma, where an array or an object goes on.
fn write_separator(out: &mut Vec<u8>, next: Next) -> Result<(), AllocError>
    ensures ok { OnOk result (out.new.items ≡ out.old.items ++ separator next) }
    ensures err { OnErr result (out.new.items ≡ out.old.items) }
{
    match next {
        Next::Item(_) => write_mark(out, Mark::Comma),
        Next::End(_) => Ok(()),
    }
}
