//! Values that are passed over.
ghost use Rattle.std.specs.Prelude.{◌≡◌, ◌≢◌, ◌≤◌, ◌∷◌, ℕ, List, true, Some, length, drop, OnOk, OnErr, IfOk, IfErr};
ghost use Rattle.wire_json.specs.Answer.{FaultAt, IsBehind};
ghost use Rattle.wire_json.specs.Bytes.{begins, is_byte};
ghost use Rattle.wire_json.specs.Fault.{ValueFault, ElementsFault, MembersFault, TextFault};
ghost use Rattle.wire_json.specs.Json.{Json, Elements, Members, depth, elements_depth, members_depth};
ghost use Rattle.wire_json.specs.Kind.{kind_begun};
ghost use Rattle.wire_json.specs.Compact.{ReadsSimple};
ghost use Rattle.wire_json.specs.Reading.{ReadsValue, ReadsElements, ReadsMembers, Spells};

use crate::bytes::{skip_space, skip_word, syntax};
use crate::container::{Next, first_element, first_member, next_element, next_member};
use crate::fault::{Fault, FaultKind};
use crate::kind::{Kind, kind_at};
use crate::name::skip_name;
use crate::number::skip_number;
use crate::text::skip_string;

/// Passes over a value in which at most so many arrays and objects stand in one another. It calls
/// itself once for each of these.
#[cycle(value)]
pub fn skip_value(text: &[u8], at: usize, levels: u32) -> Result<usize, Fault>
    ensures ok { IfOk result (λ after. (json : Json)
        × ReadsValue json (drop at text.now) (drop after text.now) × (depth json ≤ levels)) }
    ensures behind { IfOk result (λ after. IsBehind at after text.now) }
    ensures fault { IfErr result (λ fault.
        FaultAt text.now fault (ValueFault levels (drop at text.now))) }
{
    match kind_at(text, at) {
        None => Err(syntax(at)),
        Some(Kind::Array) => {
            if levels == 0 {
                return Err(too_deep(at));
            }
            skip_elements(text, at, levels - 1)
        }
        Some(Kind::Object) => {
            if levels == 0 {
                return Err(too_deep(at));
            }
            skip_members(text, at, levels - 1)
        }
        Some(Kind::String) => skip_string(text, at),
        Some(kind) => skip_simple(text, at, kind),
    }
}

// Passes over the array at this place, whose elements nest at most so deep.
#[cycle(value)]
fn skip_elements(text: &[u8], at: usize, levels: u32) -> Result<usize, Fault>
    requires { begins (is_byte 91) (drop at text.now) ≡ true }
    ensures ok { IfOk result (λ after. (inside : List ℕ) × (es : Elements)
        × (drop at text.now ≡ 91 ∷ inside) × ReadsElements es inside (drop after text.now)
        × (elements_depth es ≤ levels)) }
    ensures behind { IfOk result (λ after. IsBehind at after text.now) }
    ensures fault { IfErr result (λ fault. (inside : List ℕ) × (drop at text.now ≡ 91 ∷ inside)
        × FaultAt text.now fault (ElementsFault levels inside)) }
{
    let mut next = first_element(text, at)?;
    loop {
        match next {
            Next::End(after) => return Ok(after),
            Next::Item(place) => {
                let after = skip_value(text, place, levels)?;
                next = next_element(text, after)?;
            }
        }
    }
}

// Passes over the object at this place, whose members nest at most so deep.
#[cycle(value)]
fn skip_members(text: &[u8], at: usize, levels: u32) -> Result<usize, Fault>
    requires { begins (is_byte 123) (drop at text.now) ≡ true }
    ensures ok { IfOk result (λ after. (inside : List ℕ) × (ms : Members)
        × (drop at text.now ≡ 123 ∷ inside) × ReadsMembers ms inside (drop after text.now)
        × (members_depth ms ≤ levels)) }
    ensures behind { IfOk result (λ after. IsBehind at after text.now) }
    ensures fault { IfErr result (λ fault. (inside : List ℕ) × (drop at text.now ≡ 123 ∷ inside)
        × FaultAt text.now fault (MembersFault levels inside)) }
{
    let mut next = first_member(text, at)?;
    loop {
        match next {
            Next::End(after) => return Ok(after),
            Next::Item(place) => {
                let value = skip_name(text, place)?;
                let after = skip_value(text, value, levels)?;
                next = next_member(text, after)?;
            }
        }
    }
}

/// Passes over a number or a word, whose compact text it is.
pub(crate) fn skip_simple(text: &[u8], at: usize, kind: Kind) -> Result<usize, Fault>
    requires kind { kind_begun (drop at text.now) ≡ Some kind }
    requires no_string { kind ≢ Kind.String }
    requires no_array { kind ≢ Kind.Array }
    requires no_object { kind ≢ Kind.Object }
    ensures ok { IfOk result (ReadsSimple text.now (drop at text.now)) }
    ensures behind { IfOk result (λ after. IsBehind at after text.now) }
    ensures fault { IfErr result (λ fault. (l : ℕ)
        → FaultAt text.now fault (ValueFault l (drop at text.now))) }
{
    match kind {
        Kind::Null => skip_word(text, at, b"null"),
        Kind::True => skip_word(text, at, b"true"),
        Kind::False => skip_word(text, at, b"false"),
        Kind::Number => skip_number(text, at),
        Kind::String | Kind::Array | Kind::Object => unreachable!(),
    }
}

pub(crate) fn too_deep(at: usize) -> Fault
    ensures { result ≡ record { kind = FaultKind.TooDeep; at = at } }
{
    Fault {
        kind: FaultKind::TooDeep,
        at,
    }
}

/// Whether the text is a value with white space round it, in which at most so many arrays and
/// objects stand in one another; else its first fault.
pub fn check(text: &[u8], levels: u32) -> Result<(), Fault>
    ensures ok { OnOk result ((json : Json) × Spells text.now json × (depth json ≤ levels)) }
    ensures refused { OnErr result ((json : Json) → Spells text.now json → depth json ≤ levels → ⊥) }
    ensures fault { IfErr result (λ fault.
        FaultAt text.now fault (TextFault levels text.now)) }
{
    let after = skip_value(text, skip_space(text, 0), levels)?;
    let end = skip_space(text, after);
    if end < text.len() {
        return Err(syntax(end));
    }
    Ok(())
}
