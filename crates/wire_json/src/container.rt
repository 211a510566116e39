//! Steps through arrays and objects.
ghost use Rattle.std.specs.Prelude.{◌≡◌, ◌+◌, ◌<◌, ◌≤◌, ◌∷◌, List, ℕ, length, drop, IfOk, IfErr};
ghost use Rattle.wire_json.specs.Answer.{FaultAt, IsBehind};
ghost use Rattle.wire_json.specs.Bytes.{past_space};
ghost use Rattle.wire_json.specs.Container.{FirstItem, NextItem, NextIsBehind, NoColon, NoNext, NotOpen};

use crate::bytes::{byte_at, skip_space, stands, syntax};
use crate::fault::Fault;

/// How an array or an object goes on.
#[derive(Clone, Copy, Debug, PartialEq, Eq)]
pub enum Next {
    /// An element, or the name of a member, is to be read at this place.
    Item(usize),

    /// It was closed, and the text goes on at this place.
    End(usize),
}

/// Opens the array at this place.
pub fn first_element(text: &[u8], at: usize) -> Result<Next, Fault>
    ensures ok { IfOk result (λ next. (inside : List ℕ) × (drop at text.now ≡ 91 ∷ inside)
        × FirstItem 93 text.now inside next) }
    ensures behind { IfOk result (λ next. NextIsBehind at next text.now) }
    ensures fault { IfErr result (λ fault.
        FaultAt text.now fault (NotOpen 91 (drop at text.now))) }
{
    if !stands(text, at, b'[') {
        return Err(syntax(at));
    }
    Ok(first_item(text, at + 1, b']'))
}

/// Goes on behind an element of an array.
pub fn next_element(text: &[u8], at: usize) -> Result<Next, Fault>
    ensures ok { IfOk result (NextItem 93 text.now (drop at text.now)) }
    ensures behind { IfOk result (λ next. NextIsBehind at next text.now) }
    ensures fault { IfErr result (λ fault.
        FaultAt text.now fault (NoNext 93 (drop at text.now))) }
{
    next_item(text, at, b']')
}

/// Opens the object at this place.
pub fn first_member(text: &[u8], at: usize) -> Result<Next, Fault>
    ensures ok { IfOk result (λ next. (inside : List ℕ) × (drop at text.now ≡ 123 ∷ inside)
        × FirstItem 125 text.now inside next) }
    ensures behind { IfOk result (λ next. NextIsBehind at next text.now) }
    ensures fault { IfErr result (λ fault.
        FaultAt text.now fault (NotOpen 123 (drop at text.now))) }
{
    if !stands(text, at, b'{') {
        return Err(syntax(at));
    }
    Ok(first_item(text, at + 1, b'}'))
}

/// Goes on behind a member of an object.
pub fn next_member(text: &[u8], at: usize) -> Result<Next, Fault>
    ensures ok { IfOk result (NextItem 125 text.now (drop at text.now)) }
    ensures behind { IfOk result (λ next. NextIsBehind at next text.now) }
    ensures fault { IfErr result (λ fault.
        FaultAt text.now fault (NoNext 125 (drop at text.now))) }
{
    next_item(text, at, b'}')
}

/// Goes on behind the name of a member, over a colon and white space, to its value.
pub fn skip_colon(text: &[u8], at: usize) -> Result<usize, Fault>
    ensures ok { IfOk result (λ place. (value : List ℕ)
        × (past_space (drop at text.now) ≡ 58 ∷ value)
        × (drop place text.now ≡ past_space value)) }
    ensures behind { IfOk result (λ place. at < place) }
    ensures fault { IfErr result (λ fault. FaultAt text.now fault (NoColon (drop at text.now))) }
{
    let colon = skip_space(text, at);
    if !stands(text, colon, b':') {
        return Err(syntax(colon));
    }
    Ok(skip_space(text, colon + 1))
}

fn first_item(text: &[u8], at: usize, close: u8) -> Next
    ensures next { FirstItem close text.now (drop at text.now) result }
    ensures behind { NextIsBehind at result text.now }
{
    let place = skip_space(text, at);
    if stands(text, place, close) {
        Next::End(place + 1)
    } else {
        Next::Item(place)
    }
}

fn next_item(text: &[u8], at: usize, close: u8) -> Result<Next, Fault>
    ensures ok { IfOk result (NextItem close text.now (drop at text.now)) }
    ensures behind { IfOk result (λ next. NextIsBehind at next text.now) }
    ensures fault { IfErr result (λ fault.
        FaultAt text.now fault (NoNext close (drop at text.now))) }
{
    let place = skip_space(text, at);
    if stands(text, place, b',') {
        return Ok(Next::Item(skip_space(text, place + 1)));
    }
    if stands(text, place, close) {
        return Ok(Next::End(place + 1));
    }
    Err(syntax(place))
}
