//! Objects, of which each member is found by its name before its value is read.
ghost use Rattle.std.specs.Prelude.{◌≡◌, ◌≢◌, ◌≤◌, [], ◌∷◌, ◌++◌, ℕ, List, true, drop, IfOk, IfErr, MatchBool, OnOk};
ghost use Rattle.wire_json.specs.Answer.{IsBehind};
ghost use Rattle.wire_json.specs.Bytes.{begins, is_byte};
ghost use Rattle.wire_json.specs.Json.{Members, depth, members_depth, object};
ghost use Rattle.wire_json.specs.Reading.{ReadsMembers, ReadsValue};
ghost use Rattle.wire_jsonfields.specs.Objects.{ArePlaced, NoMembersHere, NoObjectHere};
ghost use Rattle.wire_protojson.specs.Reads.{RefusedAt, UnlessNoMemory};

use std::alloc::{AllocError, Global};
use std::borrow::CowStr;
use wire_json::{Fault, FaultKind, Kind, Next};
use wire_protojson::{ReadError, no_json, no_value};

/// A member of an object: its name, and the place of its value.
#[derive(Drop)]
pub struct PlacedMember<'a> {
    pub name: CowStr<'a>,
    pub place: usize,
}

/// The members of an object in their order, also those of one name, and the place behind it.
#[derive(Drop)]
pub struct Object<'a> {
    pub members: Vec<PlacedMember<'a>>,
    pub after: usize,
}

/// Reads the names of an object's members, and passes over their values, in which at most
/// `levels - 1` arrays and objects may stand in one another. Each member takes some 40 bytes.
pub fn read_object<'a>(
    alloc: Global,
    text: &'a [u8],
    at: usize,
    levels: u32,
) -> Result<Object<'a>, ReadError>
    ensures ok { IfOk result (λ read. (ms : Members)
        × ReadsValue (object ms) (drop at text.now) (drop read.after text.now)
        × (depth (object ms) ≤ levels) × ArePlaced text.now read.members.items ms) }
    ensures behind { IfOk result (λ read. IsBehind at read.after text.now) }
    ensures err { IfErr result (λ e. UnlessNoMemory e
        (λ refusal. RefusedAt text.now refusal (NoObjectHere levels (drop at text.now)))) }
{
    match wire_json::kind_at(text, at) {
        None => Err(no_json(Fault {
            kind: FaultKind::Syntax,
            at,
        })),
        Some(kind) => {
            if !is_object(kind) {
                return Err(no_value(at));
            }
            if levels == 0 {
                return Err(no_json(Fault {
                    kind: FaultKind::TooDeep,
                    at,
                }));
            }
            read_members(alloc, text, at, levels - 1)
        }
    }
}

fn is_object(kind: Kind) -> bool
    ensures { MatchBool result (kind ≡ Kind.Object) (kind ≢ Kind.Object) }
{
    kind == Kind::Object
}

// The members of the object at this place, whose values nest at most so deep.
fn read_members<'a>(
    alloc: Global,
    text: &'a [u8],
    at: usize,
    levels: u32,
) -> Result<Object<'a>, ReadError>
    requires { begins (is_byte 123) (drop at text.now) ≡ true }
    ensures ok { IfOk result (λ read. (inside : List ℕ) × (ms : Members)
        × (drop at text.now ≡ 123 ∷ inside) × ReadsMembers ms inside (drop read.after text.now)
        × (members_depth ms ≤ levels) × ArePlaced text.now read.members.items ms) }
    ensures behind { IfOk result (λ read. IsBehind at read.after text.now) }
    ensures err { IfErr result (λ e. UnlessNoMemory e (λ refusal. (inside : List ℕ)
        × (drop at text.now ≡ 123 ∷ inside)
        × RefusedAt text.now refusal (NoMembersHere levels inside))) }
{
    let mut members = Vec::new(alloc);
    let mut next = wire_json::first_member(text, at)?;
    loop {
        match next {
            Next::End(after) => return Ok(Object { members, after }),
            Next::Item(place) => {
                let name = wire_json::read_name(alloc, text, place)?;
                let value = name.after;
                let after = wire_json::skip_value(text, value, levels)?;
                push_member(&mut members, name.value, value)?;
                next = wire_json::next_member(text, after)?;
            }
        }
    }
}

fn push_member<'a>(
    members: &mut Vec<PlacedMember<'a>>,
    name: CowStr<'a>,
    place: usize,
) -> Result<(), AllocError>
    ensures { OnOk result (members.new.items
        ≡ members.old.items ++ record { name = name.entry; place = place } ∷ []) }
{
    match members.push(PlacedMember { name, place }) {
        Ok(()) => Ok(()),
        Err(_full) => Err(AllocError),
    }
}
