//! Oneofs, of whose members at most one has a value.
ghost use Rattle.std.specs.Prelude.{◌≡◌, ◌≤◌, ◌++◌, ℕ, List, drop, length, IfNone, IfSome, MatchBool};
ghost use Rattle.wire_protojson.specs.declared.refusal.ReadError.TheVariants.{Refused};
ghost use Rattle.wire_protojson.specs.declared.refusal.Reason.TheVariants.{SecondOfOneof};
ghost use Rattle.wire_jsonfields.specs.Names.{IsOneOf};
ghost use Rattle.wire_jsonfields.specs.Firsts.{HasValue, HoldsOfNone, IsSecondPlace, StandsFirst};

use crate::choice::{JsonChoice, is_of_either};
use crate::kind::is_null;
use crate::object::PlacedMember;
use wire_protojson::{ReadError, Reason, Refusal};

/// The refusal of a oneof of two, of which more than one member has a value, at the second value;
/// where one has, at it, and where none has, at the beginning of the text. `null` is none.
pub fn second_of_oneof<A: JsonChoice, B: JsonChoice>(
    text: &[u8],
    members: &[PlacedMember<'_>],
) -> ReadError
    ensures { (place : ℕ)
        × IsSecondPlace (HasValue (IsOneOf (A.names ++ B.names)) text.now) members.now place
        × (result ≡ Refused (record { reason = SecondOfOneof; at = place })) }
{
    match first_value::<A, B>(text, members) {
        None => second(0),
        Some(first) => match first_value::<A, B>(text, &members[first.behind..]) {
            None => second(first.place),
            Some(value) => second(value.place),
        },
    }
}

// The place of a value, and the index behind its member.
#[derive(Clone, Copy)]
struct FirstValue {
    place: usize,
    behind: usize,
}

fn first_value<A: JsonChoice, B: JsonChoice>(
    text: &[u8],
    members: &[PlacedMember<'_>],
) -> Option<FirstValue>
    ensures some { IfSome result (λ first. (member : PlacedMember)
        × StandsFirst (HasValue (IsOneOf (A.names ++ B.names)) text.now) members.now member
        (drop first.behind members.now) × (first.place ≡ member.place)) }
    ensures within { IfSome result (λ first. first.behind ≤ length members.now) }
    ensures none { IfNone result
        (HoldsOfNone (HasValue (IsOneOf (A.names ++ B.names)) text.now) members.now) }
{
    let mut behind = 0;
    for member in members {
        behind += 1;
        if has_value::<A, B>(text, member) {
            return Some(FirstValue {
                place: member.place,
                behind,
            });
        }
    }
    None
}

fn has_value<A: JsonChoice, B: JsonChoice>(text: &[u8], member: &PlacedMember<'_>) -> bool
    ensures { MatchBool result (HasValue (IsOneOf (A.names ++ B.names)) text.now member.now)
        (HasValue (IsOneOf (A.names ++ B.names)) text.now member.now → ⊥) }
{
    is_of_either::<A, B>(member.name.as_str()) && !is_null(text, member.place)
}

fn second(at: usize) -> ReadError
    ensures { result ≡ Refused (record { reason = SecondOfOneof; at = at }) }
{
    ReadError::Refused(Refusal {
        reason: Reason::SecondOfOneof,
        at,
    })
}
