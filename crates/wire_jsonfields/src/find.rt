//! Members by their names.
ghost use Rattle.std.specs.Prelude.{ℕ, List, IfOk, MatchBool, OnErr};
ghost use Rattle.std.specs.Cow.{cow_str_bytes};
ghost use Rattle.wire_json.specs.Json.{Members};
ghost use Rattle.wire_jsonfields.specs.Objects.{ArePlaced, AreSeveral, IsNameOf, IsOnlyPlace};

use crate::object::PlacedMember;
use wire_protojson::{ReadError, Reason, Refusal};

/// The place of the value of a field, by both its names. A second one is refused at its place.
pub(crate) fn find(
    members: &[PlacedMember<'_>],
    name: &str,
    json_name: &str,
) -> Result<Option<usize>, ReadError>
    ensures ok { IfOk result (λ found. (text : List ℕ) (ms : Members)
        → ArePlaced text members.now ms
        → IsOnlyPlace (IsNameOf name.now json_name.now) text ms found) }
    ensures err { OnErr result ((text : List ℕ) (ms : Members) → ArePlaced text members.now ms
        → AreSeveral (IsNameOf name.now json_name.now) ms) }
{
    let mut found = None;
    for member in members {
        if is_called(member, name, json_name) {
            if found.is_some() {
                return Err(duplicate(member.place));
            }
            found = Some(member.place);
        }
    }
    Ok(found)
}

fn is_called(member: &PlacedMember<'_>, name: &str, json_name: &str) -> bool
    ensures { MatchBool result (IsNameOf name.now json_name.now (cow_str_bytes member.now.name))
        (IsNameOf name.now json_name.now (cow_str_bytes member.now.name) → ⊥) }
{
    let called = member.name.as_str();
    called == name || called == json_name
}

fn duplicate(at: usize) -> ReadError {
    ReadError::Refused(Refusal {
        reason: Reason::Duplicate,
        at,
    })
}
