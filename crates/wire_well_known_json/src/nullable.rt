//! Fields of which `null` is a value.
ghost use Rattle.std.specs.Prelude.{◌≢◌, ◌≤◌, ℕ, List, Option, option_map, IfOk, IfErr, MatchBool, OnErr};
ghost use Rattle.std.specs.Cow.{cow_str_bytes};
ghost use Rattle.wire_json.specs.Json.{Members, members_depth};
ghost use Rattle.wire_jsonfields.specs.Objects.{ArePlaced, AreSeveral, IsNameOf, IsOnlyPlace};
ghost use Rattle.wire_protojson.specs.declared.refusal.ReadError.TheVariants.{OutOfMemory};
ghost use Rattle.wire_well_known_json.specs.Nullable.{NullableMeans};

use std::alloc::Global;
use wire_jsonfields::{FieldName, JsonValue, PlacedMember};
use wire_protojson::{ReadError, Reason, Refusal};

/// Reads a field or a member of a oneof from the members of an object that was read, where `null`
/// is a value of it, as of the types `Value` and `NullValue`. Without a member it is absent.
pub fn read_nullable<V: JsonValue>(
    alloc: Global,
    text: &[u8],
    members: &[PlacedMember<'_>],
    levels: u32,
    field: &FieldName,
) -> Result<Option<V::Held>, ReadError>
    ensures ok { IfOk result (λ held. (ms : Members) → ArePlaced text.now members.now ms
        → NullableMeans V.means (IsNameOf field.now.name.now field.now.json_name.now) ms
        (option_map V.view held)) }
    ensures err { IfErr result (λ e. e ≢ OutOfMemory → (ms : Members)
        → ArePlaced text.now members.now ms → members_depth ms ≤ levels
        → (value : Option V.Value) → NullableMeans V.means
        (IsNameOf field.now.name.now field.now.json_name.now) ms value → ⊥) }
{
    match find(members, field.name, field.json_name) {
        Ok(None) => Ok(None),
        Ok(Some(place)) => match V::read_json(alloc, text, place, levels) {
            Ok((value, _after)) => Ok(Some(value)),
            Err(error) => Err(error),
        },
        Err(error) => Err(error),
    }
}

// The place of the value of a field, by both its names. A second one is refused at its place.
fn find(
    members: &[PlacedMember<'_>],
    name: &str,
    json_name: &str,
) -> Result<Option<usize>, ReadError>
    ensures ok { IfOk result (λ found. (text : List ℕ) (ms : Members)
        → ArePlaced text members.now ms
        → IsOnlyPlace (IsNameOf name.now json_name.now) text ms found) }
    ensures err { OnErr result ((text : List ℕ) (ms : Members) → ArePlaced text members.now ms
        → AreSeveral (IsNameOf name.now json_name.now) ms) }
{
    let mut found = None;
    for member in members {
        if is_called(member, name, json_name) {
            if found.is_some() {
                return Err(duplicate(member.place));
            }
            found = Some(member.place);
        }
    }
    Ok(found)
}

fn is_called(member: &PlacedMember<'_>, name: &str, json_name: &str) -> bool
    ensures { MatchBool result (IsNameOf name.now json_name.now (cow_str_bytes member.now.name))
        (IsNameOf name.now json_name.now (cow_str_bytes member.now.name) → ⊥) }
{
    let called = member.name.as_str();
    called == name || called == json_name
}

fn duplicate(at: usize) -> ReadError {
    ReadError::Refused(Refusal {
        reason: Reason::Duplicate,
        at,
    })
}
