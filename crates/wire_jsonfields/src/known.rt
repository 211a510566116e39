//! Names of members.
ghost use Rattle.std.specs.Prelude.{◌≡◌, ℕ, List, IfErr, MatchBool, OnErr, OnOk};
ghost use Rattle.std.specs.Cow.{cow_str_bytes};
ghost use Rattle.wire_json.specs.Json.{Members};
ghost use Rattle.wire_protojson.specs.declared.refusal.ReadError.TheVariants.{Refused};
ghost use Rattle.wire_protojson.specs.declared.refusal.Reason.TheVariants.{UnknownName};
ghost use Rattle.wire_jsonfields.specs.Fields.{EachKnown};
ghost use Rattle.wire_jsonfields.specs.Firsts.{IsUnknown, StandsFirst};
ghost use Rattle.wire_jsonfields.specs.Names.{IsOneOf};
ghost use Rattle.wire_jsonfields.specs.Objects.{ArePlaced};

use crate::object::PlacedMember;
use crate::part::JsonPart;
use wire_protojson::{ReadError, Reason, Refusal};

/// The two names of a field, of which the second is written: that of the schema and that of JSON, or
/// these the other way round, where names are written as the schema has them.
#[derive(Clone, Copy, Debug)]
pub struct FieldName {
    pub name: &'static str,
    pub json_name: &'static str,
}

/// Whether each member is of the part. The value of the first that is not is refused at its
/// place.
pub fn check_names<P: JsonPart>(members: &[PlacedMember<'_>]) -> Result<(), ReadError>
    ensures ok { OnOk result ((text : List ℕ) (ms : Members) → ArePlaced text members.now ms
        → EachKnown (IsOneOf P.names) ms) }
    ensures err { OnErr result ((text : List ℕ) (ms : Members) → ArePlaced text members.now ms
        → EachKnown (IsOneOf P.names) ms → ⊥) }
    ensures which { IfErr result (λ e. (first : PlacedMember) × (behind : List PlacedMember)
        × StandsFirst (IsUnknown (IsOneOf P.names)) members.now first behind
        × (e ≡ Refused (record { reason = UnknownName; at = first.place }))) }
{
    for member in members {
        if !is_known::<P>(member) {
            return Err(unknown(member.place));
        }
    }
    Ok(())
}

fn is_known<P: JsonPart>(member: &PlacedMember<'_>) -> bool
    ensures { MatchBool result (IsOneOf P.names (cow_str_bytes member.now.name))
        (IsOneOf P.names (cow_str_bytes member.now.name) → ⊥) }
{
    P::is_named(member.name.as_str())
}

fn unknown(at: usize) -> ReadError
    ensures { result ≡ Refused (record { reason = UnknownName; at = at }) }
{
    ReadError::Refused(Refusal {
        reason: Reason::UnknownName,
        at,
    })
}
