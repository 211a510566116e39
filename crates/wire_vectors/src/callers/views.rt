//! Callers of `UnknownFieldsView`: unknown fields that stay where they were read.
ghost use Rattle.std.specs.Prelude.{◌≡◌, ◌≢◌, IfOk, IfErr, MatchResult};
ghost use Rattle.wire_codec.specs.DecodeError.TheVariants.{OutOfMemory};
ghost use Rattle.wire_codec.specs.Charge.{charge};
ghost use Rattle.wire_codec.specs.Field.{Fields};
ghost use Rattle.wire_codec.specs.Limits.{Fits, counted};
ghost use Rattle.wire_codec.specs.Options.{default_limits};
ghost use Rattle.wire_codec.specs.Spans.{SpellEach};
ghost use Rattle.wire_codec.specs.Taking.{NotDecoded};
ghost use Rattle.wire_samples.specs.Person.{PersonTakes, default_person};

use std::alloc::Global;
use wire_codec::{
    DEFAULT_UNKNOWN_FIELD_LIMIT, DecodeContext, DecodeError, Message, RECURSION_LIMIT,
    UnknownFields, UnknownFieldsView,
};
use wire_samples::{Person, person_unknowns};

/// The fields that a person does not know: as spans of the bytes make them, and as the person
/// keeps them. Where the bytes are a person both are there, unless memory runs out.
pub fn unknown_twice(
    alloc: Global,
    bytes: &[u8],
) -> Result<(UnknownFields, UnknownFields), DecodeError>
    ensures same { IfOk result (λ both. both.0 ≡ both.1) }
    ensures err { IfErr result (λ e. e ≢ OutOfMemory → NotDecoded PersonTakes
        default_limits default_person bytes.now) }
{
    let person = Person::decode_from_slice(alloc, bytes)?;
    let mut context = DecodeContext::new(RECURSION_LIMIT, DEFAULT_UNKNOWN_FIELD_LIMIT);
    let view = person_unknowns(alloc, bytes, &mut context)?;
    Ok((view.to_owned_fields()?, person.unknown().clone()?))
}

/// The records that spans spell, where these are at most 1,000,000 and their groups nest at most
/// 100 deep. The spans may come from anybody: `to_owned_fields` goes as deep as they do, and
/// `replay` only as deep as the context says.
pub fn owned_within(view: &UnknownFieldsView<'_>) -> Result<UnknownFields, DecodeError>
    ensures each { IfOk result (λ fs. SpellEach view.now fs) }
    ensures within { IfOk result (λ fs. Fits (charge fs) (counted 100 1000000)) }
    ensures only { (fs : Fields) → SpellEach view.now fs → Fits (charge fs) (counted 100 1000000)
        → MatchResult result (λ read. read ≡ fs) (λ e. e ≡ OutOfMemory) }
{
    let mut context = DecodeContext::new(RECURSION_LIMIT, DEFAULT_UNKNOWN_FIELD_LIMIT);
    view.replay(&mut context)
}
