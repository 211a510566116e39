//! Messages by their parts, read from an object and written as one.
ghost use Rattle.std.specs.Prelude.{◌≡◌, ◌≢◌, ◌++◌, drop, IfOk, IfErr, OnOk, OnErr};
ghost use Rattle.wire_json.specs.Answer.{IsBehind};
ghost use Rattle.wire_json.specs.Compact.{Extends};
ghost use Rattle.wire_json.specs.Json.{Json};
ghost use Rattle.wire_json.specs.Written.{written};
ghost use Rattle.wire_protojson.specs.declared.refusal.ReadError.TheVariants.{OutOfMemory};
ghost use Rattle.wire_protojson.specs.declared.refusal.WriteError.TheVariants as untold;
ghost use Rattle.wire_jsonfields.specs.Levels.{NothingMeant, ReadsWithin};
ghost use Rattle.wire_jsonfields.specs.Messages.{IsObjectTree, ObjectMeans};
ghost use Rattle.wire_jsonfields.specs.Parts.{MembersSay};
ghost use Rattle.wire_jsonfields.specs.Told.{HasNoTree};

use crate::known::check_names;
use crate::object::read_object;
use crate::part::JsonPart;
use std::alloc::Global;
use wire_json::Mark;
use wire_protojson::{ReadError, WriteError};

/// Reads the parts of a message from an object, and the place behind it. A member that is of no
/// part is refused.
pub fn read_parts<P: JsonPart>(
    alloc: Global,
    text: &[u8],
    at: usize,
    levels: u32,
) -> Result<(P::Held, usize), ReadError>
    ensures ok { IfOk result (λ read. ReadsWithin levels (ObjectMeans (MembersSay P.names P.says))
        (drop at text.now) (P.view read.0) (drop read.1 text.now)) }
    ensures behind { IfOk result (λ read. IsBehind at read.1 text.now) }
    ensures err { IfErr result (λ e. e ≢ OutOfMemory
        → NothingMeant levels (ObjectMeans (MembersSay P.names P.says)) (drop at text.now)) }
{
    let object = read_object(alloc, text, at, levels)?;
    let members = object.members.as_slice();
    check_names::<P>(members)?;
    let held = P::read(alloc, text, members, levels)?;
    Ok((held, object.after))
}

/// The same, but that members which are of no part are passed over, whatever JSON they are.
pub fn read_known_parts<P: JsonPart>(
    alloc: Global,
    text: &[u8],
    at: usize,
    levels: u32,
) -> Result<(P::Held, usize), ReadError>
    ensures ok { IfOk result (λ read. ReadsWithin levels (ObjectMeans P.says)
        (drop at text.now) (P.view read.0) (drop read.1 text.now)) }
    ensures behind { IfOk result (λ read. IsBehind at read.1 text.now) }
    ensures err { IfErr result (λ e. e ≢ OutOfMemory
        → NothingMeant levels (ObjectMeans P.says) (drop at text.now)) }
{
    let object = read_object(alloc, text, at, levels)?;
    let held = P::read(alloc, text, object.members.as_slice(), levels)?;
    Ok((held, object.after))
}

/// Writes the parts of a message as an object.
pub fn write_parts<P: JsonPart>(
    alloc: Global,
    out: &mut Vec<u8>,
    message: &P::Message,
) -> Result<(), WriteError>
    ensures ok { OnOk result ((json : Json) × IsObjectTree P.trees (P.seen message.now) json
        × (out.new.items ≡ out.old.items ++ written json)) }
    ensures err { OnErr result (Extends out.old.items out.new.items) }
    ensures no_text { IfErr result (λ e. e ≢ untold.OutOfMemory
        → HasNoTree (IsObjectTree P.trees) (P.seen message.now)) }
{
    wire_json::write_mark(out, Mark::BeginObject)?;
    P::write(alloc, out, true, message)?;
    wire_json::write_mark(out, Mark::EndObject)?;
    Ok(())
}
