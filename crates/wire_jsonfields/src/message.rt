//! Messages, read from objects and from whole texts.
ghost use Rattle.std.specs.Prelude.{◌≡◌, ◌≢◌, IfOk, IfErr};
ghost use Rattle.wire_json.specs.Json.{Json, no_member, object};
ghost use Rattle.wire_json.specs.Written.{written};
ghost use Rattle.wire_protojson.specs.declared.refusal.ReadError.TheVariants.{OutOfMemory};
ghost use Rattle.wire_protojson.specs.declared.refusal.WriteError.TheVariants as untold;
ghost use Rattle.wire_jsonfields.specs.Levels.{SpellsWithin};
ghost use Rattle.wire_jsonfields.specs.Told.{HasNoTree};

use crate::boxed::Boxed;
use crate::kind::{JsonValue, Maybe};
use std::alloc::Global;
use std::marker::PhantomData;
use wire_json::{Fault, FaultKind};
use wire_protojson::{ReadError, WriteError, no_json};

/// A message type, as a kind of value: an element of a list, a value of a map or a member of a
/// oneof, which is always there.
pub trait JsonMessage: JsonValue {
    /// An object without members means what an absent one is: the message of no fields.
    ghost default_meant: { Self.means (object no_member) Self.absent };
}

/// The compact text of a value. One that the mapping has no text for is refused.
pub fn to_json<V: JsonValue>(alloc: Global, held: &V::Held) -> Result<Vec<u8>, WriteError>
    ensures ok { IfOk result (λ out. (json : Json) × V.tree (V.view held.now) json
        × (out.items ≡ written json)) }
    ensures no_text { IfErr result (λ e. e ≢ untold.OutOfMemory
        → HasNoTree V.tree (V.view held.now)) }
{
    let mut out = Vec::new(alloc);
    V::write_json(alloc, &mut out, held)?;
    Ok(out)
}

/// Reads a value from a whole text, with white space round it, in which at most `levels` arrays and
/// objects stand in one another. It calls itself once for each of these.
pub fn from_json<V: JsonValue>(
    alloc: Global,
    text: &[u8],
    levels: u32,
) -> Result<V::Held, ReadError>
    ensures ok { IfOk result (λ held. SpellsWithin levels V.means text.now (V.view held)) }
    ensures err { IfErr result (λ e. e ≢ OutOfMemory → (value : V.Value)
        → SpellsWithin levels V.means text.now value → ⊥) }
{
    let at = wire_json::skip_space(text, 0);
    match V::read_json(alloc, text, at, levels) {
        Ok((held, after)) => {
            let end = wire_json::skip_space(text, after);
            if end < text.len() {
                return Err(no_json(Fault {
                    kind: FaultKind::Syntax,
                    at: end,
                }));
            }
            Ok(held)
        }
        Err(error) => Err(error),
    }
}

/// A field of a message type, in a box where it is present.
pub type Embedded<M> = Maybe<Boxed<M>>;
