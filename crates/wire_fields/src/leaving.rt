//! Fields that leave records of other wire types to the unknown fields of their message.
ghost use Rattle.std.specs.Prelude.{◌≡◌, ◌≢◌, OnOk, OnErr, IfErr};
ghost use Rattle.wire_codec.specs.DecodeError.TheVariants.{OutOfMemory};
ghost use Rattle.wire_codec.specs.Field.{type_of};
ghost use Rattle.wire_codec.specs.Limits.{NoCountGrew};
ghost use Rattle.wire_codec.specs.TagView.{tag_number, tag_type};
ghost use Rattle.wire_codec.specs.Taking.{TakesRecord, IsCharged, NotTaken};
ghost use Rattle.wire_fields.specs.Leaving.{has_type, or_kept};

use crate::kind::Kind;
use crate::unknown::keep;
use bytes::Buf;
use std::alloc::Global;
use wire_codec::{DecodeContext, DecodeError, Tag, UnknownFields, WireType};

/// The wire types that the records of a field have: one, or for repeated numbers that of a number
/// and `LengthDelimited`.
#[derive(Clone, Copy, Debug)]
pub enum OwnTypes {
    One(WireType),
    OrPacked(WireType),
}

impl OwnTypes {
    /// Whether this is one of them.
    pub fn has(self, wire_type: WireType) -> bool
        ensures { result ≡ has_type self wire_type }
    {
        let wanted = wire_type as u8;
        match self {
            OwnTypes::One(own) => own as u8 == wanted,
            OwnTypes::OrPacked(own) => {
                own as u8 == wanted || WireType::LengthDelimited as u8 == wanted
            }
        }
    }
}

/// Takes the record behind this tag into the field where it has a wire type of the field, and else
/// keeps it as an unknown field. Refused as `merge` of the kind, or as `keep`. A refusal leaves open
/// what the value and the unknown fields hold, the place of the buffer and the depth of the context.
pub fn merge_or_keep<K: Kind, B: Buf>(
    alloc: Global,
    tag: Tag,
    types: OwnTypes,
    held: &mut K::Held,
    unknown: &mut UnknownFields,
    buf: &mut B,
    context: &mut DecodeContext,
) -> Result<(), DecodeError>
    ensures ok { OnOk result (IsCharged context.old context.new (λ c.
        TakesRecord (or_kept (λ p. has_type types (type_of p)) K.kind.takes)
        context.old (tag_number tag) (tag_type tag) (K.view held.old, unknown.old)
        (B.unread buf.old) c (K.view held.new, unknown.new) (B.unread buf.new))) }
    ensures err { IfErr result (λ e. e ≢ OutOfMemory → NotTaken
        (TakesRecord (or_kept (λ p. has_type types (type_of p)) K.kind.takes)
        context.old (tag_number tag) (tag_type tag) (K.view held.old, unknown.old)
        (B.unread buf.old))) }
    ensures counts { OnErr result (NoCountGrew context.old context.new) }
    ensures kept { B.kept buf.new ≡ B.kept buf.old }
{
    if types.has(tag.wire_type()) {
        K::merge(alloc, tag, held, buf, context)
    } else {
        keep(alloc, tag, unknown, buf, context)
    }
}
