//! The records that a message does not know.
ghost use Rattle.std.specs.Prelude.{◌≡◌, ◌≢◌, OnOk, OnErr, IfErr};
ghost use Rattle.wire_codec.specs.DecodeError.TheVariants.{OutOfMemory};
ghost use Rattle.wire_codec.specs.Limits.{NoCountGrew};
ghost use Rattle.wire_codec.specs.TagView.{tag_number, tag_type};
ghost use Rattle.wire_codec.specs.Taking.{TakesRecord, IsCharged, NotTaken};
ghost use Rattle.wire_fields.specs.Shape.{keeps};

use bytes::Buf;
use std::alloc::Global;
use wire_codec::{DecodeContext, DecodeError, Tag, UnknownFields, decode_unknown_field, laws};

/// Keeps the record behind this tag as an unknown field. Refused as `decode_unknown_field`.
pub fn keep<B: Buf>(
    alloc: Global,
    tag: Tag,
    fields: &mut UnknownFields,
    buf: &mut B,
    context: &mut DecodeContext,
) -> Result<(), DecodeError>
    ensures ok { OnOk result (IsCharged context.old context.new (λ c.
        TakesRecord keeps context.old (tag_number tag) (tag_type tag) fields.old
        (B.unread buf.old) c fields.new (B.unread buf.new))) }
    ensures err { IfErr result (λ e. e ≢ OutOfMemory → NotTaken
        (TakesRecord keeps context.old (tag_number tag) (tag_type tag) fields.old
        (B.unread buf.old))) }
    ensures counts { OnErr result (NoCountGrew context.old context.new) }
    ensures kept { B.kept buf.new ≡ B.kept buf.old }
{
    laws::grammar::no_payload_beside_fault();
    let field = decode_unknown_field(alloc, tag, buf, context)?;
    fields.push(field).map_err(|_| DecodeError::OutOfMemory)
}
