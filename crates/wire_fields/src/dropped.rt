//! The records that a message does not know, where it does not keep them.
ghost use Rattle.std.specs.Prelude.{◌≡◌, OnOk, OnErr, IfErr};
ghost use Rattle.wire_codec.specs.Limits.{NoCountGrew};
ghost use Rattle.wire_codec.specs.TagView.{tag_number, tag_type};
ghost use Rattle.wire_codec.specs.Taking.{TakesRecord, IsCharged, NotTaken};
ghost use Rattle.wire_fields.specs.Dropped.{drops};

use crate::parts::Parts;
use bytes::Buf;
use wire_codec::{
    DecodeContext, DecodeError, EncodeError, EncodeSink, SizeCache, Tag, laws, skip_field_depth,
};

/// No records: the last part of a message that keeps no unknown fields, in place of `Rest`.
#[derive(Drop)]
pub struct Dropped;

impl Parts for Dropped {
    ghost use Rattle.wire_codec.specs.Records.{none};

    ghost records = { λ _. none };

    fn len(&self, _cache: &mut SizeCache) -> Result<u64, EncodeError> {
        laws::flat_messages_have_no_sizes();
        Ok(0)
    }

    fn put<S: EncodeSink>(&self, _cache: &mut SizeCache, _sink: &mut S) -> Result<(), EncodeError> {
        laws::flat_messages_have_no_sizes();
        Ok(())
    }
}

/// Passes over the record behind this tag, which is lost: the last arm of a message that keeps no
/// unknown fields, in place of `keep`. Refused as `skip_field_depth`.
pub fn pass_over<B: Buf>(
    tag: Tag,
    buf: &mut B,
    context: &mut DecodeContext,
) -> Result<(), DecodeError>
    ensures ok { OnOk result (IsCharged context.old context.new (λ c.
        TakesRecord drops context.old (tag_number tag) (tag_type tag) tt
        (B.unread buf.old) c tt (B.unread buf.new))) }
    ensures err { IfErr result (λ e. NotTaken
        (TakesRecord drops context.old (tag_number tag) (tag_type tag) tt
        (B.unread buf.old))) }
    ensures counts { OnErr result (NoCountGrew context.old context.new) }
    ensures kept { B.kept buf.new ≡ B.kept buf.old }
{
    laws::grammar::limits_add_up();
    laws::grammar::no_payload_beside_fault();
    skip_field_depth(tag, buf, context.depth())
}
