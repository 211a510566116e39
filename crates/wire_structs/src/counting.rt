//! Lists, of which a struct has the count.
ghost use Rattle.std.specs.Prelude.{OnOk, OnErr};
ghost use Rattle.wire_codec.specs.TagView.{tag_number, tag_type};
ghost use Rattle.wire_codec.specs.Taking.{TakesRecord, IsCharged, NotTaken};
ghost use Rattle.wire_fields.specs.Messages.{gathers, length_prefixed};
ghost use Rattle.wire_structs.specs.Counts.{counts_value, count_more};

use crate::inside::merge_message;
use crate::message::MessageStruct;
use crate::scalar::StructScalar;
use wire_codec::{DecodeContext, DecodeError, Tag, laws};

/// Counts the value of the record behind this tag, as `Repeated` of `wire_fields` holds it, with
/// the same bytes of element memory. No count is above `u64::MAX`. Refused with
/// `ElementMemoryLimitExceeded`, and as `set` of the scalar type, which leaves open the place of
/// the buffer and what is left of the limits.
pub fn merge_count<S: StructScalar, const PLACE: usize>(
    tag: Tag,
    count: &mut u64,
    buf: &mut S::Source,
    context: &mut DecodeContext,
) -> Result<(), DecodeError>
    ensures ok { OnOk result (IsCharged context.old context.new (λ c.
        TakesRecord (counts_value PLACE S.scalar) context.old (tag_number tag) (tag_type tag)
        count.old (S.Source.unread buf.old) c count.new (S.Source.unread buf.new))) }
    ensures err { OnErr result (NotTaken
        (TakesRecord (counts_value PLACE S.scalar) context.old (tag_number tag) (tag_type tag)
        count.old (S.Source.unread buf.old))) }
{
    laws::grammar::limits_add_up();
    context.register_element_memory(PLACE)?;
    let mut value = S::empty();
    S::set(tag, &mut value, buf)?;
    *count = count.saturating_add(1);
    Ok(())
}

/// Counts the embedded message behind this tag, as `EachEmbedded` of `wire_fields` holds it, with
/// the same bytes of element memory. Refused as `merge_count` and as `merge_message`.
pub fn merge_message_count<M: MessageStruct, const PLACE: usize>(
    tag: Tag,
    count: &mut u64,
    buf: &mut M::Source,
    context: &mut DecodeContext,
) -> Result<(), DecodeError>
    ensures ok { OnOk result (IsCharged context.old context.new (λ c. TakesRecord
        (gathers PLACE length_prefixed M.takes M.default count_more) context.old (tag_number tag)
        (tag_type tag) count.old (M.Source.unread buf.old) c count.new
        (M.Source.unread buf.new))) }
    ensures err { OnErr result (NotTaken (TakesRecord
        (gathers PLACE length_prefixed M.takes M.default count_more) context.old (tag_number tag)
        (tag_type tag) count.old (M.Source.unread buf.old))) }
{
    laws::grammar::limits_add_up();
    context.register_element_memory(PLACE)?;
    let mut message = M::zero();
    merge_message::<M>(tag, &mut message, buf, context)?;
    *count = count.saturating_add(1);
    Ok(())
}
