//! Fields of messages.
ghost use Rattle.std.specs.Prelude.{◌≡◌, OnOk, OnErr};
ghost use Rattle.wire_codec.specs.TagView.{tag_number, tag_type};
ghost use Rattle.wire_codec.specs.Taking.{TakesRecord, IsCharged, NotTaken};
ghost use Rattle.wire_fields.specs.Messages.{inside, length_prefixed, merges, or_else};
ghost use Rattle.wire_structs.specs.Flags.{flagged};

use crate::message::MessageStruct;
use wire_codec::{DecodeContext, DecodeError, Tag, WireType, check_wire_type, laws};

/// Takes the records of the embedded message behind this tag into its struct, one level down, as a
/// message of a oneof. Refused with `WireTypeMismatch`, `RecursionLimitExceeded`, and as the
/// records are, which leaves open what is held, the place of the buffer and what is left of the
/// limits.
pub fn merge_message<M: MessageStruct>(
    tag: Tag,
    message: &mut M,
    buf: &mut M::Source,
    context: &mut DecodeContext,
) -> Result<(), DecodeError>
    ensures ok { OnOk result (IsCharged context.old context.new (λ c.
        TakesRecord (inside length_prefixed M.takes) context.old (tag_number tag) (tag_type tag)
        (M.view message.old) (M.Source.unread buf.old) c (M.view message.new)
        (M.Source.unread buf.new))) }
    ensures err { OnErr result (NotTaken
        (TakesRecord (inside length_prefixed M.takes) context.old (tag_number tag) (tag_type tag)
        (M.view message.old) (M.Source.unread buf.old))) }
{
    laws::grammar::whole_input();
    laws::levels_and_counts();
    check_wire_type(tag, WireType::LengthDelimited)?;
    message.merge_length_delimited(buf, context)
}

/// Takes the record behind this tag into the struct of an embedded message, as `Embedded` of
/// `wire_fields`: into what it holds where its flag is set, and else into the struct of no records.
/// The flag is set then. Refused as `merge_message`.
pub fn merge_optional_message<M: MessageStruct>(
    tag: Tag,
    has: &mut bool,
    message: &mut M,
    buf: &mut M::Source,
    context: &mut DecodeContext,
) -> Result<(), DecodeError>
    ensures ok { OnOk result (IsCharged context.old context.new (λ c.
        TakesRecord (merges length_prefixed M.takes M.default) context.old (tag_number tag)
        (tag_type tag) (flagged has.old (M.view message.old)) (M.Source.unread buf.old) c
        (flagged has.new (M.view message.new)) (M.Source.unread buf.new))) }
    ensures err { OnErr result (NotTaken
        (TakesRecord (merges length_prefixed M.takes M.default) context.old (tag_number tag)
        (tag_type tag) (flagged has.old (M.view message.old)) (M.Source.unread buf.old))) }
{
    begin(*has, message);
    merge_message::<M>(tag, message, buf, context)?;
    *has = true;
    Ok(())
}

// Makes the struct that of no records, unless its flag is set.
fn begin<M: MessageStruct>(has: bool, message: &mut M)
    ensures { M.view message.new ≡ or_else M.default (flagged has (M.view message.old)) }
{
    if !has {
        *message = M::zero();
    }
}
