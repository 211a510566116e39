//! Closed enums: a number that the enum does not have stays where it stands.
ghost use Rattle.std.specs.Prelude.{◌≡◌, ◌≢◌, OnOk, OnErr, IfErr};
ghost use Rattle.wire_codec.specs.DecodeError.TheVariants.{OutOfMemory};
ghost use Rattle.wire_codec.specs.Limits.{NoCountGrew};
ghost use Rattle.wire_codec.specs.TagView.{tag_number, tag_type};
ghost use Rattle.wire_codec.specs.Taking.{TakesRecord, IsCharged, NotTaken};
ghost use Rattle.wire_fields.specs.Closed.{closes};
ghost use Rattle.wire_views.specs.Spans.{span_fields};

use crate::span::UnknownSpan;
use crate::unknown::front_of;
use std::alloc::Global;
use wire_codec::{DecodeContext, DecodeError, EnumValue, Enumeration, Tag, UnknownFields, laws};

/// Takes the record behind this tag into a field of a closed enum, where the enum has its number,
/// and else keeps it as an unknown field, where it stands: as `merge_closed` of `wire_fields`, as
/// which it is charged and refused.
pub fn merge_closed<'a, E: Enumeration>(
    alloc: Global,
    tag: Tag,
    held: &mut Option<EnumValue<E>>,
    spans: &mut Vec<UnknownSpan<'a>>,
    buf: &mut &'a [u8],
    context: &mut DecodeContext,
) -> Result<(), DecodeError>
    ensures ok { OnOk result (IsCharged context.old context.new (λ c.
        TakesRecord (closes E.of_number) context.old (tag_number tag) (tag_type tag)
        (held.old, span_fields spans.old.items) buf.old.now c
        (held.new, span_fields spans.new.items) buf.new.now)) }
    ensures err { IfErr result (λ e. e ≢ OutOfMemory → NotTaken
        (TakesRecord (closes E.of_number) context.old (tag_number tag) (tag_type tag)
        (held.old, span_fields spans.old.items) buf.old.now)) }
    ensures counts { OnErr result (NoCountGrew context.old context.new) }
{
    laws::grammar::one_payload();
    let start = *buf;
    let mut left = UnknownFields::new(alloc);
    wire_fields::merge_closed(tag, held, &mut left, buf, context)?;
    if left.is_empty() {
        return Ok(());
    }
    let payload = front_of(start, *buf);
    let span = UnknownSpan { tag, payload };
    spans.push(span)?;
    Ok(())
}
