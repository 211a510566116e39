//! The records that a view does not know.
ghost use Rattle.std.specs.Prelude.{◌≡◌, ◌≢◌, ◌≤◌, ◌-◌, length, take, OnOk, OnErr, IfOk, IfErr};
ghost use Rattle.wire_base.specs.Field.{push};
ghost use Rattle.wire_base.specs.UnknownFields.{payload_of};
ghost use Rattle.wire_codec.specs.DecodeError.TheVariants.{OutOfMemory};
ghost use Rattle.wire_codec.specs.Limits.{NoCountGrew};
ghost use Rattle.wire_codec.specs.TagView.{tag_number, tag_type};
ghost use Rattle.wire_codec.specs.Taking.{TakesRecord, IsCharged, NotTaken};
ghost use Rattle.wire_fields.specs.Shape.{keeps};
ghost use Rattle.wire_views.specs.Spans.{span_fields};

use crate::passing::pass_unknown_field;
use crate::span::UnknownSpan;
use std::alloc::Global;
use wire_codec::{
    DecodeContext, DecodeError, Tag, UnknownField, UnknownFields, decode_unknown_field, laws,
};

/// Keeps the record behind this tag as an unknown field, where it stands: the last arm of a view,
/// in place of `keep` of `wire_fields`, as which it is charged and refused. Memory is wanted for
/// the list of spans alone.
pub fn keep_span<'a>(
    tag: Tag,
    spans: &mut Vec<UnknownSpan<'a>>,
    buf: &mut &'a [u8],
    context: &mut DecodeContext,
) -> Result<(), DecodeError>
    ensures ok { OnOk result (IsCharged context.old context.new (λ c.
        TakesRecord keeps context.old (tag_number tag) (tag_type tag)
        (span_fields spans.old.items) buf.old.now c (span_fields spans.new.items) buf.new.now)) }
    ensures err { IfErr result (λ e. e ≢ OutOfMemory → NotTaken
        (TakesRecord keeps context.old (tag_number tag) (tag_type tag)
        (span_fields spans.old.items) buf.old.now)) }
    ensures counts { OnErr result (NoCountGrew context.old context.new) }
{
    laws::grammar::no_payload_beside_fault();
    laws::grammar::one_payload();
    let _levels = context.depth();
    let _slots = context.remaining_unknown_fields();
    let start = *buf;
    pass_unknown_field(tag, buf, context)?;
    let payload = front_of(start, *buf);
    let span = UnknownSpan { tag, payload };
    spans.push(span)?;
    Ok(())
}

/// The bytes before so many that are left.
pub(crate) fn front_of<'a>(start: &'a [u8], rest: &[u8]) -> &'a [u8]
    requires { length rest.now ≤ length start.now }
    ensures { result.now ≡ take (length start.now - length rest.now) start.now }
{
    &start[..start.len() - rest.len()]
}

/// The same records with memory of their own. Refused where memory runs out. It recurses as deep as
/// the groups of a span nest, which is within the levels of the context that kept it.
pub fn own_spans(alloc: Global, spans: &[UnknownSpan<'_>]) -> Result<UnknownFields, DecodeError>
    ensures ok { IfOk result (λ fields. fields ≡ span_fields spans.now) }
    ensures err { IfErr result (λ e. e ≡ OutOfMemory) }
{
    laws::grammar::one_payload();
    laws::grammar::no_payload_beside_fault();
    let mut fields = UnknownFields::new(alloc);
    for span in spans {
        let mut payload = span.payload;
        let mut context = DecodeContext::new(u32::MAX, usize::MAX);
        let field = decode_unknown_field(alloc, span.tag, &mut payload, &mut context)?;
        push_field(&mut fields, field)?;
    }
    Ok(fields)
}

// Puts a record behind others.
fn push_field(fields: &mut UnknownFields, field: UnknownField) -> Result<(), DecodeError>
    ensures ok { OnOk result (fields.new ≡ push fields.old field.number (payload_of field.value)) }
    ensures err { IfErr result (λ e. e ≡ OutOfMemory) }
{
    fields.push(field).map_err(|_| DecodeError::OutOfMemory)
}
