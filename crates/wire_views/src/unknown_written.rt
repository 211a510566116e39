//! The records that a view does not know, as they are written: in their shortest form, as
//! `UnknownFields` writes them. Groups are gone through from tag to tag, with no recursion.
ghost use Rattle.std.specs.Prelude.{◌≡◌, ◌≤◌, ◌∷◌, ℕ, List, length, OnOk, IfOk, IfErr, IsSomeAnd};
ghost use Rattle.wire_base.specs.Items.{Item, SpellsItems};
ghost use Rattle.wire_base.specs.Text.{record_text, text_of};
ghost use Rattle.wire_codec.specs.EncodeError.TheVariants.{OutOfMemory};
ghost use Rattle.wire_codec.specs.Records.{of_fields, text};
ghost use Rattle.wire_codec.specs.Sizes.{sizes};
ghost use Rattle.wire_codec.specs.TagView.{tag_number, tag_type};
ghost use Rattle.wire_codec.specs.Tape.{advanced};
ghost use Rattle.wire_codec.specs.Writes.{Writes};
ghost use Rattle.wire_fields.specs.Measuring.{Measures};
ghost use Rattle.wire_fields.specs.Numbers.{in_64_bits};
ghost use Rattle.wire_views.specs.Spans.{span_fields};
ghost use Rattle.wire_views.specs.Tokens.{IsLeftOf, shortest_items};

use crate::span::UnknownSpan;
use crate::token::{next_token, put_token, read_token, token_len};
use wire_base::laws::{no_payload_beside_fault, one_payload, payload_or_fault};
use wire_codec::{EncodeError, EncodeSink, SizeCache, Tag, laws};

/// How many bytes the records take, as the last row of a view: see `WrittenView::row_len`.
pub fn spans_len(spans: &[UnknownSpan<'_>], cache: &mut SizeCache) -> Result<u64, EncodeError>
    ensures ok { IfOk result (λ len. Measures (of_fields (span_fields spans.now))
        cache.old cache.new len) }
    ensures err { IfErr result (λ e. e ≡ OutOfMemory) }
{
    laws::fields_are_plain();
    let _slots = cache.unread();
    Ok(total_len(spans))
}

/// Writes the records, as the last row of a view: see `WrittenView::put_row`.
pub fn put_spans<S: EncodeSink>(
    spans: &[UnknownSpan<'_>],
    cache: &mut SizeCache,
    sink: &mut S,
) -> Result<(), EncodeError>
    ensures written { Writes (text (of_fields (span_fields spans.now)))
        (S.held sink.old) (S.held sink.new) result }
    ensures read { OnOk result (cache.new
        ≡ advanced cache.old (length (sizes (of_fields (span_fields spans.now))))) }
{
    laws::fields_are_plain();
    laws::flat_messages_have_no_sizes();
    let _slots = cache.unread();
    put_each(spans, sink)
}

// How many bytes the records take, or `u64::MAX` where it is more.
fn total_len(spans: &[UnknownSpan<'_>]) -> u64
    ensures { result ≡ in_64_bits (length (text_of (span_fields spans.now))) }
{
    let mut size = 0u64;
    for span in spans {
        size = size.saturating_add(span_len(span));
    }
    size
}

// Writes the records.
fn put_each<S: EncodeSink>(spans: &[UnknownSpan<'_>], sink: &mut S) -> Result<(), EncodeError>
    ensures { Writes (text_of (span_fields spans.now)) (S.held sink.old) (S.held sink.new) result }
{
    laws::piece_by_piece();
    for span in spans {
        put_span(span, sink)?;
    }
    Ok(())
}

// How many bytes a record takes, or `u64::MAX` where it is more.
fn span_len(span: &UnknownSpan<'_>) -> u64
    ensures { result ≡ in_64_bits
        (length (record_text (tag_number span.now.tag) span.now.spelled.0)) }
{
    items_len(span.tag, span.payload).unwrap_or(0)
}

// Writes a record.
fn put_span<S: EncodeSink>(span: &UnknownSpan<'_>, sink: &mut S) -> Result<(), EncodeError>
    ensures { Writes (record_text (tag_number span.now.tag) span.now.spelled.0)
        (S.held sink.old) (S.held sink.new) result }
{
    payload_or_fault();
    one_payload();
    no_payload_beside_fault();
    put_items(span.tag, span.payload, sink)
}

// How many bytes items take of which this is the first tag, or `u64::MAX` where it is more.
fn items_len(tag: Tag, payload: &[u8]) -> Option<u64>
    ensures { (item : Item) (items : List Item) (rest : List ℕ)
        → IsLeftOf (tag_number tag) (tag_type tag) item payload.now rest → SpellsItems items rest
        → IsSomeAnd result (λ len. len ≡ in_64_bits (length (shortest_items (item ∷ items)))) }
{
    let mut buf = payload;
    let first = read_token(tag, &mut buf)?;
    let mut size = token_len(tag.field_number(), first);
    while !buf.is_empty() {
        let (tag, token) = next_token(&mut buf)?;
        size = size.saturating_add(token_len(tag.field_number(), token));
    }
    Some(size)
}

// Writes items of which this is the first tag.
fn put_items<S: EncodeSink>(tag: Tag, payload: &[u8], sink: &mut S) -> Result<(), EncodeError>
    ensures { (item : Item) (items : List Item) (rest : List ℕ)
        → IsLeftOf (tag_number tag) (tag_type tag) item payload.now rest → SpellsItems items rest
        → Writes (shortest_items (item ∷ items)) (S.held sink.old) (S.held sink.new) result }
{
    laws::piece_by_piece();
    let mut buf = payload;
    let Some(first) = read_token(tag, &mut buf) else {
        return Ok(());
    };
    put_token(tag.field_number(), first, sink)?;
    while !buf.is_empty() {
        let Some((tag, token)) = next_token(&mut buf) else {
            return Ok(());
        };
        put_token(tag.field_number(), token, sink)?;
    }
    Ok(())
}
