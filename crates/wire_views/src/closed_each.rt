//! Lists of closed enums: each number that the enum does not have stays where it stands.
ghost use Rattle.std.specs.Prelude.{◌≡◌, ◌≢◌, ℕ, List, OnOk, OnErr, IfErr};
ghost use Rattle.wire_codec.specs.DecodeError.TheVariants.{OutOfMemory};
ghost use Rattle.wire_codec.specs.Field.{Payload};
ghost use Rattle.wire_codec.specs.FieldNumber.{IsFieldNumber};
ghost use Rattle.wire_codec.specs.Limits.{NoCountGrew};
ghost use Rattle.wire_codec.specs.Packed.{SpellsEach};
ghost use Rattle.wire_codec.specs.Spells.{IsPayload};
ghost use Rattle.wire_codec.specs.TagView.{tag_number, tag_type};
ghost use Rattle.wire_codec.specs.Taking.{TakesRecord, IsCharged, NotTaken};
ghost use Rattle.wire_codec.specs.ValueMap.{int32};
ghost use Rattle.wire_codec.specs.Varint.{IsSpelling};
ghost use Rattle.wire_codec.specs.WireType.TheVariants.{Varint};
ghost use Rattle.wire_fields.specs.Closed.{HasNumbers, closes_each};
ghost use Rattle.wire_views.specs.Spans.{span_fields, with_number, with_numbers};

use crate::span::UnknownSpan;
use crate::unknown::front_of;
use std::alloc::Global;
use wire_codec::scalar::{Int32, VarintScalar};
use wire_codec::{
    DecodeContext, DecodeError, EnumValue, Enumeration, Tag, UnknownFields, WireType, borrow_bytes,
    decode_varint, laws,
};

/// Takes the record behind this tag into a list of values of a closed enum: of its numbers, one or
/// those of a packed payload, the values that the enum has are added in order, and each other
/// number is kept as an unknown field, a varint, where it stands, as `merge_closed_each` of
/// `wire_fields`. It is charged and refused as there. A record with such a number is read once more.
pub fn merge_closed_each<'a, E: Enumeration>(
    alloc: Global,
    tag: Tag,
    held: &mut Vec<EnumValue<E>>,
    spans: &mut Vec<UnknownSpan<'a>>,
    buf: &mut &'a [u8],
    context: &mut DecodeContext,
) -> Result<(), DecodeError>
    ensures ok { OnOk result (IsCharged context.old context.new (λ c.
        TakesRecord (closes_each E.of_number) context.old (tag_number tag) (tag_type tag)
        (held.old.items, span_fields spans.old.items) buf.old.now c
        (held.new.items, span_fields spans.new.items) buf.new.now)) }
    ensures err { IfErr result (λ e. e ≢ OutOfMemory → NotTaken
        (TakesRecord (closes_each E.of_number) context.old (tag_number tag) (tag_type tag)
        (held.old.items, span_fields spans.old.items) buf.old.now)) }
    ensures counts { OnErr result (NoCountGrew context.old context.new) }
{
    let start = *buf;
    let mut left = UnknownFields::new(alloc);
    wire_fields::merge_closed_each(alloc, tag, held, &mut left, buf, context)?;
    if left.is_empty() {
        return Ok(());
    }
    let numbers = numbers_in(tag, front_of(start, *buf));
    keep_numbers::<E>(tag.field_number(), numbers, spans)
}

// The numbers of this payload, one after another: without its length, where it is packed.
fn numbers_in<'a>(tag: Tag, payload: &'a [u8]) -> &'a [u8]
    ensures { (p : Payload) (xs : List ℕ)
        → IsPayload (tag_number tag) (tag_type tag) p payload.now → HasNumbers p xs
        → SpellsEach IsSpelling xs result.now }
{
    laws::grammar::one_delimited();
    laws::grammar::no_delimited_beside_fault();
    let mut packed = payload;
    match tag.wire_type() {
        WireType::LengthDelimited => match borrow_bytes(&mut packed) {
            Ok(numbers) => numbers,
            Err(_) => payload,
        },
        _ => payload,
    }
}

// Keeps each of these numbers that the enum lacks, as a varint where it stands.
fn keep_numbers<'a, E: Enumeration>(
    number: u32,
    numbers: &'a [u8],
    spans: &mut Vec<UnknownSpan<'a>>,
) -> Result<(), DecodeError>
    requires { IsFieldNumber number }
    ensures ok { (xs : List ℕ) → SpellsEach IsSpelling xs numbers.now
        → OnOk result (span_fields spans.new.items
        ≡ with_numbers E.of_number number (span_fields spans.old.items) xs) }
    ensures err { (xs : List ℕ) → SpellsEach IsSpelling xs numbers.now
        → IfErr result (λ e. e ≡ OutOfMemory) }
{
    laws::grammar::one_varint();
    laws::grammar::no_varint_beside_fault();
    let tag = Tag::new(number, WireType::Varint);
    let mut rest = numbers;
    while !rest.is_empty() {
        let start = rest;
        let x = decode_varint(&mut rest)?;
        keep_number::<E>(tag, x, front_of(start, rest), spans)?;
    }
    Ok(())
}

// Keeps a number, whose varint this is, where the enum lacks it.
fn keep_number<'a, E: Enumeration>(
    tag: Tag,
    x: u64,
    payload: &'a [u8],
    spans: &mut Vec<UnknownSpan<'a>>,
) -> Result<(), DecodeError>
    requires varint { tag_type tag ≡ Varint }
    requires spelled { IsSpelling x payload.now }
    ensures ok { OnOk result (span_fields spans.new.items
        ≡ with_number (tag_number tag) x (span_fields spans.old.items)
        (E.of_number (int32.dec x))) }
    ensures err { IfErr result (λ e. e ≡ OutOfMemory) }
{
    laws::grammar::one_payload();
    match E::from_i32(Int32::value_of(x)) {
        Some(_) => Ok(()),
        None => {
            let span = UnknownSpan { tag, payload };
            spans.push(span)?;
            Ok(())
        }
    }
}
