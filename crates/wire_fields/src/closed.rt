//! Closed enums: a number that the enum does not have goes to the unknown fields of its message.
ghost use Rattle.std.specs.Prelude.{◌≡◌, ◌≢◌, OnOk, OnErr, IfErr};
ghost use Rattle.wire_codec.specs.DecodeError.TheVariants.{OutOfMemory};
ghost use Rattle.wire_codec.specs.Field.{push, varint};
ghost use Rattle.wire_codec.specs.Limits.{NoCountGrew, Fits, left_after, one_field};
ghost use Rattle.wire_codec.specs.TagView.{tag_number, tag_type};
ghost use Rattle.wire_codec.specs.Taking.{TakesRecord, IsCharged, NotTaken};
ghost use Rattle.wire_codec.specs.ValueMap.{int32};
ghost use Rattle.wire_fields.specs.Closed.{sorted, sort_charge, all_sorted, all_charge};
ghost use Rattle.wire_fields.specs.Closed.{sets_known, adds_known, closes, closes_each};

use crate::form::Form;
use crate::kind::Kind;
use crate::number::get_number;
use crate::packed::Packed;
use crate::types::Uint64;
use bytes::Buf;
use std::alloc::Global;
use wire_codec::scalar::{Int32, VarintScalar};
use wire_codec::{
    DecodeContext, DecodeError, EnumValue, Enumeration, Tag, UnknownField, UnknownFieldData,
    UnknownFields, laws,
};

/// Takes the record behind this tag into a field of a closed enum, where the enum has its number,
/// and else keeps it as an unknown field. The field holds an `EnumValue`, of which reading makes a
/// known one alone, and is written as `Optional<Enum<E>>`. A wire type other than that of a varint
/// is `WireTypeMismatch`. A refusal leaves open what is held, and the place of the buffer.
pub fn merge_closed<E: Enumeration, B: Buf>(
    tag: Tag,
    held: &mut Option<EnumValue<E>>,
    unknown: &mut UnknownFields,
    buf: &mut B,
    context: &mut DecodeContext,
) -> Result<(), DecodeError>
    ensures ok { OnOk result (IsCharged context.old context.new (λ c.
        TakesRecord (closes E.of_number) context.old (tag_number tag) (tag_type tag)
        (held.old, unknown.old) (B.unread buf.old) c (held.new, unknown.new)
        (B.unread buf.new))) }
    ensures err { IfErr result (λ e. e ≢ OutOfMemory → NotTaken
        (TakesRecord (closes E.of_number) context.old (tag_number tag) (tag_type tag)
        (held.old, unknown.old) (B.unread buf.old))) }
    ensures counts { OnErr result (NoCountGrew context.old context.new) }
    ensures kept { B.kept buf.new ≡ B.kept buf.old }
{
    laws::records_in_order();
    let x = get_number(tag, Form::Varint, buf)?;
    match E::from_i32(Int32::value_of(x)) {
        Some(value) => {
            *held = Some(EnumValue::Known(value));
            Ok(())
        }
        None => keep_number(tag.field_number(), x, unknown, context),
    }
}

/// Takes the record behind this tag into a repeated field of a closed enum: of its numbers, one or
/// those of a packed payload, the values that the enum has are added in order, and each other
/// number is kept as an unknown field, a varint. The field is written as `Packed<Enum<E>>` or
/// `Unpacked<Enum<E>>`. Refused as `merge` of these. A refusal leaves open what is held, and the
/// place of the buffer.
pub fn merge_closed_each<E: Enumeration, B: Buf>(
    alloc: Global,
    tag: Tag,
    held: &mut Vec<EnumValue<E>>,
    unknown: &mut UnknownFields,
    buf: &mut B,
    context: &mut DecodeContext,
) -> Result<(), DecodeError>
    ensures ok { OnOk result (IsCharged context.old context.new (λ c.
        TakesRecord (closes_each E.of_number) context.old (tag_number tag) (tag_type tag)
        (held.old.items, unknown.old) (B.unread buf.old) c (held.new.items, unknown.new)
        (B.unread buf.new))) }
    ensures err { IfErr result (λ e. e ≢ OutOfMemory → NotTaken
        (TakesRecord (closes_each E.of_number) context.old (tag_number tag) (tag_type tag)
        (held.old.items, unknown.old) (B.unread buf.old))) }
    ensures counts { OnErr result (NoCountGrew context.old context.new) }
    ensures kept { B.kept buf.new ≡ B.kept buf.old }
{
    laws::records_in_order();
    laws::levels_and_counts();
    let mut numbers = Vec::new(alloc);
    <Packed<Uint64> as Kind>::merge(alloc, tag, &mut numbers, buf, context)?;
    sort_numbers::<E>(tag.field_number(), &numbers, held, unknown, context)
}

// Adds the values of the numbers, and keeps those without one.
fn sort_numbers<E: Enumeration>(
    number: u32,
    numbers: &[u64],
    held: &mut Vec<EnumValue<E>>,
    unknown: &mut UnknownFields,
    context: &mut DecodeContext,
) -> Result<(), DecodeError>
    ensures ok { OnOk result ((held.new.items, unknown.new) ≡ all_sorted adds_known E.of_number
        number (held.old.items, unknown.old) numbers.now) }
    ensures left { OnOk result (context.new
        ≡ left_after context.old (all_charge E.of_number numbers.now)) }
    ensures fits { OnOk result (Fits (all_charge E.of_number numbers.now) context.old) }
    ensures err { IfErr result (λ e. e ≢ OutOfMemory
        → Fits (all_charge E.of_number numbers.now) context.old → ⊥) }
    ensures counts { OnErr result (NoCountGrew context.old context.new) }
{
    laws::grammar::limits_add_up();
    laws::levels_and_counts();
    for x in numbers {
        sort_number::<E>(number, *x, held, unknown, context)?;
    }
    Ok(())
}

// Adds the value of a number, or keeps a number without one.
fn sort_number<E: Enumeration>(
    number: u32,
    x: u64,
    held: &mut Vec<EnumValue<E>>,
    unknown: &mut UnknownFields,
    context: &mut DecodeContext,
) -> Result<(), DecodeError>
    ensures ok { OnOk result ((held.new.items, unknown.new) ≡ sorted adds_known number x
        (held.old.items, unknown.old) (E.of_number (int32.dec x))) }
    ensures left { OnOk result (context.new
        ≡ left_after context.old (sort_charge (E.of_number (int32.dec x)))) }
    ensures fits { OnOk result (Fits (sort_charge (E.of_number (int32.dec x))) context.old) }
    ensures err { IfErr result (λ e. e ≢ OutOfMemory
        → Fits (sort_charge (E.of_number (int32.dec x))) context.old → ⊥) }
    ensures counts { OnErr result (NoCountGrew context.old context.new) }
{
    laws::grammar::limits_add_up();
    laws::levels_and_counts();
    match E::from_i32(Int32::value_of(x)) {
        Some(value) => held
            .push(EnumValue::Known(value))
            .map_err(|_| DecodeError::OutOfMemory),
        None => keep_number(number, x, unknown, context),
    }
}

// Keeps a number as an unknown field, and charges it.
fn keep_number(
    number: u32,
    x: u64,
    unknown: &mut UnknownFields,
    context: &mut DecodeContext,
) -> Result<(), DecodeError>
    ensures ok { OnOk result (unknown.new ≡ push unknown.old number (varint x)) }
    ensures left { OnOk result (context.new ≡ left_after context.old one_field) }
    ensures fits { OnOk result (Fits one_field context.old) }
    ensures err { IfErr result (λ e. e ≢ OutOfMemory → Fits one_field context.old → ⊥) }
    ensures counts { OnErr result (NoCountGrew context.old context.new) }
{
    laws::levels_and_counts();
    context.register_unknown_field()?;
    let value = UnknownFieldData::Varint(x);
    unknown
        .push(UnknownField { number, value })
        .map_err(|_| DecodeError::OutOfMemory)
}
