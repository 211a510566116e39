//! Maps whose values are of a closed enum: an entry with another number goes to the unknown fields.
ghost use Rattle.std.specs.Prelude.{◌≡◌, ◌≢◌, None, OnOk, OnErr, IfOk, IfErr, option_map};
ghost use Rattle.wire_codec.specs.Charge.{payload_charge};
ghost use Rattle.wire_codec.specs.DecodeError.TheVariants.{OutOfMemory};
ghost use Rattle.wire_codec.specs.EnumValue.{EnumValue};
ghost use Rattle.wire_codec.specs.Field.{Fields, bytes, push};
ghost use Rattle.wire_codec.specs.Folds.{Step};
ghost use Rattle.wire_codec.specs.Limits.{Charge, NoCountGrew, Fits, left_after};
ghost use Rattle.wire_codec.specs.TagView.{tag_number, tag_type};
ghost use Rattle.wire_codec.specs.Taking.{TakesRecord, IsCharged, NotTaken};
ghost use Rattle.wire_fields.specs.ClosedMaps.{closed_value, finds_entry, with_found, IsEntryOf};

use crate::map::{Map, insert};
use crate::map_entry::Entry;
use crate::number::Number;
use crate::presence::Always;
use crate::scalar::{Numeric, Scalar};
use crate::text::{Blob, Text};
use crate::types::Enum;
use bytes::Buf;
use std::alloc::Global;
use std::collections::BTreeMap;
use wire_codec::{
    DecodeContext, DecodeError, EnumValue, Enumeration, MAX_MESSAGE_BYTES, Message, Tag,
    UnknownField, UnknownFieldData, UnknownFields, laws,
};

/// A map whose values are of a closed enum: `Map<K, Always<Enum<E>>, PLACE>`, and written as that
/// kind. What it holds are `EnumValue`s, of which reading makes known ones alone.
pub trait ClosedMap {
    /// What a message holds.
    type Held: Drop;

    /// What contracts see of it.
    ghost Value: { Type 0 };

    ghost view: { Self.Held → Value };

    ghost closes: { Step (Value × Fields) };

    /// Takes the record behind this tag into the map where the enum has the value of the entry, and
    /// else keeps it as an unknown field, its payload as it stands; it is then charged as one
    /// besides. An entry without a value has that of number 0. The payload is copied before it is
    /// read. Refused as `merge`, or with `UnknownFieldLimitExceeded`. A refusal leaves open what the
    /// map and the unknown fields hold, the place of the buffer and the depth of the context.
    fn merge_closed<B: Buf>(
        alloc: Global,
        tag: Tag,
        held: &mut Self::Held,
        unknown: &mut UnknownFields,
        buf: &mut B,
        context: &mut DecodeContext,
    ) -> Result<(), DecodeError>
        ensures ok { OnOk result (IsCharged context.old context.new (λ c.
            TakesRecord closes context.old (tag_number tag) (tag_type tag)
            (view held.old, unknown.old) (B.unread buf.old) c
            (view held.new, unknown.new) (B.unread buf.new))) }
        ensures err { IfErr result (λ e. e ≢ OutOfMemory → NotTaken
            (TakesRecord closes context.old (tag_number tag) (tag_type tag)
            (view held.old, unknown.old) (B.unread buf.old))) }
        ensures counts { OnErr result (NoCountGrew context.old context.new) }
        ensures kept { B.kept buf.new ≡ B.kept buf.old };
}

impl<N: Number, E: Enumeration, const PLACE: usize> ClosedMap
    for Map<Numeric<N>, Always<Enum<E>>, PLACE>
where
    N::Value: Ord,
{
    ghost use Rattle.std.specs.Prelude.{List};
    ghost use Rattle.wire_fields.specs.ClosedMaps.{closed_value, closes_entry};
    ghost use Rattle.wire_fields.specs.Maps.{viewed};
    ghost use Rattle.wire_fields.specs.Numbers.{numeric};

    type Held = BTreeMap<N::Value, EnumValue<E>>;

    ghost Value = { List (N.Value × EnumValue E) };

    ghost view = { λ m. viewed (λ k. k) (λ v. v) m.entries };

    ghost closes = { closes_entry PLACE N.Value.cmp (numeric N.form N.map)
        (closed_value E.number E.of_number) };

    fn merge_closed<B: Buf>(
        alloc: Global,
        tag: Tag,
        held: &mut BTreeMap<N::Value, EnumValue<E>>,
        unknown: &mut UnknownFields,
        buf: &mut B,
        context: &mut DecodeContext,
    ) -> Result<(), DecodeError> {
        let found = find_entry::<Numeric<N>, E, B>(alloc, tag, PLACE, unknown, buf, context)?;
        insert_found::<Numeric<N>, E>(held, found)
    }
}

impl<E: Enumeration, const PLACE: usize> ClosedMap for Map<Text, Always<Enum<E>>, PLACE> {
    ghost use Rattle.std.specs.Cmp.Lexicographic.{slice_cmp};
    ghost use Rattle.std.specs.Ordering.{nat_cmp};
    ghost use Rattle.std.specs.Prelude.{ℕ, List, string_bytes};
    ghost use Rattle.wire_fields.specs.ClosedMaps.{closed_value, closes_entry};
    ghost use Rattle.wire_fields.specs.Maps.{viewed};
    ghost use Rattle.wire_fields.specs.Texts.{string};

    type Held = BTreeMap<String, EnumValue<E>>;

    ghost Value = { List (List ℕ × EnumValue E) };

    ghost view = { λ m. viewed (λ k. string_bytes k) (λ v. v) m.entries };

    ghost closes = { closes_entry PLACE (slice_cmp nat_cmp) string
        (closed_value E.number E.of_number) };

    fn merge_closed<B: Buf>(
        alloc: Global,
        tag: Tag,
        held: &mut BTreeMap<String, EnumValue<E>>,
        unknown: &mut UnknownFields,
        buf: &mut B,
        context: &mut DecodeContext,
    ) -> Result<(), DecodeError> {
        let found = find_entry::<Text, E, B>(alloc, tag, PLACE, unknown, buf, context)?;
        insert_found::<Text, E>(held, found)
    }
}

// Puts the entry in its place, where one was found.
fn insert_found<K: Scalar, E: Enumeration>(
    held: &mut BTreeMap<K::Held, EnumValue<E>>,
    found: Option<Entry<K, Always<Enum<E>>>>,
) -> Result<(), DecodeError>
where
    K::Held: Ord,
    ensures ok { OnOk result (held.new.entries ≡ with_found K.Held.cmp held.old.entries
        (option_map (λ e. (e.key, e.value)) found)) }
    ensures err { IfErr result (λ e. e ≡ OutOfMemory) }
{
    match found {
        Some(entry) => insert::<K, Always<Enum<E>>>(held, entry),
        None => Ok(()),
    }
}

// Reads the entry of the payload behind this tag. Where the enum does not have its value, the
// payload is kept.
fn find_entry<K: Scalar, E: Enumeration, B: Buf>(
    alloc: Global,
    tag: Tag,
    place: usize,
    unknown: &mut UnknownFields,
    buf: &mut B,
    context: &mut DecodeContext,
) -> Result<Option<Entry<K, Always<Enum<E>>>>, DecodeError>
where
    K::Held: Clone + PartialEq,
    ensures ok { IfOk result (λ found. IsCharged context.old context.new (λ c.
        TakesRecord (finds_entry place K.scalar (closed_value E.number E.of_number))
        context.old (tag_number tag) (tag_type tag) (None, unknown.old) (B.unread buf.old) c
        (option_map (λ e. (K.view e.key, e.value)) found, unknown.new) (B.unread buf.new))) }
    ensures err { IfErr result (λ e. e ≢ OutOfMemory → NotTaken
        (TakesRecord (finds_entry place K.scalar (closed_value E.number E.of_number))
        context.old (tag_number tag) (tag_type tag) (None, unknown.old) (B.unread buf.old))) }
    ensures counts { OnErr result (NoCountGrew context.old context.new) }
    ensures grown { OnOk result (NoCountGrew context.old context.new) }
    ensures kept { B.kept buf.new ≡ B.kept buf.old }
{
    laws::records_in_order();
    laws::levels_and_counts();
    let mut payload = Blob::empty(alloc);
    Blob::set(alloc, tag, &mut payload, buf)?;
    let entry = parse_entry::<K, E>(alloc, place, &payload, context)?;
    match entry.value {
        EnumValue::Known(_) => Ok(Some(entry)),
        EnumValue::Unknown(_) => {
            keep_payload(tag.field_number(), payload, unknown, context)?;
            Ok(None)
        }
    }
}

// Reads the entry of these bytes, and charges its place in memory.
fn parse_entry<K: Scalar, E: Enumeration>(
    alloc: Global,
    place: usize,
    payload: &[u8],
    context: &mut DecodeContext,
) -> Result<Entry<K, Always<Enum<E>>>, DecodeError>
where
    K::Held: Clone + PartialEq,
    ensures ok { IfOk result (λ e. (c : Charge) × Fits c context.old
        × (context.new ≡ left_after context.old c)
        × IsEntryOf place K.scalar (closed_value E.number E.of_number) payload.now c
        (K.view e.key) e.value) }
    ensures err { IfErr result (λ e. e ≢ OutOfMemory → (c : Charge) → Fits c context.old
        → (key : K.Value) (value : EnumValue E) → IsEntryOf place K.scalar
        (closed_value E.number E.of_number) payload.now c key value → ⊥) }
    ensures counts { OnErr result (NoCountGrew context.old context.new) }
{
    laws::grammar::whole_input();
    laws::grammar::limits_add_up();
    laws::levels_and_counts();
    if payload.len() > MAX_MESSAGE_BYTES as usize {
        return Err(DecodeError::MessageTooLarge);
    }
    context.register_element_memory(place)?;
    context.descend()?;
    let mut entry = Entry::<K, Always<Enum<E>>>::default_value(alloc);
    let mut rest = payload;
    entry.merge(alloc, &mut rest, context)?;
    context.ascend();
    Ok(entry)
}

// Keeps bytes as an unknown field, and charges them.
fn keep_payload(
    number: u32,
    payload: Vec<u8>,
    unknown: &mut UnknownFields,
    context: &mut DecodeContext,
) -> Result<(), DecodeError>
    ensures ok { OnOk result (unknown.new ≡ push unknown.old number (bytes payload.items)) }
    ensures left { OnOk result (context.new
        ≡ left_after context.old (payload_charge (bytes payload.items))) }
    ensures fits { OnOk result (Fits (payload_charge (bytes payload.items)) context.old) }
    ensures err { IfErr result (λ e. e ≢ OutOfMemory
        → Fits (payload_charge (bytes payload.items)) context.old → ⊥) }
    ensures counts { OnErr result (NoCountGrew context.old context.new) }
{
    laws::grammar::limits_add_up();
    laws::levels_and_counts();
    context.register_unknown_field()?;
    context.register_unknown_bytes(payload.len())?;
    let value = UnknownFieldData::LengthDelimited(payload);
    unknown
        .push(UnknownField { number, value })
        .map_err(|_| DecodeError::OutOfMemory)
}
