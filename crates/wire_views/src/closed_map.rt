//! Maps whose values are of a closed enum: an entry with another number stays where it stands.
ghost use Rattle.std.specs.Prelude.{◌≡◌, ◌≢◌, OnOk, OnErr, IfOk, IfErr};
ghost use Rattle.wire_codec.specs.DecodeError.TheVariants.{OutOfMemory};
ghost use Rattle.wire_codec.specs.EnumValue.{EnumValue};
ghost use Rattle.wire_codec.specs.Field.{Fields};
ghost use Rattle.wire_codec.specs.Folds.{Step};
ghost use Rattle.wire_codec.specs.Limits.{Charge, NoCountGrew, Fits, left_after};
ghost use Rattle.wire_codec.specs.TagView.{tag_number, tag_type};
ghost use Rattle.wire_codec.specs.Taking.{TakesRecord, IsCharged, NotTaken};
ghost use Rattle.wire_fields.specs.ClosedMaps.{closed_value, IsEntryOf};
ghost use Rattle.wire_fields.specs.Maps.{viewed};
ghost use Rattle.wire_fields.specs.Numbers.{numeric};
ghost use Rattle.wire_views.specs.Entries.{map_with, AddsKnown};
ghost use Rattle.wire_views.specs.Spans.{span_fields};

use crate::copied::CopiedIn;
use crate::map::{MapIn, push_entry};
use crate::map_entry::EntryIn;
use crate::map_key::{MapKey, NumberIn};
use crate::message_view::MessageView;
use crate::span::UnknownSpan;
use crate::text::{BytesIn, TextIn};
use crate::unknown::keep_span;
use crate::view_kind::ViewKind;
use crate::view_scalar::ViewScalar;
use bytes::Buf;
use std::alloc::Global;
use std::collections::BTreeMap;
use std::marker::PhantomData;
use wire_codec::{
    DecodeContext, DecodeError, EnumValue, Enumeration, MAX_MESSAGE_BYTES, Tag, laws,
};
use wire_fields::{Always, Enum, Number, Numeric};

/// A map whose values are of a closed enum, as `MapIn` of `CopiedIn<B, Always<Enum<E>>>`, which it
/// calls. What it holds are `EnumValue`s, of which `merge_closed` makes known ones alone.
pub struct ClosedMapIn<K, E, const PLACE: usize> {
    key: PhantomData<K>,
    of_enum: PhantomData<E>,
}

impl<K: MapKey, E: Enumeration, const PLACE: usize> ViewKind for ClosedMapIn<K, E, PLACE> {
    ghost use Rattle.std.specs.Prelude.{List};
    ghost use Rattle.wire_codec.specs.EnumValue.{EnumValue};
    ghost use Rattle.wire_fields.specs.ClosedMaps.{closed_value};
    ghost use Rattle.wire_fields.specs.Maps.{map_kind, viewed};
    ghost use Rattle.wire_views.specs.Entries.{map_with};

    type Source = K::Source;

    type Held = Vec<(K::Held, EnumValue<E>)>;

    type Owned = BTreeMap<K::Owned, EnumValue<E>>;

    ghost Value = { List (K.Value × EnumValue E) };

    ghost view = { λ v. map_with K.order (viewed K.view (λ x. x) v.items) };

    ghost owned = { λ m. viewed K.owned (λ x. x) m.entries };

    ghost kind = { map_kind PLACE K.order K.scalar (closed_value E.number E.of_number) };

    fn empty(alloc: Global) -> Vec<(K::Held, EnumValue<E>)> {
        Vec::new(alloc)
    }

    fn merge(
        alloc: Global,
        tag: Tag,
        held: &mut Vec<(K::Held, EnumValue<E>)>,
        buf: &mut K::Source,
        context: &mut DecodeContext,
    ) -> Result<(), DecodeError> {
        <MapIn<K, CopiedIn<K::Source, Always<Enum<E>>>, PLACE> as ViewKind>::merge(
            alloc, tag, held, buf, context,
        )
    }

    fn own(
        alloc: Global,
        held: &Vec<(K::Held, EnumValue<E>)>,
    ) -> Result<BTreeMap<K::Owned, EnumValue<E>>, DecodeError> {
        <MapIn<K, CopiedIn<K::Source, Always<Enum<E>>>, PLACE> as ViewKind>::own(alloc, held)
    }
}

/// A map of a view that leaves the numbers that a closed enum lacks, as `ClosedMap`: a
/// `ClosedMapIn`.
pub trait ViewClosedMap<'a> {
    /// What a view holds.
    type Held: Drop;

    /// What contracts see of it.
    ghost Value: { Type 0 };

    ghost view: { Self.Held → Value };

    ghost closes: { Step (Value × Fields) };

    /// Takes the record behind this tag into the map where the enum has the value of the entry, and
    /// else keeps it as an unknown field, where it stands, as `ClosedMap::merge_closed`. It is
    /// charged and refused as there.
    fn merge_closed(
        alloc: Global,
        tag: Tag,
        held: &mut Self::Held,
        spans: &mut Vec<UnknownSpan<'a>>,
        buf: &mut &'a [u8],
        context: &mut DecodeContext,
    ) -> Result<(), DecodeError>
        ensures ok { OnOk result (IsCharged context.old context.new (λ c.
            TakesRecord closes context.old (tag_number tag) (tag_type tag)
            (view held.old, span_fields spans.old.items) buf.old.now c
            (view held.new, span_fields spans.new.items) buf.new.now)) }
        ensures err { IfErr result (λ e. e ≢ OutOfMemory → NotTaken
            (TakesRecord closes context.old (tag_number tag) (tag_type tag)
            (view held.old, span_fields spans.old.items) buf.old.now)) }
        ensures counts { OnErr result (NoCountGrew context.old context.new) };
}

impl<'a, E: Enumeration, const PLACE: usize> ViewClosedMap<'a>
    for ClosedMapIn<TextIn<'a>, E, PLACE> {
    ghost use Rattle.std.specs.Cmp.Lexicographic.{slice_cmp};
    ghost use Rattle.std.specs.Ordering.{nat_cmp};
    ghost use Rattle.std.specs.Prelude.{ℕ, List};
    ghost use Rattle.wire_codec.specs.EnumValue.{EnumValue};
    ghost use Rattle.wire_fields.specs.ClosedMaps.{closed_value, closes_entry};
    ghost use Rattle.wire_fields.specs.Maps.{viewed};
    ghost use Rattle.wire_fields.specs.Texts.{string};
    ghost use Rattle.wire_views.specs.Entries.{map_with};

    type Held = Vec<(&'a str, EnumValue<E>)>;

    ghost Value = { List (List ℕ × EnumValue E) };

    ghost view = { λ v. map_with (slice_cmp nat_cmp) (viewed (λ s. s.now) (λ x. x) v.items) };

    ghost closes = { closes_entry PLACE (slice_cmp nat_cmp) string
        (closed_value E.number E.of_number) };

    fn merge_closed(
        alloc: Global,
        tag: Tag,
        held: &mut Vec<(&'a str, EnumValue<E>)>,
        spans: &mut Vec<UnknownSpan<'a>>,
        buf: &mut &'a [u8],
        context: &mut DecodeContext,
    ) -> Result<(), DecodeError> {
        laws::records_in_order();
        laws::levels_and_counts();
        let mut record = *buf;
        let mut payload = <BytesIn<'a> as ViewScalar>::empty();
        <BytesIn<'a> as ViewScalar>::set(tag, &mut payload, buf)?;
        let is_added = add_entry::<TextIn<'a>, E>(alloc, PLACE, payload, held, context)?;
        if is_added {
            return Ok(());
        }
        keep_span(tag, spans, &mut record, context)
    }
}

impl<'a, N: Number, E: Enumeration, const PLACE: usize> ViewClosedMap<'a>
    for ClosedMapIn<NumberIn<&'a [u8], Numeric<N>>, E, PLACE>
where
    N::Value: Ord + Drop,
{
    ghost use Rattle.std.specs.Prelude.{List};
    ghost use Rattle.wire_codec.specs.EnumValue.{EnumValue};
    ghost use Rattle.wire_fields.specs.ClosedMaps.{closed_value, closes_entry};
    ghost use Rattle.wire_fields.specs.Maps.{viewed};
    ghost use Rattle.wire_fields.specs.Numbers.{numeric};
    ghost use Rattle.wire_views.specs.Entries.{map_with};

    type Held = Vec<(N::Value, EnumValue<E>)>;

    ghost Value = { List (N.Value × EnumValue E) };

    ghost view = { λ v. map_with N.Value.cmp (viewed (λ k. k) (λ x. x) v.items) };

    ghost closes = { closes_entry PLACE N.Value.cmp (numeric N.form N.map)
        (closed_value E.number E.of_number) };

    fn merge_closed(
        alloc: Global,
        tag: Tag,
        held: &mut Vec<(N::Value, EnumValue<E>)>,
        spans: &mut Vec<UnknownSpan<'a>>,
        buf: &mut &'a [u8],
        context: &mut DecodeContext,
    ) -> Result<(), DecodeError> {
        laws::records_in_order();
        laws::levels_and_counts();
        let mut record = *buf;
        let mut payload = <BytesIn<'a> as ViewScalar>::empty();
        <BytesIn<'a> as ViewScalar>::set(tag, &mut payload, buf)?;
        let is_added = add_numbered::<&'a [u8], N, E>(alloc, PLACE, payload, held, context)?;
        if is_added {
            return Ok(());
        }
        keep_span(tag, spans, &mut record, context)
    }
}

// The same as `add_entry` of a number as the key, for a caller that names a lifetime: the borrow
// checker follows a call whose type arguments name one each.
fn add_numbered<B: Buf + Drop, N: Number, E: Enumeration>(
    alloc: Global,
    place: usize,
    payload: B,
    held: &mut Vec<(N::Value, EnumValue<E>)>,
    context: &mut DecodeContext,
) -> Result<bool, DecodeError>
where
    N::Value: Ord + Drop,
    ensures ok { IfOk result (λ is_added. (c : Charge) × Fits c context.old
        × (context.new ≡ left_after context.old c)
        × (key : N.Value) × (value : EnumValue E)
        × IsEntryOf place (numeric N.form N.map) (closed_value E.number E.of_number)
        (B.unread payload) c key value
        × AddsKnown N.Value.cmp is_added
        (map_with N.Value.cmp (viewed (λ k. k) (λ v. v) held.old.items))
        (map_with N.Value.cmp (viewed (λ k. k) (λ v. v) held.new.items)) key value) }
    ensures err { IfErr result (λ e. e ≢ OutOfMemory → (c : Charge) → Fits c context.old
        → (key : N.Value) (value : EnumValue E) → IsEntryOf place (numeric N.form N.map)
        (closed_value E.number E.of_number) (B.unread payload) c key value → ⊥) }
    ensures counts { OnErr result (NoCountGrew context.old context.new) }
    ensures grown { OnOk result (NoCountGrew context.old context.new) }
{
    add_entry::<NumberIn<B, Numeric<N>>, E>(alloc, place, payload, held, context)
}

// Puts the entry of these bytes behind others, and charges its place in memory, or answers that the
// enum does not have its value.
fn add_entry<K: MapKey, E: Enumeration>(
    alloc: Global,
    place: usize,
    payload: K::Source,
    held: &mut Vec<(K::Held, EnumValue<E>)>,
    context: &mut DecodeContext,
) -> Result<bool, DecodeError>
    ensures ok { IfOk result (λ is_added. (c : Charge) × Fits c context.old
        × (context.new ≡ left_after context.old c)
        × (key : K.Value) × (value : EnumValue E)
        × IsEntryOf place K.scalar (closed_value E.number E.of_number)
        (K.Source.unread payload) c key value
        × AddsKnown K.order is_added (map_with K.order (viewed K.view (λ v. v) held.old.items))
        (map_with K.order (viewed K.view (λ v. v) held.new.items)) key value) }
    ensures err { IfErr result (λ e. e ≢ OutOfMemory → (c : Charge) → Fits c context.old
        → (key : K.Value) (value : EnumValue E) → IsEntryOf place K.scalar
        (closed_value E.number E.of_number) (K.Source.unread payload) c key value → ⊥) }
    ensures counts { OnErr result (NoCountGrew context.old context.new) }
    ensures grown { OnOk result (NoCountGrew context.old context.new) }
{
    laws::levels_and_counts();
    let entry = parse_entry::<K, E>(alloc, place, payload, context)?;
    match entry.value {
        EnumValue::Known(_) => {
            push_entry(held, entry)?;
            Ok(true)
        }
        EnumValue::Unknown(_) => Ok(false),
    }
}

// Reads the entry of these bytes, and charges its place in memory.
fn parse_entry<K: MapKey, E: Enumeration>(
    alloc: Global,
    place: usize,
    payload: K::Source,
    context: &mut DecodeContext,
) -> Result<EntryIn<K, CopiedIn<K::Source, Always<Enum<E>>>>, DecodeError>
    ensures ok { IfOk result (λ e. (c : Charge) × Fits c context.old
        × (context.new ≡ left_after context.old c)
        × IsEntryOf place K.scalar (closed_value E.number E.of_number)
        (K.Source.unread payload) c (K.view e.key) e.value) }
    ensures err { IfErr result (λ e. e ≢ OutOfMemory → (c : Charge) → Fits c context.old
        → (key : K.Value) (value : EnumValue E) → IsEntryOf place K.scalar
        (closed_value E.number E.of_number) (K.Source.unread payload) c key value → ⊥) }
    ensures counts { OnErr result (NoCountGrew context.old context.new) }
{
    laws::grammar::whole_input();
    laws::grammar::limits_add_up();
    laws::levels_and_counts();
    if payload.remaining() > MAX_MESSAGE_BYTES as usize {
        return Err(DecodeError::MessageTooLarge);
    }
    context.register_element_memory(place)?;
    context.descend()?;
    let entry = EntryIn::<K, CopiedIn<K::Source, Always<Enum<E>>>>::decode_view(
        alloc, payload, context,
    )?;
    context.ascend();
    Ok(entry)
}
