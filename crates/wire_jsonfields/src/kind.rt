//! Kinds of fields, by what stands for them in JSON.
ghost use Rattle.std.specs.Prelude.{◌≡◌, ◌≢◌, ◌≤◌, ◌++◌, ◌&&◌, Some, drop, IfOk, IfErr, OnOk, OnErr, MatchBool};
ghost use Rattle.wire_json.specs.declared.kind.Kind.TheVariants as kinds;
ghost use Rattle.wire_json.specs.Answer.{IsBehind};
ghost use Rattle.wire_json.specs.Compact.{Extends};
ghost use Rattle.wire_json.specs.Json.{Json, Members, members_depth};
ghost use Rattle.wire_json.specs.Kind.{kind_begun};
ghost use Rattle.wire_json.specs.Written.{written};
ghost use Rattle.wire_protojson.specs.declared.refusal.ReadError.TheVariants.{OutOfMemory};
ghost use Rattle.wire_jsonfields.specs.Back.{ComesBack};
ghost use Rattle.wire_jsonfields.specs.Fields.{FieldMeans};
ghost use Rattle.wire_jsonfields.specs.Flat.{AreFlat};
ghost use Rattle.wire_jsonfields.specs.Levels.{NothingMeant, ReadsWithin};
ghost use Rattle.wire_protojson.specs.declared.refusal.WriteError.TheVariants as untold;
ghost use Rattle.wire_protojson.specs.Laws.{IsDecided};
ghost use Rattle.wire_json.specs.Json.{member, no_member};
ghost use Rattle.wire_jsonfields.specs.Messages.{IsFieldTree, comma_unless, is_no_member, text_of_members};
ghost use Rattle.wire_jsonfields.specs.Objects.{ArePlaced, IsNameOf};
ghost use Rattle.wire_jsonfields.specs.Oneofs.{IsMemberTree};
ghost use Rattle.wire_jsonfields.specs.OneValues.{IsOneValued};
ghost use Rattle.wire_jsonfields.specs.Told.{HasNoTree};
ghost use Rattle.wire_protojson.specs.Reads.{ReadsMeaning, Refuses, RefusedAt, UnlessNoMemory};

use crate::find::find;
use crate::known::FieldName;
use crate::object::PlacedMember;
use std::alloc::{AllocError, Global};
use std::marker::PhantomData;
use wire_json::Mark;
use wire_protojson::{ReadError, WriteError};

/// A scalar type of which JSON has values.
pub trait JsonScalar {
    /// What a message holds.
    type Held: Drop;

    /// What contracts see of it.
    ghost Value: { Type 0 };

    ghost view: { Self.Held → Value };

    /// Which trees mean which values.
    ghost means: { Json → Value → Type 0 };

    /// Which trees are written of a value.
    ghost tree: { Value → Json → Type 0 };

    ghost default: { Value };

    ghost decided: { IsDecided means };

    /// What is written of a scalar is no array and no object.
    ghost flat: { AreFlat tree };

    /// The values of the type.
    ghost in_range: { Value → Type 0 };

    /// What is written of a value is read as it.
    ghost back: { (value : Value) → in_range value → ComesBack means tree value };

    fn default_value(alloc: Global) -> Self::Held
        ensures { view result ≡ default };

    fn read_json(alloc: Global, text: &[u8], at: usize) -> Result<(Self::Held, usize), ReadError>
        ensures ok { IfOk result (λ read. ReadsMeaning means (drop at text.now)
            (view read.0) (drop read.1 text.now)) }
        ensures behind { IfOk result (λ read. IsBehind at read.1 text.now) }
        ensures err { IfErr result (λ e. UnlessNoMemory e
            (λ refusal. RefusedAt text.now refusal (Refuses means (drop at text.now)))) };

    /// Whether this is the default value.
    fn is_default(held: &Self::Held) -> bool
        ensures { MatchBool result (view held.now ≡ default) (view held.now ≢ default) };

    /// Writes a value. A front of it may stand in the vector where memory is refused.
    fn write_json(alloc: Global, out: &mut Vec<u8>, held: &Self::Held) -> Result<(), AllocError>
        ensures ok { OnOk result ((json : Json) × tree (view held.now) json
            × (out.new.items ≡ out.old.items ++ written json)) }
        ensures err { OnErr result (Extends out.old.items out.new.items) };
}

/// A kind of value: of an element of a list, of a value of a map, or of a field.
pub trait JsonValue {
    /// What a message holds.
    type Held: Drop;

    /// What contracts see of it.
    ghost Value: { Type 0 };

    ghost view: { Self.Held → Value };

    /// Which trees mean which values. `null` is left to the field.
    ghost means: { Json → Value → Type 0 };

    /// Which trees are written of a value.
    ghost tree: { Value → Json → Type 0 };

    /// The value of a field that an object does not have.
    ghost absent: { Value };

    /// A tree means one value at most.
    ghost one_value: { IsOneValued means };

    /// The values of the kind that are there.
    ghost in_range: { Value → Type 0 };

    /// What is written of a value is read as it.
    ghost back: { (value : Value) → in_range value → ComesBack means tree value };

    /// Reads a value, in which at most `levels` arrays and objects may stand in one another.
    fn read_json(
        alloc: Global,
        text: &[u8],
        at: usize,
        levels: u32,
    ) -> Result<(Self::Held, usize), ReadError>
        ensures ok { IfOk result (λ read. ReadsWithin levels means (drop at text.now)
            (view read.0) (drop read.1 text.now)) }
        ensures behind { IfOk result (λ read. IsBehind at read.1 text.now) }
        ensures err { IfErr result (λ e. e ≢ OutOfMemory
            → NothingMeant levels means (drop at text.now)) };

    /// Writes a value. What the vector held stays in front.
    fn write_json(alloc: Global, out: &mut Vec<u8>, held: &Self::Held) -> Result<(), WriteError>
        ensures ok { OnOk result ((json : Json) × tree (view held.now) json
            × (out.new.items ≡ out.old.items ++ written json)) }
        ensures err { OnErr result (Extends out.old.items out.new.items) }
        ensures no_text { IfErr result (λ e. e ≢ untold.OutOfMemory
            → HasNoTree tree (view held.now)) };
}

/// A kind of field, which may be left out.
pub trait JsonKind: JsonValue {
    fn absent_value(alloc: Global) -> Self::Held
        ensures { Self.view result ≡ Self.absent };

    /// Whether the field is left out.
    fn is_absent(held: &Self::Held) -> bool
        ensures { MatchBool result (Self.view held.now ≡ Self.absent)
            (Self.view held.now ≢ Self.absent) };
}

/// A field that has the default value of its type where an object does not have it, as a field of
/// proto3 with no label. It is the kind of an element or of a value of a map, too.
pub struct Implicit<S: JsonScalar> {
    scalar: PhantomData<S>,
}

impl<S: JsonScalar> JsonValue for Implicit<S> {
    type Held = S::Held;

    ghost Value = { S.Value };

    ghost view = { S.view };

    ghost means = { S.means };

    ghost tree = { S.tree };

    ghost absent = { S.default };

    ghost one_value = { S.decided.one_meaning };

    ghost in_range = { S.in_range };

    ghost back = { S.back };

    fn read_json(
        alloc: Global,
        text: &[u8],
        at: usize,
        _levels: u32,
    ) -> Result<(S::Held, usize), ReadError> {
        S::read_json(alloc, text, at)
    }

    fn write_json(alloc: Global, out: &mut Vec<u8>, held: &S::Held) -> Result<(), WriteError> {
        S::write_json(alloc, out, held)?;
        Ok(())
    }
}

impl<S: JsonScalar> JsonKind for Implicit<S> {
    fn absent_value(alloc: Global) -> S::Held {
        S::default_value(alloc)
    }

    fn is_absent(held: &S::Held) -> bool {
        S::is_default(held)
    }
}

/// A scalar that may be absent.
pub type Optional<S> = Maybe<Implicit<S>>;

/// A value that may be absent.
pub struct Maybe<V: JsonValue> {
    value: PhantomData<V>,
}

impl<V: JsonValue> JsonValue for Maybe<V> {
    ghost use Rattle.std.specs.Prelude.{Option, None, option_map};
    ghost use Rattle.wire_jsonfields.specs.Fields.{IsSomeTree, MeansSome};
    ghost use Rattle.wire_jsonfields.specs.KindsBack.{IsSomeInRange, some_back};
    ghost use Rattle.wire_jsonfields.specs.OneValues.{one_some};

    type Held = Option<V::Held>;

    ghost Value = { Option V.Value };

    ghost view = { option_map V.view };

    ghost means = { MeansSome V.means };

    ghost tree = { IsSomeTree V.tree };

    ghost absent = { None };

    ghost one_value = { one_some V.means V.one_value };

    ghost in_range = { IsSomeInRange V.in_range };

    ghost back = { some_back V.means V.tree V.in_range V.back };

    fn read_json(
        alloc: Global,
        text: &[u8],
        at: usize,
        levels: u32,
    ) -> Result<(Option<V::Held>, usize), ReadError> {
        match V::read_json(alloc, text, at, levels) {
            Ok((value, after)) => Ok((Some(value), after)),
            Err(error) => Err(error),
        }
    }

    fn write_json(
        alloc: Global,
        out: &mut Vec<u8>,
        held: &Option<V::Held>,
    ) -> Result<(), WriteError> {
        match held {
            Some(value) => V::write_json(alloc, out, value),
            None => {
                wire_json::write_null(out)?;
                Ok(())
            }
        }
    }
}

impl<V: JsonValue> JsonKind for Maybe<V> {
    fn absent_value(_alloc: Global) -> Option<V::Held> {
        None
    }

    fn is_absent(held: &Option<V::Held>) -> bool {
        match held {
            Some(_) => false,
            None => true,
        }
    }
}

/// Reads a field from the members of an object that was read.
pub fn read_field<K: JsonKind>(
    alloc: Global,
    text: &[u8],
    members: &[PlacedMember<'_>],
    levels: u32,
    field: &FieldName,
) -> Result<K::Held, ReadError>
    ensures ok { IfOk result (λ held. (ms : Members) → ArePlaced text.now members.now ms
        → FieldMeans K.absent K.means
        (IsNameOf field.now.name.now field.now.json_name.now) ms (K.view held)) }
    ensures err { IfErr result (λ e. e ≢ OutOfMemory → (ms : Members)
        → ArePlaced text.now members.now ms → members_depth ms ≤ levels
        → (value : K.Value) → FieldMeans K.absent K.means
        (IsNameOf field.now.name.now field.now.json_name.now) ms value → ⊥) }
{
    match find(members, field.name, field.json_name) {
        Ok(None) => Ok(K::absent_value(alloc)),
        Ok(Some(place)) => {
            if is_null(text, place) {
                return Ok(K::absent_value(alloc));
            }
            match K::read_json(alloc, text, place, levels) {
                Ok((held, _after)) => Ok(held),
                Err(error) => Err(error),
            }
        }
        Err(error) => Err(error),
    }
}

/// Writes a field of an object, of which it may be the first; whether what follows is the first is
/// answered. What the vector held stays in front.
pub fn write_field<K: JsonKind>(
    alloc: Global,
    out: &mut Vec<u8>,
    first: bool,
    field: &FieldName,
    held: &K::Held,
) -> Result<bool, WriteError>
    ensures ok { IfOk result (λ next. (ms : Members)
        × IsFieldTree K.absent K.tree field.now.json_name.now (K.view held.now) ms
        × (out.new.items ≡ out.old.items ++ text_of_members first ms)
        × (next ≡ (first && is_no_member ms))) }
    ensures err { OnErr result (Extends out.old.items out.new.items) }
    ensures no_text { IfErr result (λ e. e ≢ untold.OutOfMemory
        → HasNoTree (IsFieldTree K.absent K.tree field.now.json_name.now) (K.view held.now)) }
{
    if K::is_absent(held) {
        return Ok(first);
    }
    write_member::<K>(alloc, out, first, field, held)?;
    Ok(false)
}

/// Writes a field of an object also where it is as without a member. What the vector held stays in
/// front.
pub fn write_always<V: JsonValue>(
    alloc: Global,
    out: &mut Vec<u8>,
    first: bool,
    field: &FieldName,
    held: &V::Held,
) -> Result<bool, WriteError>
    ensures ok { IfOk result (λ next. (ms : Members)
        × IsMemberTree V.tree field.now.json_name.now (V.view held.now) ms
        × (out.new.items ≡ out.old.items ++ text_of_members first ms)
        × (next ≡ (first && is_no_member ms))) }
    ensures err { OnErr result (Extends out.old.items out.new.items) }
    ensures no_text { IfErr result (λ e. e ≢ untold.OutOfMemory
        → HasNoTree (IsMemberTree V.tree field.now.json_name.now) (V.view held.now)) }
{
    write_member::<V>(alloc, out, first, field, held)?;
    Ok(false)
}

/// Writes a member, of which the object may have none before. What the vector held stays in front.
pub fn write_member<V: JsonValue>(
    alloc: Global,
    out: &mut Vec<u8>,
    first: bool,
    field: &FieldName,
    held: &V::Held,
) -> Result<(), WriteError>
    ensures ok { OnOk result ((e : Json) × V.tree (V.view held.now) e
        × (out.new.items ≡ out.old.items
        ++ text_of_members first (member field.now.json_name.now e no_member))) }
    ensures err { OnErr result (Extends out.old.items out.new.items) }
    ensures no_text { IfErr result (λ e. e ≢ untold.OutOfMemory
        → HasNoTree V.tree (V.view held.now)) }
{
    write_comma(out, first)?;
    wire_json::write_name(out, field.json_name)?;
    V::write_json(alloc, out, held)
}

/// Writes the comma before a member or an element that is not the first.
pub(crate) fn write_comma(out: &mut Vec<u8>, first: bool) -> Result<(), AllocError>
    ensures ok { OnOk result (out.new.items ≡ out.old.items ++ comma_unless first) }
    ensures err { OnErr result (out.new.items ≡ out.old.items) }
{
    if first {
        return Ok(());
    }
    wire_json::write_mark(out, Mark::Comma)
}

pub(crate) fn is_null(text: &[u8], at: usize) -> bool
    ensures { MatchBool result (kind_begun (drop at text.now) ≡ Some kinds.Null)
        (kind_begun (drop at text.now) ≡ Some kinds.Null → ⊥) }
{
    match wire_json::kind_at(text, at) {
        Some(kind) => kind == wire_json::Kind::Null,
        None => false,
    }
}
