//! Oneofs as parts of messages: at most one of their members has a value.
ghost use Rattle.std.specs.Prelude.{◌≡◌, ◌≢◌, ◌≤◌, ◌++◌, ◌&&◌, ◌⊎◌, List, Option, None, option_map, IfOk, IfErr, OnErr, MatchBool};
ghost use Rattle.wire_json.specs.Compact.{Extends};
ghost use Rattle.wire_json.specs.Json.{Members, members_depth, no_member};
ghost use Rattle.wire_protojson.specs.declared.refusal.ReadError.TheVariants.{OutOfMemory};
ghost use Rattle.wire_protojson.specs.declared.refusal.WriteError.TheVariants as untold;
ghost use Rattle.wire_jsonfields.specs.Choices.{oneof_seen};
ghost use Rattle.wire_jsonfields.specs.Messages.{is_no_member, text_of_members};
ghost use Rattle.wire_jsonfields.specs.Names.{IsOneOf, Names};
ghost use Rattle.wire_jsonfields.specs.Parts.{ChoiceComesBack};
ghost use Rattle.wire_jsonfields.specs.Objects.{ArePlaced};
ghost use Rattle.wire_jsonfields.specs.Oneofs.{IsMemberTree, OneofTrees};
ghost use Rattle.wire_jsonfields.specs.OneValues.{SayOne};
ghost use Rattle.wire_jsonfields.specs.Told.{HasNoTree};

use crate::kind::{JsonValue, write_member};
use crate::known::FieldName;
use crate::object::PlacedMember;
use crate::oneof::second_of_oneof;
use std::alloc::Global;
use std::marker::PhantomData;
use wire_protojson::{ReadError, WriteError};

/// Some of the members of a oneof.
pub trait JsonChoice {
    /// The type of the oneof.
    type Oneof;

    /// What is read, where one of the members has a value.
    type Held: Drop;

    /// What contracts see of it.
    ghost Value: { Type 0 };

    ghost view: { Self.Held → Value };

    /// The same of the oneof, where it is one of these members.
    ghost seen: { Self.Oneof → Option Value };

    /// The names of the members.
    ghost names: { List Names };

    /// What members say of it, also where others stand beside its own.
    ghost says: { Members → Option Value → Type 0 };

    /// Which members are written of it.
    ghost trees: { Value → Members → Type 0 };

    /// Where there are no members it has no value.
    ghost unsaid: { says no_member None };

    /// Members say one value at most.
    ghost one_value: { SayOne says };

    /// The values of it that are there.
    ghost in_range: { Value → Type 0 };

    /// What is written of it is read as it.
    ghost back: { ChoiceComesBack names says trees in_range };

    fn is_named(name: &str) -> bool
        ensures { MatchBool result (IsOneOf names name.now) (IsOneOf names name.now → ⊥) };

    fn read(
        alloc: Global,
        text: &[u8],
        members: &[PlacedMember<'_>],
        levels: u32,
    ) -> Result<Option<Self::Held>, ReadError>
        ensures ok { IfOk result (λ held. (ms : Members) → ArePlaced text.now members.now ms
            → says ms (option_map view held)) }
        ensures err { IfErr result (λ e. e ≢ OutOfMemory → (ms : Members)
            → ArePlaced text.now members.now ms → members_depth ms ≤ levels
            → (value : Option Value) → says ms value → ⊥) };

    /// Whether the oneof is one of these members.
    fn is_chosen(oneof: &Self::Oneof) -> bool
        ensures { MatchBool result (seen oneof.now ≢ None) (seen oneof.now ≡ None) };

    /// Writes the member that the oneof is, where it is one of these.
    fn write(
        alloc: Global,
        out: &mut Vec<u8>,
        first: bool,
        oneof: &Self::Oneof,
    ) -> Result<bool, WriteError>
        ensures ok { IfOk result (λ next. (ms : Members) × OneofTrees trees (seen oneof.now) ms
            × (out.new.items ≡ out.old.items ++ text_of_members first ms)
            × (next ≡ (first && is_no_member ms))) }
        ensures err { OnErr result (Extends out.old.items out.new.items) }
        ensures no_text { IfErr result (λ e. e ≢ untold.OutOfMemory
            → HasNoTree (OneofTrees trees) (seen oneof.now)) };
}

pub(crate) fn is_of_either<A: JsonChoice, B: JsonChoice>(name: &str) -> bool
    ensures { MatchBool result (IsOneOf (A.names ++ B.names) name.now)
        (IsOneOf (A.names ++ B.names) name.now → ⊥) }
{
    A::is_named(name) || B::is_named(name)
}

/// Writes the member of a oneof that is one of several, where it is this one.
pub fn write_chosen<V: JsonValue>(
    alloc: Global,
    out: &mut Vec<u8>,
    first: bool,
    field: &FieldName,
    held: Option<&V::Held>,
) -> Result<bool, WriteError>
    ensures ok { IfOk result (λ next. (ms : Members)
        × OneofTrees (IsMemberTree V.tree field.now.json_name.now)
        (option_map (λ h. V.view h.now) held.entry) ms
        × (out.new.items ≡ out.old.items ++ text_of_members first ms)
        × (next ≡ (first && is_no_member ms))) }
    ensures err { OnErr result (Extends out.old.items out.new.items) }
    ensures no_text { IfErr result (λ e. e ≢ untold.OutOfMemory
        → HasNoTree (OneofTrees (IsMemberTree V.tree field.now.json_name.now))
        (option_map (λ h. V.view h.now) held.entry)) }
{
    match held {
        None => Ok(first),
        Some(value) => {
            write_member::<V>(alloc, out, first, field, value)?;
            Ok(false)
        }
    }
}

/// What is read of a oneof of two, of which each may be a oneof itself.
#[derive(Drop)]
pub enum Chosen<T, U> {
    This(T),
    That(U),
}

/// Members of a oneof, and others of it.
pub struct Either<A: JsonChoice, B: JsonChoice<Oneof = A::Oneof>> {
    one: PhantomData<A>,
    other: PhantomData<B>,
}

impl<A: JsonChoice, B: JsonChoice<Oneof = A::Oneof>> JsonChoice for Either<A, B> {
    ghost use Rattle.wire_jsonfields.specs.Choices.{either_seen, either_value, either_unsaid};
    ghost use Rattle.wire_jsonfields.specs.Oneofs.{EitherSays, EitherTrees, one_either};
    ghost use Rattle.wire_jsonfields.specs.Parts.{IsEitherInRange, either_back};

    type Oneof = A::Oneof;

    type Held = Chosen<A::Held, B::Held>;

    ghost Value = { A.Value ⊎ B.Value };

    ghost view = { either_value A.view B.view };

    ghost seen = { λ o. either_seen (A.seen o) (B.seen o) };

    ghost names = { A.names ++ B.names };

    ghost says = { EitherSays A.says B.says };

    ghost trees = { EitherTrees A.trees B.trees };

    ghost unsaid = { either_unsaid A.says B.says A.unsaid B.unsaid };

    ghost one_value = { one_either A.says B.says A.one_value B.one_value };

    ghost in_range = { IsEitherInRange A.in_range B.in_range };

    ghost back = { either_back A.names B.names A.says B.says A.trees B.trees A.in_range B.in_range
        A.back B.back };

    fn is_named(name: &str) -> bool {
        is_of_either::<A, B>(name)
    }

    fn read(
        alloc: Global,
        text: &[u8],
        members: &[PlacedMember<'_>],
        levels: u32,
    ) -> Result<Option<Chosen<A::Held, B::Held>>, ReadError> {
        let one = A::read(alloc, text, members, levels)?;
        let other = B::read(alloc, text, members, levels)?;
        match one {
            None => match other {
                None => Ok(None),
                Some(that) => Ok(Some(Chosen::That(that))),
            },
            Some(this) => match other {
                None => Ok(Some(Chosen::This(this))),
                Some(_second) => Err(second_of_oneof::<A, B>(text, members)),
            },
        }
    }

    fn is_chosen(oneof: &A::Oneof) -> bool {
        A::is_chosen(oneof) || B::is_chosen(oneof)
    }

    fn write(
        alloc: Global,
        out: &mut Vec<u8>,
        first: bool,
        oneof: &A::Oneof,
    ) -> Result<bool, WriteError> {
        if A::is_chosen(oneof) {
            A::write(alloc, out, first, oneof)
        } else {
            B::write(alloc, out, first, oneof)
        }
    }
}

/// Writes the member that a oneof is, where it has a value.
pub fn write_oneof<C: JsonChoice>(
    alloc: Global,
    out: &mut Vec<u8>,
    first: bool,
    oneof: &Option<C::Oneof>,
) -> Result<bool, WriteError>
    ensures ok { IfOk result (λ next. (ms : Members)
        × OneofTrees C.trees (oneof_seen C.seen oneof.now) ms
        × (out.new.items ≡ out.old.items ++ text_of_members first ms)
        × (next ≡ (first && is_no_member ms))) }
    ensures err { OnErr result (Extends out.old.items out.new.items) }
    ensures no_text { IfErr result (λ e. e ≢ untold.OutOfMemory
        → HasNoTree (OneofTrees C.trees) (oneof_seen C.seen oneof.now)) }
{
    match oneof {
        None => Ok(first),
        Some(value) => C::write(alloc, out, first, value),
    }
}
