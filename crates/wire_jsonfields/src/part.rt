//! Parts of messages: a field, or several one after another.
ghost use Rattle.std.specs.Prelude.{◌≡◌, ◌≢◌, ◌≤◌, ◌++◌, ◌&&◌, List, IfOk, IfErr, OnErr, MatchBool};
ghost use Rattle.wire_json.specs.Compact.{Extends};
ghost use Rattle.wire_json.specs.Json.{Members, members_depth, no_member};
ghost use Rattle.wire_protojson.specs.declared.refusal.ReadError.TheVariants.{OutOfMemory};
ghost use Rattle.wire_protojson.specs.declared.refusal.WriteError.TheVariants as untold;
ghost use Rattle.wire_jsonfields.specs.Messages.{is_no_member, text_of_members};
ghost use Rattle.wire_jsonfields.specs.Names.{IsOneOf, Names};
ghost use Rattle.wire_jsonfields.specs.Parts.{PartComesBack};
ghost use Rattle.wire_jsonfields.specs.Objects.{ArePlaced};
ghost use Rattle.wire_jsonfields.specs.OneValues.{SayOne};
ghost use Rattle.wire_jsonfields.specs.Told.{HasNoTree};

use crate::object::PlacedMember;
use std::alloc::Global;
use std::marker::PhantomData;
use wire_protojson::{ReadError, WriteError};

/// Some of what a message type has, which is read of the members of one object.
pub trait JsonPart {
    /// The message type.
    type Message;

    /// What is read.
    type Held: Drop;

    /// What contracts see of it.
    ghost Value: { Type 0 };

    ghost view: { Self.Held → Value };

    /// The same of a message.
    ghost seen: { Self.Message → Value };

    /// The names of its fields.
    ghost names: { List Names };

    /// What members say of it, also where others stand beside its own.
    ghost says: { Members → Value → Type 0 };

    /// Which members are written of it.
    ghost trees: { Value → Members → Type 0 };

    ghost default: { Value };

    /// Where there are no members it has its default.
    ghost unsaid: { says no_member default };

    /// Members say one value at most.
    ghost one_value: { SayOne says };

    /// The values of it that are there.
    ghost in_range: { Value → Type 0 };

    /// What is written of it is read as it.
    ghost back: { PartComesBack names says trees in_range };

    fn is_named(name: &str) -> bool
        ensures { MatchBool result (IsOneOf names name.now) (IsOneOf names name.now → ⊥) };

    fn read(
        alloc: Global,
        text: &[u8],
        members: &[PlacedMember<'_>],
        levels: u32,
    ) -> Result<Self::Held, ReadError>
        ensures ok { IfOk result (λ held. (ms : Members) → ArePlaced text.now members.now ms
            → says ms (view held)) }
        ensures err { IfErr result (λ e. e ≢ OutOfMemory → (ms : Members)
            → ArePlaced text.now members.now ms → members_depth ms ≤ levels
            → (value : Value) → says ms value → ⊥) };

    /// Writes its members into an object, of which the next may be the first.
    fn write(
        alloc: Global,
        out: &mut Vec<u8>,
        first: bool,
        message: &Self::Message,
    ) -> Result<bool, WriteError>
        ensures ok { IfOk result (λ next. (ms : Members) × trees (seen message.now) ms
            × (out.new.items ≡ out.old.items ++ text_of_members first ms)
            × (next ≡ (first && is_no_member ms))) }
        ensures err { OnErr result (Extends out.old.items out.new.items) }
        ensures no_text { IfErr result (λ e. e ≢ untold.OutOfMemory
            → HasNoTree trees (seen message.now)) };
}

/// A part, and another behind it.
pub struct Both<A: JsonPart, B: JsonPart<Message = A::Message>> {
    one: PhantomData<A>,
    other: PhantomData<B>,
}

impl<A: JsonPart, B: JsonPart<Message = A::Message>> JsonPart for Both<A, B> {
    ghost use Rattle.wire_jsonfields.specs.Parts.{AreBoth, BothSay, BothTrees, both_back, both_unsaid, one_both};

    type Message = A::Message;

    type Held = (A::Held, B::Held);

    ghost Value = { A.Value × B.Value };

    ghost view = { λ h. (A.view h.0, B.view h.1) };

    ghost seen = { λ m. (A.seen m, B.seen m) };

    ghost names = { A.names ++ B.names };

    ghost says = { BothSay A.says B.says };

    ghost trees = { BothTrees A.trees B.trees };

    ghost default = { (A.default, B.default) };

    ghost unsaid = { both_unsaid A.says B.says A.default B.default A.unsaid B.unsaid };

    ghost one_value = { one_both A.says B.says A.one_value B.one_value };

    ghost in_range = { AreBoth A.in_range B.in_range };

    ghost back = { both_back A.names B.names A.says B.says A.trees B.trees A.in_range B.in_range
        A.back B.back };

    fn is_named(name: &str) -> bool {
        A::is_named(name) || B::is_named(name)
    }

    fn read(
        alloc: Global,
        text: &[u8],
        members: &[PlacedMember<'_>],
        levels: u32,
    ) -> Result<(A::Held, B::Held), ReadError> {
        let one = A::read(alloc, text, members, levels)?;
        let other = B::read(alloc, text, members, levels)?;
        Ok((one, other))
    }

    fn write(
        alloc: Global,
        out: &mut Vec<u8>,
        first: bool,
        message: &A::Message,
    ) -> Result<bool, WriteError> {
        let next = A::write(alloc, out, first, message)?;
        B::write(alloc, out, next, message)
    }
}
