//! Fields of messages: once, or many times.
ghost use Rattle.std.specs.Prelude.{◌≡◌, ◌∷◌, ◌++◌, [], map, Some, OnOk, IfOk, IfErr};
ghost use Rattle.wire_codec.specs.DecodeError.TheVariants as errors;
ghost use Rattle.wire_fields.specs.Messages.{boxed_value};

use crate::encoding::ViewEncoding;
use crate::message_view::MessageView;
use crate::view_kind::ViewKind;
use std::alloc::Global;
use std::marker::PhantomData;
use wire_codec::{DecodeContext, DecodeError, Tag, laws};
use wire_fields::{Delimited, LengthPrefixed};

/// The view of an embedded message, in a box.
pub type EmbeddedIn<M> = OnceIn<M, LengthPrefixed>;

/// The view of a group, in a box.
pub type GroupIn<M> = OnceIn<M, Delimited>;

/// Views of embedded messages, each charged for so many bytes.
pub type EachEmbeddedIn<M, const PLACE: usize> = EachIn<M, LengthPrefixed, PLACE>;

/// Views of groups, each charged for so many bytes.
pub type EachGroupIn<M, const PLACE: usize> = EachIn<M, Delimited, PLACE>;

/// The view of a message of a oneof.
pub type AlwaysEmbeddedIn<M> = AlwaysMessageIn<M, LengthPrefixed>;

/// The view of a group of a oneof.
pub type AlwaysGroupIn<M> = AlwaysMessageIn<M, Delimited>;

/// The view of a message in a box, where there is one, as `Once`. A record more is taken into the
/// view that is there.
pub struct OnceIn<M: MessageView, E: ViewEncoding> {
    message: PhantomData<M>,
    encoding: PhantomData<E>,
}

impl<M: MessageView, E: ViewEncoding> ViewKind for OnceIn<M, E> {
    ghost use Rattle.std.specs.Prelude.{Option};
    ghost use Rattle.wire_fields.specs.Messages.{once_kind, boxed_value};

    type Source = M::Source;

    type Held = Option<Box<M>>;

    type Owned = Option<Box<M::Owned>>;

    ghost Value = { Option M.Value };

    ghost view = { boxed_value M.view };

    ghost owned = { boxed_value M.owned };

    ghost kind = { once_kind E.encoding M.records M.takes M.default };

    fn empty(_alloc: Global) -> Option<Box<M>> {
        None
    }

    fn merge(
        alloc: Global,
        tag: Tag,
        held: &mut Option<Box<M>>,
        buf: &mut M::Source,
        context: &mut DecodeContext,
    ) -> Result<(), DecodeError> {
        match held {
            Some(message) => E::merge::<M>(alloc, tag, message, buf, context),
            None => {
                let mut message = M::default_view(alloc);
                E::merge::<M>(alloc, tag, &mut message, buf, context)?;
                hold(held, alloc, message)
            }
        }
    }

    fn own(alloc: Global, held: &Option<Box<M>>) -> Result<Option<Box<M::Owned>>, DecodeError> {
        match held {
            Some(message) => Ok(Some(Box::new(alloc, message.own(alloc)?)?)),
            None => Ok(None),
        }
    }
}

/// As many views of messages as there are records, in order, as `Each`. Each is charged for so many
/// bytes of element memory: those that `Each` is given, which are the size of the message and not
/// that of its view, so that both are read within the same limits.
pub struct EachIn<M: MessageView, E: ViewEncoding, const PLACE: usize> {
    message: PhantomData<M>,
    encoding: PhantomData<E>,
}

impl<M: MessageView, E: ViewEncoding, const PLACE: usize> ViewKind for EachIn<M, E, PLACE> {
    ghost use Rattle.std.specs.Prelude.{List, map};
    ghost use Rattle.wire_fields.specs.Messages.{each_kind};

    type Source = M::Source;

    type Held = Vec<M>;

    type Owned = Vec<M::Owned>;

    ghost Value = { List M.Value };

    ghost view = { λ v. map M.view v.items };

    ghost owned = { λ v. map M.owned v.items };

    ghost kind = { each_kind PLACE E.encoding M.records M.takes M.default };

    fn empty(alloc: Global) -> Vec<M> {
        Vec::new(alloc)
    }

    fn merge(
        alloc: Global,
        tag: Tag,
        held: &mut Vec<M>,
        buf: &mut M::Source,
        context: &mut DecodeContext,
    ) -> Result<(), DecodeError> {
        laws::grammar::limits_add_up();
        laws::levels_and_counts();
        context.register_element_memory(PLACE)?;
        let mut message = M::default_view(alloc);
        E::merge::<M>(alloc, tag, &mut message, buf, context)?;
        push(held, message)
    }

    fn own(alloc: Global, held: &Vec<M>) -> Result<Vec<M::Owned>, DecodeError> {
        own_each::<M>(alloc, held)
    }
}

/// The view of a message of a oneof, as `AlwaysMessage`.
pub struct AlwaysMessageIn<M: MessageView, E: ViewEncoding> {
    message: PhantomData<M>,
    encoding: PhantomData<E>,
}

impl<M: MessageView, E: ViewEncoding> ViewKind for AlwaysMessageIn<M, E> {
    ghost use Rattle.wire_fields.specs.Messages.{always_kind};

    type Source = M::Source;

    type Held = M;

    type Owned = M::Owned;

    ghost Value = { M.Value };

    ghost view = { M.view };

    ghost owned = { M.owned };

    ghost kind = { always_kind E.encoding M.records M.takes M.default };

    fn empty(alloc: Global) -> M {
        M::default_view(alloc)
    }

    fn merge(
        alloc: Global,
        tag: Tag,
        held: &mut M,
        buf: &mut M::Source,
        context: &mut DecodeContext,
    ) -> Result<(), DecodeError> {
        E::merge::<M>(alloc, tag, held, buf, context)
    }

    fn own(alloc: Global, held: &M) -> Result<M::Owned, DecodeError> {
        held.own(alloc)
    }
}

// Puts a view into a field.
fn hold<M: MessageView>(
    field: &mut Option<Box<M>>,
    alloc: Global,
    message: M,
) -> Result<(), DecodeError>
    ensures ok { OnOk result (boxed_value M.view field.new ≡ Some (M.view message)) }
    ensures err { IfErr result (λ e. e ≡ errors.OutOfMemory) }
{
    *field = Some(Box::new(alloc, message)?);
    Ok(())
}

// Puts a view behind others.
fn push<M: MessageView>(messages: &mut Vec<M>, message: M) -> Result<(), DecodeError>
    ensures ok { OnOk result (messages.new.items ≡ messages.old.items ++ message ∷ []) }
    ensures err { IfErr result (λ e. e ≡ errors.OutOfMemory) }
{
    messages.push(message).map_err(|_| DecodeError::OutOfMemory)
}

// The same messages with memory of their own.
fn own_each<M: MessageView>(alloc: Global, messages: &[M]) -> Result<Vec<M::Owned>, DecodeError>
    ensures ok { IfOk result (λ copies. map M.owned copies.items ≡ map M.view messages.now) }
    ensures err { IfErr result (λ e. e ≡ errors.OutOfMemory) }
{
    let mut copies = Vec::with_capacity(alloc, messages.len())?;
    for message in messages {
        let copy = message.own(alloc)?;
        copies.push(copy)?;
    }
    Ok(copies)
}
