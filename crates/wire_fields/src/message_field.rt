//! Fields of messages: once, or many times.
ghost use Rattle.std.specs.Prelude.{◌≡◌, ◌≤◌, ◌∷◌, ◌++◌, [], Some, length, map, OnOk, IfOk, IfErr};
ghost use Rattle.wire_codec.specs.DecodeError.TheVariants as errors;
ghost use Rattle.wire_codec.specs.EncodeError.TheVariants.{OutOfMemory};
ghost use Rattle.wire_codec.specs.FieldNumber.{IsFieldNumber};
ghost use Rattle.wire_codec.specs.Records.{text, text_size};
ghost use Rattle.wire_codec.specs.Sizes.{sizes};
ghost use Rattle.wire_codec.specs.Tape.{NextAre, advanced};
ghost use Rattle.wire_codec.specs.Writes.{Writes};
ghost use Rattle.wire_fields.specs.Measuring.{Measures};
ghost use Rattle.wire_fields.specs.Messages.{message_each, boxed_value};

use crate::encoding::{Delimited, LengthPrefixed, MessageEncoding};
use crate::kind::Kind;
use bytes::Buf;
use std::alloc::Global;
use std::marker::PhantomData;
use wire_codec::{
    DecodeContext, DecodeError, EncodeError, EncodeSink, Message, SizeCache, Tag, laws,
};

/// An embedded message, in a box.
pub type Embedded<M> = Once<M, LengthPrefixed>;

/// A group, in a box.
pub type Group<M> = Once<M, Delimited>;

/// Embedded messages, each charged for so many bytes.
pub type EachEmbedded<M, const PLACE: usize> = Each<M, LengthPrefixed, PLACE>;

/// Groups, each charged for so many bytes.
pub type EachGroup<M, const PLACE: usize> = Each<M, Delimited, PLACE>;

/// An embedded message that is always written.
pub type AlwaysEmbedded<M> = AlwaysMessage<M, LengthPrefixed>;

/// A group that is always written.
pub type AlwaysGroup<M> = AlwaysMessage<M, Delimited>;

/// A message in a box, where there is one. A record more is taken into the message that is there.
pub struct Once<M: Message, E: MessageEncoding> {
    message: PhantomData<M>,
    encoding: PhantomData<E>,
}

impl<M: Message, E: MessageEncoding> Kind for Once<M, E> {
    ghost use Rattle.std.specs.Prelude.{Option};
    ghost use Rattle.wire_fields.specs.Messages.{once_kind, boxed_value};

    type Held = Option<Box<M>>;

    ghost Value = { Option M.Value };

    ghost view = { boxed_value M.view };

    ghost kind = { once_kind E.encoding M.records M.takes M.default };

    fn empty(_alloc: Global) -> Option<Box<M>> {
        None
    }

    fn len(number: u32, held: &Option<Box<M>>, cache: &mut SizeCache) -> Result<u64, EncodeError> {
        laws::flat_messages_have_no_sizes();
        match held {
            Some(message) => E::len::<M>(number, message, cache),
            None => Ok(0),
        }
    }

    fn put<S: EncodeSink>(
        number: u32,
        held: &Option<Box<M>>,
        cache: &mut SizeCache,
        sink: &mut S,
    ) -> Result<(), EncodeError> {
        laws::flat_messages_have_no_sizes();
        match held {
            Some(message) => E::put::<M, S>(number, message, cache, sink),
            None => Ok(()),
        }
    }

    fn merge<B: Buf>(
        alloc: Global,
        tag: Tag,
        held: &mut Option<Box<M>>,
        buf: &mut B,
        context: &mut DecodeContext,
    ) -> Result<(), DecodeError> {
        match held {
            Some(message) => E::merge::<M, B>(alloc, tag, message, buf, context),
            None => {
                let mut message = M::default_value(alloc);
                E::merge::<M, B>(alloc, tag, &mut message, buf, context)?;
                hold(held, alloc, message)
            }
        }
    }

    fn clear(held: &mut Option<Box<M>>) {
        *held = None;
    }
}

/// As many messages as there are records, in order. Each is charged for so many bytes of element
/// memory, which are best the size of the type `M`.
pub struct Each<M: Message, E: MessageEncoding, const PLACE: usize> {
    message: PhantomData<M>,
    encoding: PhantomData<E>,
}

impl<M: Message, E: MessageEncoding, const PLACE: usize> Kind for Each<M, E, PLACE> {
    ghost use Rattle.std.specs.Prelude.{List};
    ghost use Rattle.wire_fields.specs.Messages.{each_kind};

    type Held = Vec<M>;

    ghost Value = { List M.Value };

    ghost view = { λ v. map M.view v.items };

    ghost kind = { each_kind PLACE E.encoding M.records M.takes M.default };

    fn empty(alloc: Global) -> Vec<M> {
        Vec::new(alloc)
    }

    fn len(number: u32, held: &Vec<M>, cache: &mut SizeCache) -> Result<u64, EncodeError> {
        each_len::<M, E>(number, held, cache)
    }

    fn put<S: EncodeSink>(
        number: u32,
        held: &Vec<M>,
        cache: &mut SizeCache,
        sink: &mut S,
    ) -> Result<(), EncodeError> {
        put_each::<M, E, S>(number, held, cache, sink)
    }

    fn merge<B: Buf>(
        alloc: Global,
        tag: Tag,
        held: &mut Vec<M>,
        buf: &mut B,
        context: &mut DecodeContext,
    ) -> Result<(), DecodeError> {
        laws::grammar::limits_add_up();
        laws::levels_and_counts();
        context.register_element_memory(PLACE)?;
        let mut message = M::default_value(alloc);
        E::merge::<M, B>(alloc, tag, &mut message, buf, context)?;
        push(held, message)
    }

    fn clear(held: &mut Vec<M>) {
        held.clear();
    }
}

/// A message that is always written, as one of a oneof.
pub struct AlwaysMessage<M: Message, E: MessageEncoding> {
    message: PhantomData<M>,
    encoding: PhantomData<E>,
}

impl<M: Message, E: MessageEncoding> Kind for AlwaysMessage<M, E> {
    ghost use Rattle.wire_fields.specs.Messages.{always_kind};

    type Held = M;

    ghost Value = { M.Value };

    ghost view = { M.view };

    ghost kind = { always_kind E.encoding M.records M.takes M.default };

    fn empty(alloc: Global) -> M {
        M::default_value(alloc)
    }

    fn len(number: u32, held: &M, cache: &mut SizeCache) -> Result<u64, EncodeError> {
        E::len::<M>(number, held, cache)
    }

    fn put<S: EncodeSink>(
        number: u32,
        held: &M,
        cache: &mut SizeCache,
        sink: &mut S,
    ) -> Result<(), EncodeError> {
        E::put::<M, S>(number, held, cache, sink)
    }

    fn merge<B: Buf>(
        alloc: Global,
        tag: Tag,
        held: &mut M,
        buf: &mut B,
        context: &mut DecodeContext,
    ) -> Result<(), DecodeError> {
        E::merge::<M, B>(alloc, tag, held, buf, context)
    }

    fn clear(held: &mut M) {
        held.clear();
    }
}

// How many bytes the records of the messages take.
fn each_len<M: Message, E: MessageEncoding>(
    number: u32,
    messages: &[M],
    cache: &mut SizeCache,
) -> Result<u64, EncodeError>
    requires { IsFieldNumber number }
    ensures ok { IfOk result (λ len. Measures
        (message_each E.encoding M.records number (map M.view messages.now))
        cache.old cache.new len) }
    ensures err { IfErr result (λ e. e ≡ OutOfMemory) }
{
    laws::joined_records_add_up();
    let mut size = 0u64;
    for message in messages {
        size = size.saturating_add(E::len::<M>(number, message, cache)?);
    }
    Ok(size)
}

// Writes the records of the messages.
fn put_each<M: Message, E: MessageEncoding, S: EncodeSink>(
    number: u32,
    messages: &[M],
    cache: &mut SizeCache,
    sink: &mut S,
) -> Result<(), EncodeError>
    requires number { IsFieldNumber number }
    requires sizes { NextAre
        (sizes (message_each E.encoding M.records number (map M.view messages.now))) cache.old }
    requires size { text_size (message_each E.encoding M.records number (map M.view messages.now))
        ≤ 2147483647 }
    ensures written { Writes (text (message_each E.encoding M.records number (map M.view messages.now)))
        (S.held sink.old) (S.held sink.new) result }
    ensures read { OnOk result (cache.new ≡ advanced cache.old (length
        (sizes (message_each E.encoding M.records number (map M.view messages.now))))) }
{
    laws::joined_records_add_up();
    laws::piece_by_piece();
    for message in messages {
        E::put::<M, S>(number, message, cache, sink)?;
    }
    Ok(())
}

// Puts a message into a field.
fn hold<M: Message>(
    field: &mut Option<Box<M>>,
    alloc: Global,
    message: M,
) -> Result<(), DecodeError>
    ensures ok { OnOk result (boxed_value M.view field.new ≡ Some (M.view message)) }
    ensures err { IfErr result (λ e. e ≡ errors.OutOfMemory) }
{
    *field = Some(Box::new(alloc, message)?);
    Ok(())
}

// Puts a message behind others.
fn push<M: Message>(messages: &mut Vec<M>, message: M) -> Result<(), DecodeError>
    ensures ok { OnOk result (messages.new.items ≡ messages.old.items ++ message ∷ []) }
    ensures err { IfErr result (λ e. e ≡ errors.OutOfMemory) }
{
    messages.push(message).map_err(|_| DecodeError::OutOfMemory)
}
