//! Fields of messages, as views write them.
ghost use Rattle.std.specs.Prelude.{◌≡◌, ◌≤◌, length, map, OnOk, IfOk, IfErr};
ghost use Rattle.wire_codec.specs.EncodeError.TheVariants.{OutOfMemory};
ghost use Rattle.wire_codec.specs.FieldNumber.{IsFieldNumber};
ghost use Rattle.wire_codec.specs.Records.{text, text_size};
ghost use Rattle.wire_codec.specs.Sizes.{sizes};
ghost use Rattle.wire_codec.specs.Tape.{NextAre, advanced};
ghost use Rattle.wire_codec.specs.Writes.{Writes};
ghost use Rattle.wire_fields.specs.Measuring.{Measures};
ghost use Rattle.wire_fields.specs.Messages.{message_each};

use crate::encoding::ViewEncoding;
use crate::message_field::{AlwaysMessageIn, EachIn, OnceIn};
use crate::written::WrittenKind;
use crate::written_view::WrittenView;
use wire_codec::{EncodeError, EncodeSink, SizeCache, laws};

impl<M: WrittenView, E: ViewEncoding> WrittenKind for OnceIn<M, E> {
    fn len(number: u32, held: &Option<Box<M>>, cache: &mut SizeCache) -> Result<u64, EncodeError> {
        laws::flat_messages_have_no_sizes();
        match held {
            Some(message) => E::len::<M>(number, message, cache),
            None => Ok(0),
        }
    }

    fn put<S: EncodeSink>(
        number: u32,
        held: &Option<Box<M>>,
        cache: &mut SizeCache,
        sink: &mut S,
    ) -> Result<(), EncodeError> {
        laws::flat_messages_have_no_sizes();
        match held {
            Some(message) => E::put::<M, S>(number, message, cache, sink),
            None => Ok(()),
        }
    }
}

impl<M: WrittenView, E: ViewEncoding, const PLACE: usize> WrittenKind for EachIn<M, E, PLACE> {
    fn len(number: u32, held: &Vec<M>, cache: &mut SizeCache) -> Result<u64, EncodeError> {
        each_len::<M, E>(number, held, cache)
    }

    fn put<S: EncodeSink>(
        number: u32,
        held: &Vec<M>,
        cache: &mut SizeCache,
        sink: &mut S,
    ) -> Result<(), EncodeError> {
        put_each::<M, E, S>(number, held, cache, sink)
    }
}

impl<M: WrittenView, E: ViewEncoding> WrittenKind for AlwaysMessageIn<M, E> {
    fn len(number: u32, held: &M, cache: &mut SizeCache) -> Result<u64, EncodeError> {
        E::len::<M>(number, held, cache)
    }

    fn put<S: EncodeSink>(
        number: u32,
        held: &M,
        cache: &mut SizeCache,
        sink: &mut S,
    ) -> Result<(), EncodeError> {
        E::put::<M, S>(number, held, cache, sink)
    }
}

// How many bytes the records of the messages take.
fn each_len<M: WrittenView, E: ViewEncoding>(
    number: u32,
    messages: &[M],
    cache: &mut SizeCache,
) -> Result<u64, EncodeError>
    requires { IsFieldNumber number }
    ensures ok { IfOk result (λ len. Measures
        (message_each E.encoding M.records number (map M.view messages.now))
        cache.old cache.new len) }
    ensures err { IfErr result (λ e. e ≡ OutOfMemory) }
{
    laws::joined_records_add_up();
    let mut size = 0u64;
    for message in messages {
        size = size.saturating_add(E::len::<M>(number, message, cache)?);
    }
    Ok(size)
}

// Writes the records of the messages.
fn put_each<M: WrittenView, E: ViewEncoding, S: EncodeSink>(
    number: u32,
    messages: &[M],
    cache: &mut SizeCache,
    sink: &mut S,
) -> Result<(), EncodeError>
    requires number { IsFieldNumber number }
    requires sizes { NextAre
        (sizes (message_each E.encoding M.records number (map M.view messages.now))) cache.old }
    requires size { text_size (message_each E.encoding M.records number (map M.view messages.now))
        ≤ 2147483647 }
    ensures written { Writes (text (message_each E.encoding M.records number (map M.view messages.now)))
        (S.held sink.old) (S.held sink.new) result }
    ensures read { OnOk result (cache.new ≡ advanced cache.old (length
        (sizes (message_each E.encoding M.records number (map M.view messages.now))))) }
{
    laws::joined_records_add_up();
    laws::piece_by_piece();
    for message in messages {
        E::put::<M, S>(number, message, cache, sink)?;
    }
    Ok(())
}
