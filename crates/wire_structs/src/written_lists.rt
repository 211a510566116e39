//! Lists that a program hands in beside a struct, as they are written: a record for each value.
ghost use Rattle.std.specs.Prelude.{◌≡◌, ◌<◌, ◌^◌, map};
ghost use Rattle.wire_codec.specs.FieldNumber.{IsFieldNumber};
ghost use Rattle.wire_codec.specs.Records.{text, text_size};
ghost use Rattle.wire_codec.specs.Writes.{Writes};
ghost use Rattle.wire_fields.specs.Messages.{length_prefixed, message_each};
ghost use Rattle.wire_fields.specs.Numbers.{in_64_bits};
ghost use Rattle.wire_fields.specs.Presence.{each_record};

use crate::payload::{put_record, record_len};
use crate::written::{WrittenStruct, WrittenStructScalar};
use crate::written_messages::{message_len, put_message};
use wire_codec::{EncodeError, EncodeSink, laws};

/// How many bytes the records of the values take, as those of `Repeated` of `wire_fields`, or
/// `u64::MAX` where it is more.
pub fn values_len<S: WrittenStructScalar>(number: u32, values: &[S::Held]) -> u64
    requires { IsFieldNumber number }
    ensures { result ≡ in_64_bits (text_size (each_record S.scalar number (map S.view values.now))) }
{
    laws::joined_records_add_up();
    let mut size = 0u64;
    for value in values {
        size = size.saturating_add(record_len(number, S::payload(value)));
    }
    size
}

/// Writes the records of the values. Refused where the sink refuses a put.
pub fn put_values<S: WrittenStructScalar, E: EncodeSink>(
    number: u32,
    values: &[S::Held],
    sink: &mut E,
) -> Result<(), EncodeError>
    requires { IsFieldNumber number }
    ensures { Writes (text (each_record S.scalar number (map S.view values.now)))
        (E.held sink.old) (E.held sink.new) result }
{
    laws::joined_records_add_up();
    laws::piece_by_piece();
    for value in values {
        put_record(number, S::payload(value), sink)?;
    }
    Ok(())
}

/// How many bytes the records of the messages take, as those of `EachEmbedded` of `wire_fields`, or
/// `u64::MAX` where it is more.
pub fn messages_len<M: WrittenStruct>(number: u32, messages: &[M]) -> u64
    requires { IsFieldNumber number }
    ensures { result ≡ in_64_bits (text_size
        (message_each length_prefixed M.records number (map M.value messages.now))) }
{
    laws::joined_records_add_up();
    let mut size = 0u64;
    for message in messages {
        size = size.saturating_add(message_len(number, message));
    }
    size
}

/// Writes the records of the messages, of fewer than `2^64` bytes. Refused where the sink refuses a
/// put.
pub fn put_messages<M: WrittenStruct, E: EncodeSink>(
    number: u32,
    messages: &[M],
    sink: &mut E,
) -> Result<(), EncodeError>
    requires number { IsFieldNumber number }
    requires size { text_size (message_each length_prefixed M.records number
        (map M.value messages.now)) < 2 ^ 64 }
    ensures { Writes (text (message_each length_prefixed M.records number
        (map M.value messages.now))) (E.held sink.old) (E.held sink.new) result }
{
    laws::joined_records_add_up();
    laws::piece_by_piece();
    for message in messages {
        put_message(number, message, sink)?;
    }
    Ok(())
}
