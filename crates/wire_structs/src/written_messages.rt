//! Messages inside, as they are written: each behind its length, for which it is measured first. So
//! a message is measured once for each message around it.
ghost use Rattle.std.specs.Prelude.{◌≡◌, ◌<◌, ◌^◌};
ghost use Rattle.wire_codec.specs.FieldNumber.{IsFieldNumber};
ghost use Rattle.wire_codec.specs.Records.{text, text_size};
ghost use Rattle.wire_codec.specs.Writes.{Writes};
ghost use Rattle.wire_fields.specs.Messages.{length_prefixed, message_option, message_record};
ghost use Rattle.wire_fields.specs.Numbers.{in_64_bits};
ghost use Rattle.wire_structs.specs.Flags.{flagged};

use crate::payload::delimited_len;
use crate::written::WrittenStruct;
use wire_codec::{EncodeError, EncodeSink, laws, put_len_delimited_header};

/// How many bytes the record of the message takes, as of one that stands of a oneof, or `u64::MAX`
/// where it is more.
#[inline(always)]
pub fn message_len<M: WrittenStruct>(number: u32, message: &M) -> u64
    requires { IsFieldNumber number }
    ensures { result ≡ in_64_bits (text_size
        (message_record length_prefixed number (M.records (M.value message.now)))) }
{
    delimited_len(number, message.written_len())
}

/// Writes the record of the message, of fewer than `2^64` bytes. Refused where the sink refuses a
/// put.
pub fn put_message<M: WrittenStruct, E: EncodeSink>(
    number: u32,
    message: &M,
    sink: &mut E,
) -> Result<(), EncodeError>
    requires number { IsFieldNumber number }
    requires size { text_size (message_record length_prefixed number
        (M.records (M.value message.now))) < 2 ^ 64 }
    ensures { Writes (text (message_record length_prefixed number (M.records (M.value message.now))))
        (E.held sink.old) (E.held sink.new) result }
{
    laws::piece_by_piece();
    let len = message.written_len();
    put_len_delimited_header(number, len, sink)?;
    message.put_records(sink)
}

/// The same of a message of explicit presence, as `Embedded` of `wire_fields`: nothing, whatever it
/// holds, where its flag is not set.
#[inline(always)]
pub fn optional_message_len<M: WrittenStruct>(number: u32, has: bool, message: &M) -> u64
    requires { IsFieldNumber number }
    ensures { result ≡ in_64_bits (text_size
        (message_option length_prefixed M.records number (flagged has (M.value message.now)))) }
{
    if !has {
        return 0;
    }
    message_len(number, message)
}

/// Writes the record of such a message, of fewer than `2^64` bytes. Refused where the sink refuses
/// a put.
#[inline(always)]
pub fn put_optional_message<M: WrittenStruct, E: EncodeSink>(
    number: u32,
    has: bool,
    message: &M,
    sink: &mut E,
) -> Result<(), EncodeError>
    requires number { IsFieldNumber number }
    requires size { text_size (message_option length_prefixed M.records number
        (flagged has (M.value message.now))) < 2 ^ 64 }
    ensures { Writes (text (message_option length_prefixed M.records number
        (flagged has (M.value message.now)))) (E.held sink.old) (E.held sink.new) result }
{
    laws::piece_by_piece();
    if !has {
        return Ok(());
    }
    put_message(number, message, sink)
}
