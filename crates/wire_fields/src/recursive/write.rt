//! Messages that hold themselves or one another, written.
ghost use Rattle.std.specs.Prelude.{◌≡◌, ◌≤◌, ◌<◌, length, OnOk};
ghost use Rattle.wire_codec.specs.FieldNumber.{IsFieldNumber};
ghost use Rattle.wire_codec.specs.Records.{text, text_size};
ghost use Rattle.wire_codec.specs.Sizes.{sizes};
ghost use Rattle.wire_codec.specs.Tape.{NextAre, advanced};
ghost use Rattle.wire_codec.specs.Writes.{Writes};
ghost use Rattle.wire_fields.specs.Messages.{length_prefixed, delimited};
ghost use Rattle.wire_fields.specs.Messages.{message_record, message_each};
ghost use Rattle.wire_fields.specs.NestTable.{family_records, records_at, encoding_of};

use super::RecursiveSlice;
use wire_codec::{
    EncodeError, EncodeSink, SizeCache, laws, put_group_end, put_group_start,
    put_len_delimited_header,
};

/// What `write_to` of the message at an index does.
#[cycle(write)]
#[inline(always)]
pub fn write_slice<T: RecursiveSlice, S: EncodeSink>(
    messages: T,
    index: usize,
    cache: &mut SizeCache,
    sink: &mut S,
) -> Result<(), EncodeError>
    requires message { index < length (T.views messages) }
    requires sizes { NextAre (sizes
        (records_at T.family (T.sort messages) (T.views messages) index)) cache.old }
    requires size { text_size (records_at T.family (T.sort messages) (T.views messages) index)
        ≤ 2147483647 }
    ensures written { Writes (text (records_at T.family (T.sort messages) (T.views messages) index))
        (S.held sink.old) (S.held sink.new) result }
    ensures read { OnOk result (cache.new ≡ advanced cache.old (length (sizes
        (records_at T.family (T.sort messages) (T.views messages) index)))) }
{
    laws::joined_records_add_up();
    laws::piece_by_piece();
    messages.put_run(index, 0, cache, sink)?;
    for row in 0..messages.rows() {
        let number = messages.number(row);
        let grouped = messages.is_grouped(row);
        put_row(number, grouped, messages.row(index, row), cache, sink)?;
        messages.put_run(index, row + 1, cache, sink)?;
    }
    Ok(())
}

// Writes the records of a row. A row of no messages is passed over in place.
#[cycle(write)]
#[inline(always)]
fn put_row<T: RecursiveSlice, S: EncodeSink>(
    number: u32,
    grouped: bool,
    messages: T,
    cache: &mut SizeCache,
    sink: &mut S,
) -> Result<(), EncodeError>
    requires number { IsFieldNumber number }
    requires sizes { NextAre (sizes (message_each (encoding_of grouped)
        (family_records T.family (T.sort messages)) number (T.views messages))) cache.old }
    requires size { text_size (message_each (encoding_of grouped)
        (family_records T.family (T.sort messages)) number (T.views messages)) ≤ 2147483647 }
    ensures written { Writes (text (message_each (encoding_of grouped)
        (family_records T.family (T.sort messages)) number (T.views messages)))
        (S.held sink.old)
        (S.held sink.new) result }
    ensures read { OnOk result (cache.new ≡ advanced cache.old (length (sizes (message_each
        (encoding_of grouped) (family_records T.family (T.sort messages)) number
        (T.views messages))))) }
{
    if messages.count() == 0 {
        return Ok(());
    }
    put_each(number, grouped, messages, cache, sink)
}

// Writes the records of the messages.
#[cycle(write)]
#[inline(never)]
fn put_each<T: RecursiveSlice, S: EncodeSink>(
    number: u32,
    grouped: bool,
    messages: T,
    cache: &mut SizeCache,
    sink: &mut S,
) -> Result<(), EncodeError>
    requires number { IsFieldNumber number }
    requires sizes { NextAre (sizes (message_each (encoding_of grouped)
        (family_records T.family (T.sort messages)) number (T.views messages))) cache.old }
    requires size { text_size (message_each (encoding_of grouped)
        (family_records T.family (T.sort messages)) number (T.views messages)) ≤ 2147483647 }
    ensures written { Writes (text (message_each (encoding_of grouped)
        (family_records T.family (T.sort messages)) number (T.views messages)))
        (S.held sink.old)
        (S.held sink.new) result }
    ensures read { OnOk result (cache.new ≡ advanced cache.old (length (sizes (message_each
        (encoding_of grouped) (family_records T.family (T.sort messages)) number
        (T.views messages))))) }
{
    laws::joined_records_add_up();
    laws::piece_by_piece();
    for index in 0..messages.count() {
        put_message(number, grouped, messages, index, cache, sink)?;
    }
    Ok(())
}

// Writes the record of a message.
#[cycle(write)]
#[inline(always)]
fn put_message<T: RecursiveSlice, S: EncodeSink>(
    number: u32,
    grouped: bool,
    messages: T,
    index: usize,
    cache: &mut SizeCache,
    sink: &mut S,
) -> Result<(), EncodeError>
    requires number { IsFieldNumber number }
    requires message { index < length (T.views messages) }
    requires sizes { NextAre (sizes (message_record (encoding_of grouped) number
        (records_at T.family (T.sort messages) (T.views messages) index))) cache.old }
    requires size { text_size (message_record (encoding_of grouped) number
        (records_at T.family (T.sort messages) (T.views messages) index)) ≤ 2147483647 }
    ensures written { Writes (text (message_record (encoding_of grouped) number
        (records_at T.family (T.sort messages) (T.views messages) index))) (S.held sink.old)
        (S.held sink.new)
        result }
    ensures read { OnOk result (cache.new ≡ advanced cache.old (length (sizes (message_record
        (encoding_of grouped) number (records_at T.family (T.sort messages)
        (T.views messages) index))))) }
{
    if grouped {
        put_grouped(number, messages, index, cache, sink)
    } else {
        put_embedded(number, messages, index, cache, sink)
    }
}

// Writes an embedded message: its size, which the cache has next, and its encoding.
#[cycle(write)]
#[inline(always)]
fn put_embedded<T: RecursiveSlice, S: EncodeSink>(
    number: u32,
    messages: T,
    index: usize,
    cache: &mut SizeCache,
    sink: &mut S,
) -> Result<(), EncodeError>
    requires number { IsFieldNumber number }
    requires message { index < length (T.views messages) }
    requires sizes { NextAre (sizes (message_record length_prefixed number
        (records_at T.family (T.sort messages) (T.views messages) index))) cache.old }
    requires size { text_size (message_record length_prefixed number
        (records_at T.family (T.sort messages) (T.views messages) index)) ≤ 2147483647 }
    ensures written { Writes (text (message_record length_prefixed number
        (records_at T.family (T.sort messages) (T.views messages) index))) (S.held sink.old)
        (S.held sink.new)
        result }
    ensures read { OnOk result (cache.new ≡ advanced cache.old (length (sizes
        (message_record length_prefixed number (records_at T.family (T.sort messages)
        (T.views messages) index))))) }
{
    laws::piece_by_piece();
    let len = cache.consume_next();
    put_len_delimited_header(number, u64::from(len), sink)?;
    write_slice(messages, index, cache, sink)
}

// Writes a group, between its two tags.
#[cycle(write)]
#[inline(always)]
fn put_grouped<T: RecursiveSlice, S: EncodeSink>(
    number: u32,
    messages: T,
    index: usize,
    cache: &mut SizeCache,
    sink: &mut S,
) -> Result<(), EncodeError>
    requires number { IsFieldNumber number }
    requires message { index < length (T.views messages) }
    requires sizes { NextAre (sizes (message_record delimited number
        (records_at T.family (T.sort messages) (T.views messages) index))) cache.old }
    requires size { text_size (message_record delimited number
        (records_at T.family (T.sort messages) (T.views messages) index)) ≤ 2147483647 }
    ensures written { Writes (text (message_record delimited number
        (records_at T.family (T.sort messages) (T.views messages) index))) (S.held sink.old)
        (S.held sink.new)
        result }
    ensures read { OnOk result (cache.new ≡ advanced cache.old (length (sizes
        (message_record delimited number (records_at T.family (T.sort messages)
        (T.views messages) index))))) }
{
    laws::piece_by_piece();
    put_group_start(number, sink)?;
    write_slice(messages, index, cache, sink)?;
    put_group_end(number, sink)
}
