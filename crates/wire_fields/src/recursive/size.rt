//! Messages that hold themselves or one another, measured.
ghost use Rattle.std.specs.Prelude.{◌≡◌, ◌<◌, length, OnOk, IfOk, IfErr};
ghost use Rattle.wire_codec.specs.EncodeError.TheVariants.{OutOfMemory};
ghost use Rattle.wire_codec.specs.FieldNumber.{IsFieldNumber};
ghost use Rattle.wire_codec.specs.Records.{text_size};
ghost use Rattle.wire_codec.specs.Sizes.{cut, cut_sizes};
ghost use Rattle.wire_codec.specs.Tape.{recorded};
ghost use Rattle.wire_fields.specs.Measuring.{Measures};
ghost use Rattle.wire_fields.specs.Messages.{length_prefixed, delimited};
ghost use Rattle.wire_fields.specs.Messages.{message_record, message_each};
ghost use Rattle.wire_fields.specs.NestTable.{family_records, records_at, encoding_of};

use super::RecursiveSlice;
use crate::text::delimited_len;
use wire_codec::{EncodeError, SizeCache, laws, saturate_size, varint_len};

/// What `compute_size` of the message at an index answers.
#[cycle(size)]
#[inline(always)]
pub fn slice_size<T: RecursiveSlice>(
    messages: T,
    index: usize,
    cache: &mut SizeCache,
) -> Result<u32, EncodeError>
    requires { index < length (T.views messages) }
    ensures size { IfOk result (λ answer. answer
        ≡ cut (text_size (records_at T.family (T.sort messages) (T.views messages) index))) }
    ensures sizes { OnOk result (cache.new ≡ recorded cache.old
        (cut_sizes (records_at T.family (T.sort messages) (T.views messages) index))) }
    ensures err { IfErr result (λ e. e ≡ OutOfMemory) }
{
    laws::joined_records_add_up();
    let mut size = messages.run_len(index, 0, cache)?;
    for row in 0..messages.rows() {
        let number = messages.number(row);
        let grouped = messages.is_grouped(row);
        let own = row_len(number, grouped, messages.row(index, row), cache)?;
        let behind = messages.run_len(index, row + 1, cache)?;
        size = size.saturating_add(own).saturating_add(behind);
    }
    Ok(saturate_size(size))
}

// How many bytes the records of a row take. A row of no messages is passed over in place.
#[cycle(size)]
#[inline(always)]
fn row_len<T: RecursiveSlice>(
    number: u32,
    grouped: bool,
    messages: T,
    cache: &mut SizeCache,
) -> Result<u64, EncodeError>
    requires { IsFieldNumber number }
    ensures ok { IfOk result (λ len. Measures (message_each (encoding_of grouped)
        (family_records T.family (T.sort messages)) number (T.views messages)) cache.old cache.new
        len) }
    ensures err { IfErr result (λ e. e ≡ OutOfMemory) }
{
    if messages.count() == 0 {
        return Ok(0);
    }
    each_len(number, grouped, messages, cache)
}

// How many bytes the records of the messages take.
#[cycle(size)]
#[inline(never)]
fn each_len<T: RecursiveSlice>(
    number: u32,
    grouped: bool,
    messages: T,
    cache: &mut SizeCache,
) -> Result<u64, EncodeError>
    requires { IsFieldNumber number }
    ensures ok { IfOk result (λ len. Measures (message_each (encoding_of grouped)
        (family_records T.family (T.sort messages)) number (T.views messages)) cache.old cache.new
        len) }
    ensures err { IfErr result (λ e. e ≡ OutOfMemory) }
{
    laws::joined_records_add_up();
    let mut size = 0u64;
    for index in 0..messages.count() {
        size = size.saturating_add(message_len(number, grouped, messages, index, cache)?);
    }
    Ok(size)
}

// How many bytes the record of a message takes.
#[cycle(size)]
#[inline(always)]
fn message_len<T: RecursiveSlice>(
    number: u32,
    grouped: bool,
    messages: T,
    index: usize,
    cache: &mut SizeCache,
) -> Result<u64, EncodeError>
    requires number { IsFieldNumber number }
    requires message { index < length (T.views messages) }
    ensures ok { IfOk result (λ len. Measures (message_record (encoding_of grouped) number
        (records_at T.family (T.sort messages) (T.views messages) index)) cache.old cache.new len) }
    ensures err { IfErr result (λ e. e ≡ OutOfMemory) }
{
    if grouped {
        grouped_len(number, messages, index, cache)
    } else {
        embedded_len(number, messages, index, cache)
    }
}

// How many bytes an embedded message takes. Its slot stands before those of the messages in it.
#[cycle(size)]
#[inline(always)]
fn embedded_len<T: RecursiveSlice>(
    number: u32,
    messages: T,
    index: usize,
    cache: &mut SizeCache,
) -> Result<u64, EncodeError>
    requires number { IsFieldNumber number }
    requires message { index < length (T.views messages) }
    ensures ok { IfOk result (λ len. Measures (message_record length_prefixed number
        (records_at T.family (T.sort messages) (T.views messages) index)) cache.old cache.new len) }
    ensures err { IfErr result (λ e. e ≡ OutOfMemory) }
{
    let slot = cache.reserve()?;
    let len = slice_size(messages, index, cache)?;
    cache.set(slot, len);
    Ok(delimited_len(number, u64::from(len)))
}

// How many bytes a group takes, with its two tags.
#[cycle(size)]
#[inline(always)]
fn grouped_len<T: RecursiveSlice>(
    number: u32,
    messages: T,
    index: usize,
    cache: &mut SizeCache,
) -> Result<u64, EncodeError>
    requires number { IsFieldNumber number }
    requires message { index < length (T.views messages) }
    ensures ok { IfOk result (λ len. Measures (message_record delimited number
        (records_at T.family (T.sort messages) (T.views messages) index)) cache.old cache.new len) }
    ensures err { IfErr result (λ e. e ≡ OutOfMemory) }
{
    let len = slice_size(messages, index, cache)?;
    let start = varint_len(u64::from(number) * 8 + 3) as u64;
    let end = varint_len(u64::from(number) * 8 + 4) as u64;
    Ok(u64::from(len).saturating_add(start).saturating_add(end))
}
