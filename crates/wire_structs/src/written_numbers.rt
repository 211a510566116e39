//! Lists of numbers that a program hands in beside a struct, as they are written packed: one record
//! for all of them. As `values_len` and `put_values`, which write a record for each.
ghost use Rattle.std.specs.Prelude.{◌≡◌, ◌<◌, ◌^◌, length, map};
ghost use Rattle.wire_codec.specs.FieldNumber.{IsFieldNumber};
ghost use Rattle.wire_codec.specs.Records.{text, text_size};
ghost use Rattle.wire_codec.specs.Writes.{Writes};
ghost use Rattle.wire_fields.specs.Numbers.{in_64_bits};
ghost use Rattle.wire_fields.specs.Packed.{packed_records, packed_text};

use crate::number_texts::{number_len, put_number};
use crate::payload::delimited_len;
use crate::scalar::StructNumber;
use wire_codec::{EncodeError, EncodeSink, laws, put_len_delimited_header};

/// How many bytes the record of the numbers takes, as that of `Packed` of `wire_fields`, or
/// `u64::MAX` where it is more; of none nothing is written.
pub fn numbers_len<S: StructNumber>(number: u32, values: &[S::Held]) -> u64
    requires { IsFieldNumber number }
    ensures { result ≡ in_64_bits (text_size
        (packed_records S.form S.map number (map S.view values.now))) }
{
    if values.is_empty() {
        return 0;
    }
    delimited_len(number, payload_len::<S>(values))
}

// How many bytes the numbers take, one after another, or `u64::MAX` where it is more.
fn payload_len<S: StructNumber>(values: &[S::Held]) -> u64
    ensures { result ≡ in_64_bits (length (packed_text S.form S.map (map S.view values.now))) }
{
    let form = S::form();
    let mut len = 0u64;
    for value in values {
        len = len.saturating_add(number_len(form, S::number_of(value)));
    }
    len
}

/// Writes the record of the numbers, of fewer than `2^64` bytes. Refused where the sink refuses a
/// put.
pub fn put_numbers<S: StructNumber, E: EncodeSink>(
    number: u32,
    values: &[S::Held],
    sink: &mut E,
) -> Result<(), EncodeError>
    requires number { IsFieldNumber number }
    requires size { text_size (packed_records S.form S.map number (map S.view values.now))
        < 2 ^ 64 }
    ensures { Writes (text (packed_records S.form S.map number (map S.view values.now)))
        (E.held sink.old) (E.held sink.new) result }
{
    if values.is_empty() {
        return Ok(());
    }
    laws::piece_by_piece();
    let form = S::form();
    put_len_delimited_header(number, payload_len::<S>(values), sink)?;
    for value in values {
        put_number(form, S::number_of(value), sink)?;
    }
    Ok(())
}
