//! Packed fields of numbers of four or eight bytes each, as they are written.
ghost use Rattle.std.specs.Prelude.{◌≡◌, ◌≤◌, ◌<◌, ◌^◌, length};
ghost use Rattle.wire_codec.specs.FieldNumber.{IsFieldNumber};
ghost use Rattle.wire_codec.specs.Records.{text, text_size};
ghost use Rattle.wire_codec.specs.Writes.{Writes};
ghost use Rattle.wire_fields.specs.declared.form.Form.TheVariants.{Fixed32};
ghost use Rattle.wire_fields.specs.Numbers.{in_64_bits};
ghost use Rattle.wire_fields.specs.Packed.{number_text, packed_records, packed_text};
ghost use Rattle.wire_views.specs.FixedNumbers.{values_in};

use crate::fixed::FixedIn;
use crate::fixed_list::FixedList;
use crate::fixed_numbers::{count, take_number};
use crate::text::delimited_len;
use crate::written::WrittenKind;
use wire_codec::{
    EncodeError, EncodeSink, SizeCache, encode_fixed32, encode_fixed64, encode_varint, laws,
    put_len_delimited_header,
};
use wire_fields::{Form, Kind, Number, Numeric, Packed};

impl<'a, N: Number> WrittenKind for FixedIn<'a, Numeric<N>> {
    fn len(
        number: u32,
        held: &FixedList<'a, Numeric<N>>,
        cache: &mut SizeCache,
    ) -> Result<u64, EncodeError> {
        match held {
            FixedList::InPlace(payload) => Ok(in_place_len::<N>(number, payload)),
            FixedList::Listed(values) => {
                <Packed<Numeric<N>> as Kind>::len(number, values, cache)
            }
        }
    }

    fn put<E: EncodeSink>(
        number: u32,
        held: &FixedList<'a, Numeric<N>>,
        cache: &mut SizeCache,
        sink: &mut E,
    ) -> Result<(), EncodeError> {
        laws::flat_messages_have_no_sizes();
        match held {
            FixedList::InPlace(payload) => put_in_place::<N, E>(number, payload, sink),
            FixedList::Listed(values) => {
                <Packed<Numeric<N>> as Kind>::put(number, values, cache, sink)
            }
        }
    }
}

// How many bytes the numbers of a payload take as a field.
fn in_place_len<N: Number>(number: u32, payload: &[u8]) -> u64
    requires { IsFieldNumber number }
    ensures { result ≡ in_64_bits (text_size
        (packed_records N.form N.map number (values_in N.form N.map payload.now))) }
{
    let form = N::form();
    if count(form, payload) == 0 {
        return 0;
    }
    delimited_len(number, texts_len::<N>(form, payload))
}

// How many bytes the texts of the numbers of a payload take.
fn texts_len<N: Number>(form: Form, payload: &[u8]) -> u64
    requires { form ≡ N.form }
    ensures { result ≡ in_64_bits
        (length (packed_text N.form N.map (values_in N.form N.map payload.now))) }
{
    match form {
        Form::Varint => 0,
        Form::Fixed64 => (payload.len() / 8 * 8) as u64,
        Form::Fixed32 => (payload.len() / 4 * 4) as u64,
    }
}

// Writes the numbers of a payload as a field.
fn put_in_place<N: Number, E: EncodeSink>(
    number: u32,
    payload: &[u8],
    sink: &mut E,
) -> Result<(), EncodeError>
    requires number { IsFieldNumber number }
    requires fits { text_size (packed_records N.form N.map number
        (values_in N.form N.map payload.now)) ≤ 2147483647 }
    ensures { Writes (text (packed_records N.form N.map number
        (values_in N.form N.map payload.now))) (E.held sink.old) (E.held sink.new) result }
{
    let form = N::form();
    if count(form, payload) == 0 {
        return Ok(());
    }
    laws::piece_by_piece();
    put_len_delimited_header(number, texts_len::<N>(form, payload), sink)?;
    let mut rest = payload;
    while let Some(x) = take_number(form, &mut rest) {
        put_number_text(form, N::number_of(N::value_of(x)), sink)?;
    }
    Ok(())
}

// Writes the text of this number.
#[inline(always)]
fn put_number_text<E: EncodeSink>(form: Form, x: u64, sink: &mut E) -> Result<(), EncodeError>
    requires { form ≡ Fixed32 → x < 2 ^ 32 }
    ensures { Writes (number_text form x) (E.held sink.old) (E.held sink.new) result }
{
    laws::put_is_a_write();
    match form {
        Form::Varint => encode_varint(x, sink),
        Form::Fixed64 => encode_fixed64(x, sink),
        Form::Fixed32 => encode_fixed32(x as u32, sink),
    }
}
