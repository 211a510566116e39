//! Repeated numbers: packed into one payload, or each in a record of its own. Both are read.
ghost use Rattle.std.specs.Prelude.{◌≡◌, ◌≢◌, ◌≤◌, ◌∷◌, ◌++◌, [], length, OnOk, OnErr, IfErr};
ghost use Rattle.wire_codec.specs.DecodeError.TheVariants as errors;
ghost use Rattle.wire_codec.specs.FieldNumber.{IsFieldNumber};
ghost use Rattle.wire_codec.specs.Limits.{NoCountGrew};
ghost use Rattle.wire_codec.specs.Records.{text, text_size};
ghost use Rattle.wire_codec.specs.TagView.{tag_number, tag_type};
ghost use Rattle.wire_codec.specs.Taking.{TakesRecord, IsCharged, NotTaken};
ghost use Rattle.wire_codec.specs.Writes.{Writes};
ghost use Rattle.wire_fields.specs.Numbers.{numeric, in_64_bits};
ghost use Rattle.wire_fields.specs.Packed.{packed_text, packed_records, adds_numbers};
ghost use Rattle.wire_fields.specs.Presence.{each_record};

use crate::kind::Kind;
use crate::number::{Number, get_number};
use crate::number_list::{extend_from, len_beyond_first, put_number_text};
use crate::repeated::{each_len, put_each};
use crate::scalar::{Numeric, Scalar};
use crate::text::delimited_len;
use bytes::Buf;
use std::alloc::Global;
use std::marker::PhantomData;
use wire_codec::{
    DecodeContext, DecodeError, EncodeError, EncodeSink, SizeCache, Tag, WireType, decode_length,
    laws, put_len_delimited_header,
};

/// Numbers in one payload, as a repeated field of proto3. Records of one number each are read too.
/// See "Packed Repeated Fields" of the encoding document.
pub struct Packed<S: Scalar> {
    scalar: PhantomData<S>,
}

impl<N: Number> Kind for Packed<Numeric<N>> {
    ghost use Rattle.std.specs.Prelude.{List};
    ghost use Rattle.wire_fields.specs.Packed.{packed_kind};

    type Held = Vec<N::Value>;

    ghost Value = { List N.Value };

    ghost view = { λ v. v.items };

    ghost kind = { packed_kind N.form N.map };

    fn empty(alloc: Global) -> Vec<N::Value> {
        Vec::new(alloc)
    }

    #[inline(always)]
    fn len(number: u32, held: &Vec<N::Value>, _cache: &mut SizeCache) -> Result<u64, EncodeError> {
        Ok(packed_len::<N>(number, held))
    }

    #[inline(always)]
    fn put<E: EncodeSink>(
        number: u32,
        held: &Vec<N::Value>,
        _cache: &mut SizeCache,
        sink: &mut E,
    ) -> Result<(), EncodeError> {
        laws::flat_messages_have_no_sizes();
        put_packed::<N, E>(number, held, sink)
    }

    fn merge<B: Buf>(
        alloc: Global,
        tag: Tag,
        held: &mut Vec<N::Value>,
        buf: &mut B,
        context: &mut DecodeContext,
    ) -> Result<(), DecodeError> {
        merge_numbers::<N, B>(alloc, tag, held, buf, context)
    }

    fn clear(held: &mut Vec<N::Value>) {
        held.clear();
    }
}

/// Numbers, each in a record of its own, as a repeated field of proto2. A packed payload is read too.
pub struct Unpacked<S: Scalar> {
    scalar: PhantomData<S>,
}

impl<N: Number> Kind for Unpacked<Numeric<N>> {
    ghost use Rattle.std.specs.Prelude.{List};
    ghost use Rattle.wire_fields.specs.Packed.{unpacked_kind};

    type Held = Vec<N::Value>;

    ghost Value = { List N.Value };

    ghost view = { λ v. v.items };

    ghost kind = { unpacked_kind N.form N.map };

    fn empty(alloc: Global) -> Vec<N::Value> {
        Vec::new(alloc)
    }

    fn len(number: u32, held: &Vec<N::Value>, _cache: &mut SizeCache) -> Result<u64, EncodeError> {
        laws::fields_are_plain();
        laws::joined_records_add_up();
        Ok(unpacked_len::<N>(number, held))
    }

    fn put<E: EncodeSink>(
        number: u32,
        held: &Vec<N::Value>,
        _cache: &mut SizeCache,
        sink: &mut E,
    ) -> Result<(), EncodeError> {
        laws::fields_are_plain();
        laws::joined_records_add_up();
        laws::flat_messages_have_no_sizes();
        put_unpacked::<N, E>(number, held, sink)
    }

    fn merge<B: Buf>(
        alloc: Global,
        tag: Tag,
        held: &mut Vec<N::Value>,
        buf: &mut B,
        context: &mut DecodeContext,
    ) -> Result<(), DecodeError> {
        merge_numbers::<N, B>(alloc, tag, held, buf, context)
    }

    fn clear(held: &mut Vec<N::Value>) {
        held.clear();
    }
}

// How many bytes a packed field takes.
#[inline(always)]
fn packed_len<N: Number>(number: u32, values: &[N::Value]) -> u64
    requires { IsFieldNumber number }
    ensures { result ≡ in_64_bits (text_size (packed_records N.form N.map number values.now)) }
{
    if values.is_empty() {
        return 0;
    }
    delimited_len(number, payload_len::<N>(values))
}

// How many bytes the texts of the values take: one each, and those beyond it.
#[inline(always)]
fn payload_len<N: Number>(values: &[N::Value]) -> u64
    ensures { result ≡ in_64_bits (length (packed_text N.form N.map values.now)) }
{
    let form = N::form();
    let mut len = values.len() as u64;
    for value in values {
        len = len.saturating_add(len_beyond_first(form, N::number_of(*value)));
    }
    len
}

// Writes a packed field.
fn put_packed<N: Number, E: EncodeSink>(
    number: u32,
    values: &[N::Value],
    sink: &mut E,
) -> Result<(), EncodeError>
    requires number { IsFieldNumber number }
    requires fits { text_size (packed_records N.form N.map number values.now) ≤ 2147483647 }
    ensures { Writes (text (packed_records N.form N.map number values.now))
        (E.held sink.old) (E.held sink.new) result }
{
    if values.is_empty() {
        return Ok(());
    }
    laws::piece_by_piece();
    let form = N::form();
    put_len_delimited_header(number, payload_len::<N>(values), sink)?;
    for value in values {
        put_number_text(form, N::number_of(*value), sink)?;
    }
    Ok(())
}

// How many bytes the records of the numbers take.
fn unpacked_len<N: Number>(number: u32, values: &[N::Value]) -> u64
    requires { IsFieldNumber number }
    ensures { result ≡ in_64_bits
        (text_size (each_record (numeric N.form N.map) number values.now)) }
{
    each_len::<Numeric<N>>(number, values)
}

// Writes a record for each number.
fn put_unpacked<N: Number, E: EncodeSink>(
    number: u32,
    values: &[N::Value],
    sink: &mut E,
) -> Result<(), EncodeError>
    requires { IsFieldNumber number }
    ensures { Writes (text (each_record (numeric N.form N.map) number values.now))
        (E.held sink.old) (E.held sink.new) result }
{
    put_each::<Numeric<N>, E>(number, values, sink)
}

// Takes a record of one number, or of a packed payload.
fn merge_numbers<N: Number, B: Buf>(
    alloc: Global,
    tag: Tag,
    values: &mut Vec<N::Value>,
    buf: &mut B,
    context: &mut DecodeContext,
) -> Result<(), DecodeError>
    ensures ok { OnOk result (IsCharged context.old context.new (λ c.
        TakesRecord (adds_numbers N.form N.map) context.old (tag_number tag) (tag_type tag)
        values.old.items (B.unread buf.old) c values.new.items (B.unread buf.new))) }
    ensures err { IfErr result (λ e. e ≢ errors.OutOfMemory → NotTaken
        (TakesRecord (adds_numbers N.form N.map) context.old (tag_number tag) (tag_type tag)
        values.old.items (B.unread buf.old))) }
    ensures counts { OnErr result (NoCountGrew context.old context.new) }
    ensures kept { B.kept buf.new ≡ B.kept buf.old }
{
    laws::records_in_order();
    laws::grammar::one_delimited();
    laws::grammar::no_delimited_beside_fault();
    match tag.wire_type() {
        WireType::LengthDelimited => {
            let len = decode_length(buf, None)?;
            extend_from::<N, B>(alloc, len, values, buf)
        }
        _ => {
            let x = get_number(tag, N::form(), buf)?;
            push::<N>(values, N::value_of(x))
        }
    }
}

// Puts a number behind others.
fn push<N: Number>(values: &mut Vec<N::Value>, value: N::Value) -> Result<(), DecodeError>
    ensures ok { OnOk result (values.new.items ≡ values.old.items ++ value ∷ []) }
    ensures err { IfErr result (λ e. e ≡ errors.OutOfMemory) }
{
    values.push(value).map_err(|_| DecodeError::OutOfMemory)
}
