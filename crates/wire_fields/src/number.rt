//! Numbers behind their tags, and the types whose values stand on the wire as numbers.
ghost use Rattle.std.specs.Prelude.{◌≡◌, ◌<◌, ◌^◌, OnErr, IfOk};
ghost use Rattle.wire_codec.specs.FieldNumber.{IsFieldNumber};
ghost use Rattle.wire_codec.specs.Records.{text, text_size};
ghost use Rattle.wire_codec.specs.TagView.{tag_number, tag_type};
ghost use Rattle.wire_codec.specs.ValueMap.{ValueMap};
ghost use Rattle.wire_codec.specs.Writes.{Writes};
ghost use Rattle.wire_fields.specs.declared.form.Form.{Form};
ghost use Rattle.wire_fields.specs.declared.form.Form.TheVariants.{Fixed32};
ghost use Rattle.wire_fields.specs.Numbers.{number_record, in_64_bits, ReadsNumber, NoNumber};

use crate::form::Form;
use bytes::Buf;
use wire_codec::{
    DecodeError, EncodeError, EncodeSink, Tag, WireType, check_wire_type, decode_fixed32,
    decode_fixed64, decode_varint, laws, put_fixed32_field, put_fixed64_field, put_uint64_field,
    varint_len,
};

/// How the values of a type stand on the wire as numbers. `Numeric` makes a scalar type of it.
pub trait Number {
    /// What a message holds.
    type Value: Copy;

    /// The number that is written for a value, and the value that is read from a number.
    ghost map: { ValueMap Self.Value };

    ghost form: { Form };

    /// How the number stands on the wire.
    fn form() -> Form
        ensures { result ≡ form };

    /// The number that is written for a value.
    fn number_of(value: Self::Value) -> u64
        ensures number { result ≡ map.enc value }
        ensures narrow { form ≡ Fixed32 → result < 2 ^ 32 };

    /// The value that is read from a number, which is one of 32 bits where four bytes hold it.
    fn value_of(number: u64) -> Self::Value
        requires { form ≡ Fixed32 → number < 2 ^ 32 }
        ensures { result ≡ map.dec number };
}

/// How many bytes a field with this number takes.
pub(crate) fn number_len(number: u32, form: Form, x: u64) -> u64
    requires { IsFieldNumber number }
    ensures { result ≡ in_64_bits (text_size (number_record form number x)) }
{
    match form {
        Form::Varint => {
            (varint_len(u64::from(number) * 8) as u64).saturating_add(varint_len(x) as u64)
        }
        Form::Fixed64 => (varint_len(u64::from(number) * 8 + 1) as u64).saturating_add(8),
        Form::Fixed32 => (varint_len(u64::from(number) * 8 + 5) as u64).saturating_add(4),
    }
}

/// Writes a field with this number.
#[inline(always)]
pub(crate) fn put_number<S: EncodeSink>(
    number: u32,
    form: Form,
    x: u64,
    sink: &mut S,
) -> Result<(), EncodeError>
    requires number { IsFieldNumber number }
    requires narrow { form ≡ Fixed32 → x < 2 ^ 32 }
    ensures { Writes (text (number_record form number x))
        (S.held sink.old) (S.held sink.new) result }
{
    match form {
        Form::Varint => put_uint64_field(number, x, sink),
        Form::Fixed64 => put_fixed64_field(number, x, sink),
        Form::Fixed32 => put_fixed32_field(number, x as u32, sink),
    }
}

/// Reads the number behind this tag. A tag of another wire type is `WireTypeMismatch`.
#[inline(always)]
pub(crate) fn get_number<B: Buf>(tag: Tag, form: Form, buf: &mut B) -> Result<u64, DecodeError>
    ensures ok { IfOk result (λ x. ReadsNumber form (tag_number tag) (tag_type tag) x
        (B.unread buf.old) (B.unread buf.new)) }
    ensures narrow { IfOk result (λ x. form ≡ Fixed32 → x < 2 ^ 32) }
    ensures err { OnErr result (NoNumber form (tag_number tag) (tag_type tag)
        (B.unread buf.old)) }
    ensures kept { B.kept buf.new ≡ B.kept buf.old }
{
    laws::grammar::no_varint_beside_fault();
    match form {
        Form::Varint => {
            check_wire_type(tag, WireType::Varint)?;
            decode_varint(buf)
        }
        Form::Fixed64 => {
            check_wire_type(tag, WireType::Fixed64)?;
            decode_fixed64(buf)
        }
        Form::Fixed32 => {
            check_wire_type(tag, WireType::Fixed32)?;
            Ok(u64::from(decode_fixed32(buf)?))
        }
    }
}
