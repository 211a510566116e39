//! Numbers, as a struct holds them.
ghost use Rattle.std.specs.Prelude.{◌≡◌, ◌<◌, ◌^◌, OnErr, IfOk};
ghost use Rattle.wire_codec.specs.TagView.{tag_number, tag_type};
ghost use Rattle.wire_fields.specs.declared.form.Form.TheVariants.{Fixed32};
ghost use Rattle.wire_fields.specs.Numbers.{ReadsNumber, NoNumber};

use crate::scalar::StructScalar;
use bytes::Buf;
use std::marker::PhantomData;
use wire_codec::scalar::{Int32, VarintScalar};
use wire_codec::{
    DecodeError, Enumeration, Tag, WireType, check_wire_type, decode_fixed32, decode_fixed64,
    decode_varint, laws,
};
use wire_fields::{Form, Number, Numeric};

/// Reads the number behind this tag. A tag of another wire type is `WireTypeMismatch`.
#[inline(always)]
pub(crate) fn read_number<B: Buf>(tag: Tag, form: Form, buf: &mut B) -> Result<u64, DecodeError>
    ensures ok { IfOk result (λ x. ReadsNumber form (tag_number tag) (tag_type tag) x
        (B.unread buf.old) (B.unread buf.new)) }
    ensures narrow { IfOk result (λ x. form ≡ Fixed32 → x < 2 ^ 32) }
    ensures err { OnErr result (NoNumber form (tag_number tag) (tag_type tag)
        (B.unread buf.old)) }
{
    laws::grammar::no_varint_beside_fault();
    match form {
        Form::Varint => {
            check_wire_type(tag, WireType::Varint)?;
            decode_varint(buf)
        }
        Form::Fixed64 => {
            check_wire_type(tag, WireType::Fixed64)?;
            decode_fixed64(buf)
        }
        Form::Fixed32 => {
            check_wire_type(tag, WireType::Fixed32)?;
            Ok(u64::from(decode_fixed32(buf)?))
        }
    }
}

/// A number that a message holds as C does, as `Int32` and `Bool`: each but `float`, `double` and
/// enums.
pub struct NumberInC<'a, S> {
    bytes: PhantomData<&'a [u8]>,
    scalar: PhantomData<S>,
}

impl<'a, N: Number> StructScalar for NumberInC<'a, Numeric<N>> {
    ghost use Rattle.wire_fields.specs.Numbers.{numeric};

    type Source = &'a [u8];

    type Held = N::Value;

    ghost Value = { N.Value };

    ghost view = { λ v. v };

    ghost scalar = { numeric N.form N.map };

    fn empty() -> N::Value
        ensures { result ≡ N.map.dec 0 }
    {
        N::value_of(0)
    }

    fn set(tag: Tag, held: &mut N::Value, buf: &mut &'a [u8]) -> Result<(), DecodeError> {
        let x = read_number(tag, N::form(), buf)?;
        *held = N::value_of(x);
        Ok(())
    }
}

/// The type `double`, of which a struct holds the bits: in C it is a `double`.
pub struct DoubleInC<'a> {
    bytes: PhantomData<&'a [u8]>,
}

impl<'a> StructScalar for DoubleInC<'a> {
    ghost use Rattle.wire_fields.specs.declared.floats.DoubleBits.{DoubleBits};
    ghost use Rattle.wire_fields.specs.declared.form.Form.TheVariants.{Fixed64};
    ghost use Rattle.wire_fields.specs.Floats.{double};
    ghost use Rattle.wire_fields.specs.Numbers.{numeric};

    type Source = &'a [u8];

    type Held = u64;

    ghost Value = { DoubleBits };

    ghost view = { double.dec };

    ghost scalar = { numeric Fixed64 double };

    fn empty() -> u64
        ensures { double.dec result ≡ double.dec 0 }
    {
        0
    }

    fn set(tag: Tag, held: &mut u64, buf: &mut &'a [u8]) -> Result<(), DecodeError> {
        *held = read_number(tag, Form::Fixed64, buf)?;
        Ok(())
    }
}

/// The type `float`, of which a struct holds the bits: in C it is a `float`.
pub struct FloatInC<'a> {
    bytes: PhantomData<&'a [u8]>,
}

impl<'a> StructScalar for FloatInC<'a> {
    ghost use Rattle.wire_fields.specs.declared.floats.FloatBits.{FloatBits};
    ghost use Rattle.wire_fields.specs.declared.form.Form.TheVariants.{Fixed32};
    ghost use Rattle.wire_fields.specs.Floats.{float};
    ghost use Rattle.wire_fields.specs.Numbers.{numeric};

    type Source = &'a [u8];

    type Held = u32;

    ghost Value = { FloatBits };

    ghost view = { float.dec };

    ghost scalar = { numeric Fixed32 float };

    fn empty() -> u32
        ensures { float.dec result ≡ float.dec 0 }
    {
        0
    }

    fn set(tag: Tag, held: &mut u32, buf: &mut &'a [u8]) -> Result<(), DecodeError> {
        *held = read_number(tag, Form::Fixed32, buf)? as u32;
        Ok(())
    }
}

/// An open enum, of which a struct holds the number, also one that the enum does not know.
pub struct EnumInC<'a, E: Enumeration> {
    bytes: PhantomData<&'a [u8]>,
    values: PhantomData<E>,
}

impl<'a, E: Enumeration> StructScalar for EnumInC<'a, E> {
    ghost use Rattle.wire_codec.specs.EnumValue.{EnumValue};
    ghost use Rattle.wire_codec.specs.Enumeration.{known_or};
    ghost use Rattle.wire_fields.specs.declared.form.Form.TheVariants.{Varint};
    ghost use Rattle.wire_fields.specs.Enums.{open_enum};
    ghost use Rattle.wire_fields.specs.Numbers.{numeric};

    type Source = &'a [u8];

    type Held = i32;

    ghost Value = { EnumValue E };

    ghost view = { λ n. known_or (E.of_number n) n };

    ghost scalar = { numeric Varint (open_enum E.number E.of_number) };

    fn empty() -> i32
        ensures { known_or (E.of_number result) result
            ≡ (open_enum E.number E.of_number).dec 0 }
    {
        0
    }

    fn set(tag: Tag, held: &mut i32, buf: &mut &'a [u8]) -> Result<(), DecodeError> {
        *held = Int32::value_of(read_number(tag, Form::Varint, buf)?);
        Ok(())
    }
}
