//! The scalar types of structs, as they are written.
ghost use Rattle.std.specs.Prelude.{◌≡◌};
ghost use Rattle.wire_structs.specs.Payloads.{scalar_payload};

use crate::number::{DoubleInC, EnumInC, FloatInC, NumberInC};
use crate::payload::ScalarPayload;
use crate::text::{BytesInC, BytesSliceInC, TextInC, TextSliceInC};
use crate::walking::SliceInC;
use crate::written::WrittenStructScalar;
use wire_codec::Enumeration;
use wire_codec::scalar::{Int32, VarintScalar};
use wire_fields::{Form, Number, Numeric};

impl<'a, N: Number> WrittenStructScalar for NumberInC<'a, Numeric<N>> {
    ghost use Rattle.wire_fields.specs.Numbers.{numeric};

    #[inline(always)]
    fn is_default(held: &N::Value) -> bool
        ensures { result ≡ (numeric N.form N.map).is_default held.now }
    {
        N::number_of(*held) == 0
    }

    #[inline(always)]
    fn payload<'h>(held: &'h N::Value) -> ScalarPayload<'h>
        ensures { scalar_payload result ≡ (numeric N.form N.map).payload held.now }
    {
        let number = N::number_of(*held);
        match N::form() {
            Form::Varint => ScalarPayload::Varint(number),
            Form::Fixed64 => ScalarPayload::Fixed64(number),
            Form::Fixed32 => ScalarPayload::Fixed32(number as u32),
        }
    }
}

impl<'a> WrittenStructScalar for DoubleInC<'a> {
    ghost use Rattle.wire_fields.specs.declared.form.Form.TheVariants.{Fixed64};
    ghost use Rattle.wire_fields.specs.Floats.{double};
    ghost use Rattle.wire_fields.specs.Numbers.{numeric};

    #[inline(always)]
    fn is_default(held: &u64) -> bool
        ensures { result ≡ (numeric Fixed64 double).is_default (double.dec held.now) }
    {
        *held == 0
    }

    #[inline(always)]
    fn payload<'h>(held: &'h u64) -> ScalarPayload<'h>
        ensures { scalar_payload result ≡ (numeric Fixed64 double).payload (double.dec held.now) }
    {
        ScalarPayload::Fixed64(*held)
    }
}

impl<'a> WrittenStructScalar for FloatInC<'a> {
    ghost use Rattle.wire_fields.specs.declared.form.Form.TheVariants.{Fixed32};
    ghost use Rattle.wire_fields.specs.Floats.{float};
    ghost use Rattle.wire_fields.specs.Numbers.{numeric};

    #[inline(always)]
    fn is_default(held: &u32) -> bool
        ensures { result ≡ (numeric Fixed32 float).is_default (float.dec held.now) }
    {
        *held == 0
    }

    #[inline(always)]
    fn payload<'h>(held: &'h u32) -> ScalarPayload<'h>
        ensures { scalar_payload result ≡ (numeric Fixed32 float).payload (float.dec held.now) }
    {
        ScalarPayload::Fixed32(*held)
    }
}

impl<'a, E: Enumeration> WrittenStructScalar for EnumInC<'a, E> {
    ghost use Rattle.wire_codec.specs.Enumeration.{known_or};
    ghost use Rattle.wire_fields.specs.declared.form.Form.TheVariants.{Varint};
    ghost use Rattle.wire_fields.specs.Enums.{open_enum};
    ghost use Rattle.wire_fields.specs.Numbers.{numeric};

    #[inline(always)]
    fn is_default(held: &i32) -> bool
        ensures { result ≡ (numeric Varint (open_enum E.number E.of_number)).is_default
            (known_or (E.of_number held.now) held.now) }
    {
        Int32::number_of(*held) == 0
    }

    #[inline(always)]
    fn payload<'h>(held: &'h i32) -> ScalarPayload<'h>
        ensures { scalar_payload result ≡ (numeric Varint (open_enum E.number E.of_number)).payload
            (known_or (E.of_number held.now) held.now) }
    {
        ScalarPayload::Varint(Int32::number_of(*held))
    }
}

impl<'a> WrittenStructScalar for TextInC<'a> {
    #[inline(always)]
    fn is_default(held: &&'a [u8]) -> bool {
        held.is_empty()
    }

    #[inline(always)]
    fn payload<'h>(held: &'h &'a [u8]) -> ScalarPayload<'h> {
        ScalarPayload::Bytes(*held)
    }
}

impl<'a> WrittenStructScalar for BytesInC<'a> {
    #[inline(always)]
    fn is_default(held: &&'a [u8]) -> bool {
        held.is_empty()
    }

    #[inline(always)]
    fn payload<'h>(held: &'h &'a [u8]) -> ScalarPayload<'h> {
        ScalarPayload::Bytes(*held)
    }
}

impl<'a> WrittenStructScalar for TextSliceInC<'a> {
    #[inline(always)]
    fn is_default(held: &SliceInC<'a>) -> bool {
        held.bytes.is_empty()
    }

    #[inline(always)]
    fn payload<'h>(held: &'h SliceInC<'a>) -> ScalarPayload<'h> {
        ScalarPayload::Bytes(held.bytes)
    }
}

impl<'a> WrittenStructScalar for BytesSliceInC<'a> {
    #[inline(always)]
    fn is_default(held: &SliceInC<'a>) -> bool {
        held.bytes.is_empty()
    }

    #[inline(always)]
    fn payload<'h>(held: &'h SliceInC<'a>) -> ScalarPayload<'h> {
        ScalarPayload::Bytes(held.bytes)
    }
}
