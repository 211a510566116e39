//! The numbers of structs, as they stand in a packed payload.
ghost use Rattle.std.specs.Prelude.{◌≡◌, ◌<◌, ◌^◌};
ghost use Rattle.wire_fields.specs.declared.form.Form.TheVariants.{Fixed32};

use crate::number::{DoubleInC, EnumInC, FloatInC, NumberInC};
use crate::scalar::StructNumber;
use wire_codec::Enumeration;
use wire_codec::scalar::{Int32, VarintScalar};
use wire_fields::{Form, Number, Numeric};

impl<'a, N: Number> StructNumber for NumberInC<'a, Numeric<N>> {
    type Held = N::Value;

    ghost Value = { N.Value };

    ghost view = { λ v. v };

    ghost map = { N.map };

    ghost form = { N.form };

    #[inline(always)]
    fn form() -> Form
        ensures { result ≡ N.form }
    {
        N::form()
    }

    #[inline(always)]
    fn number_of(held: &N::Value) -> u64
        ensures number { result ≡ N.map.enc held.now }
        ensures narrow { N.form ≡ Fixed32 → result < 2 ^ 32 }
    {
        N::number_of(*held)
    }

    #[inline(always)]
    fn held_of(number: u64) -> N::Value
        requires { N.form ≡ Fixed32 → number < 2 ^ 32 }
        ensures { result ≡ N.map.dec number }
    {
        N::value_of(number)
    }
}

impl<'a> StructNumber for DoubleInC<'a> {
    ghost use Rattle.wire_fields.specs.declared.floats.DoubleBits.{DoubleBits};
    ghost use Rattle.wire_fields.specs.declared.form.Form.TheVariants.{Fixed64};
    ghost use Rattle.wire_fields.specs.Floats.{double};

    type Held = u64;

    ghost Value = { DoubleBits };

    ghost view = { double.dec };

    ghost map = { double };

    ghost form = { Fixed64 };

    #[inline(always)]
    fn form() -> Form
        ensures { result ≡ Fixed64 }
    {
        Form::Fixed64
    }

    #[inline(always)]
    fn number_of(held: &u64) -> u64
        ensures number { result ≡ double.enc (double.dec held.now) }
        ensures narrow { Fixed64 ≡ Fixed32 → result < 2 ^ 32 }
    {
        *held
    }

    #[inline(always)]
    fn held_of(number: u64) -> u64
        requires { Fixed64 ≡ Fixed32 → number < 2 ^ 32 }
        ensures { double.dec result ≡ double.dec number }
    {
        number
    }
}

impl<'a> StructNumber for FloatInC<'a> {
    ghost use Rattle.wire_fields.specs.declared.floats.FloatBits.{FloatBits};
    ghost use Rattle.wire_fields.specs.declared.form.Form.TheVariants.{Fixed32};
    ghost use Rattle.wire_fields.specs.Floats.{float};

    type Held = u32;

    ghost Value = { FloatBits };

    ghost view = { float.dec };

    ghost map = { float };

    ghost form = { Fixed32 };

    #[inline(always)]
    fn form() -> Form
        ensures { result ≡ Fixed32 }
    {
        Form::Fixed32
    }

    #[inline(always)]
    fn number_of(held: &u32) -> u64
        ensures number { result ≡ float.enc (float.dec held.now) }
        ensures narrow { Fixed32 ≡ Fixed32 → result < 2 ^ 32 }
    {
        u64::from(*held)
    }

    #[inline(always)]
    fn held_of(number: u64) -> u32
        requires { Fixed32 ≡ Fixed32 → number < 2 ^ 32 }
        ensures { float.dec result ≡ float.dec number }
    {
        number as u32
    }
}

impl<'a, E: Enumeration> StructNumber for EnumInC<'a, E> {
    ghost use Rattle.wire_codec.specs.EnumValue.{EnumValue};
    ghost use Rattle.wire_codec.specs.Enumeration.{known_or};
    ghost use Rattle.wire_fields.specs.declared.form.Form.TheVariants.{Varint};
    ghost use Rattle.wire_fields.specs.Enums.{open_enum};

    type Held = i32;

    ghost Value = { EnumValue E };

    ghost view = { λ n. known_or (E.of_number n) n };

    ghost map = { open_enum E.number E.of_number };

    ghost form = { Varint };

    #[inline(always)]
    fn form() -> Form
        ensures { result ≡ Varint }
    {
        Form::Varint
    }

    #[inline(always)]
    fn number_of(held: &i32) -> u64
        ensures number { result ≡ (open_enum E.number E.of_number).enc
            (known_or (E.of_number held.now) held.now) }
        ensures narrow { Varint ≡ Fixed32 → result < 2 ^ 32 }
    {
        Int32::number_of(*held)
    }

    #[inline(always)]
    fn held_of(number: u64) -> i32
        requires { Varint ≡ Fixed32 → number < 2 ^ 32 }
        ensures { known_or (E.of_number result) result ≡ (open_enum E.number E.of_number).dec number }
    {
        Int32::value_of(number)
    }
}
