//! The numbers of the format and `bool`. See "Base 128 Varints", "Bools and Enums", "Signed Integers"
//! and "Non-varint Numbers" of the encoding document.

use crate::form::Form;
use crate::number::Number;
use std::marker::PhantomData;
use wire_codec::scalar::VarintScalar;

/// A scalar type that stands on the wire as a varint, as a number.
pub struct Varints<T: VarintScalar> {
    values: PhantomData<T>,
}

impl<T: VarintScalar> Number for Varints<T> {
    ghost use Rattle.wire_fields.specs.declared.form.Form.TheVariants.{Varint};

    type Value = T::Value;

    ghost map = { T.map };

    ghost form = { Varint };

    fn form() -> Form {
        Form::Varint
    }

    fn number_of(value: T::Value) -> u64 {
        T::number_of(value)
    }

    fn value_of(number: u64) -> T::Value {
        T::value_of(number)
    }
}

/// The type `fixed32`: four bytes.
pub struct Fixed32;

impl Number for Fixed32 {
    ghost use Rattle.wire_codec.specs.ValueMap.{fixed32};
    ghost use Rattle.wire_fields.specs.declared.form.Form.TheVariants.{Fixed32};

    type Value = u32;

    ghost map = { fixed32 };

    ghost form = { Fixed32 };

    fn form() -> Form {
        Form::Fixed32
    }

    fn number_of(value: u32) -> u64 {
        u64::from(value)
    }

    fn value_of(number: u64) -> u32 {
        number as u32
    }
}

/// The type `fixed64`: eight bytes.
pub struct Fixed64;

impl Number for Fixed64 {
    ghost use Rattle.wire_codec.specs.ValueMap.{fixed64};
    ghost use Rattle.wire_fields.specs.declared.form.Form.TheVariants.{Fixed64};

    type Value = u64;

    ghost map = { fixed64 };

    ghost form = { Fixed64 };

    fn form() -> Form {
        Form::Fixed64
    }

    fn number_of(value: u64) -> u64 {
        value
    }

    fn value_of(number: u64) -> u64 {
        number
    }
}

/// The type `sfixed32`: four bytes.
pub struct Sfixed32;

impl Number for Sfixed32 {
    ghost use Rattle.wire_codec.specs.ValueMap.{sfixed32};
    ghost use Rattle.wire_fields.specs.declared.form.Form.TheVariants.{Fixed32};

    type Value = i32;

    ghost map = { sfixed32 };

    ghost form = { Fixed32 };

    fn form() -> Form {
        Form::Fixed32
    }

    fn number_of(value: i32) -> u64 {
        u64::from(value.cast_unsigned())
    }

    fn value_of(number: u64) -> i32 {
        (number as u32).cast_signed()
    }
}

/// The type `sfixed64`: eight bytes.
pub struct Sfixed64;

impl Number for Sfixed64 {
    ghost use Rattle.wire_codec.specs.ValueMap.{sfixed64};
    ghost use Rattle.wire_fields.specs.declared.form.Form.TheVariants.{Fixed64};

    type Value = i64;

    ghost map = { sfixed64 };

    ghost form = { Fixed64 };

    fn form() -> Form {
        Form::Fixed64
    }

    fn number_of(value: i64) -> u64 {
        value.cast_unsigned()
    }

    fn value_of(number: u64) -> i64 {
        number.cast_signed()
    }
}
