//! Open enums. See "Bools and Enums" of the encoding document.
use crate::form::Form;
use crate::number::Number;
use std::marker::PhantomData;
use wire_codec::scalar::{Int32, VarintScalar};
use wire_codec::{EnumValue, Enumeration};

/// An open enum as a number: a varint, as an `int32`. A number that the enum does not know is kept.
pub struct Open<E: Enumeration> {
    values: PhantomData<E>,
}

impl<E: Enumeration> Number for Open<E> {
    ghost use Rattle.wire_fields.specs.declared.form.Form.TheVariants.{Varint};
    ghost use Rattle.wire_fields.specs.Enums.{open_enum};

    type Value = EnumValue<E>;

    ghost map = { open_enum E.number E.of_number };

    ghost form = { Varint };

    fn form() -> Form {
        Form::Varint
    }

    fn number_of(value: EnumValue<E>) -> u64 {
        Int32::number_of(value.to_i32())
    }

    fn value_of(number: u64) -> EnumValue<E> {
        EnumValue::from(Int32::value_of(number))
    }
}
