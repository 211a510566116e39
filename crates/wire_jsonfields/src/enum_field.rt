//! Enums as scalars, by the table of their names.
ghost use Rattle.std.specs.Prelude.{◌≡◌, ℤ};
ghost use Rattle.wire_protojson.specs.Enums.{AreTexts, EnumTable, NamesAgree, enum_table};

use crate::kind::JsonScalar;
use std::alloc::{AllocError, Global};
use std::marker::PhantomData;
use wire_protojson::{EnumName, ReadError, read_enum, write_enum};

/// An open enum as messages hold it: each `int32` is one of its values.
pub trait JsonEnum: Drop + Sized {
    /// The names and numbers of the values, of which those of one number are in the order of the
    /// schema.
    ghost table: { EnumTable };

    /// The number of a value.
    ghost number: { Self → ℤ };

    /// No name stands for two numbers.
    ghost agree: { NamesAgree table };

    /// The names are UTF-8.
    ghost texts: { AreTexts table };

    fn names() -> &'static [EnumName<'static>]
        ensures { enum_table result.now ≡ table };

    fn from_i32(value: i32) -> Self
        ensures { number result ≡ value };

    fn to_i32(&self) -> i32
        ensures { result ≡ number self.now };
}

/// The values of an enum as a scalar type: read by their names, or as any number of 32 bits, and
/// written by their first names, or as numbers where they have none.
pub struct EnumOf<E: JsonEnum> {
    values: PhantomData<E>,
}

impl<E: JsonEnum> JsonScalar for EnumOf<E> {
    ghost use Rattle.std.specs.Int.{w32};
    ghost use Rattle.std.specs.Prelude.{FitsSigned, pos};
    ghost use Rattle.wire_jsonfields.specs.KindsBack.{enum_comes_back};
    ghost use Rattle.wire_protojson.specs.Enums.{IsEnumTree, MeansEnum};
    ghost use Rattle.wire_jsonfields.specs.Flat.{flat_enum};
    ghost use Rattle.wire_jsonfields.specs.EnumFields.{enum_decided};

    type Held = E;

    ghost Value = { ℤ };

    ghost view = { E.number };

    ghost means = { MeansEnum E.table };

    ghost tree = { IsEnumTree E.table };

    ghost default = { pos 0 };

    ghost decided = { enum_decided E.table };

    ghost flat = { flat_enum E.table };

    ghost in_range = { FitsSigned w32 };

    ghost back = { enum_comes_back E.table E.agree E.texts };

    fn default_value(_alloc: Global) -> E {
        E::from_i32(0)
    }

    fn read_json(alloc: Global, text: &[u8], at: usize) -> Result<(E, usize), ReadError> {
        match read_enum(alloc, E::names(), text, at) {
            Ok((number, after)) => Ok((E::from_i32(number), after)),
            Err(error) => Err(error),
        }
    }

    fn is_default(held: &E) -> bool {
        held.to_i32() == 0
    }

    fn write_json(_alloc: Global, out: &mut Vec<u8>, held: &E) -> Result<(), AllocError> {
        write_enum(out, E::names(), held.to_i32())
    }
}
