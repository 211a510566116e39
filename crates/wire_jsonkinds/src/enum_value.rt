//! The tables of the names of enums, and values of open ones.
ghost use Rattle.std.specs.Prelude.{◌≡◌};
ghost use Rattle.wire_protojson.specs.Enums.{AreTexts, EnumTable, NamesAgree, enum_table};

use std::alloc::{AllocError, Global};
use std::marker::PhantomData;
use wire_codec::{EnumValue, Enumeration};
use wire_jsonfields::JsonScalar;
use wire_protojson::{EnumName, ReadError, read_enum, write_enum};

/// The names of an enum, of which those of one number are in the order of the schema.
pub trait JsonNames {
    type Enum: Enumeration + Drop;

    ghost table: { EnumTable };

    /// No name stands for two numbers.
    ghost agree: { NamesAgree table };

    /// The names are UTF-8.
    ghost texts: { AreTexts table };

    fn names() -> &'static [EnumName<'static>]
        ensures { enum_table result.now ≡ table };
}

/// A value of an open enum: read by its name, or as any number of 32 bits, and written by the first
/// name of its number, or as a number where that has none.
pub struct EnumNamed<N: JsonNames> {
    names: PhantomData<N>,
}

impl<N: JsonNames> JsonScalar for EnumNamed<N> {
    ghost use Rattle.std.specs.Int.{w32};
    ghost use Rattle.std.specs.Prelude.{ℤ, FitsSigned, pos};
    ghost use Rattle.wire_codec.specs.Enumeration.{number_of};
    ghost use Rattle.wire_protojson.specs.Enums.{IsEnumTree, MeansEnum};
    ghost use Rattle.wire_jsonfields.specs.EnumFields.{enum_decided};
    ghost use Rattle.wire_jsonfields.specs.Flat.{flat_enum};
    ghost use Rattle.wire_jsonfields.specs.KindsBack.{enum_comes_back};

    type Held = EnumValue<N::Enum>;

    ghost Value = { ℤ };

    ghost view = { number_of N.Enum.number };

    ghost means = { MeansEnum N.table };

    ghost tree = { IsEnumTree N.table };

    ghost default = { pos 0 };

    ghost decided = { enum_decided N.table };

    ghost flat = { flat_enum N.table };

    ghost in_range = { FitsSigned w32 };

    ghost back = { enum_comes_back N.table N.agree N.texts };

    fn default_value(_alloc: Global) -> EnumValue<N::Enum> {
        EnumValue::from(0)
    }

    fn read_json(
        alloc: Global,
        text: &[u8],
        at: usize,
    ) -> Result<(EnumValue<N::Enum>, usize), ReadError> {
        match read_enum(alloc, N::names(), text, at) {
            Ok((number, after)) => Ok((EnumValue::from(number), after)),
            Err(error) => Err(error),
        }
    }

    fn is_default(held: &EnumValue<N::Enum>) -> bool {
        held.to_i32() == 0
    }

    fn write_json(
        _alloc: Global,
        out: &mut Vec<u8>,
        held: &EnumValue<N::Enum>,
    ) -> Result<(), AllocError> {
        write_enum(out, N::names(), held.to_i32())
    }
}
