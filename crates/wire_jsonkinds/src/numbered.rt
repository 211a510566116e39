//! Values of enums that are written as numbers, and read as those that are written by name.
ghost use Rattle.std.specs.Prelude.{◌≡◌};

use crate::closed_enum::ClosedNamed;
use crate::enum_value::{EnumNamed, JsonNames};
use std::alloc::{AllocError, Global};
use std::marker::PhantomData;
use wire_codec::EnumValue;
use wire_jsonfields::JsonScalar;
use wire_protojson::{ReadError, write_int32};

/// A value of an open enum.
pub struct EnumNumbered<N: JsonNames> {
    names: PhantomData<N>,
}

impl<N: JsonNames> JsonScalar for EnumNumbered<N> {
    ghost use Rattle.std.specs.Int.{w32};
    ghost use Rattle.std.specs.Prelude.{ℤ, FitsSigned, pos};
    ghost use Rattle.wire_codec.specs.Enumeration.{number_of};
    ghost use Rattle.wire_protojson.specs.Enums.{MeansEnum};
    ghost use Rattle.wire_jsonfields.specs.EnumFields.{enum_decided};
    ghost use Rattle.wire_jsonkinds.specs.NumberedEnums.{IsNumberTree, flat_number, numbered_back};

    type Held = EnumValue<N::Enum>;

    ghost Value = { ℤ };

    ghost view = { number_of N.Enum.number };

    ghost means = { MeansEnum N.table };

    ghost tree = { IsNumberTree };

    ghost default = { pos 0 };

    ghost decided = { enum_decided N.table };

    ghost flat = { flat_number };

    ghost in_range = { FitsSigned w32 };

    ghost back = { numbered_back N.table };

    fn default_value(alloc: Global) -> EnumValue<N::Enum> {
        EnumNamed::<N>::default_value(alloc)
    }

    fn read_json(
        alloc: Global,
        text: &[u8],
        at: usize,
    ) -> Result<(EnumValue<N::Enum>, usize), ReadError> {
        EnumNamed::<N>::read_json(alloc, text, at)
    }

    fn is_default(held: &EnumValue<N::Enum>) -> bool {
        EnumNamed::<N>::is_default(held)
    }

    fn write_json(
        _alloc: Global,
        out: &mut Vec<u8>,
        held: &EnumValue<N::Enum>,
    ) -> Result<(), AllocError> {
        write_int32(out, held.to_i32())
    }
}

/// A value of a closed enum. Its default is as that of `ClosedNamed`.
pub struct ClosedNumbered<N: JsonNames> {
    names: PhantomData<N>,
}

impl<N: JsonNames> JsonScalar for ClosedNumbered<N> {
    ghost use Rattle.std.specs.Prelude.{ℤ, pos};
    ghost use Rattle.wire_codec.specs.Enumeration.{number_of};
    ghost use Rattle.wire_jsonkinds.specs.ClosedEnums.{IsInClosed, MeansClosed, closed_decided};
    ghost use Rattle.wire_jsonkinds.specs.NumberedEnums.{IsNumberTree, closed_numbered_back};
    ghost use Rattle.wire_jsonkinds.specs.NumberedEnums.{flat_number};

    type Held = EnumValue<N::Enum>;

    ghost Value = { ℤ };

    ghost view = { number_of N.Enum.number };

    ghost means = { MeansClosed N.Enum.of_number N.table };

    ghost tree = { IsNumberTree };

    ghost default = { pos 0 };

    ghost decided = { closed_decided N.Enum.of_number N.table };

    ghost flat = { flat_number };

    ghost in_range = { IsInClosed N.Enum.of_number };

    ghost back = { closed_numbered_back N.Enum.of_number N.table };

    fn default_value(alloc: Global) -> EnumValue<N::Enum> {
        ClosedNamed::<N>::default_value(alloc)
    }

    fn read_json(
        alloc: Global,
        text: &[u8],
        at: usize,
    ) -> Result<(EnumValue<N::Enum>, usize), ReadError> {
        ClosedNamed::<N>::read_json(alloc, text, at)
    }

    fn is_default(held: &EnumValue<N::Enum>) -> bool {
        ClosedNamed::<N>::is_default(held)
    }

    fn write_json(
        _alloc: Global,
        out: &mut Vec<u8>,
        held: &EnumValue<N::Enum>,
    ) -> Result<(), AllocError> {
        write_int32(out, held.to_i32())
    }
}
