//! Values of closed enums, by the tables of their names.
ghost use Rattle.std.specs.Prelude.{◌≡◌, true};

use crate::enum_value::{EnumNamed, JsonNames};
use std::alloc::{AllocError, Global};
use std::marker::PhantomData;
use wire_codec::EnumValue;
use wire_jsonfields::JsonScalar;
use wire_protojson::{ReadError, no_value, read_enum};

/// A value of a closed enum, as of an open one, but that a number which the enum does not have is
/// refused. Such a number that a message holds is written, and not read back. The default is 0, also
/// where the enum lacks it: a field of a closed enum has presence, and is `Optional`.
pub struct ClosedNamed<N: JsonNames> {
    names: PhantomData<N>,
}

impl<N: JsonNames> JsonScalar for ClosedNamed<N> {
    ghost use Rattle.std.specs.Prelude.{ℤ, pos};
    ghost use Rattle.wire_codec.specs.Enumeration.{number_of};
    ghost use Rattle.wire_protojson.specs.Enums.{IsEnumTree};
    ghost use Rattle.wire_jsonfields.specs.Flat.{flat_enum};
    ghost use Rattle.wire_jsonkinds.specs.ClosedEnums.{IsInClosed, MeansClosed};
    ghost use Rattle.wire_jsonkinds.specs.ClosedEnums.{closed_comes_back, closed_decided};

    type Held = EnumValue<N::Enum>;

    ghost Value = { ℤ };

    ghost view = { number_of N.Enum.number };

    ghost means = { MeansClosed N.Enum.of_number N.table };

    ghost tree = { IsEnumTree N.table };

    ghost default = { pos 0 };

    ghost decided = { closed_decided N.Enum.of_number N.table };

    ghost flat = { flat_enum N.table };

    ghost in_range = { IsInClosed N.Enum.of_number };

    ghost back = { closed_comes_back N.Enum.of_number N.table N.agree N.texts };

    fn default_value(alloc: Global) -> EnumValue<N::Enum> {
        EnumNamed::<N>::default_value(alloc)
    }

    fn read_json(
        alloc: Global,
        text: &[u8],
        at: usize,
    ) -> Result<(EnumValue<N::Enum>, usize), ReadError> {
        match read_enum(alloc, N::names(), text, at) {
            Ok((number, after)) => {
                let value = EnumValue::from(number);
                if value.is_unknown() {
                    return Err(no_value(at));
                }
                Ok((value, after))
            }
            Err(error) => Err(error),
        }
    }

    fn is_default(held: &EnumValue<N::Enum>) -> bool {
        EnumNamed::<N>::is_default(held)
    }

    fn write_json(
        alloc: Global,
        out: &mut Vec<u8>,
        held: &EnumValue<N::Enum>,
    ) -> Result<(), AllocError> {
        EnumNamed::<N>::write_json(alloc, out, held)
    }
}
