//! The names of the scalar types that are numbers.
use crate::enums::Open;
use crate::scalar::Numeric;
use crate::{floats, numbers};
use wire_codec::scalar;

/// The type `bool`.
pub type Bool = Numeric<numbers::Varints<scalar::Bool>>;

/// The type `fixed32`.
pub type Fixed32 = Numeric<numbers::Fixed32>;

/// The type `fixed64`.
pub type Fixed64 = Numeric<numbers::Fixed64>;

/// The type `int32`.
pub type Int32 = Numeric<numbers::Varints<scalar::Int32>>;

/// The type `int64`.
pub type Int64 = Numeric<numbers::Varints<scalar::Int64>>;

/// The type `sfixed32`.
pub type Sfixed32 = Numeric<numbers::Sfixed32>;

/// The type `sfixed64`.
pub type Sfixed64 = Numeric<numbers::Sfixed64>;

/// The type `sint32`.
pub type Sint32 = Numeric<numbers::Varints<scalar::Sint32>>;

/// The type `sint64`.
pub type Sint64 = Numeric<numbers::Varints<scalar::Sint64>>;

/// The type `uint32`.
pub type Uint32 = Numeric<numbers::Varints<scalar::Uint32>>;

/// The type `uint64`.
pub type Uint64 = Numeric<numbers::Varints<scalar::Uint64>>;

/// The type `float`, held as its bits.
pub type Float = Numeric<floats::Float>;

/// The type `double`, held as its bits.
pub type Double = Numeric<floats::Double>;

/// An open enum, held as `EnumValue<E>`.
pub type Enum<E> = Numeric<Open<E>>;
