//! The scalar types that stand on the wire as varints, and the number of each of their values.
ghost use Rattle.std.specs.Prelude.{◌≡◌, ◌%◌, ◌^◌};
ghost use Rattle.wire_scalar.specs.ValueMap.{ValueMap, zigzag, unzigzag};

/// How the values of a type stand on the wire as numbers.
pub trait VarintScalar {
    /// What a program holds.
    type Value: Copy;

    /// The number that is written for a value, and the value that is read from a number.
    ghost map: { ValueMap Self.Value };

    /// The number that is written for a value.
    fn number_of(value: Self::Value) -> u64
        ensures { result ≡ map.enc value };

    /// The value that is read from a number.
    fn value_of(number: u64) -> Self::Value
        ensures { result ≡ map.dec number };
}

/// The type `int32`. A negative value is a number of 64 bits; of a number the low 32 bits are read.
pub struct Int32;

impl VarintScalar for Int32 {
    ghost use Rattle.wire_scalar.specs.ValueMap.{int32};

    type Value = i32;

    ghost map = { int32 };

    fn number_of(value: i32) -> u64 {
        i64::from(value).cast_unsigned()
    }

    fn value_of(number: u64) -> i32 {
        low_bits(number).cast_signed()
    }
}

/// The type `int64`. A negative value is its two's complement.
pub struct Int64;

impl VarintScalar for Int64 {
    ghost use Rattle.wire_scalar.specs.ValueMap.{int64};

    type Value = i64;

    ghost map = { int64 };

    fn number_of(value: i64) -> u64 {
        value.cast_unsigned()
    }

    fn value_of(number: u64) -> i64 {
        number.cast_signed()
    }
}

/// The type `uint32`. Of a number the low 32 bits are read.
pub struct Uint32;

impl VarintScalar for Uint32 {
    ghost use Rattle.wire_scalar.specs.ValueMap.{uint32};

    type Value = u32;

    ghost map = { uint32 };

    fn number_of(value: u32) -> u64 {
        u64::from(value)
    }

    fn value_of(number: u64) -> u32 {
        low_bits(number)
    }
}

/// The type `uint64`.
pub struct Uint64;

impl VarintScalar for Uint64 {
    ghost use Rattle.wire_scalar.specs.ValueMap.{uint64};

    type Value = u64;

    ghost map = { uint64 };

    fn number_of(value: u64) -> u64 {
        value
    }

    fn value_of(number: u64) -> u64 {
        number
    }
}

/// The type `sint32`, in zigzag order. Of a number the low 32 bits are read.
pub struct Sint32;

impl VarintScalar for Sint32 {
    ghost use Rattle.wire_scalar.specs.ValueMap.{sint32};

    type Value = i32;

    ghost map = { sint32 };

    fn number_of(value: i32) -> u64 {
        to_zigzag(i64::from(value))
    }

    fn value_of(number: u64) -> i32 {
        from_zigzag(u64::from(low_bits(number))) as i32
    }
}

/// The type `sint64`, in zigzag order: 0, -1, 1, -2, 2 .. as 0, 1, 2, 3, 4 ..
pub struct Sint64;

impl VarintScalar for Sint64 {
    ghost use Rattle.wire_scalar.specs.ValueMap.{sint64};

    type Value = i64;

    ghost map = { sint64 };

    fn number_of(value: i64) -> u64 {
        to_zigzag(value)
    }

    fn value_of(number: u64) -> i64 {
        from_zigzag(number)
    }
}

/// The type `bool`. Each number but 0 is read as true.
pub struct Bool;

impl VarintScalar for Bool {
    ghost use Rattle.wire_scalar.specs.ValueMap.{bool};

    type Value = bool;

    ghost map = { bool };

    fn number_of(value: bool) -> u64 {
        u64::from(value)
    }

    fn value_of(number: u64) -> bool {
        number != 0
    }
}

// The low 32 bits of a number.
fn low_bits(number: u64) -> u32
    ensures { result ≡ number % 2 ^ 32 }
{
    (number % (1 << 32)) as u32
}

// Numbers of small magnitude, of either sign, as small numbers: 0, -1, 1, -2, 2 ..
fn to_zigzag(value: i64) -> u64
    ensures { result ≡ zigzag value }
{
    if value >= 0 {
        2 * (value as u64)
    } else {
        2 * (value.unsigned_abs() - 1) + 1
    }
}

// The number that `to_zigzag` maps to this one.
fn from_zigzag(number: u64) -> i64
    ensures { result ≡ unzigzag number }
{
    let half = (number / 2) as i64;
    if number % 2 == 0 { half } else { -half - 1 }
}
