//! Numbers, and the lengths that they take.
ghost use Rattle.std.specs.Prelude.{◌≡◌, length};
ghost use Rattle.wire_base.specs.Varint.{shortest_varint};
ghost use Rattle.wire_scalar.specs.ValueMap.{zigzag, unzigzag};

use wire_codec::scalar::{Sint64, VarintScalar};

/// The version of the calls: a change that breaks a caller changes it.
#[unsafe(no_mangle)]
pub extern "C" fn gtv_version() -> u32
    ensures { result ≡ 1 }
{
    1
}

/// How many bytes the shortest varint of a number has: 1 to 10.
#[unsafe(no_mangle)]
pub extern "C" fn gtv_varint_len(value: u64) -> usize
    ensures { result ≡ length (shortest_varint value) }
{
    wire_codec::varint_len(value)
}

/// The number of a value of type `sint64` or `sint32`: 0, -1, 1, -2, 2 .. as 0, 1, 2, 3, 4 ..
#[unsafe(no_mangle)]
pub extern "C" fn gtv_zigzag(value: i64) -> u64
    ensures { result ≡ zigzag value }
{
    Sint64::number_of(value)
}

/// The value of type `sint64` that a number stands for.
#[unsafe(no_mangle)]
pub extern "C" fn gtv_unzigzag(number: u64) -> i64
    ensures { result ≡ unzigzag number }
{
    Sint64::value_of(number)
}
