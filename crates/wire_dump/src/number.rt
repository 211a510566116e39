//! Numbers of the kinds of a schema.
ghost use Rattle.std.specs.Prelude.{◌≡◌, ◌++◌, ℕ, List, IfSome, IfNone, OnOk, decimal, is_some, true};
ghost use Rattle.std.specs.Fmt.{signed_decimal};
ghost use Rattle.std.specs.Option.{option_map_or};
ghost use Rattle.wire_base.specs.Read.{Reads};
ghost use Rattle.wire_dump.specs.Numbers.{is_closed_at, is_known, number_type, value_name, IsNumber, ShowsNumber};

use crate::float_text::{put_double, put_float};
use itoa::Buffer;
use std::alloc::{AllocError, Global};
use wire_base::laws as grammar;
use wire_codec::scalar::{Bool, Int32, Int64, Sint32, Sint64, Uint32, VarintScalar};
use wire_codec::{WireType, decode_fixed32, decode_fixed64, decode_varint};
use wire_dynamic::{Kind, Schema};

/// The wire type of numbers of a kind, where it is one of numbers.
pub(crate) fn number_type(kind: Kind) -> Option<WireType>
    ensures { result ≡ number_type kind }
{
    match kind {
        Kind::Double | Kind::Fixed64 | Kind::Sfixed64 => Some(WireType::Fixed64),
        Kind::Float | Kind::Fixed32 | Kind::Sfixed32 => Some(WireType::Fixed32),
        Kind::Text | Kind::Blob | Kind::Message(_) | Kind::Group(_) => None,
        _ => Some(WireType::Varint),
    }
}

/// The number of this wire type at the front of bytes, which is taken off, if one stands there.
pub(crate) fn take_number(wire_type: WireType, bytes: &mut &[u8]) -> Option<u64>
    ensures some { IfSome result (λ x. Reads bytes.old.now (IsNumber wire_type x) bytes.new.now) }
    ensures none { IfNone result ((x : ℕ) (rest : List ℕ)
        → Reads bytes.old.now (IsNumber wire_type x) rest → ⊥) }
{
    grammar::no_varint_beside_fault();
    match wire_type {
        WireType::Varint => match decode_varint(bytes) {
            Ok(number) => Some(number),
            Err(_) => None,
        },
        WireType::Fixed64 => decode_fixed64(bytes).ok(),
        WireType::Fixed32 => match decode_fixed32(bytes) {
            Ok(number) => Some(number as u64),
            Err(_) => None,
        },
        _ => None,
    }
}

/// Whether a number is a value of its kind: a closed enum has no others than those that are named.
pub(crate) fn is_known(schema: &Schema, kind: Kind, number: u64) -> bool
    ensures { result ≡ is_known schema.now kind number }
{
    match kind {
        Kind::Enum(place) => {
            !is_closed_at(schema, place) || has_name(schema, place, Int32::value_of(number))
        }
        _ => true,
    }
}

fn is_closed_at(schema: &Schema, place: usize) -> bool
    ensures { result ≡ is_closed_at schema.now place }
{
    match schema.enum_at(place) {
        Some(of_enum) => of_enum.is_closed(),
        None => false,
    }
}

// Whether a number has a name in the enum at a place.
fn has_name(schema: &Schema, place: usize, number: i32) -> bool
    ensures { result ≡ is_some (value_name schema.now place number) }
{
    if let Some(of_enum) = schema.enum_at(place)
        && let Some(_) = of_enum.value_name(number)
    {
        return true;
    }
    false
}

/// Puts a number of a kind of numbers, which of 32 bits is in the low ones.
pub(crate) fn put_number_value(
    alloc: Global,
    schema: &Schema,
    out: &mut Vec<u8>,
    kind: Kind,
    number: u64,
) -> Result<(), AllocError>
    requires { is_some (number_type kind) ≡ true }
    ensures { OnOk result ((text : List ℕ) × ShowsNumber schema.now kind number text
        × (out.new.items ≡ out.old.items ++ text)) }
{
    match kind {
        Kind::Double => put_double(alloc, out, number),
        Kind::Float => put_float(alloc, out, Uint32::value_of(number)),
        Kind::Int64 | Kind::Sfixed64 => put_signed(out, Int64::value_of(number)),
        Kind::Int32 | Kind::Sfixed32 => put_signed(out, Int32::value_of(number) as i64),
        Kind::Sint32 => put_signed(out, Sint32::value_of(number) as i64),
        Kind::Sint64 => put_signed(out, Sint64::value_of(number)),
        Kind::Uint32 => put_unsigned(out, Uint32::value_of(number) as u64),
        Kind::Bool if Bool::value_of(number) => out.extend_from_slice(b"true"),
        Kind::Bool => out.extend_from_slice(b"false"),
        Kind::Enum(place) => put_enum(schema, out, place, Int32::value_of(number)),
        _ => put_unsigned(out, number),
    }
}

fn put_enum(schema: &Schema, out: &mut Vec<u8>, place: usize, number: i32) -> Result<(), AllocError>
    ensures { OnOk result (out.new.items ≡ out.old.items
        ++ option_map_or (λ name. name) (value_name schema.now place number)
        (signed_decimal number)) }
{
    if let Some(of_enum) = schema.enum_at(place)
        && let Some(name) = of_enum.value_name(number)
    {
        out.extend_from_slice(name.as_bytes())?;
        return Ok(());
    }
    put_signed(out, number as i64)
}

fn put_signed(out: &mut Vec<u8>, number: i64) -> Result<(), AllocError>
    ensures { OnOk result (out.new.items ≡ out.old.items ++ signed_decimal number) }
{
    let mut buffer = Buffer::new();
    out.extend_from_slice(buffer.format(number).as_bytes())
}

fn put_unsigned(out: &mut Vec<u8>, number: u64) -> Result<(), AllocError>
    ensures { OnOk result (out.new.items ≡ out.old.items ++ decimal number) }
{
    let mut buffer = Buffer::new();
    out.extend_from_slice(buffer.format(number).as_bytes())
}
