//! Tags as bytes.
ghost use Rattle.std.specs.Prelude.{◌≡◌, ◌++◌, length, OnOk, OnErr};
ghost use Rattle.wire_base.specs.Sink.{Writes};
ghost use Rattle.wire_base.specs.Tag.{wire_number, tag_text, tag_value};

use super::WireType;
use crate::encode_sink::EncodeSink;
use crate::error::EncodeError;
use crate::varint::varint_len;

/// Writes the shortest text of a tag, also of a number that no field may have.
#[inline(always)]
pub(crate) fn put_tag<S: EncodeSink>(
    number: u32,
    wire_type: WireType,
    sink: &mut S,
) -> Result<(), EncodeError>
    ensures { Writes (tag_text number wire_type) (S.held sink.old) (S.held sink.new) result }
{
    sink.put_varint(tag_as_number(number, wire_type))
}

/// How many bytes the shortest text of a tag has: 1 to 5, and 5 for a number that no field may
/// have.
pub fn tag_len(number: u32, wire_type: WireType) -> usize
    ensures { result ≡ length (tag_text number wire_type) }
{
    varint_len(tag_as_number(number, wire_type))
}

/// A field number and a wire type as the one number that a tag spells.
#[inline(always)]
pub fn tag_as_number(number: u32, wire_type: WireType) -> u64
    ensures { result ≡ tag_value number wire_type }
{
    8 * u64::from(number) + low_bits(wire_type)
}

// A wire type as it stands in the low three bits of a tag.
fn low_bits(wire_type: WireType) -> u64
    ensures { result ≡ wire_number wire_type }
{
    wire_type as u64
}
