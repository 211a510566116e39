//! Records of one line at the front of bytes.
ghost use Rattle.std.specs.Prelude.{◌+◌, ◌^◌, ◌<◌, length, IfOk};
ghost use Rattle.wire_base.specs.declared.tag.WireType.TheVariants.{Varint, Fixed64, Fixed32};
ghost use Rattle.wire_base.specs.Read.{Reads};
ghost use Rattle.wire_base.specs.Tag.{IsTagSpelling};
ghost use Rattle.wire_dump.specs.Front.{PrintsRecord};

use crate::layout::Layout;
use crate::line::{put_fixed, put_number};
use std::alloc::AllocError;
use wire_codec::{decode_fixed32, decode_fixed64, decode_varint};

/// Puts the line of a record of bytes, behind whose tag a varint is to stand, and answers how many
/// bytes it has; else 0.
#[inline(always)]
pub(crate) fn put_varint(
    out: &mut Vec<u8>,
    layout: Layout,
    number: u32,
    place: usize,
    bytes: &[u8],
    behind: &[u8],
) -> Result<usize, AllocError>
    requires placed { place + length bytes.now < 2 ^ 64 }
    requires tag { Reads bytes.now (IsTagSpelling number Varint) behind.now }
    ensures { IfOk result (λ count. PrintsRecord layout place bytes.now count
        out.old.items out.new.items) }
{
    let mut rest = behind;
    let Ok(value) = decode_varint(&mut rest) else {
        return Ok(0);
    };
    let count = bytes.len() - rest.len();
    let margin = layout.margin(place, place + count);
    put_number(out, margin, layout.level, number, value)?;
    Ok(count)
}

/// The same of eight bytes.
#[inline(always)]
pub(crate) fn put_fixed64(
    out: &mut Vec<u8>,
    layout: Layout,
    number: u32,
    place: usize,
    bytes: &[u8],
    behind: &[u8],
) -> Result<usize, AllocError>
    requires placed { place + length bytes.now < 2 ^ 64 }
    requires tag { Reads bytes.now (IsTagSpelling number Fixed64) behind.now }
    ensures { IfOk result (λ count. PrintsRecord layout place bytes.now count
        out.old.items out.new.items) }
{
    let mut rest = behind;
    let Ok(value) = decode_fixed64(&mut rest) else {
        return Ok(0);
    };
    let count = bytes.len() - rest.len();
    let margin = layout.margin(place, place + count);
    put_fixed(out, margin, layout.level, number, 16, value)?;
    Ok(count)
}

/// The same of four bytes.
#[inline(always)]
pub(crate) fn put_fixed32(
    out: &mut Vec<u8>,
    layout: Layout,
    number: u32,
    place: usize,
    bytes: &[u8],
    behind: &[u8],
) -> Result<usize, AllocError>
    requires placed { place + length bytes.now < 2 ^ 64 }
    requires tag { Reads bytes.now (IsTagSpelling number Fixed32) behind.now }
    ensures { IfOk result (λ count. PrintsRecord layout place bytes.now count
        out.old.items out.new.items) }
{
    let mut rest = behind;
    let Ok(value) = decode_fixed32(&mut rest) else {
        return Ok(0);
    };
    let count = bytes.len() - rest.len();
    let margin = layout.margin(place, place + count);
    put_fixed(out, margin, layout.level, number, 8, value as u64)?;
    Ok(count)
}
