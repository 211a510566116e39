//! Bytes behind a vector that may have no room for them. A call that is not in line takes the
//! vector by value and hands it back: one that is a local of the caller then has no address, and
//! stays in registers.
ghost use Rattle.std.specs.Prelude.{◌≡◌, true, false, ◌++◌, OnOk, OnErr};
ghost use Rattle.wire_base.specs.Delimited.{delimited_text};
ghost use Rattle.wire_base.specs.Sink.{KeepsFront, in_memory};
ghost use Rattle.wire_base.specs.Varint.{shortest_varint};

use super::{push_long, push_two};
use crate::laws;
use std::alloc::AllocError;
use std::mem;

/// Appends bytes for which there is no room.
#[inline(always)]
pub(super) fn push_growing(more: &[u8], bytes: &mut Vec<u8>) -> Result<(), AllocError>
    ensures ok { OnOk result (bytes.new.items ≡ bytes.old.items ++ more.now) }
    ensures err { OnErr result (bytes.new.items ≡ bytes.old.items) }
{
    let empty = Vec::new(*bytes.allocator());
    let (held, is_whole) = with_bytes(more, mem::replace(bytes, empty));
    mem::forget(mem::replace(bytes, held));
    if is_whole { Ok(()) } else { Err(AllocError) }
}

// The vector with the bytes behind it, and whether there was memory for them.
#[inline(never)]
fn with_bytes(more: &[u8], bytes: Vec<u8>) -> (Vec<u8>, bool)
    ensures ok { result.1 ≡ true → result.0.items ≡ bytes.items ++ more.now }
    ensures err { result.1 ≡ false → result.0.items ≡ bytes.items }
{
    let mut held = bytes;
    let is_whole = held.extend_from_slice(more).is_ok();
    (held, is_whole)
}

/// Appends the shortest varint of a number.
#[inline(always)]
pub(super) fn push_varint(value: u64, bytes: &mut Vec<u8>) -> Result<(), AllocError>
    ensures ok { OnOk result (bytes.new.items ≡ bytes.old.items ++ shortest_varint value) }
    ensures err { OnErr result (KeepsFront (in_memory bytes.old.items)
        (shortest_varint value) (in_memory bytes.new.items)) }
{
    let empty = Vec::new(*bytes.allocator());
    let (held, is_whole) = with_varint(value, mem::replace(bytes, empty));
    mem::forget(mem::replace(bytes, held));
    if is_whole { Ok(()) } else { Err(AllocError) }
}

// The vector with the varint behind it, and whether there was memory for it.
#[inline(never)]
fn with_varint(value: u64, bytes: Vec<u8>) -> (Vec<u8>, bool)
    ensures ok { result.1 ≡ true → result.0.items ≡ bytes.items ++ shortest_varint value }
    ensures err { result.1 ≡ false → KeepsFront (in_memory bytes.items)
        (shortest_varint value) (in_memory result.0.items) }
{
    let mut held = bytes;
    let is_whole = append_varint(value, &mut held).is_ok();
    (held, is_whole)
}

// Appends the shortest varint of a number byte by byte.
#[inline(always)]
fn append_varint(value: u64, bytes: &mut Vec<u8>) -> Result<(), AllocError>
    ensures ok { OnOk result (bytes.new.items ≡ bytes.old.items ++ shortest_varint value) }
    ensures err { OnErr result (KeepsFront (in_memory bytes.old.items)
        (shortest_varint value) (in_memory bytes.new.items)) }
{
    let mut rest = value;
    while rest >= 0x80 {
        bytes.push((rest % 0x80) as u8 + 0x80)?;
        rest /= 0x80;
    }
    bytes.push(rest as u8)?;
    Ok(())
}

/// Appends the shortest varints of two numbers.
#[inline(always)]
pub(super) fn push_varints(first: u64, second: u64, bytes: &mut Vec<u8>) -> Result<(), AllocError>
    ensures ok { OnOk result (bytes.new.items
        ≡ bytes.old.items ++ shortest_varint first ++ shortest_varint second) }
    ensures err { OnErr result (KeepsFront (in_memory bytes.old.items)
        (shortest_varint first ++ shortest_varint second) (in_memory bytes.new.items)) }
{
    let empty = Vec::new(*bytes.allocator());
    let (held, is_whole) = with_varints(first, second, mem::replace(bytes, empty));
    mem::forget(mem::replace(bytes, held));
    if is_whole { Ok(()) } else { Err(AllocError) }
}

// The vector with both varints behind it, and whether there was memory for them.
#[inline(never)]
fn with_varints(first: u64, second: u64, bytes: Vec<u8>) -> (Vec<u8>, bool)
    ensures ok { result.1 ≡ true → result.0.items
        ≡ bytes.items ++ shortest_varint first ++ shortest_varint second }
    ensures err { result.1 ≡ false → KeepsFront (in_memory bytes.items)
        (shortest_varint first ++ shortest_varint second) (in_memory result.0.items) }
{
    let mut held = bytes;
    let is_whole = append_varints(first, second, &mut held).is_ok();
    (held, is_whole)
}

// Appends the shortest varints of two numbers byte by byte.
#[inline(always)]
fn append_varints(first: u64, second: u64, bytes: &mut Vec<u8>) -> Result<(), AllocError>
    ensures ok { OnOk result (bytes.new.items
        ≡ bytes.old.items ++ shortest_varint first ++ shortest_varint second) }
    ensures err { OnErr result (KeepsFront (in_memory bytes.old.items)
        (shortest_varint first ++ shortest_varint second) (in_memory bytes.new.items)) }
{
    laws::two_parts();
    append_varint(first, bytes)?;
    append_varint(second, bytes)
}

/// Appends the shortest varint of a number, as a tag, and bytes.
#[inline(always)]
pub(super) fn push_behind_tag(
    first: u64,
    more: &[u8],
    bytes: &mut Vec<u8>,
) -> Result<(), AllocError>
    ensures ok { OnOk result (bytes.new.items
        ≡ bytes.old.items ++ (shortest_varint first ++ more.now)) }
    ensures err { OnErr result (KeepsFront (in_memory bytes.old.items)
        (shortest_varint first ++ more.now) (in_memory bytes.new.items)) }
{
    let empty = Vec::new(*bytes.allocator());
    let (held, is_whole) = with_tagged(first, more, mem::replace(bytes, empty));
    mem::forget(mem::replace(bytes, held));
    if is_whole { Ok(()) } else { Err(AllocError) }
}

// The vector with the varint and the bytes behind it, and whether there was memory for them.
#[inline(never)]
fn with_tagged(first: u64, more: &[u8], bytes: Vec<u8>) -> (Vec<u8>, bool)
    ensures ok { result.1 ≡ true → result.0.items
        ≡ bytes.items ++ (shortest_varint first ++ more.now) }
    ensures err { result.1 ≡ false → KeepsFront (in_memory bytes.items)
        (shortest_varint first ++ more.now) (in_memory result.0.items) }
{
    let mut held = bytes;
    let is_whole = append_tagged(first, more, &mut held).is_ok();
    (held, is_whole)
}

// Appends the shortest varint of a number, and bytes.
#[inline(always)]
fn append_tagged(first: u64, more: &[u8], bytes: &mut Vec<u8>) -> Result<(), AllocError>
    ensures ok { OnOk result (bytes.new.items
        ≡ bytes.old.items ++ (shortest_varint first ++ more.now)) }
    ensures err { OnErr result (KeepsFront (in_memory bytes.old.items)
        (shortest_varint first ++ more.now) (in_memory bytes.new.items)) }
{
    push_long(first, bytes)?;
    bytes.extend_from_slice(more)?;
    Ok(())
}

/// Appends the shortest varint of a number, as a tag, and bytes behind their length.
#[inline(always)]
pub(super) fn push_behind_length(
    first: u64,
    more: &[u8],
    bytes: &mut Vec<u8>,
) -> Result<(), AllocError>
    ensures ok { OnOk result (bytes.new.items
        ≡ bytes.old.items ++ (shortest_varint first ++ delimited_text more.now)) }
    ensures err { OnErr result (KeepsFront (in_memory bytes.old.items)
        (shortest_varint first ++ delimited_text more.now) (in_memory bytes.new.items)) }
{
    let empty = Vec::new(*bytes.allocator());
    let (held, is_whole) = with_delimited(first, more, mem::replace(bytes, empty));
    mem::forget(mem::replace(bytes, held));
    if is_whole { Ok(()) } else { Err(AllocError) }
}

// The vector with the varints and the bytes behind it, and whether there was memory for them.
#[inline(never)]
fn with_delimited(first: u64, more: &[u8], bytes: Vec<u8>) -> (Vec<u8>, bool)
    ensures ok { result.1 ≡ true → result.0.items
        ≡ bytes.items ++ (shortest_varint first ++ delimited_text more.now) }
    ensures err { result.1 ≡ false → KeepsFront (in_memory bytes.items)
        (shortest_varint first ++ delimited_text more.now) (in_memory result.0.items) }
{
    let mut held = bytes;
    let is_whole = append_delimited(first, more, &mut held).is_ok();
    (held, is_whole)
}

// Appends the varints, and the bytes.
#[inline(always)]
fn append_delimited(first: u64, more: &[u8], bytes: &mut Vec<u8>) -> Result<(), AllocError>
    ensures ok { OnOk result (bytes.new.items
        ≡ bytes.old.items ++ (shortest_varint first ++ delimited_text more.now)) }
    ensures err { OnErr result (KeepsFront (in_memory bytes.old.items)
        (shortest_varint first ++ delimited_text more.now) (in_memory bytes.new.items)) }
{
    push_two(first, more.len() as u64, bytes)?;
    bytes.extend_from_slice(more)?;
    Ok(())
}
