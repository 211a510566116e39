//! Where encoded bytes go.
ghost use Rattle.std.specs.Prelude.{◌≡◌, ◌+◌, ◌<◌, ◌≤◌, [], ◌∷◌, ◌++◌, OnOk, OnErr, length};
ghost use Rattle.std.specs.Int.{w32, w64, cast_unsigned, to_le_bytes};
ghost use Rattle.std.specs.Vec.{vec_len, vec_capacity};
ghost use Rattle.wire_base.specs.Delimited.{delimited_text};
ghost use Rattle.wire_base.specs.Sink.{Held, KeepsFront, Puts, Writes, in_memory};
ghost use Rattle.wire_base.specs.Varint.{shortest_varint};

use crate::error::EncodeError;
use crate::laws;
use bytes::Bytes;
use growth::{push_behind_length, push_behind_tag, push_growing, push_varint, push_varints};
use std::alloc::AllocError;
use std::mem;

mod bytes_mut;
mod growth;

/// A growing list of bytes. A put appends all of its bytes or none: it answers `LengthOverflow`
/// exactly where all bytes of the sink would then be more than it can count, and else `OutOfMemory`
/// where it finds no room. A call of several puts leaves those before the refused one.
pub trait EncodeSink {
    /// The bytes that were put, in order; the most that the sink can count, where it counts them,
    /// else memory alone bounds it; and the slice that they are put into, where it has one.
    ghost held: { Self → Held };

    /// Whether the sink can keep a shared run of bytes as a segment of its own, so that a caller
    /// that has one saves the copy by `put_shared`.
    const IS_SEGMENTED: bool = false;

    /// Appends one byte.
    fn put_u8(&mut self, value: u8) -> Result<(), EncodeError>
        ensures { Puts (value ∷ []) (held self.old) (held self.new) result };

    /// Appends the bytes.
    fn put_slice(&mut self, bytes: &[u8]) -> Result<(), EncodeError>
        ensures { Puts bytes.now (held self.old) (held self.new) result };

    /// Appends four bytes, the lowest first.
    fn put_u32_le(&mut self, value: u32) -> Result<(), EncodeError>
        ensures { Puts (to_le_bytes w32 value) (held self.old) (held self.new) result };

    /// Appends eight bytes, the lowest first.
    fn put_u64_le(&mut self, value: u64) -> Result<(), EncodeError>
        ensures { Puts (to_le_bytes w64 value) (held self.old) (held self.new) result };

    /// Appends the four bytes of the two's complement, the lowest first.
    fn put_i32_le(&mut self, value: i32) -> Result<(), EncodeError>
        ensures { Puts (to_le_bytes w32 (cast_unsigned w32 value))
            (held self.old) (held self.new) result }
    {
        self.put_u32_le(value.cast_unsigned())
    }

    /// Appends the eight bytes of the two's complement, the lowest first.
    fn put_i64_le(&mut self, value: i64) -> Result<(), EncodeError>
        ensures { Puts (to_le_bytes w64 (cast_unsigned w64 value))
            (held self.old) (held self.new) result }
    {
        self.put_u64_le(value.cast_unsigned())
    }

    /// Appends the shortest varint of a number, at most ten bytes. Refused where one of them is,
    /// and then leaves those before it.
    #[inline(always)]
    fn put_varint(&mut self, value: u64) -> Result<(), EncodeError>
        ensures { Writes (shortest_varint value) (held self.old) (held self.new) result }
    {
        let mut rest = value;
        while rest >= 0x80 {
            self.put_u8((rest % 0x80) as u8 + 0x80)?;
            rest /= 0x80;
        }
        self.put_u8(rest as u8)
    }

    /// Appends the shortest varints of two numbers, as a tag and the length behind it. Refused
    /// where one of their bytes is, and then leaves those before it.
    #[inline(always)]
    fn put_varints(&mut self, first: u64, second: u64) -> Result<(), EncodeError>
        ensures { Writes (shortest_varint first ++ shortest_varint second)
            (held self.old) (held self.new) result }
    {
        laws::two_parts();
        self.put_varint(first)?;
        self.put_varint(second)
    }

    /// Appends the shortest varint of a number, as a tag, that of the length of the bytes, and the
    /// bytes. Refused where a byte of the varints is, or the bytes are, and then leaves what stands
    /// before.
    #[inline(always)]
    fn put_delimited(&mut self, first: u64, bytes: &[u8]) -> Result<(), EncodeError>
        ensures { Writes (shortest_varint first ++ delimited_text bytes.now)
            (held self.old) (held self.new) result }
    {
        laws::two_parts();
        laws::put_is_a_write();
        self.put_varint(first)?;
        self.put_varint(bytes.len() as u64)?;
        self.put_slice(bytes)
    }

    /// Appends the shortest varint of a number, as a tag, and four bytes, the lowest first. Refused
    /// where a byte of the varint is, or the four are, and then leaves what stands before.
    #[inline(always)]
    fn put_fixed32(&mut self, first: u64, value: u32) -> Result<(), EncodeError>
        ensures { Writes (shortest_varint first ++ to_le_bytes w32 value)
            (held self.old) (held self.new) result }
    {
        laws::two_parts();
        laws::put_is_a_write();
        self.put_varint(first)?;
        self.put_u32_le(value)
    }

    /// Appends the shortest varint of a number, as a tag, and eight bytes, the lowest first.
    /// Refused where a byte of the varint is, or the eight are, and then leaves what stands before.
    #[inline(always)]
    fn put_fixed64(&mut self, first: u64, value: u64) -> Result<(), EncodeError>
        ensures { Writes (shortest_varint first ++ to_le_bytes w64 value)
            (held self.old) (held self.new) result }
    {
        laws::two_parts();
        laws::put_is_a_write();
        self.put_varint(first)?;
        self.put_u64_le(value)
    }

    /// The bytes may be kept as they are, with no copy. They are given up where the put is refused.
    fn put_shared(&mut self, bytes: Bytes) -> Result<(), EncodeError>
        ensures { Puts bytes (held self.old) (held self.new) result }
    {
        self.put_slice(bytes.as_slice())
    }
}

impl EncodeSink for Vec<u8> {
    ghost held = { λ sink. in_memory sink.items };

    #[inline(always)]
    fn put_u8(&mut self, value: u8) -> Result<(), EncodeError> {
        push_byte(value, self)?;
        Ok(())
    }

    #[inline(always)]
    fn put_slice(&mut self, bytes: &[u8]) -> Result<(), EncodeError> {
        push_bytes(bytes, self)?;
        Ok(())
    }

    #[inline(always)]
    fn put_u32_le(&mut self, value: u32) -> Result<(), EncodeError> {
        push_bytes(&u32::to_le_bytes(value), self)?;
        Ok(())
    }

    #[inline(always)]
    fn put_u64_le(&mut self, value: u64) -> Result<(), EncodeError> {
        push_bytes(&u64::to_le_bytes(value), self)?;
        Ok(())
    }

    #[inline(always)]
    fn put_varint(&mut self, value: u64) -> Result<(), EncodeError> {
        if value < 0x80 {
            push_byte(value as u8, self)?;
            return Ok(());
        }
        push_long(value, self)?;
        Ok(())
    }

    #[inline(always)]
    fn put_varints(&mut self, first: u64, second: u64) -> Result<(), EncodeError> {
        push_two(first, second, self)?;
        Ok(())
    }

    #[inline(always)]
    fn put_delimited(&mut self, first: u64, bytes: &[u8]) -> Result<(), EncodeError> {
        push_delimited(first, bytes, self)?;
        Ok(())
    }

    #[inline(always)]
    fn put_fixed32(&mut self, first: u64, value: u32) -> Result<(), EncodeError> {
        push_fixed32(first, value, self)?;
        Ok(())
    }

    #[inline(always)]
    fn put_fixed64(&mut self, first: u64, value: u64) -> Result<(), EncodeError> {
        push_fixed64(first, value, self)?;
        Ok(())
    }
}

// Appends the shortest varint of a number, as one of several bytes. With room for the longest, the
// vector is a local of the compiled code.
#[inline(always)]
fn push_long(value: u64, bytes: &mut Vec<u8>) -> Result<(), AllocError>
    ensures ok { OnOk result (bytes.new.items ≡ bytes.old.items ++ shortest_varint value) }
    ensures err { OnErr result (KeepsFront (in_memory bytes.old.items)
        (shortest_varint value) (in_memory bytes.new.items)) }
{
    if bytes.len() + MOST_DIGITS > bytes.capacity() {
        return push_varint(value, bytes);
    }
    let empty = Vec::new(*bytes.allocator());
    let mut held = mem::replace(bytes, empty);
    push_digits(value, &mut held);
    mem::forget(mem::replace(bytes, held));
    Ok(())
}

// Appends the shortest varint of a number, as a tag, and four bytes, the lowest first: one put
// where the varint is a byte and there is room. The array is not that of the puts behind, which
// may grow: it stays in registers.
#[inline(always)]
fn push_fixed32(first: u64, value: u32, bytes: &mut Vec<u8>) -> Result<(), AllocError>
    ensures ok { OnOk result (bytes.new.items
        ≡ bytes.old.items ++ (shortest_varint first ++ to_le_bytes w32 value)) }
    ensures err { OnErr result (KeepsFront (in_memory bytes.old.items)
        (shortest_varint first ++ to_le_bytes w32 value) (in_memory bytes.new.items)) }
{
    if first < 0x80 && 5 <= bytes.capacity() - bytes.len() {
        return push_bytes(&tagged_fixed32(first as u8, value), bytes);
    }
    push_behind_tag(first, &u32::to_le_bytes(value), bytes)
}

// The same of eight bytes.
#[inline(always)]
fn push_fixed64(first: u64, value: u64, bytes: &mut Vec<u8>) -> Result<(), AllocError>
    ensures ok { OnOk result (bytes.new.items
        ≡ bytes.old.items ++ (shortest_varint first ++ to_le_bytes w64 value)) }
    ensures err { OnErr result (KeepsFront (in_memory bytes.old.items)
        (shortest_varint first ++ to_le_bytes w64 value) (in_memory bytes.new.items)) }
{
    if first < 0x80 && 9 <= bytes.capacity() - bytes.len() {
        return push_bytes(&tagged_fixed64(first as u8, value), bytes);
    }
    push_behind_tag(first, &u64::to_le_bytes(value), bytes)
}

// A varint of one byte, and four bytes behind it, the lowest first.
#[inline(always)]
fn tagged_fixed32(tag: u8, value: u32) -> [u8; 5]
    requires { tag < 128 }
    ensures { result ≡ shortest_varint tag ++ to_le_bytes w32 value }
{
    let [a, b, c, d] = value.to_le_bytes();
    [tag, a, b, c, d]
}

// A varint of one byte, and eight bytes behind it, the lowest first.
#[inline(always)]
fn tagged_fixed64(tag: u8, value: u64) -> [u8; 9]
    requires { tag < 128 }
    ensures { result ≡ shortest_varint tag ++ to_le_bytes w64 value }
{
    let [a, b, c, d, e, f, g, h] = value.to_le_bytes();
    [tag, a, b, c, d, e, f, g, h]
}

/// How many bytes a varint has at most.
pub(crate) const MOST_DIGITS: usize = 10;

// Appends the shortest varint of a number to bytes with room for it.
#[inline(always)]
fn push_digits(value: u64, bytes: &mut Vec<u8>)
    requires { vec_len bytes.old + 10 ≤ vec_capacity bytes.old }
    ensures items { bytes.new.items ≡ bytes.old.items ++ shortest_varint value }
    ensures len { vec_len bytes.new ≤ vec_len bytes.old + 10 }
    ensures capacity { vec_capacity bytes.new ≡ vec_capacity bytes.old }
{
    let mut rest = value;
    while rest >= 0x80 {
        bytes.push_reserved((rest % 0x80) as u8 + 0x80);
        rest /= 0x80;
    }
    bytes.push_reserved(rest as u8);
}

// Appends the shortest varints of two numbers. With room for both, the vector is a local of the
// compiled code, so that its length stays in a register. One of just the size of a small message
// has less room, and takes the small numbers of its fields.
#[inline(always)]
fn push_two(first: u64, second: u64, bytes: &mut Vec<u8>) -> Result<(), AllocError>
    ensures ok { OnOk result (bytes.new.items
        ≡ bytes.old.items ++ shortest_varint first ++ shortest_varint second) }
    ensures err { OnErr result (KeepsFront (in_memory bytes.old.items)
        (shortest_varint first ++ shortest_varint second) (in_memory bytes.new.items)) }
{
    if bytes.len() + 2 * MOST_DIGITS > bytes.capacity() {
        if first < 0x80 && second < 0x80 && bytes.len() + 2 <= bytes.capacity() {
            push_pair(first as u8, second as u8, bytes);
            return Ok(());
        }
        return push_varints(first, second, bytes);
    }
    let empty = Vec::new(*bytes.allocator());
    let mut held = mem::replace(bytes, empty);
    push_digits(first, &mut held);
    push_digits(second, &mut held);
    mem::forget(mem::replace(bytes, held));
    Ok(())
}

// Appends two varints of one byte, as a tag and a length mostly are, to bytes with room for them.
#[inline(always)]
fn push_pair(first: u8, second: u8, bytes: &mut Vec<u8>)
    requires room { vec_len bytes.old + 2 ≤ vec_capacity bytes.old }
    requires first { first < 128 }
    requires second { second < 128 }
    ensures { bytes.new.items
        ≡ bytes.old.items ++ shortest_varint first ++ shortest_varint second }
{
    bytes.push_reserved(first);
    bytes.push_reserved(second);
}

// Appends a byte.
#[inline(always)]
fn push_byte(byte: u8, bytes: &mut Vec<u8>) -> Result<(), AllocError>
    ensures ok { OnOk result (bytes.new.items ≡ bytes.old.items ++ byte ∷ []) }
    ensures err { OnErr result (bytes.new.items ≡ bytes.old.items) }
{
    if bytes.len() == bytes.capacity() {
        return push_growing(&[byte], bytes);
    }
    bytes.push_reserved(byte);
    Ok(())
}

// Appends bytes. The test is that of the list, which then has no growth in line.
#[inline(always)]
fn push_bytes(more: &[u8], bytes: &mut Vec<u8>) -> Result<(), AllocError>
    ensures ok { OnOk result (bytes.new.items ≡ bytes.old.items ++ more.now) }
    ensures err { OnErr result (bytes.new.items ≡ bytes.old.items) }
{
    if bytes.capacity() - bytes.len() < more.len() {
        return push_growing(more, bytes);
    }
    bytes.extend_from_slice(more)
}

// Appends the shortest varint of a number, as a tag, and bytes behind their length. Varints of a
// byte each are put in line where there is room for both, and all else by one call.
#[inline(always)]
fn push_delimited(first: u64, more: &[u8], bytes: &mut Vec<u8>) -> Result<(), AllocError>
    ensures ok { OnOk result (bytes.new.items
        ≡ bytes.old.items ++ (shortest_varint first ++ delimited_text more.now)) }
    ensures err { OnErr result (KeepsFront (in_memory bytes.old.items)
        (shortest_varint first ++ delimited_text more.now) (in_memory bytes.new.items)) }
{
    if first < 0x80 && more.len() < 0x80 && bytes.len() + 2 <= bytes.capacity() {
        return push_short(first as u8, more, bytes);
    }
    push_behind_length(first, more, bytes)
}

// Appends a varint of one byte, and bytes behind their length of one byte, to bytes with room for
// both varints. The vector is a local of the compiled code until all is put.
#[inline(always)]
fn push_short(first: u8, more: &[u8], bytes: &mut Vec<u8>) -> Result<(), AllocError>
    requires room { vec_len bytes.old + 2 ≤ vec_capacity bytes.old }
    requires first { first < 128 }
    requires more { length more.now < 128 }
    ensures ok { OnOk result (bytes.new.items
        ≡ bytes.old.items ++ (shortest_varint first ++ delimited_text more.now)) }
    ensures err { OnErr result (KeepsFront (in_memory bytes.old.items)
        (shortest_varint first ++ delimited_text more.now) (in_memory bytes.new.items)) }
{
    let empty = Vec::new(*bytes.allocator());
    let mut held = mem::replace(bytes, empty);
    push_pair(first, more.len() as u8, &mut held);
    let pushed = push_bytes(more, &mut held);
    mem::forget(mem::replace(bytes, held));
    pushed
}
