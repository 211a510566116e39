//! Lists of scalars in one payload.
ghost use Rattle.std.specs.Prelude.{◌≡◌, ◌%◌, ◌++◌, ◌⊎◌, ℕ, List, length, OnOk, OnErr, IfOk, IfErr};
ghost use Rattle.std.specs.Int.{byte_len, w32, w64};
ghost use Rattle.wire_base.specs.declared.error.DecodeError.TheVariants.{OutOfMemory};
ghost use Rattle.wire_base.specs.Read.{Reads};
ghost use Rattle.wire_base.specs.Varint.{IsSpelling, VarintFault};
ghost use Rattle.wire_scalar.specs.Packed.{Appends, AppendsPart, FixedRefusal, StopsAtFault};
ghost use Rattle.wire_base.specs.Fixed.{IsFixed};
ghost use Rattle.wire_scalar.specs.ValueMap.{int32, int64, uint32, uint64, sint32, sint64, bool, fixed32, fixed64, sfixed32, sfixed64};

use crate::fixed::{Fixed32, Fixed64, FixedScalar, Sfixed32, Sfixed64};
use crate::scalar::{Bool, Int32, Int64, Sint32, Sint64, Uint32, Uint64, VarintScalar};
use std::alloc::Global;
use std::mem;
use wire_base::{DecodeError, decode_varint};

/// Appends the elements of a packed list of `int32`, whose payload this is, after making room for
/// `reserve` more of them. It stops, and keeps those before, at the first that is no varint,
/// refused as `decode_varint`, or that finds no room, `OutOfMemory`, which also comes where the
/// room cannot be made. See "Packed Repeated Fields" of the encoding document.
pub fn extend_packed_int32(
    _alloc: Global,
    payload: &[u8],
    out: &mut Vec<i32>,
    reserve: usize,
) -> Result<(), DecodeError>
    ensures ok { OnOk result (Appends IsSpelling int32 payload.now out.old.items out.new.items) }
    ensures fault { IfErr result (λ e.
        ((e ≡ OutOfMemory) × AppendsPart IsSpelling int32 payload.now out.old.items out.new.items)
        ⊎ StopsAtFault int32 payload.now out.old.items out.new.items e) }
{
    extend_as::<Int32>(payload, out, reserve)
}

/// Appends the elements of a packed list of `int64`, whose payload this is, after making room for
/// `reserve` more of them. It stops, and keeps those before, at the first that is no varint,
/// refused as `decode_varint`, or that finds no room, `OutOfMemory`, which also comes where the
/// room cannot be made. See "Packed Repeated Fields" of the encoding document.
pub fn extend_packed_int64(
    _alloc: Global,
    payload: &[u8],
    out: &mut Vec<i64>,
    reserve: usize,
) -> Result<(), DecodeError>
    ensures ok { OnOk result (Appends IsSpelling int64 payload.now out.old.items out.new.items) }
    ensures fault { IfErr result (λ e.
        ((e ≡ OutOfMemory) × AppendsPart IsSpelling int64 payload.now out.old.items out.new.items)
        ⊎ StopsAtFault int64 payload.now out.old.items out.new.items e) }
{
    extend_as::<Int64>(payload, out, reserve)
}

/// Appends the elements of a packed list of `uint32`, whose payload this is, after making room for
/// `reserve` more of them. It stops, and keeps those before, at the first that is no varint,
/// refused as `decode_varint`, or that finds no room, `OutOfMemory`, which also comes where the
/// room cannot be made. See "Packed Repeated Fields" of the encoding document.
pub fn extend_packed_uint32(
    _alloc: Global,
    payload: &[u8],
    out: &mut Vec<u32>,
    reserve: usize,
) -> Result<(), DecodeError>
    ensures ok { OnOk result (Appends IsSpelling uint32 payload.now out.old.items out.new.items) }
    ensures fault { IfErr result (λ e.
        ((e ≡ OutOfMemory) × AppendsPart IsSpelling uint32 payload.now out.old.items out.new.items)
        ⊎ StopsAtFault uint32 payload.now out.old.items out.new.items e) }
{
    extend_as::<Uint32>(payload, out, reserve)
}

/// Appends the elements of a packed list of `uint64`, whose payload this is, after making room for
/// `reserve` more of them. It stops, and keeps those before, at the first that is no varint,
/// refused as `decode_varint`, or that finds no room, `OutOfMemory`, which also comes where the
/// room cannot be made. See "Packed Repeated Fields" of the encoding document.
pub fn extend_packed_uint64(
    _alloc: Global,
    payload: &[u8],
    out: &mut Vec<u64>,
    reserve: usize,
) -> Result<(), DecodeError>
    ensures ok { OnOk result (Appends IsSpelling uint64 payload.now out.old.items out.new.items) }
    ensures fault { IfErr result (λ e.
        ((e ≡ OutOfMemory) × AppendsPart IsSpelling uint64 payload.now out.old.items out.new.items)
        ⊎ StopsAtFault uint64 payload.now out.old.items out.new.items e) }
{
    extend_as::<Uint64>(payload, out, reserve)
}

/// Appends the elements of a packed list of `sint32`, whose payload this is, after making room for
/// `reserve` more of them. It stops, and keeps those before, at the first that is no varint,
/// refused as `decode_varint`, or that finds no room, `OutOfMemory`, which also comes where the
/// room cannot be made. See "Packed Repeated Fields" of the encoding document.
pub fn extend_packed_sint32(
    _alloc: Global,
    payload: &[u8],
    out: &mut Vec<i32>,
    reserve: usize,
) -> Result<(), DecodeError>
    ensures ok { OnOk result (Appends IsSpelling sint32 payload.now out.old.items out.new.items) }
    ensures fault { IfErr result (λ e.
        ((e ≡ OutOfMemory) × AppendsPart IsSpelling sint32 payload.now out.old.items out.new.items)
        ⊎ StopsAtFault sint32 payload.now out.old.items out.new.items e) }
{
    extend_as::<Sint32>(payload, out, reserve)
}

/// Appends the elements of a packed list of `sint64`, whose payload this is, after making room for
/// `reserve` more of them. It stops, and keeps those before, at the first that is no varint,
/// refused as `decode_varint`, or that finds no room, `OutOfMemory`, which also comes where the
/// room cannot be made. See "Packed Repeated Fields" of the encoding document.
pub fn extend_packed_sint64(
    _alloc: Global,
    payload: &[u8],
    out: &mut Vec<i64>,
    reserve: usize,
) -> Result<(), DecodeError>
    ensures ok { OnOk result (Appends IsSpelling sint64 payload.now out.old.items out.new.items) }
    ensures fault { IfErr result (λ e.
        ((e ≡ OutOfMemory) × AppendsPart IsSpelling sint64 payload.now out.old.items out.new.items)
        ⊎ StopsAtFault sint64 payload.now out.old.items out.new.items e) }
{
    extend_as::<Sint64>(payload, out, reserve)
}

/// Appends the elements of a packed list of `bool`, whose payload this is, after making room for
/// `reserve` more of them. It stops, and keeps those before, at the first that is no varint,
/// refused as `decode_varint`, or that finds no room, `OutOfMemory`, which also comes where the
/// room cannot be made. See "Packed Repeated Fields" of the encoding document.
pub fn extend_packed_bool(
    _alloc: Global,
    payload: &[u8],
    out: &mut Vec<bool>,
    reserve: usize,
) -> Result<(), DecodeError>
    ensures ok { OnOk result (Appends IsSpelling bool payload.now out.old.items out.new.items) }
    ensures fault { IfErr result (λ e.
        ((e ≡ OutOfMemory) × AppendsPart IsSpelling bool payload.now out.old.items out.new.items)
        ⊎ StopsAtFault bool payload.now out.old.items out.new.items e) }
{
    extend_as::<Bool>(payload, out, reserve)
}

/// Appends the elements of a packed list of `fixed32`, all or none. `UnexpectedEof` where the
/// payload ends within one, `OutOfMemory` where the list finds no room. See "Packed Repeated
/// Fields" of the encoding document.
pub fn extend_packed_fixed32(
    _alloc: Global,
    payload: &[u8],
    out: &mut Vec<u32>,
) -> Result<(), DecodeError>
    ensures ok { OnOk result
        (Appends (IsFixed w32) fixed32 payload.now out.old.items out.new.items) }
    ensures err { IfErr result (FixedRefusal 4 payload.now) }
    ensures unchanged { OnErr result (out.new.items ≡ out.old.items) }
{
    extend_fixed::<Fixed32>(payload, out)
}

/// Appends the elements of a packed list of `fixed64`, all or none. `UnexpectedEof` where the
/// payload ends within one, `OutOfMemory` where the list finds no room. See "Packed Repeated
/// Fields" of the encoding document.
pub fn extend_packed_fixed64(
    _alloc: Global,
    payload: &[u8],
    out: &mut Vec<u64>,
) -> Result<(), DecodeError>
    ensures ok { OnOk result
        (Appends (IsFixed w64) fixed64 payload.now out.old.items out.new.items) }
    ensures err { IfErr result (FixedRefusal 8 payload.now) }
    ensures unchanged { OnErr result (out.new.items ≡ out.old.items) }
{
    extend_fixed::<Fixed64>(payload, out)
}

/// Appends the elements of a packed list of `sfixed32`, all or none. `UnexpectedEof` where the
/// payload ends within one, `OutOfMemory` where the list finds no room. See "Packed Repeated
/// Fields" of the encoding document.
pub fn extend_packed_sfixed32(
    _alloc: Global,
    payload: &[u8],
    out: &mut Vec<i32>,
) -> Result<(), DecodeError>
    ensures ok { OnOk result
        (Appends (IsFixed w32) sfixed32 payload.now out.old.items out.new.items) }
    ensures err { IfErr result (FixedRefusal 4 payload.now) }
    ensures unchanged { OnErr result (out.new.items ≡ out.old.items) }
{
    extend_fixed::<Sfixed32>(payload, out)
}

/// Appends the elements of a packed list of `sfixed64`, all or none. `UnexpectedEof` where the
/// payload ends within one, `OutOfMemory` where the list finds no room. See "Packed Repeated
/// Fields" of the encoding document.
pub fn extend_packed_sfixed64(
    _alloc: Global,
    payload: &[u8],
    out: &mut Vec<i64>,
) -> Result<(), DecodeError>
    ensures ok { OnOk result
        (Appends (IsFixed w64) sfixed64 payload.now out.old.items out.new.items) }
    ensures err { IfErr result (FixedRefusal 8 payload.now) }
    ensures unchanged { OnErr result (out.new.items ≡ out.old.items) }
{
    extend_fixed::<Sfixed64>(payload, out)
}

// Appends elements one by one, up to the first that is no varint.
fn extend_as<T: VarintScalar>(
    payload: &[u8],
    out: &mut Vec<T::Value>,
    reserve: usize,
) -> Result<(), DecodeError>
    ensures ok { OnOk result (Appends IsSpelling T.map payload.now out.old.items out.new.items) }
    ensures fault { IfErr result (λ e.
        ((e ≡ OutOfMemory) × AppendsPart IsSpelling T.map payload.now out.old.items out.new.items)
        ⊎ StopsAtFault T.map payload.now out.old.items out.new.items e) }
{
    out.reserve(reserve)?;
    let empty = Vec::new(*out.allocator());
    let mut values = mem::replace(out, empty);
    let mut rest = push_while_room::<T>(payload, &mut values);
    mem::forget(mem::replace(out, values));
    while !rest.is_empty() {
        let (number, behind) = split_varint(rest)?;
        out.push(T::value_of(number))?;
        rest = behind;
    }
    Ok(())
}

// Appends elements one by one, up to the first that finds no room or is no varint: answers what is
// left of the payload.
#[inline(always)]
fn push_while_room<'a, T: VarintScalar>(payload: &'a [u8], values: &mut Vec<T::Value>) -> &'a [u8]
    ensures { (front : List ℕ) × (payload.now ≡ front ++ result.now)
        × Appends IsSpelling T.map front values.old.items values.new.items }
{
    let mut rest = payload;
    while !rest.is_empty() && values.len() < values.capacity() {
        let Ok((number, behind)) = split_varint(rest) else {
            return rest;
        };
        values.push_reserved(T::value_of(number));
        rest = behind;
    }
    rest
}

// The number of the varint at the front, and the bytes behind it.
#[inline(always)]
fn split_varint(bytes: &[u8]) -> Result<(u64, &[u8]), DecodeError>
    ensures ok { IfOk result (λ read. Reads bytes.now (IsSpelling read.0) read.1.now) }
    ensures fault { IfErr result (VarintFault bytes.now) }
{
    let mut rest = bytes;
    let number = decode_varint(&mut rest)?;
    Ok((number, rest))
}

// Appends the elements, all or none.
fn extend_fixed<T: FixedScalar>(payload: &[u8], out: &mut Vec<T::Value>) -> Result<(), DecodeError>
    ensures ok { OnOk result
        (Appends (IsFixed T.width) T.map payload.now out.old.items out.new.items) }
    ensures err { IfErr result (FixedRefusal (byte_len T.width) payload.now) }
    ensures unchanged { OnErr result (out.new.items ≡ out.old.items) }
{
    if payload.len() % T::LEN != 0 {
        return Err(DecodeError::UnexpectedEof);
    }
    let before = out.len();
    let result = push_all::<T>(payload, out);
    if result.is_err() {
        out.truncate(before);
    }
    result
}

// Appends elements one by one, of a payload that is a multiple of their length.
fn push_all<T: FixedScalar>(payload: &[u8], out: &mut Vec<T::Value>) -> Result<(), DecodeError>
    requires { length payload.now % byte_len T.width ≡ 0 }
    ensures ok { OnOk result
        (Appends (IsFixed T.width) T.map payload.now out.old.items out.new.items) }
    ensures err { IfErr result (λ e. e ≡ OutOfMemory) }
    ensures front { OnErr result ((more : List T.Value) × (out.new.items ≡ out.old.items ++ more)) }
{
    out.reserve(payload.len() / T::LEN)?;
    let mut rest = payload;
    while !rest.is_empty() {
        out.push(T::decode(&mut rest)?)?;
    }
    Ok(())
}
