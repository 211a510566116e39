//! Scalars, read where they stand in a text.
ghost use Rattle.std.specs.Prelude.{drop, string_bytes, IfOk, IfErr};
ghost use Rattle.std.specs.Float.{binary32, binary64};
ghost use Rattle.std.specs.Int.{w32, w64};
ghost use Rattle.wire_json.specs.Answer.{IsBehind};
ghost use Rattle.wire_protojson.specs.Numbers.{MeansFloat, MeansSigned, MeansUnsigned};
ghost use Rattle.wire_protojson.specs.Reads.{ReadsMeaning, Refuses, RefusedAt, UnlessNoMemory};
ghost use Rattle.wire_protojson.specs.Scalars.{MeansBool, MeansBytes, MeansString};

use crate::float::{double_of, float_of};
use crate::number::{int32_of, int64_of, uint32_of, uint64_of};
use crate::refusal::{ReadError, no_value};
use crate::text::{bytes_of, string_of};
use crate::token::{bool_of, read_token};
use std::alloc::Global;

/// Reads a `bool`: `true` or `false`.
pub fn read_bool(alloc: Global, text: &[u8], at: usize) -> Result<(bool, usize), ReadError>
    ensures ok { IfOk result (λ read.
        ReadsMeaning MeansBool (drop at text.now) read.0 (drop read.1 text.now)) }
    ensures behind { IfOk result (λ read. IsBehind at read.1 text.now) }
    ensures err { IfErr result (λ e. UnlessNoMemory e
        (λ refusal. RefusedAt text.now refusal (Refuses MeansBool (drop at text.now)))) }
{
    match read_token(alloc, text, at) {
        Ok((token, after)) => match bool_of(&token) {
            Some(value) => Ok((value, after)),
            None => Err(no_value(at)),
        },
        Err(error) => Err(error),
    }
}

/// Reads an `int32`, `sint32` or `sfixed32`: a number or a string that holds one, which is whole.
pub fn read_int32(alloc: Global, text: &[u8], at: usize) -> Result<(i32, usize), ReadError>
    ensures ok { IfOk result (λ read.
        ReadsMeaning (MeansSigned w32) (drop at text.now) read.0 (drop read.1 text.now)) }
    ensures behind { IfOk result (λ read. IsBehind at read.1 text.now) }
    ensures err { IfErr result (λ e. UnlessNoMemory e
        (λ refusal. RefusedAt text.now refusal (Refuses (MeansSigned w32) (drop at text.now)))) }
{
    match read_token(alloc, text, at) {
        Ok((token, after)) => match int32_of(&token) {
            Some(value) => Ok((value, after)),
            None => Err(no_value(at)),
        },
        Err(error) => Err(error),
    }
}

/// Reads an `int64`, `sint64` or `sfixed64`, as `read_int32` does.
pub fn read_int64(alloc: Global, text: &[u8], at: usize) -> Result<(i64, usize), ReadError>
    ensures ok { IfOk result (λ read.
        ReadsMeaning (MeansSigned w64) (drop at text.now) read.0 (drop read.1 text.now)) }
    ensures behind { IfOk result (λ read. IsBehind at read.1 text.now) }
    ensures err { IfErr result (λ e. UnlessNoMemory e
        (λ refusal. RefusedAt text.now refusal (Refuses (MeansSigned w64) (drop at text.now)))) }
{
    match read_token(alloc, text, at) {
        Ok((token, after)) => match int64_of(&token) {
            Some(value) => Ok((value, after)),
            None => Err(no_value(at)),
        },
        Err(error) => Err(error),
    }
}

/// Reads a `uint32` or `fixed32`, as `read_int32` does.
pub fn read_uint32(alloc: Global, text: &[u8], at: usize) -> Result<(u32, usize), ReadError>
    ensures ok { IfOk result (λ read.
        ReadsMeaning (MeansUnsigned 32) (drop at text.now) read.0 (drop read.1 text.now)) }
    ensures behind { IfOk result (λ read. IsBehind at read.1 text.now) }
    ensures err { IfErr result (λ e. UnlessNoMemory e
        (λ refusal. RefusedAt text.now refusal (Refuses (MeansUnsigned 32) (drop at text.now)))) }
{
    match read_token(alloc, text, at) {
        Ok((token, after)) => match uint32_of(&token) {
            Some(value) => Ok((value, after)),
            None => Err(no_value(at)),
        },
        Err(error) => Err(error),
    }
}

/// Reads a `uint64` or `fixed64`, as `read_int32` does.
pub fn read_uint64(alloc: Global, text: &[u8], at: usize) -> Result<(u64, usize), ReadError>
    ensures ok { IfOk result (λ read.
        ReadsMeaning (MeansUnsigned 64) (drop at text.now) read.0 (drop read.1 text.now)) }
    ensures behind { IfOk result (λ read. IsBehind at read.1 text.now) }
    ensures err { IfErr result (λ e. UnlessNoMemory e
        (λ refusal. RefusedAt text.now refusal (Refuses (MeansUnsigned 64) (drop at text.now)))) }
{
    match read_token(alloc, text, at) {
        Ok((token, after)) => match uint64_of(&token) {
            Some(value) => Ok((value, after)),
            None => Err(no_value(at)),
        },
        Err(error) => Err(error),
    }
}

/// Reads a `float`: the nearest to a number, or to one in a string, or `"NaN"`, `"Infinity"` or
/// `"-Infinity"`. A number that is nearest to an infinity is refused.
pub fn read_float(alloc: Global, text: &[u8], at: usize) -> Result<(f32, usize), ReadError>
    ensures ok { IfOk result (λ read.
        ReadsMeaning (MeansFloat binary32) (drop at text.now) read.0 (drop read.1 text.now)) }
    ensures behind { IfOk result (λ read. IsBehind at read.1 text.now) }
    ensures err { IfErr result (λ e. UnlessNoMemory e
        (λ refusal. RefusedAt text.now refusal (Refuses (MeansFloat binary32) (drop at text.now)))) }
{
    match read_token(alloc, text, at) {
        Ok((token, after)) => match float_of(&token) {
            Some(value) => Ok((value, after)),
            None => Err(no_value(at)),
        },
        Err(error) => Err(error),
    }
}

/// Reads a `double`, as `read_float` does.
pub fn read_double(alloc: Global, text: &[u8], at: usize) -> Result<(f64, usize), ReadError>
    ensures ok { IfOk result (λ read.
        ReadsMeaning (MeansFloat binary64) (drop at text.now) read.0 (drop read.1 text.now)) }
    ensures behind { IfOk result (λ read. IsBehind at read.1 text.now) }
    ensures err { IfErr result (λ e. UnlessNoMemory e
        (λ refusal. RefusedAt text.now refusal (Refuses (MeansFloat binary64) (drop at text.now)))) }
{
    match read_token(alloc, text, at) {
        Ok((token, after)) => match double_of(&token) {
            Some(value) => Ok((value, after)),
            None => Err(no_value(at)),
        },
        Err(error) => Err(error),
    }
}

/// Reads a `string`.
pub fn read_string(alloc: Global, text: &[u8], at: usize) -> Result<(String, usize), ReadError>
    ensures ok { IfOk result (λ read.
        ReadsMeaning MeansString (drop at text.now) (string_bytes read.0) (drop read.1 text.now)) }
    ensures behind { IfOk result (λ read. IsBehind at read.1 text.now) }
    ensures err { IfErr result (λ e. UnlessNoMemory e
        (λ refusal. RefusedAt text.now refusal (Refuses MeansString (drop at text.now)))) }
{
    match read_token(alloc, text, at) {
        Ok((token, after)) => match string_of(token) {
            Some(value) => match value.into_owned(alloc) {
                Ok(value) => Ok((value, after)),
                Err(_) => Err(ReadError::OutOfMemory),
            },
            None => Err(no_value(at)),
        },
        Err(error) => Err(error),
    }
}

/// Reads `bytes`: base64 of the standard alphabet or of that for URLs, padded or not.
pub fn read_bytes(alloc: Global, text: &[u8], at: usize) -> Result<(Vec<u8>, usize), ReadError>
    ensures ok { IfOk result (λ read.
        ReadsMeaning MeansBytes (drop at text.now) read.0.items (drop read.1 text.now)) }
    ensures behind { IfOk result (λ read. IsBehind at read.1 text.now) }
    ensures err { IfErr result (λ e. UnlessNoMemory e
        (λ refusal. RefusedAt text.now refusal (Refuses MeansBytes (drop at text.now)))) }
{
    match read_token(alloc, text, at) {
        Ok((token, after)) => match bytes_of(alloc, token) {
            Ok(Some(value)) => Ok((value, after)),
            Ok(None) => Err(no_value(at)),
            Err(_) => Err(ReadError::OutOfMemory),
        },
        Err(error) => Err(error),
    }
}
