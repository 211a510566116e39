//! Numbers and strings into a vector, each round into one that was cleared. Each answer is how many
//! bytes the vector has then.
use crate::strings::strings;
use crate::varints::varints;
use std::alloc::Global;
use wire_codec::{
    EncodeError, encode_varint, put_bool_field, put_fixed32_field, put_fixed64_field,
    put_int32_field, put_sint64_field, put_string_field, put_uint64_field,
};

// A round puts each of the varints of the bytes.
#[inline(always)]
fn put_each<F: Fn(u64, &mut Vec<u8>) -> Result<(), EncodeError> + Drop>(
    alloc: Global,
    bytes: &[u8],
    rounds: u32,
    put: F,
) -> usize
    requires { F.IsAlwaysCallable put }
{
    let Ok(values) = varints(alloc, bytes) else {
        return 0;
    };
    let mut sink = Vec::new(alloc);
    for _ in 0..rounds {
        sink.clear();
        for value in values.iter() {
            if put(*value, &mut sink).is_err() {
                return 0;
            }
        }
    }
    sink.len()
}

/// A round writes the varints of the bytes.
#[unsafe(no_mangle)]
pub extern "C" fn wb_encode_varint(alloc: Global, bytes: &[u8], rounds: u32) -> usize {
    put_each(alloc, bytes, rounds, |value, sink| {
        encode_varint(value, sink)
    })
}

/// A round writes the varints of the bytes as fields of type `uint64`.
#[unsafe(no_mangle)]
pub extern "C" fn wb_put_uint64(alloc: Global, bytes: &[u8], rounds: u32) -> usize {
    put_each(alloc, bytes, rounds, |value, sink| {
        put_uint64_field(5, value, sink)
    })
}

/// A round writes the 64 bits of the varints of the bytes as fields of type `sint64`.
#[unsafe(no_mangle)]
pub extern "C" fn wb_put_sint64(alloc: Global, bytes: &[u8], rounds: u32) -> usize {
    put_each(alloc, bytes, rounds, |value, sink| {
        put_sint64_field(5, value.cast_signed(), sink)
    })
}

/// A round writes a field of type `bool` for each of the varints of the bytes: whether it is odd.
#[unsafe(no_mangle)]
pub extern "C" fn wb_put_bool(alloc: Global, bytes: &[u8], rounds: u32) -> usize {
    put_each(alloc, bytes, rounds, |value, sink| {
        put_bool_field(300, value % 2 == 1, sink)
    })
}

/// A round writes the varints of the bytes as fields of type `fixed64`.
#[unsafe(no_mangle)]
pub extern "C" fn wb_put_fixed64(alloc: Global, bytes: &[u8], rounds: u32) -> usize {
    put_each(alloc, bytes, rounds, |value, sink| {
        put_fixed64_field(5, value, sink)
    })
}

/// A round writes five fields for each of the varints of the bytes.
#[unsafe(no_mangle)]
pub extern "C" fn wb_put_five(alloc: Global, bytes: &[u8], rounds: u32) -> usize {
    put_each(alloc, bytes, rounds, put_five)
}

// Writes a number and its 64 bits, its low 32 bits, whether it is odd, and the low bits again.
#[inline(always)]
fn put_five(value: u64, sink: &mut Vec<u8>) -> Result<(), EncodeError> {
    let low = (value % (1 << 32)) as u32;
    put_uint64_field(1, value, sink)?;
    put_sint64_field(2, value.cast_signed(), sink)?;
    put_fixed32_field(3, low, sink)?;
    put_bool_field(16, value % 2 == 1, sink)?;
    put_int32_field(17, low.cast_signed(), sink)
}

/// A round writes the strings of the bytes as fields.
#[unsafe(no_mangle)]
pub extern "C" fn wb_put_string(alloc: Global, bytes: &[u8], rounds: u32) -> usize {
    let Ok(texts) = strings(alloc, bytes) else {
        return 0;
    };
    let mut sink = Vec::new(alloc);
    for _ in 0..rounds {
        sink.clear();
        for text in texts.iter() {
            if put_string_field(5, *text, &mut sink).is_err() {
                return 0;
            }
        }
    }
    sink.len()
}
