//! Numbers, one behind another.
use std::alloc::Global;
use wire_codec::{DecodeError, count_varints, decode_varint, extend_packed_uint64};

/// The varints of the bytes.
pub(crate) fn varints(alloc: Global, bytes: &[u8]) -> Result<Vec<u64>, DecodeError> {
    let mut values = Vec::new(alloc);
    let mut rest = bytes;
    while !rest.is_empty() {
        values.push(decode_varint(&mut rest)?)?;
    }
    Ok(values)
}

/// A round decodes the varints of the bytes. The answer is the xor of the values.
#[unsafe(no_mangle)]
pub extern "C" fn wb_varints(bytes: &[u8], rounds: u32) -> u64 {
    let mut xor = 0;
    for _ in 0..rounds {
        xor = 0;
        let mut rest = bytes;
        while !rest.is_empty() {
            let Ok(value) = decode_varint(&mut rest) else {
                return 0;
            };
            xor ^= value;
        }
    }
    xor
}

/// A round decodes the bytes as a packed list, into a vector that was cleared. The answer is the
/// number of elements.
#[unsafe(no_mangle)]
pub extern "C" fn wb_packed(alloc: Global, bytes: &[u8], rounds: u32) -> usize {
    let mut values = Vec::new(alloc);
    for _ in 0..rounds {
        values.clear();
        if extend_packed_uint64(alloc, bytes, &mut values, count_varints(bytes)).is_err() {
            return 0;
        }
    }
    values.len()
}
