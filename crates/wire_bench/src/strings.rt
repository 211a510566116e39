//! Strings and bytes behind their lengths, one after another.
use std::alloc::Global;
use wire_codec::{DecodeError, borrow_str, decode_bytes, decode_string, merge_string};

/// The strings of the bytes.
pub(crate) fn strings(alloc: Global, bytes: &[u8]) -> Result<Vec<&str>, DecodeError> {
    let mut texts = Vec::new(alloc);
    let mut rest = bytes;
    while !rest.is_empty() {
        texts.push(borrow_str(&mut rest)?)?;
    }
    Ok(texts)
}

/// A round decodes the strings of the bytes. The answer is the sum of their lengths.
#[unsafe(no_mangle)]
pub extern "C" fn wb_decode_string(alloc: Global, bytes: &[u8], rounds: u32) -> usize {
    let mut sum = 0usize;
    for _ in 0..rounds {
        sum = 0;
        let mut rest = bytes;
        while !rest.is_empty() {
            let Ok(text) = decode_string(alloc, &mut rest) else {
                return 0;
            };
            sum = sum.wrapping_add(text.len());
        }
    }
    sum
}

/// A round decodes the strings of the bytes as runs of bytes. The answer is the sum of their
/// lengths.
#[unsafe(no_mangle)]
pub extern "C" fn wb_decode_bytes(alloc: Global, bytes: &[u8], rounds: u32) -> usize {
    let mut sum = 0usize;
    for _ in 0..rounds {
        sum = 0;
        let mut rest = bytes;
        while !rest.is_empty() {
            let Ok(payload) = decode_bytes(alloc, &mut rest) else {
                return 0;
            };
            sum = sum.wrapping_add(payload.len());
        }
    }
    sum
}

/// A round borrows the strings of the bytes. The answer is the sum of their lengths.
#[unsafe(no_mangle)]
pub extern "C" fn wb_borrow_str(bytes: &[u8], rounds: u32) -> usize {
    let mut sum = 0usize;
    for _ in 0..rounds {
        sum = 0;
        let mut rest = bytes;
        while !rest.is_empty() {
            let Ok(text) = borrow_str(&mut rest) else {
                return 0;
            };
            sum = sum.wrapping_add(text.len());
        }
    }
    sum
}

/// A round decodes the strings of the bytes, each in the place of the one before. The answer is the
/// sum of their lengths.
#[unsafe(no_mangle)]
pub extern "C" fn wb_merge_string(alloc: Global, bytes: &[u8], rounds: u32) -> usize {
    let mut text = String::new(alloc);
    let mut sum = 0usize;
    for _ in 0..rounds {
        sum = 0;
        let mut rest = bytes;
        while !rest.is_empty() {
            if merge_string(alloc, &mut text, &mut rest).is_err() {
                return 0;
            }
            sum = sum.wrapping_add(text.len());
        }
    }
    sum
}
