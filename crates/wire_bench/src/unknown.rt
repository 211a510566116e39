//! Records whose field numbers nobody knows.
use std::alloc::Global;
use wire_codec::{Tag, UnknownFields, skip_field};

/// A round passes over the records of the bytes. The answer is how many there are, those in groups
/// left out.
#[unsafe(no_mangle)]
pub extern "C" fn wb_skip(bytes: &[u8], rounds: u32) -> usize {
    let mut count = 0usize;
    for _ in 0..rounds {
        count = 0;
        let mut rest = bytes;
        while !rest.is_empty() {
            let Ok(tag) = Tag::decode(&mut rest) else {
                return 0;
            };
            if skip_field(tag, &mut rest).is_err() {
                return 0;
            }
            count = count.wrapping_add(1);
        }
    }
    count
}

/// A round decodes the records of the bytes. The answer is how many there are, those in groups left
/// out.
#[unsafe(no_mangle)]
pub extern "C" fn wb_unknown_decode(alloc: Global, bytes: &[u8], rounds: u32) -> usize {
    let mut count = 0;
    for _ in 0..rounds {
        let Ok(fields) = UnknownFields::decode_from_slice(alloc, bytes) else {
            return 0;
        };
        count = fields.len();
    }
    count
}

/// A round writes the records of the bytes into a vector that was cleared. The answer is how many
/// bytes it has then.
#[unsafe(no_mangle)]
pub extern "C" fn wb_unknown_write(alloc: Global, bytes: &[u8], rounds: u32) -> usize {
    let Ok(fields) = UnknownFields::decode_from_slice(alloc, bytes) else {
        return 0;
    };
    let mut sink = Vec::new(alloc);
    for _ in 0..rounds {
        sink.clear();
        if fields.write_to(&mut sink).is_err() {
            return 0;
        }
    }
    sink.len()
}

/// A round measures the records of the bytes. The answer is how many bytes writing them takes.
#[unsafe(no_mangle)]
pub extern "C" fn wb_encoded_len(alloc: Global, bytes: &[u8], rounds: u32) -> usize {
    let Ok(fields) = UnknownFields::decode_from_slice(alloc, bytes) else {
        return 0;
    };
    let mut len = 0;
    for _ in 0..rounds {
        let Ok(measured) = fields.encoded_len() else {
            return 0;
        };
        len = measured;
    }
    len
}
