//! Bytes in segments.
use bytes::{Buf, Bytes};
use std::alloc::Global;
use wire_codec::{EncodeError, EncodeSink, Rope, RopeBuf, decode_varint};

// How many bytes a segment has, and the least that the rope keeps as one.
const SEGMENT: usize = 64;

// A rope of the bytes, in shared runs.
fn segmented(alloc: Global, bytes: &[u8]) -> Result<Rope, EncodeError> {
    let mut rope = Rope::with_min_segment(alloc, SEGMENT);
    for piece in bytes.chunks(SEGMENT) {
        rope.put_shared(Bytes::copy_from_slice(alloc, piece)?)?;
    }
    Ok(rope)
}

/// A round makes a rope of the bytes and decodes its varints. The answer is the xor of the values.
#[unsafe(no_mangle)]
pub extern "C" fn wb_rope_varints(alloc: Global, bytes: &[u8], rounds: u32) -> u64 {
    let mut xor = 0;
    for _ in 0..rounds {
        xor = 0;
        let Ok(rope) = segmented(alloc, bytes) else {
            return 0;
        };
        let Ok(mut buf) = RopeBuf::from_rope(rope) else {
            return 0;
        };
        while buf.has_remaining() {
            let Ok(value) = decode_varint(&mut buf) else {
                return 0;
            };
            xor ^= value;
        }
    }
    xor
}
