//! Ropes: the segments that they have after puts, and how a rope is read.
use crate::row::{Row, Step};
use crate::said::Said;
use bytes::{Buf, Bytes};
use std::alloc::Global;
use wire_codec::{EncodeError, EncodeSink, Rope, RopeBuf};

/// Puts the words of a row in turn, and says the segments; then the reader behind so many bytes.
pub fn tell(row: &Row<'_>, said: &mut Said) -> bool {
    if row.call != "Rope" {
        return false;
    }
    let rope = rope_of(row, said);
    let count = rope.segment_count();
    if let Some(bytes) = said.made(rope.to_contiguous_bytes()) {
        said.expect(rope.len() == bytes.len(), "another length");
        said.expect(rope.is_empty() == bytes.is_empty(), "empty");
        match row.number("advance") {
            Some(advance) => say_reader(rope, &bytes, count, advance, said),
            None => say_segments(rope, &bytes, count, said),
        }
    }
    true
}

fn rope_of(row: &Row<'_>, said: &mut Said) -> Rope {
    let mut rope = Rope::with_min_segment(said.alloc, row.number("min").unwrap_or(4096));
    for word in row.words.split(' ') {
        let step = Step::parse(word);
        let mut text = Vec::new(said.alloc);
        for _ in 0..step.times {
            said.made(text.extend_from_slice(step.text.as_bytes()));
        }
        let answer = put(said.alloc, step, &text, &mut rope);
        said.answered(answer);
    }
    rope
}

fn put(alloc: Global, step: Step<'_>, text: &[u8], rope: &mut Rope) -> Result<(), EncodeError> {
    match step.kind {
        "u8" => rope.put_u8(step.number()),
        "u32" => rope.put_u32_le(step.number()),
        "u64" => rope.put_u64_le(step.number()),
        "slice" => rope.put_slice(text),
        "shared" => rope.put_shared(Bytes::copy_from_slice(alloc, text)?),
        _ => Ok(()),
    }
}

// A rope that is handed back, where memory is wanting, has the bytes that it had.
fn handed_back(rope: &Rope, bytes: &Bytes, count: usize, said: &mut Said) {
    if let Some(back) = said.made(rope.to_contiguous_bytes()) {
        said.expect(back == *bytes, "other bytes are handed back");
        said.expect(rope.segment_count() == count, "another rope is handed back");
    }
    said.refuse(EncodeError::OutOfMemory);
}

fn say_segments(rope: Rope, bytes: &Bytes, count: usize, said: &mut Said) {
    let segments = match rope.into_segments() {
        Ok(segments) => segments,
        Err(rope) => return handed_back(&rope, bytes, count, said),
    };
    said.expect(segments.len() == count, "another count");
    said.show(&count);
    said.word(":");
    for segment in &segments {
        if segment.len() > 20 {
            said.also(" ", &segment.len());
            said.word(" bytes");
        } else if let Ok(text) = std::str::from_utf8(segment.as_slice()) {
            said.also(" ", &text);
        }
    }
}

fn say_reader(rope: Rope, bytes: &Bytes, count: usize, advance: usize, said: &mut Said) {
    let mut buf = match RopeBuf::from_rope(rope) {
        Ok(buf) => buf,
        Err(rope) => return handed_back(&rope, bytes, count, said),
    };
    buf.advance(advance.min(buf.remaining()));
    let (left, chunk) = (buf.remaining(), buf.chunk());
    let at = bytes.len().saturating_sub(left);
    let is_own = bytes.as_slice().get(at..).unwrap_or(&[]).starts_with(chunk);
    said.expect(is_own, "a chunk");
    said.show(&left);
    said.also(" left, ", &chunk.len());
    said.word(" in the chunk");
}
