//! What is written into each kind of sink, which has to grow.
use crate::row::{Row, Step};
use crate::said::Said;
use crate::{scalars, texts};
use bytes::{Bytes, BytesMut};
use wire_codec::{EncodeError, EncodeSink, Room, Rope};

pub fn tell(row: &Row<'_>, said: &mut Said) -> bool {
    match row.call {
        "IS_SEGMENTED" => {
            let of_others = (Vec::<u8>::IS_SEGMENTED, BytesMut::IS_SEGMENTED);
            said.show(&(Rope::IS_SEGMENTED, of_others.0, of_others.1));
        }
        "puts" => puts_into(row, said),
        _ => return written(row, said),
    }
    true
}

// ---- calls that write

// Says what a call writes; it has to be the same in each kind of sink.
fn written(row: &Row<'_>, said: &mut Said) -> bool {
    let mut whole = said.copied(b"\x07");
    let Some(answer) = put(row, &mut whole) else {
        return false;
    };
    said.answered(answer);
    let mut vector = Vec::new(said.alloc);
    let answer = put_behind(row, &mut vector);
    is_front(answer, &vector, &whole, said);
    let mut buffer = BytesMut::new(said.alloc);
    let answer = put_behind(row, &mut buffer);
    is_front(answer, buffer.as_slice(), &whole, said);
    into_rope(row, Rope::with_min_segment(said.alloc, 1), &whole, said);
    into_rope(row, Rope::new(said.alloc), &whole, said);
    into_slice(row, whole.len(), &whole, said);
    into_slice(row, whole.len().saturating_sub(1), &whole, said);
    said.written(whole.get(1..).unwrap_or(&[]), row.bytes);
    true
}

fn into_rope(row: &Row<'_>, mut rope: Rope, whole: &[u8], said: &mut Said) {
    let answer = put_behind(row, &mut rope);
    if let Some(bytes) = said.made(rope.to_contiguous_bytes()) {
        is_front(answer, bytes.as_slice(), whole, said);
    }
}

// The same into a slice of so many bytes. Where they are too few, a record leaves the slice behind
// the first byte as it was, and a length with its bytes, which is two puts, a front.
fn into_slice(row: &Row<'_>, len: usize, whole: &[u8], said: &mut Said) {
    let mut slice = said.copied(whole);
    slice.truncate(len);
    slice.fill(0);
    let mut room = Room {
        room: &mut slice,
        place: 0,
    };
    let answer = put_behind(row, &mut room);
    let place = room.place;
    let refused = answer == Err(EncodeError::LengthOverflow);
    is_filled(answer, &slice, place, whole, said);
    if refused && !matches!(row.call, "encode_bytes" | "encode_string") {
        said.expect(place == len.min(1), "a front of a record");
    }
}

/// Whether all stands in the slice where there is room, and else a front of it, and nothing behind.
pub fn is_filled(
    answer: Result<(), EncodeError>,
    slice: &[u8],
    place: usize,
    whole: &[u8],
    said: &mut Said,
) {
    if answer == Err(EncodeError::OutOfMemory) {
        return said.refuse(EncodeError::OutOfMemory);
    }
    let fits = slice.len() == whole.len();
    said.expect(fits == answer.is_ok(), "another answer of a slice");
    said.expect(
        fits || answer == Err(EncodeError::LengthOverflow),
        "another refusal of a slice",
    );
    let (filled, rest) = slice.split_at(place.min(slice.len()));
    said.expect(whole.starts_with(filled), "no front");
    said.expect(rest.iter().all(|byte| *byte == 0), "past the place");
}

fn put<S: EncodeSink>(row: &Row<'_>, sink: &mut S) -> Option<Result<(), EncodeError>> {
    match scalars::put(row, sink) {
        Some(answer) => Some(answer),
        None => texts::put(row, sink),
    }
}

// Behind the byte 7.
fn put_behind<S: EncodeSink>(row: &Row<'_>, sink: &mut S) -> Result<(), EncodeError> {
    sink.put_u8(7)?;
    put(row, sink).unwrap_or(Ok(()))
}

// A write that is refused leaves a front of what is written when it is not.
fn is_front(answer: Result<(), EncodeError>, written: &[u8], whole: &[u8], said: &mut Said) {
    said.expect(whole.starts_with(written), "no front");
    if said.answered(answer).is_some() {
        said.expect(written == whole, "another sink");
    }
}

// ---- single puts

// The puts of a row, again and again, into the sink that it names.
fn puts_into(row: &Row<'_>, said: &mut Said) {
    let mut text = said.copied(&[0; 1024]);
    text.clear();
    match row.word("into") {
        Some("Vec") => {
            let mut sink = Vec::new(said.alloc);
            let answer = puts(row, &mut sink, &mut text);
            is_left(answer, &sink, &text, said)
        }
        Some("BytesMut") => {
            let mut sink = BytesMut::new(said.alloc);
            let answer = puts(row, &mut sink, &mut text);
            is_left(answer, sink.as_slice(), &text, said)
        }
        _ => {
            let least = row.number("min").unwrap_or(4096);
            let mut sink = Rope::with_min_segment(said.alloc, least);
            let answer = puts(row, &mut sink, &mut text);
            if let Some(bytes) = said.made(sink.to_contiguous_bytes()) {
                is_left(answer, bytes.as_slice(), &text, said)
            }
        }
    }
}

// A put that is refused leaves the sink as it was.
fn is_left(answer: Result<(), EncodeError>, written: &[u8], text: &[u8], said: &mut Said) {
    said.expect(written == text, "other bytes");
    if said.answered(answer).is_some() {
        said.word("as put");
    }
}

fn puts<S: EncodeSink>(row: &Row<'_>, sink: &mut S, text: &mut Vec<u8>) -> Result<(), EncodeError> {
    for _ in 0..18 {
        for word in row.words.split(' ') {
            let step = Step::parse(word);
            let bytes = put_one(step.kind, sink)?;
            text.extend_from_slice(bytes)?;
        }
    }
    Ok(())
}

// What is put by the call of this kind, if there is one.
fn put_one<S: EncodeSink>(kind: &str, sink: &mut S) -> Result<&'static [u8], EncodeError> {
    let (answer, bytes): (_, &'static [u8]) = match kind {
        "u8" => (sink.put_u8(1), b"\x01"),
        "slice" => (sink.put_slice(b"ab"), b"ab"),
        "u32" => (sink.put_u32_le(7), b"\x07\x00\x00\x00"),
        "u64" => (sink.put_u64_le(9), b"\x09\x00\x00\x00\x00\x00\x00\x00"),
        "i32" => (sink.put_i32_le(-1), b"\xff\xff\xff\xff"),
        "i64" => (sink.put_i64_le(-2), b"\xfe\xff\xff\xff\xff\xff\xff\xff"),
        "shared" => (sink.put_shared(Bytes::from_static(b"cd")), b"cd"),
        _ => return Ok(b""),
    };
    answer.map(|()| bytes)
}
