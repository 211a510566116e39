//! Frames of a stream: fed whole, and in chunks of each size.
use crate::narrow::Narrow;
use crate::row::Row;
use crate::said::{Digits, Said};
use bytes::Bytes;
use std::alloc::{AllocError, Global};
use std::fmt::Write;
use wire_callers::counter::Counter;
use wire_callers::frames::frames_of;
use wire_codec::{DecodeError, DecodeOptions, EncodeError, EncodeSink, Room};
use wire_frames::{
    Frame, FrameDecoder, FrameError, FrameText, Framing, MessageError, UnfedCause,
    put_delimited_frame, put_grpc_frame,
};

/// Says the frames of the bytes, and then the end or why there is none; or writes one.
pub fn tell(row: &Row<'_>, said: &mut Said) -> bool {
    match row.call {
        "FrameDecoder" => decode(row, said),
        "put_frame" => put(row, said),
        _ => return false,
    }
    true
}

// What was read of a stream: the frames in words, and why there are no more.
#[derive(PartialEq, Drop)]
struct Read {
    text: String,
    end: Option<FrameError>,
}

fn decode(row: &Row<'_>, said: &mut Said) {
    let Some(whole) = read_in(row, row.bytes.len().max(1), said) else {
        return;
    };
    for size in 1..row.bytes.len() {
        if let Some(read) = read_in(row, size, said) {
            said.expect(read == whole, "other frames in chunks");
        }
    }
    said.word(whole.text.as_str());
    match whole.end {
        Some(error) => said.show(&error),
        None => said.word("end"),
    }
}

// What is read where the bytes come in chunks of this size; none where memory is wanting.
fn read_in(row: &Row<'_>, size: usize, said: &mut Said) -> Option<Read> {
    match row.word("by") {
        Some("frames_of") => read_all(row, size, said),
        _ => read_by_calls(row, size, said),
    }
}

fn limit(row: &Row<'_>) -> usize {
    row.number("limit").unwrap_or(1000)
}

fn framing(row: &Row<'_>) -> Framing {
    match row.word("form") {
        Some("grpc") => Framing::Grpc,
        _ => Framing::Delimited,
    }
}

fn wanting<T: Drop>(said: &mut Said) -> Option<T> {
    said.made(Err::<T, ()>(()))
}

fn read_all(row: &Row<'_>, size: usize, said: &mut Said) -> Option<Read> {
    let mut chunks = Vec::new(said.alloc);
    for chunk in row.bytes.chunks(size.max(1)) {
        let chunk = said.made(Bytes::copy_from_slice(said.alloc, chunk))?;
        said.made(chunks.push(chunk))?;
    }
    let mut text = String::new(said.alloc);
    let end = match frames_of(said.alloc, framing(row), limit(row), chunks) {
        Ok(frames) => {
            for frame in &frames {
                said.made(say_frame(frame, &mut text))?;
            }
            None
        }
        Err(FrameError::OutOfMemory) => return wanting(said),
        Err(error) => Some(error),
    };
    Some(Read { text, end })
}

// ---- call by call

fn read_by_calls(row: &Row<'_>, size: usize, said: &mut Said) -> Option<Read> {
    let mut decoder = FrameDecoder::new(said.alloc, framing(row), limit(row));
    let mut text = String::new(said.alloc);
    let mut left = row.bytes.len();
    for chunk in row.bytes.chunks(size.max(1)) {
        left = left.saturating_sub(chunk.len());
        let chunk = said.made(Bytes::copy_from_slice(said.alloc, chunk))?;
        if let Err(unfed) = decoder.feed(chunk) {
            said.expect(unfed.cause == UnfedCause::OutOfMemory, "a chunk is refused");
            return wanting(said);
        }
        let by = match row.word("by") {
            Some("next_at_end") if left > 0 => "next",
            by => by.unwrap_or("next"),
        };
        let end = take(by, &mut decoder, row, &mut text, said)?;
        if end.is_some() {
            return Some(Read { text, end });
        }
    }
    let end = decoder.next_at_end().err();
    Some(Read { text, end })
}

// Takes what is whole, and answers the error behind it; none where memory is wanting. Of a frame
// that is no message it is said why.
fn take(
    by: &str,
    decoder: &mut FrameDecoder,
    row: &Row<'_>,
    text: &mut String,
    said: &mut Said,
) -> Option<Option<FrameError>> {
    for _ in 0..=decoder.unread_len() {
        match call(by, decoder, row, text, said.alloc) {
            Ok(true) => {}
            Ok(false) => return Some(None),
            Err(MessageError::Frame(FrameError::OutOfMemory)) => return wanting(said),
            Err(MessageError::Decode(DecodeError::OutOfMemory)) => return wanting(said),
            Err(MessageError::Frame(error)) => return Some(Some(error)),
            Err(error) => said.made(write!(text, "{error:?}; "))?,
        }
    }
    Some(None)
}

// Makes one call, and says what it takes off; false where nothing is there.
fn call(
    by: &str,
    decoder: &mut FrameDecoder,
    row: &Row<'_>,
    text: &mut String,
    alloc: Global,
) -> Result<bool, MessageError> {
    let options = row.options().unwrap_or(DecodeOptions::new());
    let said = match by {
        "next_message" => match decoder.next_message::<Counter>(alloc, &options)? {
            Some(counter) => write!(text, "{}; ", counter.value),
            None => return Ok(false),
        },
        "message" => match decoder.next()? {
            Some(frame) => {
                let counter = frame.message::<Counter>(alloc, &options)?;
                write!(text, "{}; ", counter.value)
            }
            None => return Ok(false),
        },
        "next_text" => match decoder.next_text()? {
            Some(whole) => say_text(&whole, text),
            None => return Ok(false),
        },
        "next_at_end" => match decoder.next_at_end()? {
            Some(frame) => say_frame(&frame, text),
            None => return Ok(false),
        },
        _ => match decoder.next()? {
            Some(frame) => say_frame(&frame, text),
            None => return Ok(false),
        },
    };
    match said {
        Ok(()) => Ok(true),
        Err(AllocError) => Err(MessageError::Frame(FrameError::OutOfMemory)),
    }
}

// The flag, where it is set, and the payload.
fn say_frame(frame: &Frame, text: &mut String) -> Result<(), AllocError> {
    let flag = if frame.compressed { "compressed " } else { "" };
    write!(text, "{flag}{:?}; ", Digits(frame.payload.as_slice()))
}

// How many bytes the prefix has, the text, and the payload of it.
fn say_text(whole: &FrameText, text: &mut String) -> Result<(), AllocError> {
    let (bytes, payload) = (Digits(whole.text.as_slice()), Digits(whole.payload()));
    write!(text, "{} of {bytes:?}, {payload:?}; ", whole.prefix)
}

// ---- one frame

fn put(row: &Row<'_>, said: &mut Said) {
    match row.word("into") {
        Some("Narrow") => {
            let mut sink = Narrow {
                bytes: Vec::new(said.alloc),
            };
            let answer = put_into(row, &mut sink);
            say_put(answer, &sink.bytes, said)
        }
        Some("Room") => {
            let mut slice = said.copied(&[0; 16]);
            slice.truncate(row.number("room").unwrap_or(0));
            let mut sink = Room {
                room: &mut slice,
                place: 0,
            };
            let answer = put_into(row, &mut sink);
            let place = sink.place;
            say_put(answer, slice.get(..place).unwrap_or(&[]), said)
        }
        _ => {
            let mut sink = Vec::new(said.alloc);
            let answer = put_into(row, &mut sink);
            say_put(answer, &sink, said)
        }
    }
}

fn put_into<S: EncodeSink>(row: &Row<'_>, sink: &mut S) -> Result<(), EncodeError> {
    match framing(row) {
        Framing::Delimited => put_delimited_frame(row.bytes, sink),
        Framing::Grpc => put_grpc_frame(row.word("compressed").is_some(), row.bytes, sink),
    }
}

// What the sink holds, behind the refusal where there is one.
fn say_put(answer: Result<(), EncodeError>, bytes: &[u8], said: &mut Said) {
    if answer.is_err() {
        said.answered(answer);
        said.word(", ");
    }
    said.show(&Digits(bytes));
}
