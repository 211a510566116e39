//! Strings, bytes and payloads: read, written, merged, borrowed and plugged in.
mod plugged;

use crate::row::Row;
use crate::said::{Hex, Said};
use crate::scalars::field_number;
use bytes::{Buf, Bytes};
use wire_codec::{
    DecodeError, EncodeError, EncodeSink, ProtoBytes, WirePayload, borrow_bytes, borrow_str,
    bytes_encoded_len, decode_bytes, decode_bytes_to_bytes, decode_length, decode_string,
    encode_bytes, encode_string, merge_bytes, merge_string, put_bytes_field, put_string_field,
    string_encoded_len,
};

pub fn read<B: Buf>(row: &Row<'_>, buf: &mut B, said: &mut Said) -> bool {
    let alloc = said.alloc;
    match row.call {
        "decode_length" => said.read(decode_length(buf, row.number("max")), buf),
        "decode_string" => said.read(decode_string(alloc, buf), buf),
        "decode_bytes" => say_bytes(decode_bytes(alloc, buf), buf, said),
        "decode_bytes_to_bytes" => say_bytes(decode_bytes_to_bytes(alloc, buf), buf, said),
        "merge_string" => merged_string(buf, said),
        "merge_bytes" => merged_bytes(buf, said),
        _ => return plugged::read(row, buf, said),
    }
    true
}

// The bytes that a call reads, and how many it leaves.
fn say_bytes<P: ProtoBytes, B: Buf>(answer: Result<P, DecodeError>, buf: &B, said: &mut Said) {
    if let Some(bytes) = said.answered(answer) {
        said.read(Ok(Hex(bytes.as_slice())), buf)
    }
}

// A string that is merged into `old`, and the value then. Want of memory leaves it.
fn merged_string<B: Buf>(buf: &mut B, said: &mut Said) {
    let Some(mut value) = said.made(String::from_str(said.alloc, "old")) else {
        return;
    };
    if let Err(error) = merge_string(said.alloc, &mut value, buf) {
        let is_left = value.as_str() == "old";
        let is_other = error != DecodeError::OutOfMemory;
        said.expect(is_left | is_other, "a refused merge");
        said.refuse(error);
        return said.also(" ", &value);
    }
    said.show(&value);
    said.left(buf.remaining());
}

// Bytes that are merged into `old`, and the value then. Each refusal leaves it.
fn merged_bytes<B: Buf>(buf: &mut B, said: &mut Said) {
    let mut value = said.copied(b"old");
    if let Err(error) = merge_bytes(said.alloc, &mut value, buf) {
        said.expect(value.as_slice() == b"old".as_slice(), "a refused merge");
        said.refuse(error);
        said.word(" ");
    }
    said.show(&Hex(&value));
}

/// Writes by the call of this name, and answers how; nothing where none writes.
pub fn put<S: EncodeSink>(row: &Row<'_>, sink: &mut S) -> Option<Result<(), EncodeError>> {
    match row.call {
        "put_varint" => Some(sink.put_varint(row.value())),
        "put_varints" => Some(sink.put_varints(row.number("first").unwrap_or(0), row.value())),
        "put_fixed32" => Some(sink.put_fixed32(row.number("first").unwrap_or(0), row.value())),
        "put_fixed64" => Some(sink.put_fixed64(row.number("first").unwrap_or(0), row.value())),
        "put_delimited" => Some(sink.put_delimited(row.value(), row.bytes)),
        "encode_bytes" => Some(encode_bytes(row.bytes, sink)),
        "put_bytes_field" => Some(put_bytes_field(field_number(row), row.bytes, sink)),
        "encode_string" => Some(encode_string(text_of(row), sink)),
        "put_string_field" => { Some(put_string_field(field_number(row), text_of(row), sink)) }
        _ => None,
    }
}

// The bytes of a row as a text; none where they are none.
fn text_of<'a>(row: &Row<'a>) -> &'a str {
    std::str::from_utf8(row.bytes).unwrap_or("")
}

pub fn tell(row: &Row<'_>, said: &mut Said) -> bool {
    let mut rest = row.bytes;
    match row.call {
        "borrow_str" => {
            said.show_answer(borrow_str(&mut rest));
            said.left(rest.len());
        }
        "borrow_bytes" => {
            said.show_answer(borrow_bytes(&mut rest).map(Hex));
            said.left(rest.len());
        }
        "bytes_encoded_len" => said.show_answer(bytes_encoded_len(row.bytes)),
        "string_encoded_len" => said.show_answer(string_encoded_len(text_of(row))),
        "WirePayload" => payload(row.bytes, said),
        _ => return plugged::tell(row, said),
    }
    true
}

// A payload that is lent, a copy of it that is owned, and one that shares with the copy.
fn payload(bytes: &[u8], said: &mut Said) {
    let Some(copy) = said.made(Bytes::copy_from_slice(said.alloc, bytes)) else {
        return;
    };
    let (lent, owned) = (WirePayload::borrowed(bytes), WirePayload::owned(copy));
    said.expect(!lent.is_owned(), "owned");
    said.show(&lent.len());
    said.word(" ");
    said.show_answer(lent.to_str());
    said.expect(owned.to_str() == lent.to_str(), "another text");
    is_made(lent, bytes, said);
    said.expect(owned.is_owned(), "not owned");
    said.expect(owned.len() == bytes.len(), "another length");
    said.expect(owned.is_empty() == bytes.is_empty(), "empty");
    if let Some(copy) = said.made(owned.clone()) {
        said.expect(copy.is_owned(), "a copy that is not owned");
        said.expect(copy.as_slice() == bytes, "another copy");
    }
    is_made(owned, bytes, said);
}

fn is_made(payload: WirePayload<'_>, bytes: &[u8], said: &mut Said) {
    if let Some(made) = said.made(payload.into_bytes(said.alloc)) {
        said.expect(made.as_slice() == bytes, "other bytes");
    }
}
