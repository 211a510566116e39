//! Strings and bytes of types that a user plugs in.
ghost use Rattle.std.specs.Prelude.{string_bytes};
ghost use Rattle.wire_rows.specs.NoX.{answers_no_x, answers_no_x_by_bytes};

use super::say_bytes;
use crate::row::Row;
use crate::said::{Hex, Said};
use crate::table::cut;
use bytes::{Buf, Bytes};
use std::alloc::Global;
use wire_codec::{
    DecodeError, ProtoBytes, ProtoString, WirePayload, decode_bytes_to, decode_string_to,
};

// A text that does not begin with an x.
#[derive(Clone, Debug, PartialEq, Drop)]
struct NoX {
    text: String,
}

impl ProtoString for NoX {
    ghost text = { λ value. string_bytes value.text };

    ghost answers = { answers_no_x };

    ghost by_bytes = { answers_no_x_by_bytes };

    fn from_wire(alloc: Global, payload: WirePayload<'_>) -> Result<NoX, DecodeError> {
        if payload.as_slice().starts_with(b"x") {
            return Err(DecodeError::Custom("x"));
        }
        let text = String::from_wire(alloc, payload)?;
        Ok(NoX { text })
    }

    fn from_text(alloc: Global, value: &str) -> Result<NoX, DecodeError> {
        let text = String::from_text(alloc, value)?;
        Ok(NoX { text })
    }

    fn as_str(&self) -> &str {
        self.text.as_str()
    }

    fn empty(alloc: Global) -> NoX {
        NoX {
            text: String::new(alloc),
        }
    }
}

pub fn read<B: Buf>(row: &Row<'_>, buf: &mut B, said: &mut Said) -> bool {
    let alloc = said.alloc;
    match row.call {
        "decode_string_to<String>" => said.read(decode_string_to::<String, B>(alloc, buf), buf),
        "decode_string_to<NoX>" => {
            if let Some(value) = said.answered(decode_string_to::<NoX, B>(alloc, buf)) {
                said.read(Ok(value.as_str()), buf)
            }
        }
        "decode_bytes_to<Vec>" => say_bytes(decode_bytes_to::<Vec<u8>, B>(alloc, buf), buf, said),
        "decode_bytes_to<Bytes>" => say_bytes(decode_bytes_to::<Bytes, B>(alloc, buf), buf, said),
        _ => return false,
    }
    true
}

pub fn tell(row: &Row<'_>, said: &mut Said) -> bool {
    match row.call {
        "refused_payload" => refused_payload(row, said),
        "ProtoString<String>" => made::<String>(said),
        "ProtoString<NoX>" => made::<NoX>(said),
        "ProtoBytes<Vec>" => made_bytes::<Vec<u8>>(said),
        "ProtoBytes<Bytes>" => made_bytes::<Bytes>(said),
        _ => return false,
    }
    true
}

// What is left of a payload that its type refuses: it is lent where it stands in one piece.
fn refused_payload(row: &Row<'_>, said: &mut Said) {
    let Some(place) = row.number("cut") else {
        let mut rest = row.bytes;
        say_refused(&mut rest, said);
        return;
    };
    if let Some(mut buf) = cut(row.bytes, place, said) {
        say_refused(&mut buf, said);
    }
}

fn say_refused<B: Buf>(buf: &mut B, said: &mut Said) {
    let answer = decode_string_to::<NoX, B>(said.alloc, buf);
    said.answered(answer);
    said.also(" ", &Hex(buf.chunk()));
}

// A text, made in each of the ways that a type has.
fn made<P: ProtoString>(said: &mut Said) {
    let alloc = said.alloc;
    let Some(lent) = said.answered(P::from_wire(alloc, WirePayload::borrowed(b"hi"))) else {
        return;
    };
    if let Some(payload) = said.made(Bytes::copy_from_slice(alloc, b"hi")) {
        let own = said.answered(P::from_wire(alloc, WirePayload::owned(payload)));
        said.expect(own.as_ref() == Some(&lent), "another text of one's own");
    }
    if let Some(copy) = said.answered(P::from_text(alloc, "hi")) {
        said.expect(copy == lent, "another text");
        let again = said.made(copy.clone());
        said.expect(again.as_ref() == Some(&copy), "a clone");
    }
    said.expect(P::empty(alloc).as_str() == "", "empty");
    said.show(&lent.as_str());
}

// Bytes, made in each of the ways that a type has.
fn made_bytes<P: ProtoBytes>(said: &mut Said) {
    let alloc = said.alloc;
    let Some(lent) = said.answered(P::from_wire(alloc, WirePayload::borrowed(b"\xc3"))) else {
        return;
    };
    if let Some(payload) = said.made(Bytes::copy_from_slice(alloc, b"\xc3")) {
        let own = said.answered(P::from_wire(alloc, WirePayload::owned(payload)));
        said.expect(own.as_ref() == Some(&lent), "other bytes of one's own");
    }
    let copy = said.copied(b"\xc3");
    if let Some(copy) = said.answered(P::from_vec(alloc, copy)) {
        said.expect(copy == lent, "other bytes");
        let again = said.made(copy.clone());
        said.expect(again.as_ref() == Some(&copy), "a clone");
    }
    said.expect(P::empty(alloc).as_slice().is_empty(), "empty");
    said.show(&Hex(lent.as_slice()));
}
