//! What is answered of some bytes. A test that is refused a request for memory fails with
//! `OutOfMemory` as what was found, or not at all.
use crate::number::number_of;
use std::alloc::Global;
use wire_codec::{DecodeError, DecodeOptions, Message};
use wire_orders::Order;
use wire_required::{FieldPath, Parse, ParseError, PathStep, Required};

// What is found: the answer that was expected, want of memory, or anything else.
#[derive(Clone, Copy, Debug, PartialEq)]
pub(crate) enum Found {
    Own,
    Other,
    OutOfMemory,
}

// What is answered of bytes.
#[derive(Clone, Copy)]
pub(crate) enum Answer {
    Complete,
    Missing(&'static str),
    Fault,
}

use Answer::{Complete, Fault, Missing};

// Bytes, and what is answered of them as a message.
pub(crate) type Row = (&'static [u8], Answer);

const ROWS: [Row; 19] = [
    (b"\x09\x07\0\0\0\0\0\0\0\x33\x0a\x01s\x34", Complete),
    (b"\x33\x0a\x01s\x34\x09\x07\0\0\0\0\0\0\0\x48\x01", Complete),
    (b"", Missing("number")),
    (b"\x12\x00\x33\x34", Missing("number")),
    (b"\x09\x07\0\0\0\0\0\0\0", Missing("address")),
    (
        b"\x09\x07\0\0\0\0\0\0\0\x12\x00",
        Missing("lines[0].article"),
    ),
    (b"\x09\x07\0\0\0\0\0\0\0\x33\x34", Missing("address.street")),
    (
        b"\x09\x07\0\0\0\0\0\0\0\x33\x12\x01n\x34",
        Missing("address.street"),
    ),
    (
        b"\x09\x07\0\0\0\0\0\0\0\x33\x0a\x01s\x34\x12\x05\x0a\x01a\x10\x01\x12\x02\x10\x01",
        Missing("lines[1].article"),
    ),
    (
        b"\x09\x07\0\0\0\0\0\0\0\x33\x0a\x01s\x34\x12\x05\x0a\x01a\x10\x01\x12\x03\x0a\x01a",
        Missing("lines[1].count"),
    ),
    (
        b"\x09\x07\0\0\0\0\0\0\0\x33\x0a\x01s\x34\x12\x07\x0a\x01a\x10\x01\x1a\x00",
        Missing("lines[0].price.amount"),
    ),
    (
        b"\x09\x07\0\0\0\0\0\0\0\x33\x0a\x01s\x34\x12\x09\x0a\x01a\x10\x01\x1a\x02\x08\x02\
          \x1a\x07\x0a\x01b\x12\x02\x08\x02\x1a\x05\x0a\x01a\x12\x00",
        Missing("fees[\"a\"].amount"),
    ),
    (
        b"\x09\x07\0\0\0\0\0\0\0\x33\x0a\x01s\x34\x1a\x00",
        Missing("fees[\"\"].amount"),
    ),
    (
        b"\x09\x07\0\0\0\0\0\0\0\x33\x0a\x01s\x34\x22\x01c",
        Complete,
    ),
    (
        b"\x09\x07\0\0\0\0\0\0\0\x33\x0a\x01s\x34\x2a\x00",
        Missing("cash.amount"),
    ),
    (
        b"\x09\x07\0\0\0\0\0\0\0\x33\x0a\x01s\x34\x2a\x00\x22\x01c",
        Complete,
    ),
    (
        b"\x09\x07\0\0\0\0\0\0\0\x33\x0a\x01s\x34\x2a\x00\x2a\x02\x08\x02",
        Complete,
    ),
    (b"\x09\x07", Fault),
    (b"\x12\x03\x0a\x01\xff", Fault),
];

// Whether the path is printed so.
fn is_printed(alloc: Global, path: &FieldPath, wanted: &str) -> Found {
    match format!(in alloc; "{path}") {
        Ok(text) if text.as_str() == wanted => Found::Own,
        Ok(_) => Found::Other,
        Err(_) => Found::OutOfMemory,
    }
}

// What is found where an answer was expected.
pub(crate) fn found_in<T>(alloc: Global, answer: &Result<T, ParseError>, wanted: Answer) -> Found {
    match (answer, wanted) {
        (Err(ParseError::Decode(DecodeError::OutOfMemory)), _) => Found::OutOfMemory,
        (Err(ParseError::MissingRequiredField(path)), Missing(wanted)) => {
            is_printed(alloc, path, wanted)
        }
        (Ok(_), Complete) | (Err(ParseError::Decode(_)), Fault) => Found::Own,
        _ => Found::Other,
    }
}

// What `decode_from_slice` answers, and then `missing` of the message.
pub(crate) fn decoded<M: Message + Required>(alloc: Global, row: &Row) -> Found {
    match (M::decode_from_slice(alloc, row.0), row.1) {
        (Err(DecodeError::OutOfMemory), _) => Found::OutOfMemory,
        (Err(_), Fault) => Found::Own,
        (Ok(message), Complete | Missing(_)) => match (message.missing(alloc), row.1) {
            (Ok(None), Complete) => Found::Own,
            (Ok(Some(path)), Missing(wanted)) => is_printed(alloc, &path, wanted),
            (Err(_), _) => Found::OutOfMemory,
            _ => Found::Other,
        },
        _ => Found::Other,
    }
}

#[test]
fn what_lacks_a_field_is_refused(rt: HostRuntime) {
    for (place, row) in ROWS.iter().enumerate() {
        let answer = Order::parse_from_slice(rt.alloc(), row.0);
        assert_eq!(rt; found_in(rt.alloc(), &answer, row.1), Found::Own, "{place}");
    }
}

#[test]
fn within_limits_too(rt: HostRuntime) {
    let options = DecodeOptions::new().with_max_message_size(21);
    for (place, row) in ROWS.iter().enumerate() {
        let answer = Order::parse_with(&options, rt.alloc(), row.0);
        let wanted = if row.0.len() > 21 { Fault } else { row.1 };
        assert_eq!(rt;
            found_in(rt.alloc(), &answer, wanted),
            Found::Own,
            "{place}"
        );
    }
}

#[test]
fn what_is_decoded_is_asked(rt: HostRuntime) {
    for (place, row) in ROWS.iter().enumerate() {
        assert_eq!(rt; decoded::<Order>(rt.alloc(), row), Found::Own, "{place}");
    }
}

#[test]
fn a_number_is_there(rt: HostRuntime) {
    for (place, row) in ROWS.iter().enumerate() {
        let answer = number_of(rt.alloc(), row.0);
        assert_eq!(rt; found_in(rt.alloc(), &answer, row.1), Found::Own, "{place}");
        if let Ok(number) = answer {
            assert_eq!(rt; number, 7, "{place}");
        }
    }
}

// Whether the first step is the field that is asked for, and there are so many.
fn begins(path: &FieldPath, name: &str, count: usize) -> bool {
    match path.steps().first() {
        Some(PathStep::Field(first)) => *first == name && path.steps().len() == count,
        _ => false,
    }
}

#[test]
fn a_path_has_its_steps(rt: HostRuntime) {
    let bytes = b"\x09\x07\0\0\0\0\0\0\0\x12\x00";
    match Order::parse_from_slice(rt.alloc(), bytes) {
        Err(ParseError::MissingRequiredField(path)) => assert!(rt; begins(&path, "lines", 3)),
        Err(ParseError::Decode(error)) => assert_eq!(rt; error, DecodeError::OutOfMemory),
        Ok(_) => assert!(rt; false),
    }
}
