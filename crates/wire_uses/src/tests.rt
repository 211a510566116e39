//! What is answered of some reports. A test that is refused a request for memory fails with
//! `OutOfMemory` as what was found, or not at all.
use crate::edit::{EditError, with_level};
use crate::labels::{label, put_label};
use crate::origin::urgent_file;
use crate::samples::total_count;
use std::alloc::Global;
use wire_codec::{DecodeError, EncodeError, Message};
use wire_report::{Report, ReportLevel};

// What is found: the answer that was expected, want of memory, or anything else.
#[derive(Clone, Copy, Debug, PartialEq)]
enum Found {
    Own,
    Other,
    OutOfMemory,
}

// What is found where bytes are decoded, and it is told whether the answer was the expected one.
fn found_in(answer: Result<bool, DecodeError>) -> Found {
    match answer {
        Ok(true) => Found::Own,
        Err(DecodeError::OutOfMemory) => Found::OutOfMemory,
        _ => Found::Other,
    }
}

// Bytes, a level, and the report with it, or why they are none.
type Edit = (
    &'static [u8],
    ReportLevel,
    Result<&'static [u8], DecodeError>,
);

const EDITS: [Edit; 7] = [
    (b"", ReportLevel::High, Ok(b"\x18\x01")),
    (b"\x0a\x01h\x18\x02", ReportLevel::Low, Ok(b"\x0a\x01h")),
    (
        b"\x18\x01\x0a\x01h",
        ReportLevel::VeryHigh,
        Ok(b"\x0a\x01h\x18\x02"),
    ),
    (
        b"\x18\x09\xa2\x06\x01x",
        ReportLevel::High,
        Ok(b"\x18\x01\xa2\x06\x01x"),
    ),
    (
        b"\x0a\x02h",
        ReportLevel::High,
        Err(DecodeError::UnexpectedEof),
    ),
    (
        b"\x0f",
        ReportLevel::High,
        Err(DecodeError::InvalidWireType(7)),
    ),
    (
        b"\x0a\x01\xff",
        ReportLevel::High,
        Err(DecodeError::InvalidUtf8),
    ),
];

fn edited(alloc: Global, edit: &Edit) -> Found {
    let (bytes, level, expected) = edit;
    match (with_level(alloc, bytes, *level), expected) {
        (Ok(output), Ok(wanted)) if output.as_slice() == *wanted => Found::Own,
        (Err(EditError::NotEncoded(EncodeError::OutOfMemory)), _) => Found::OutOfMemory,
        (Err(EditError::NotDecoded(DecodeError::OutOfMemory)), _) => Found::OutOfMemory,
        (Err(EditError::NotDecoded(why)), Err(wanted)) if why == *wanted => Found::Own,
        _ => Found::Other,
    }
}

#[test]
fn a_level_is_set_or_refused(rt: HostRuntime) {
    for (place, edit) in EDITS.iter().enumerate() {
        assert_eq!(rt; edited(rt.alloc(), edit), Found::Own, "{place}");
    }
}

// Samples without a count, with 5 and with -1, with the greatest one, and with it and 1.
const TOTALS: [(&[u8], Option<i64>); 5] = [
    (b"", Some(0)),
    (b"\x22\x00\x22\x02\x18\x05\x22\x03\x0a\x01s", Some(5)),
    (
        b"\x22\x02\x18\x05\x22\x0b\x18\xff\xff\xff\xff\xff\xff\xff\xff\xff\x01",
        Some(4),
    ),
    (
        b"\x22\x0a\x18\xff\xff\xff\xff\xff\xff\xff\xff\x7f\x22\x02\x18\x01\
        \x22\x0b\x18\xff\xff\xff\xff\xff\xff\xff\xff\xff\x01",
        Some(i64::MAX),
    ),
    (
        b"\x22\x0a\x18\xff\xff\xff\xff\xff\xff\xff\xff\x7f\x22\x02\x18\x01",
        None,
    ),
];

#[test]
fn counts_are_added_up(rt: HostRuntime) {
    for (place, (bytes, total)) in TOTALS.iter().enumerate() {
        let report = Report::decode_from_slice(rt.alloc(), bytes);
        let is_own = report.map(|it| total_count(&it) == *total);
        assert_eq!(rt; found_in(is_own), Found::Own, "{place}");
    }
}

// Very high and of a file; high; a level that the enum lacks; of a device; of nothing.
const FILES: [(&[u8], Option<&str>); 5] = [
    (b"\x18\x02\x6a\x01f", Some("f")),
    (b"\x18\x01\x6a\x01f", None),
    (b"\x18\x09\x6a\x01f", None),
    (b"\x18\x02\x70\x07", None),
    (b"\x18\x02", None),
];

#[test]
fn an_urgent_file_is_named(rt: HostRuntime) {
    for (place, (bytes, file)) in FILES.iter().enumerate() {
        let report = Report::decode_from_slice(rt.alloc(), bytes);
        let is_own = report.map(|it| urgent_file(&it) == *file);
        assert_eq!(rt; found_in(is_own), Found::Own, "{place}");
    }
}

// A label is there once it is put, and where it is refused the report stands as it was.
fn put(alloc: Global, report: &mut Report, key: &str, text: &str) -> Found {
    let Ok(before) = report.clone() else {
        return Found::OutOfMemory;
    };
    match put_label(alloc, report, key, text) {
        Ok(()) if label(report, key) == Some(text) => Found::Own,
        Err(_) if *report == before => Found::OutOfMemory,
        _ => Found::Other,
    }
}

// A label takes the place of one, and another is put before it.
fn labelled(alloc: Global) -> Found {
    let mut report = match Report::decode_from_slice(alloc, b"\x2a\x06\x0a\x01b\x12\x01x") {
        Ok(report) => report,
        Err(why) => return found_in(Err(why)),
    };
    if label(&report, "b") != Some("x") || label(&report, "a").is_some() {
        return Found::Other;
    }
    for (key, text) in [("b", "y"), ("a", "z")] {
        let found = put(alloc, &mut report, key, text);
        if found != Found::Own {
            return found;
        }
    }
    let written = b"\x2a\x06\x0a\x01a\x12\x01z\x2a\x06\x0a\x01b\x12\x01y";
    match report.try_encode_to_vec(alloc) {
        Ok(output) if output.as_slice() == written.as_slice() => Found::Own,
        Err(EncodeError::OutOfMemory) => Found::OutOfMemory,
        _ => Found::Other,
    }
}

#[test]
fn labels_are_found_and_put(rt: HostRuntime) {
    assert_eq!(rt; labelled(rt.alloc()), Found::Own);
}
