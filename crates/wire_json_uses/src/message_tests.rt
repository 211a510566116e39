//! What is read of texts as a message, and what is written of one. A test that is refused a request
//! for memory fails with `OutOfMemory` as what was found, or not at all.
use std::alloc::Global;
use wire_json::FaultKind;
use wire_jsonfields::sample::Sample;
use wire_jsonfields::{from_json, to_json};
use wire_protojson::{ReadError, Reason, Refusal, WriteError};

// What a row finds: its own answer, want of memory, or anything else.
#[derive(Clone, Copy, Debug, PartialEq)]
enum Found {
    Own,
    Other,
    OutOfMemory,
}

// What is answered of a text: the fields, or why and at which byte it is refused.
#[derive(Clone, Copy)]
enum Answer {
    Is(&'static str, f64, Option<i64>),
    Bad(usize),
    Deep(usize),
    Unfit(usize),
    Twice(usize),
    Unknown(usize),
}

use Answer::{Bad, Deep, Is, Twice, Unfit, Unknown};

// How many arrays and objects may stand in one another in a row.
const LEVELS: u32 = 2;

const ROWS: [(&'static [u8], Answer); 31] = [
    (b"{}", Is("", 0.0, None)),
    (b" { } \n", Is("", 0.0, None)),
    (
        b"{\"name\":\"a\",\"value\":1.5,\"sampleCount\":\"7\"}",
        Is("a", 1.5, Some(7)),
    ),
    (
        b"{ \"sample_count\" : 7 , \"name\" : \"\\u00e9\" }",
        Is("\u{e9}", 0.0, Some(7)),
    ),
    (b"{\"n\\u0061me\":\"a\"}", Is("a", 0.0, None)),
    (b"{\"sampleCount\":0}", Is("", 0.0, Some(0))),
    (
        b"{\"name\":null,\"value\":null,\"sampleCount\":null}",
        Is("", 0.0, None),
    ),
    (b"{\"value\":\"-2.5\"}", Is("", -2.5, None)),
    (b"{\"name\":\"a\",\"name\":\"b\"}", Twice(19)),
    (b"{\"name\":null,\"name\":null}", Twice(20)),
    (b"{\"sample_count\":1,\"sampleCount\":2}", Twice(32)),
    (b"{\"other\":1}", Unknown(9)),
    (b"{\"Name\":\"a\"}", Unknown(8)),
    (b"{\"samplecount\":1}", Unknown(15)),
    (b"{\"\":1}", Unknown(4)),
    (b"{\"other\":null}", Unknown(9)),
    (b"{\"name\":1}", Unfit(8)),
    (b"{\"value\":\"\"}", Unfit(9)),
    (b"{\"value\":[1]}", Unfit(9)),
    (b"{\"sampleCount\":1.5}", Unfit(15)),
    (b"{\"sampleCount\":{}}", Unfit(15)),
    (b"[]", Unfit(0)),
    (b"null", Unfit(0)),
    (b" \"{}\"", Unfit(1)),
    (b"", Bad(0)),
    (b"{\"name\":\"a\"", Bad(11)),
    (b"{\"name\":1,}", Bad(10)),
    (b"{\"name\":1,\"name\"}", Bad(16)),
    (b"{} x", Bad(3)),
    (b"{\"value\":[[", Deep(10)),
    (b"{\"other\":{\"a\":{}}}", Deep(14)),
];

// The fields of a message, and what is written of it.
type Written = (&'static str, f64, Option<i64>, &'static [u8]);

const WRITTEN: [Written; 7] = [
    ("", 0.0, None, b"{}"),
    ("a", 0.0, None, b"{\"name\":\"a\"}"),
    ("", 0.0, Some(0), b"{\"sampleCount\":\"0\"}"),
    ("", -0.0, None, b"{\"value\":-0.0}"),
    ("", f64::NAN, None, b"{\"value\":\"NaN\"}"),
    (
        "a\"",
        1.5,
        Some(-7),
        b"{\"name\":\"a\\\"\",\"value\":1.5,\"sampleCount\":\"-7\"}",
    ),
    (
        "",
        1e300,
        Some(7),
        b"{\"value\":1e300,\"sampleCount\":\"7\"}",
    ),
];

// Whether a refusal is the one that a row has.
fn is_refused(refusal: Refusal, answer: Answer) -> bool {
    let (reason, at) = match answer {
        Is(..) => return false,
        Bad(at) => (Reason::NoJson(FaultKind::Syntax), at),
        Deep(at) => (Reason::NoJson(FaultKind::TooDeep), at),
        Unfit(at) => (Reason::NoValue, at),
        Twice(at) => (Reason::Duplicate, at),
        Unknown(at) => (Reason::UnknownName, at),
    };
    refusal.reason == reason && refusal.at == at
}

fn is_read(sample: &Sample, answer: Answer) -> bool {
    match answer {
        Is(name, value, count) => {
            sample.name.as_str() == name && sample.value == value && sample.sample_count == count
        }
        _ => false,
    }
}

fn found_in(alloc: Global, text: &[u8], answer: Answer) -> Found {
    let own = match from_json::<Sample>(alloc, text, LEVELS) {
        Err(ReadError::OutOfMemory) => return Found::OutOfMemory,
        Err(ReadError::Refused(refusal)) => is_refused(refusal, answer),
        Ok(sample) => is_read(&sample, answer),
    };
    if own { Found::Own } else { Found::Other }
}

#[test]
fn messages_are_read(rt: HostRuntime) {
    for (place, row) in ROWS.iter().enumerate() {
        assert_eq!(rt; found_in(rt.alloc(), row.0, row.1), Found::Own, "{place}");
    }
}

fn written_of(alloc: Global, row: &Written) -> Result<bool, WriteError> {
    let sample = Sample {
        name: String::from_str(alloc, row.0)?,
        value: row.1,
        sample_count: row.2,
    };
    let out = to_json::<Sample>(alloc, &sample)?;
    Ok(out.as_slice() == row.3)
}

#[test]
fn messages_are_written(rt: HostRuntime) {
    for (place, row) in WRITTEN.iter().enumerate() {
        let found = match written_of(rt.alloc(), row) {
            Ok(true) => Found::Own,
            Err(WriteError::OutOfMemory) => Found::OutOfMemory,
            _ => Found::Other,
        };
        assert_eq!(rt; found, Found::Own, "{place}");
    }
}
