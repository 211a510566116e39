//! The paths to bytes of texts, and what is printed of them. A test that is refused a request for
//! memory fails with `OutOfMemory` as what was found, or not at all.
use crate::paths::complaint_of;
use std::alloc::{AllocError, Global};
use wire_jsonpath::{JsonStep, explain, path_to};
use wire_protojson::ReadError;

// What a row finds: its own answer, want of memory, or anything else.
#[derive(Clone, Copy, Debug, PartialEq)]
enum Found {
    Own,
    Other,
    OutOfMemory,
}

// A text, a byte, and the path to it as it is printed.
type Row = (&'static [u8], usize, &'static str);

// How many arrays and objects may stand in one another in a row.
const LEVELS: u32 = 5;

const PLACES: [Row; 46] = [
    (b"", 0, ""),
    (b"1", 0, ""),
    (b"[1]", 0, ""),
    (b"[1]", 1, "[0]"),
    (b"[1]", 2, ""),
    (b"[1]", 3, ""),
    (b" [ 1 , 25 ] ", 2, ""),
    (b" [ 1 , 25 ] ", 3, "[0]"),
    (b" [ 1 , 25 ] ", 4, ""),
    (b" [ 1 , 25 ] ", 5, ""),
    (b" [ 1 , 25 ] ", 6, ""),
    (b" [ 1 , 25 ] ", 8, "[1]"),
    (b" [ 1 , 25 ] ", 9, ""),
    (b"{\"a\":1}", 1, ""),
    (b"{\"a\":1}", 4, ""),
    (b"{\"a\":1}", 5, "a"),
    (b"{\"a\":1}", 6, ""),
    (b"{\"a\" : [] , \"b\":\"xy\"}", 8, "a"),
    (b"{\"a\" : [] , \"b\":\"xy\"}", 9, ""),
    (b"{\"a\" : [] , \"b\":\"xy\"}", 18, "b"),
    (b"{\"a\":1,\"a\":2}", 11, "a"),
    (
        b"{\"lines\":[{},{},{\"quantity\":\"x\"}]}",
        28,
        "lines[2].quantity",
    ),
    (b"{\"lines\":[{},{},{\"quantity\":\"x\"}]}", 27, "lines[2]"),
    (b"{\"lines\":[{},{},{\"quantity\":\"x\"}]}", 15, "lines"),
    (b"{\"a\":{\"b\":[[1,[2]]]}}", 15, "a.b[0][1][0]"),
    (b"{\"a\":{\"b\":[[1,[2]]]}}", 14, "a.b[0][1]"),
    (b"[1,{\"_b9\":2}]", 10, "[1]._b9"),
    (b"{\"n\\u0061me\":1}", 13, "name"),
    (b"{\"odd name\":{\"b\":1}}", 17, "[\"odd name\"].b"),
    (b"{\"a\":{\"\":1}}", 9, "a[\"\"]"),
    (b"{\"1a\":0}", 6, "[\"1a\"]"),
    (b"{\"a.b\":0}", 7, "[\"a.b\"]"),
    (
        b"{\"\\\"\\\\\\b\\f\\n\\r\\t\":0}",
        18,
        "[\"\\\"\\\\\\b\\f\\n\\r\\t\"]",
    ),
    (
        b"{\"\\u0001\\u001F\\u007f\\u00e9\":0}",
        28,
        "[\"\\u0001\\u001f\x7f\u{e9}\"]",
    ),
    (b"[", 1, "[0]"),
    (b"[1", 2, ""),
    (b"[1,", 3, "[1]"),
    (b"[1,]", 3, "[1]"),
    (b"[1 2]", 3, ""),
    (b"{\"a\" 1}", 5, ""),
    (b"{\"a\":", 5, "a"),
    (b"{\"a\":1,}", 7, ""),
    (b"{\"a\":1} x", 8, ""),
    (b"{\"a\":\"bc", 8, "a"),
    (b"[x,[1]]", 4, "[0]"),
    (b"[1,", 99, "[1]"),
];

// A number of levels, and the path to the last byte of a text within these.
const LIMITED: [(u32, &'static [u8], &'static str); 7] = [
    (0, b"[1", ""),
    (1, b"[1", "[0]"),
    (1, b"[[1", "[0]"),
    (2, b"[[1", "[0][0]"),
    (1, b"[[],1", "[0]"),
    (2, b"[[],1", "[1]"),
    (2, b"{\"a\":{\"b\":[1", "a.b"),
];

// A text that is no batch, and what is told of it.
const TOLD: [(&'static [u8], &'static str); 9] = [
    (b"", "byte 0: no JSON"),
    (b"[]", "byte 0: no value of the type"),
    (
        b"{\"samples\":[{},{\"value\":\"x\"}]}",
        "`samples[1].value` (byte 24): no value of the type",
    ),
    (
        b"{\"samples\":[{\"size\":1}]}",
        "`samples[0].size` (byte 20): the value of an unknown name",
    ),
    (
        b"{\"grade\":1,\"grade\":2}",
        "`grade` (byte 19): a second value",
    ),
    (
        b"{\"totals\":{\"a b\":1,\"c\":[]}}",
        "`totals.c` (byte 23): no value of the type",
    ),
    (
        b"{\"totals\":{\"a b\":{}}}",
        "`totals[\"a b\"]` (byte 17): no value of the type",
    ),
    (
        b"{\"samples\":[{\"name\":\"a\"},{\"name\":\"b\" 1}]}",
        "`samples[1]` (byte 37): no JSON",
    ),
    (
        b"{\"grade\":\"\\ud800\"}",
        "`grade` (byte 10): a lone surrogate",
    ),
];

fn found_of(found: Result<String, AllocError>, line: &str) -> Found {
    match found {
        Err(_) => Found::OutOfMemory,
        Ok(own) if own.as_str() == line => Found::Own,
        Ok(_) => Found::Other,
    }
}

fn path_in(alloc: Global, text: &[u8], at: usize, levels: u32) -> Result<String, AllocError> {
    path_to(alloc, text, at, levels)?.to_string(alloc)
}

#[test]
fn paths_are_found(rt: HostRuntime) {
    for (place, (text, at, path)) in PLACES.iter().enumerate() {
        let found = path_in(rt.alloc(), text, *at, LEVELS);
        assert_eq!(rt; found_of(found, path), Found::Own, "{place}");
    }
}

#[test]
fn paths_are_limited(rt: HostRuntime) {
    for (place, (levels, text, path)) in LIMITED.iter().enumerate() {
        let found = path_in(rt.alloc(), text, text.len().saturating_sub(1), *levels);
        assert_eq!(rt; found_of(found, path), Found::Own, "{place}");
    }
}

fn told_in(alloc: Global, text: &[u8]) -> Result<String, AllocError> {
    match complaint_of(alloc, text)? {
        Some(told) => told.to_string(alloc),
        None => Ok(String::new(alloc)),
    }
}

#[test]
fn refusals_are_explained(rt: HostRuntime) {
    for (place, (text, line)) in TOLD.iter().enumerate() {
        assert_eq!(rt;
            found_of(told_in(rt.alloc(), text), line),
            Found::Own,
            "{place}"
        );
    }
}

#[test]
fn steps_are_handed_out(rt: HostRuntime) {
    match path_to(rt.alloc(), b"[{\"a\":1}]", 6, LEVELS) {
        Ok(path) => match path.steps() {
            [JsonStep::Element(index), JsonStep::Member(name)] => {
                assert_eq!(rt; (*index, name.as_str()), (0, "a"));
            }
            steps => assert_eq!(rt; steps.len(), 2),
        },
        Err(_) => assert_eq!(rt; Found::OutOfMemory, Found::Own),
    }
}

#[test]
fn want_of_memory_has_no_path(rt: HostRuntime) {
    let told = explain(rt.alloc(), b"[", LEVELS, ReadError::OutOfMemory);
    assert!(rt; told.is_err());
}
