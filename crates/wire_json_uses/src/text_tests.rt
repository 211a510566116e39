//! What is answered of texts, and what is written. A test that is refused a request for memory
//! fails with `OutOfMemory` as what was found, or not at all.
use std::alloc::{AllocError, Global};
use wire_json::{
    Fault, FaultKind, JsonError, Mark, check, compact, push_string, read_name, read_number,
    read_string, skip_bool, skip_null, write_bool, write_mark, write_name, write_null,
    write_number, write_string,
};

// What a row finds: its own answer, want of memory, or anything else.
#[derive(Clone, Copy, Debug, PartialEq)]
enum Found {
    Own,
    Other,
    OutOfMemory,
}

// What is answered of a text: its compact text, or a fault at a byte.
#[derive(Clone, Copy)]
enum Answer {
    Is(&'static [u8]),
    Bad(usize),
    Lone(usize),
    Deep(usize),
}

use Answer::{Bad, Deep, Is, Lone};

// A text, and what is answered of it.
type Row = (&'static [u8], Answer);

// How many arrays and objects may stand in one another in a row.
const LEVELS: u32 = 3;

const TAKEN: [Row; 26] = [
    (b"null", Is(b"null")),
    (b" true\n", Is(b"true")),
    (b"\t\r\nfalse", Is(b"false")),
    (b"[]", Is(b"[]")),
    (b" [ \n] ", Is(b"[]")),
    (b"{ }", Is(b"{}")),
    (b"[ 1 , 2 ]", Is(b"[1,2]")),
    (b"{ \"b\" : 1 , \"a\" : [ ] }", Is(b"{\"b\":1,\"a\":[]}")),
    (b"{\"a\":1,\"a\":2}", Is(b"{\"a\":1,\"a\":2}")),
    (b"{\"\":{\"\":{}}}", Is(b"{\"\":{\"\":{}}}")),
    (b"[[[]],[[1]]]", Is(b"[[[]],[[1]]]")),
    (b"0", Is(b"0")),
    (b"-0", Is(b"-0")),
    (b"-0.0e-00", Is(b"-0.0e-00")),
    (b"[1e5,1E+2,10.25]", Is(b"[1e5,1E+2,10.25]")),
    (
        b"123456789012345678901234567890",
        Is(b"123456789012345678901234567890"),
    ),
    (b"\"\"", Is(b"\"\"")),
    (b"\"\\u0041\\/\"", Is(b"\"A/\"")),
    (
        b"\"\\\"\\\\\\b\\f\\n\\r\\t\"",
        Is(b"\"\\\"\\\\\\b\\f\\n\\r\\t\""),
    ),
    (b"\"\\u0000\\u001F\"", Is(b"\"\\u0000\\u001f\"")),
    (b"\"\\u0009\\u0022\"", Is(b"\"\\t\\\"\"")),
    (b"\"a\\u007fb\"", Is(b"\"a\x7fb\"")),
    (b"\"\\u00e9\"", Is(b"\"\xc3\xa9\"")),
    (b"\"\\uD83d\\uDe00\"", Is(b"\"\xf0\x9f\x98\x80\"")),
    (
        b"\"\xf0\x9f\x98\x80\xe2\x80\xa8\"",
        Is(b"\"\xf0\x9f\x98\x80\xe2\x80\xa8\""),
    ),
    (b"\"\\uFFFF\\u2028\"", Is(b"\"\xef\xbf\xbf\xe2\x80\xa8\"")),
];

const REFUSED: [Row; 66] = [
    (b"", Bad(0)),
    (b"  ", Bad(2)),
    (b"[", Bad(1)),
    (b"[1", Bad(2)),
    (b"[1,", Bad(3)),
    (b"[1,]", Bad(3)),
    (b"[,1]", Bad(1)),
    (b"[1 2]", Bad(3)),
    (b"[1:2]", Bad(2)),
    (b"]", Bad(0)),
    (b"[]]", Bad(2)),
    (b"[1}", Bad(2)),
    (b"{", Bad(1)),
    (b"{\"a\"", Bad(4)),
    (b"{\"a\"}", Bad(4)),
    (b"{\"a\":}", Bad(5)),
    (b"{\"a\":1", Bad(6)),
    (b"{\"a\":1,}", Bad(7)),
    (b"{\"a\" 1}", Bad(5)),
    (b"{,}", Bad(1)),
    (b"{a:1}", Bad(1)),
    (b"{1:1}", Bad(1)),
    (b"{\"a\":1]", Bad(6)),
    (b"{\"a\":1}}", Bad(7)),
    (b"1 2", Bad(2)),
    (b"null,", Bad(4)),
    (b"01", Bad(1)),
    (b"-01", Bad(2)),
    (b"+1", Bad(0)),
    (b".5", Bad(0)),
    (b"1.", Bad(2)),
    (b"1.e1", Bad(2)),
    (b"-", Bad(1)),
    (b"--1", Bad(1)),
    (b"-a", Bad(1)),
    (b"1e", Bad(2)),
    (b"1e+", Bad(3)),
    (b"1.5.2", Bad(3)),
    (b"1-", Bad(1)),
    (b"0x10", Bad(1)),
    (b"1a", Bad(1)),
    (b"NaN", Bad(0)),
    (b"Infinity", Bad(0)),
    (b"nul", Bad(3)),
    (b"nulL", Bad(3)),
    (b"tRue", Bad(1)),
    (b"nulls", Bad(4)),
    (b"'a'", Bad(0)),
    (b"\"", Bad(1)),
    (b"\"a", Bad(2)),
    (b"\"\\", Bad(2)),
    (b"\"\\\"", Bad(3)),
    (b"\"\x01\"", Bad(1)),
    (b"\"a\n\"", Bad(2)),
    (b"\"\\x\"", Bad(2)),
    (b"\"\\U0041\"", Bad(2)),
    (b"\"\\u12\"", Bad(5)),
    (b"\"\\u00g0\"", Bad(5)),
    (b"\"\xff\"", Bad(1)),
    (b"\"a\xc3(\"", Bad(2)),
    (b"\"\xe2\x82\"", Bad(1)),
    (b"\"\xed\xa0\x80\"", Bad(1)),
    (b"\xef\xbb\xbf1", Bad(0)),
    (b"[1\x0c]", Bad(2)),
    (b"[[[1],[2]],[", Bad(12)),
    (b"/**/1", Bad(0)),
];

const LIMITED: [Row; 10] = [
    (b"[[[[]]]]", Deep(3)),
    (b"[[[{}]]]", Deep(3)),
    (b"{\"a\":{\"b\":{\"c\":[", Deep(15)),
    (b"[[[1,[", Deep(5)),
    (b"[[[x[", Bad(3)),
    (b"\"\\ud800\"", Lone(1)),
    (b"\"a\\uDC00\\ud800\"", Lone(2)),
    (b"\"\\ud800\\u0041\"", Lone(1)),
    (b"\"\\ud800\\n\"", Lone(1)),
    (b"\"\\ud83d\\ud83d\\ude00\"", Lone(1)),
];

fn fault_of(answer: Answer) -> Option<Fault> {
    let (kind, at) = match answer {
        Is(_) => return None,
        Bad(at) => (FaultKind::Syntax, at),
        Lone(at) => (FaultKind::LoneSurrogate, at),
        Deep(at) => (FaultKind::TooDeep, at),
    };
    Some(Fault { kind, at })
}

// What `compact` and `check` answer of a text.
fn found_in(alloc: Global, text: &[u8], answer: Answer) -> Found {
    let mut out = Vec::new(alloc);
    let result = compact(text, LEVELS, &mut out);
    let own = match (result, check(text, LEVELS)) {
        (Err(JsonError::OutOfMemory), _) => return Found::OutOfMemory,
        (Ok(()), Ok(())) => matches!(answer, Is(wanted) if out.as_slice() == wanted),
        (Err(JsonError::Refused(one)), Err(other)) => {
            one == other && fault_of(answer) == Some(one)
        }
        _ => false,
    };
    if own { Found::Own } else { Found::Other }
}

#[test]
fn texts_are_taken(rt: HostRuntime) {
    for (place, row) in TAKEN.iter().enumerate() {
        assert_eq!(rt; found_in(rt.alloc(), row.0, row.1), Found::Own, "{place}");
    }
}

#[test]
fn texts_are_refused(rt: HostRuntime) {
    for (place, row) in REFUSED.iter().enumerate() {
        assert_eq!(rt; found_in(rt.alloc(), row.0, row.1), Found::Own, "{place}");
    }
}

#[test]
fn levels_and_surrogates_are_refused(rt: HostRuntime) {
    for (place, row) in LIMITED.iter().enumerate() {
        assert_eq!(rt; found_in(rt.alloc(), row.0, row.1), Found::Own, "{place}");
    }
}

// Strings, of which two have an escape, a name, a number and words.
fn read_tokens(alloc: Global) -> Result<bool, JsonError> {
    let plain = read_string(alloc, b"\"ab\",", 0)?;
    let escaped = read_string(alloc, b"\"a\\nb\",", 0)?;
    let name = read_name(alloc, b"{ \"k\" : 1}", 2)?;
    let number = read_number(b"[-1.5e3,", 1)?;
    let word = skip_bool(b"[true", 1, true)?;
    let null = skip_null(b"[null", 1)?;
    let mut out = String::from_str(alloc, "<")?;
    let after = push_string(b"[\"\\u20AC\"]", 1, &mut out)?;
    Ok(
        plain.value.as_str() == "ab"
            && plain.after == 4
            && escaped.value.as_str() == "a\nb"
            && escaped.after == 6
            && name.value.as_str() == "k"
            && name.after == 8
            && number.text == b"-1.5e3".as_slice()
            && number.after == 7
            && word == 5
            && null == 5
            && out.as_str() == "<\u{20ac}"
            && after == 9,
    )
}

#[test]
fn tokens_are_read(rt: HostRuntime) {
    let found = match read_tokens(rt.alloc()) {
        Ok(true) => Found::Own,
        Err(JsonError::OutOfMemory) => Found::OutOfMemory,
        _ => Found::Other,
    };
    assert_eq!(rt; found, Found::Own);
}

// An object, token by token.
fn write_tokens(alloc: Global) -> Result<bool, AllocError> {
    let mut out = Vec::new(alloc);
    write_mark(&mut out, Mark::BeginObject)?;
    write_name(&mut out, "k\n")?;
    write_mark(&mut out, Mark::BeginArray)?;
    write_null(&mut out)?;
    write_mark(&mut out, Mark::Comma)?;
    write_bool(&mut out, true)?;
    write_mark(&mut out, Mark::Comma)?;
    write_number(&mut out, b"-1.5")?;
    write_mark(&mut out, Mark::Comma)?;
    write_string(&mut out, "\"\u{1}\u{e9}")?;
    write_mark(&mut out, Mark::EndArray)?;
    write_mark(&mut out, Mark::EndObject)?;
    let wanted = b"{\"k\\n\":[null,true,-1.5,\"\\\"\\u0001\xc3\xa9\"]}";
    Ok(out.as_slice() == wanted.as_slice())
}

#[test]
fn tokens_are_written(rt: HostRuntime) {
    let found = match write_tokens(rt.alloc()) {
        Ok(true) => Found::Own,
        Ok(false) => Found::Other,
        Err(_) => Found::OutOfMemory,
    };
    assert_eq!(rt; found, Found::Own);
}
