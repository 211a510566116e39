//! What is read of texts and written again. A test that is refused a request for memory fails with
//! `OutOfMemory` as what was found, or not at all.
use std::alloc::Global;
use wire_json::FaultKind;
use wire_protojson::{
    EnumName, ReadError, Reason, Refusal, read_bool, read_bytes, read_double, read_enum,
    read_float, read_int32, read_int64, read_string, read_uint32, read_uint64, write_bool,
    write_bytes, write_double, write_enum, write_float, write_int32, write_int64, write_string,
    write_uint32, write_uint64,
};

// What a row finds: its own answer, want of memory, or anything else.
#[derive(Clone, Copy, Debug, PartialEq)]
enum Found {
    Own,
    Other,
    OutOfMemory,
}

#[derive(Clone, Copy)]
enum Type {
    Bool,
    Int32,
    Int64,
    Uint32,
    Uint64,
    Float,
    Double,
    Text,
    Bytes,
    Level,
}

use Type::{Bool, Bytes, Double, Float, Int32, Int64, Level, Text, Uint32, Uint64};

// What is answered of a text: what is written of its value, that it has none, or a fault of JSON.
#[derive(Clone, Copy)]
enum Answer {
    Is(&'static [u8]),
    No,
    Bad(usize),
}

use Answer::{Bad, Is, No};

// A type, a text, and what is answered of it.
type Row = (Type, &'static [u8], Answer);

const LEVELS: [EnumName<'static>; 4] = [
    EnumName {
        name: "LOW",
        number: 0,
    },
    EnumName {
        name: "HIGH",
        number: 1,
    },
    EnumName {
        name: "TOP",
        number: 1,
    },
    EnumName {
        name: "NONE",
        number: -1,
    },
];

const INTEGERS: [Row; 58] = [
    (Int32, b"0", Is(b"0")),
    (Int32, b"-0", Is(b"0")),
    (Int32, b"1.0", Is(b"1")),
    (Int32, b"1e3", Is(b"1000")),
    (Int32, b"1E+3", Is(b"1000")),
    (Int32, b"1.5e1", Is(b"15")),
    (Int32, b"100e-2", Is(b"1")),
    (Int32, b"-2.147483648e9", Is(b"-2147483648")),
    (Int32, b"2147483647", Is(b"2147483647")),
    (Int32, b"0e99999999999999999999", Is(b"0")),
    (Int32, b"\"7\"", Is(b"7")),
    (Int32, b"\"\\u0037\"", Is(b"7")),
    (Int32, b"\"-1.2e1\"", Is(b"-12")),
    (Int32, b"2147483648", No),
    (Int32, b"-2147483649", No),
    (Int32, b"0.5", No),
    (Int32, b"1e-1", No),
    (Int32, b"1e99999999999999999999", No),
    (Int32, b"\"\"", No),
    (Int32, b"\" 1\"", No),
    (Int32, b"\"1 \"", No),
    (Int32, b"\"01\"", No),
    (Int32, b"\"+1\"", No),
    (Int32, b"\"0x1\"", No),
    (Int32, b"\"1.5\"", No),
    (Int32, b"\"NaN\"", No),
    (Int32, b"null", No),
    (Int32, b"true", No),
    (Int32, b"[1]", No),
    (Int32, b"{}", No),
    (Int32, b"01", Bad(1)),
    (Int32, b"+1", Bad(0)),
    (Int32, b"-", Bad(1)),
    (Int32, b"\"1", Bad(2)),
    (Int32, b"", Bad(0)),
    (Int64, b"9007199254740993", Is(b"\"9007199254740993\"")),
    (
        Int64,
        b"\"-9223372036854775808\"",
        Is(b"\"-9223372036854775808\""),
    ),
    (
        Int64,
        b"9.223372036854775807e18",
        Is(b"\"9223372036854775807\""),
    ),
    (Int64, b"9223372036854775808", No),
    (Int64, b"\"1e19\"", No),
    (Uint32, b"4294967295", Is(b"4294967295")),
    (Uint32, b"4.294967295e9", Is(b"4294967295")),
    (Uint32, b"\"-0\"", Is(b"0")),
    (Uint32, b"4294967296", No),
    (Uint32, b"-1", No),
    (
        Uint64,
        b"\"18446744073709551615\"",
        Is(b"\"18446744073709551615\""),
    ),
    (
        Uint64,
        b"1.8446744073709551615e19",
        Is(b"\"18446744073709551615\""),
    ),
    (Uint64, b"18446744073709551616", No),
    (Uint64, b"-1", No),
    (Bool, b"true", Is(b"true")),
    (Bool, b"false", Is(b"false")),
    (Bool, b"\"true\"", No),
    (Bool, b"1", No),
    (Bool, b"null", No),
    (Bool, b"True", Bad(0)),
    (Bool, b"tru", Bad(3)),
    (Bool, b"fals3", Bad(4)),
    (Bool, b"nul", Bad(3)),
];

const FLOATS: [Row; 25] = [
    (Float, b"0.1", Is(b"0.1")),
    (Float, b"1", Is(b"1.0")),
    (Float, b"-0", Is(b"-0.0")),
    (Float, b"16777217", Is(b"16777216.0")),
    (Float, b"3.4028235e38", Is(b"3.4028235e38")),
    (Float, b"1e-50", Is(b"0.0")),
    (Float, b"3.5e38", No),
    (Float, b"-1e39", No),
    (Float, b"\"-Infinity\"", Is(b"\"-Infinity\"")),
    (Double, b"0.1", Is(b"0.1")),
    (Double, b"0.30000000000000004", Is(b"0.30000000000000004")),
    (Double, b"\"1.5e300\"", Is(b"1.5e300")),
    (
        Double,
        b"1.7976931348623157e308",
        Is(b"1.7976931348623157e308"),
    ),
    (Double, b"\"NaN\"", Is(b"\"NaN\"")),
    (Double, b"\"Infinity\"", Is(b"\"Infinity\"")),
    (Double, b"1e400", No),
    (Double, b"\"nan\"", No),
    (Double, b"\"inf\"", No),
    (Double, b"\"-NaN\"", No),
    (Double, b"\"\"", No),
    (Double, b"\" 1\"", No),
    (Double, b"\".5\"", No),
    (Double, b"null", No),
    (Double, b"NaN", Bad(0)),
    (Double, b".5", Bad(0)),
];

const TEXTS: [Row; 27] = [
    (Text, b"\"\"", Is(b"\"\"")),
    (Text, b"\"a\\u00e9\\n\"", Is(b"\"a\xc3\xa9\\n\"")),
    (Text, b"1", No),
    (Text, b"null", No),
    (Text, b"\"\\ud800\"", Bad(1)),
    (Text, b"\"\xff\"", Bad(1)),
    (Bytes, b"\"\"", Is(b"\"\"")),
    (Bytes, b"\"AQI=\"", Is(b"\"AQI=\"")),
    (Bytes, b"\"AQI\"", Is(b"\"AQI=\"")),
    (Bytes, b"\"-_8=\"", Is(b"\"+/8=\"")),
    (Bytes, b"\"-_8\"", Is(b"\"+/8=\"")),
    (Bytes, b"\"\\/\\/8=\"", Is(b"\"//8=\"")),
    (Bytes, b"\"-/8=\"", No),
    (Bytes, b"\"A\"", No),
    (Bytes, b"\"AQ I\"", No),
    (Bytes, b"\"A===\"", No),
    (Bytes, b"1", No),
    (Level, b"\"LOW\"", Is(b"\"LOW\"")),
    (Level, b"\"TOP\"", Is(b"\"HIGH\"")),
    (Level, b"-1", Is(b"\"NONE\"")),
    (Level, b"1.0", Is(b"\"HIGH\"")),
    (Level, b"12", Is(b"12")),
    (Level, b"\"low\"", No),
    (Level, b"\"1\"", No),
    (Level, b"2147483648", No),
    (Level, b"1.5", No),
    (Level, b"null", No),
];

// Reads a value of this type, and writes it. The place behind it is answered.
fn transcribe(alloc: Global, of: Type, text: &[u8], out: &mut Vec<u8>) -> Result<usize, ReadError> {
    match of {
        Bool => {
            let (value, after) = read_bool(alloc, text, 0)?;
            write_bool(out, value)?;
            Ok(after)
        }
        Int32 => {
            let (value, after) = read_int32(alloc, text, 0)?;
            write_int32(out, value)?;
            Ok(after)
        }
        Int64 => {
            let (value, after) = read_int64(alloc, text, 0)?;
            write_int64(out, value)?;
            Ok(after)
        }
        Uint32 => {
            let (value, after) = read_uint32(alloc, text, 0)?;
            write_uint32(out, value)?;
            Ok(after)
        }
        Uint64 => {
            let (value, after) = read_uint64(alloc, text, 0)?;
            write_uint64(out, value)?;
            Ok(after)
        }
        _ => transcribe_other(alloc, of, text, out),
    }
}

// The same of the other types.
fn transcribe_other(
    alloc: Global,
    of: Type,
    text: &[u8],
    out: &mut Vec<u8>,
) -> Result<usize, ReadError> {
    match of {
        Float => {
            let (value, after) = read_float(alloc, text, 0)?;
            write_float(out, value)?;
            Ok(after)
        }
        Double => {
            let (value, after) = read_double(alloc, text, 0)?;
            write_double(out, value)?;
            Ok(after)
        }
        Text => {
            let (value, after) = read_string(alloc, text, 0)?;
            write_string(out, value.as_str())?;
            Ok(after)
        }
        Bytes => {
            let (value, after) = read_bytes(alloc, text, 0)?;
            write_bytes(alloc, out, &value)?;
            Ok(after)
        }
        _ => {
            let (value, after) = read_enum(alloc, &LEVELS, text, 0)?;
            write_enum(out, &LEVELS, value)?;
            Ok(after)
        }
    }
}

// Whether a refusal is the one that a row has.
fn is_refused(refusal: Refusal, answer: Answer) -> bool {
    match answer {
        Is(_) => false,
        No => refusal.reason == Reason::NoValue && refusal.at == 0,
        Bad(at) => {
            refusal.at == at
                && (refusal.reason == Reason::NoJson(FaultKind::Syntax)
                    || refusal.reason == Reason::NoJson(FaultKind::LoneSurrogate))
        }
    }
}

fn found_in(alloc: Global, row: &Row) -> Found {
    let mut out = Vec::new(alloc);
    let own = match transcribe(alloc, row.0, row.1, &mut out) {
        Err(ReadError::OutOfMemory) => return Found::OutOfMemory,
        Err(ReadError::Refused(refusal)) => is_refused(refusal, row.2),
        Ok(after) =>
            matches!(row.2, Is(wanted) if out.as_slice() == wanted && after == row.1.len()),
    };
    if own { Found::Own } else { Found::Other }
}

#[test]
fn integers_and_bools_are_read(rt: HostRuntime) {
    for (place, row) in INTEGERS.iter().enumerate() {
        assert_eq!(rt; found_in(rt.alloc(), row), Found::Own, "{place}");
    }
}

#[test]
fn floats_are_read(rt: HostRuntime) {
    for (place, row) in FLOATS.iter().enumerate() {
        assert_eq!(rt; found_in(rt.alloc(), row), Found::Own, "{place}");
    }
}

#[test]
fn texts_and_enums_are_read(rt: HostRuntime) {
    for (place, row) in TEXTS.iter().enumerate() {
        assert_eq!(rt; found_in(rt.alloc(), row), Found::Own, "{place}");
    }
}
