//! What is read of texts as a duration or a timestamp, and what is written. A test that is refused a
//! request for memory fails with `OutOfMemory` as what was found, or not at all.
use crate::rewrite::RewriteError;
use std::alloc::Global;
use wire_json::FaultKind;
use wire_jsontimes::{
    JsonDuration, JsonTimestamp, read_duration, read_timestamp, write_duration, write_timestamp,
};
use wire_protojson::{ReadError, Reason, WriteError};

// What a row finds: its own answer, want of memory, or anything else.
#[derive(Clone, Copy, Debug, PartialEq)]
enum Found {
    Own,
    Other,
    OutOfMemory,
}

// What is answered of a text: what is written again, that it is no value, or at which byte it is no
// JSON.
#[derive(Clone, Copy)]
enum Answer {
    Is(&'static [u8]),
    Unfit,
    Bad(usize),
}

use Answer::{Bad, Is, Unfit};

const DURATIONS: [(&'static [u8], Answer); 36] = [
    (b"\"0s\"", Is(b"\"0s\"")),
    (b"\"1s\"", Is(b"\"1s\"")),
    (b"\"-1s\"", Is(b"\"-1s\"")),
    (b"\"-0s\"", Is(b"\"0s\"")),
    (b"\"1.5s\"", Is(b"\"1.500s\"")),
    (b"\"-1.5s\"", Is(b"\"-1.500s\"")),
    (b"\"-0.25s\"", Is(b"\"-0.250s\"")),
    (b"\"1.0s\"", Is(b"\"1s\"")),
    (b"\"10.010s\"", Is(b"\"10.010s\"")),
    (b"\"1.00001s\"", Is(b"\"1.000010s\"")),
    (b"\"1.000000001s\"", Is(b"\"1.000000001s\"")),
    (b"\"7.123456789s\"", Is(b"\"7.123456789s\"")),
    (b"\"\\u0031s\"", Is(b"\"1s\"")),
    (b"\"315576000000s\"", Is(b"\"315576000000s\"")),
    (b"\"-315576000000s\"", Is(b"\"-315576000000s\"")),
    (
        b"\"315576000000.999999999s\"",
        Is(b"\"315576000000.999999999s\""),
    ),
    (b"\"315576000001s\"", Unfit),
    (b"\"-315576000001s\"", Unfit),
    (b"\"9999999999999s\"", Unfit),
    (b"\"1\"", Unfit),
    (b"\"s\"", Unfit),
    (b"\"\"", Unfit),
    (b"\"-s\"", Unfit),
    (b"\".5s\"", Unfit),
    (b"\"1.s\"", Unfit),
    (b"\"1.1234567890s\"", Unfit),
    (b"\"01s\"", Unfit),
    (b"\"+1s\"", Unfit),
    (b"\" 1s\"", Unfit),
    (b"\"1s \"", Unfit),
    (b"\"1e3s\"", Unfit),
    (b"\"1.5S\"", Unfit),
    (b"\"--1s\"", Unfit),
    (b"1", Unfit),
    (b"[]", Unfit),
    (b"\"1s", Bad(3)),
];

const TIMESTAMPS: [(&'static [u8], Answer); 36] = [
    (b"\"1970-01-01T00:00:00Z\"", Is(b"\"1970-01-01T00:00:00Z\"")),
    (
        b"\"1970-01-01T00:00:00.5Z\"",
        Is(b"\"1970-01-01T00:00:00.500Z\""),
    ),
    (
        b"\"2024-02-29T23:59:59.123456789Z\"",
        Is(b"\"2024-02-29T23:59:59.123456789Z\""),
    ),
    (
        b"\"2000-02-29T12:30:01.000001Z\"",
        Is(b"\"2000-02-29T12:30:01.000001Z\""),
    ),
    (
        b"\"1969-12-31T23:59:59.999Z\"",
        Is(b"\"1969-12-31T23:59:59.999Z\""),
    ),
    (b"\"0001-01-01T00:00:00Z\"", Is(b"\"0001-01-01T00:00:00Z\"")),
    (
        b"\"9999-12-31T23:59:59.999999999Z\"",
        Is(b"\"9999-12-31T23:59:59.999999999Z\""),
    ),
    (
        b"\"1970-01-01T01:00:00+01:00\"",
        Is(b"\"1970-01-01T00:00:00Z\""),
    ),
    (
        b"\"1970-01-01T00:00:00-08:30\"",
        Is(b"\"1970-01-01T08:30:00Z\""),
    ),
    (
        b"\"2024-03-01T00:30:00+00:45\"",
        Is(b"\"2024-02-29T23:45:00Z\""),
    ),
    (b"\"2023-02-29T00:00:00Z\"", Unfit),
    (b"\"2100-02-29T00:00:00Z\"", Unfit),
    (b"\"2024-04-31T00:00:00Z\"", Unfit),
    (b"\"2024-13-01T00:00:00Z\"", Unfit),
    (b"\"2024-00-01T00:00:00Z\"", Unfit),
    (b"\"2024-01-00T00:00:00Z\"", Unfit),
    (b"\"0000-01-01T00:00:00Z\"", Unfit),
    (b"\"0001-01-01T00:00:00+00:01\"", Unfit),
    (b"\"9999-12-31T23:59:59-00:01\"", Unfit),
    (b"\"2024-01-01T24:00:00Z\"", Unfit),
    (b"\"2024-01-01T00:60:00Z\"", Unfit),
    (b"\"2024-01-01T00:00:60Z\"", Unfit),
    (b"\"2024-01-01t00:00:00Z\"", Unfit),
    (b"\"2024-01-01T00:00:00z\"", Unfit),
    (b"\"2024-01-01T00:00:00\"", Unfit),
    (b"\"2024-01-01 00:00:00Z\"", Unfit),
    (b"\"2024-1-1T00:00:00Z\"", Unfit),
    (b"\"2024-01-01T00:00Z\"", Unfit),
    (b"\"2024-01-01T00:00:00.Z\"", Unfit),
    (b"\"2024-01-01T00:00:00.1234567890Z\"", Unfit),
    (b"\"2024-01-01T00:00:00+0100\"", Unfit),
    (b"\"2024-01-01T00:00:00+24:00\"", Unfit),
    (b"\"2024-01-01T00:00:00Z \"", Unfit),
    (b"\"20240101T000000Z\"", Unfit),
    (b"\"\"", Unfit),
    (b"1", Unfit),
];

fn rewrite_duration(alloc: Global, text: &[u8], out: &mut Vec<u8>) -> Result<usize, RewriteError> {
    let (duration, after) = read_duration(alloc, text, 0)?;
    write_duration(alloc, out, duration)?;
    Ok(after)
}

fn rewrite_timestamp(alloc: Global, text: &[u8], out: &mut Vec<u8>) -> Result<usize, RewriteError> {
    let (timestamp, after) = read_timestamp(alloc, text, 0)?;
    write_timestamp(alloc, out, timestamp)?;
    Ok(after)
}

fn found_of(
    out: &[u8],
    end: usize,
    answered: Result<usize, RewriteError>,
    answer: Answer,
) -> Found {
    let own = match answered {
        Err(RewriteError::Read(ReadError::OutOfMemory)) => return Found::OutOfMemory,
        Err(RewriteError::Write(WriteError::OutOfMemory)) => return Found::OutOfMemory,
        Err(RewriteError::Write(WriteError::OutOfRange)) => false,
        Err(RewriteError::Read(ReadError::Refused(refusal))) => match answer {
            Is(_) => false,
            Unfit => refusal.reason == Reason::NoValue && refusal.at == 0,
            Bad(at) => refusal.reason == Reason::NoJson(FaultKind::Syntax) && refusal.at == at,
        },
        Ok(after) => matches!(answer, Is(wanted) if out == wanted && after == end),
    };
    if own { Found::Own } else { Found::Other }
}

#[test]
fn durations_are_read_and_written(rt: HostRuntime) {
    for (place, row) in DURATIONS.iter().enumerate() {
        let mut out = Vec::new(rt.alloc());
        let answered = rewrite_duration(rt.alloc(), row.0, &mut out);
        let found = found_of(out.as_slice(), row.0.len(), answered, row.1);
        assert_eq!(rt; found, Found::Own, "{place}");
    }
}

#[test]
fn timestamps_are_read_and_written(rt: HostRuntime) {
    for (place, row) in TIMESTAMPS.iter().enumerate() {
        let mut out = Vec::new(rt.alloc());
        let answered = rewrite_timestamp(rt.alloc(), row.0, &mut out);
        let found = found_of(out.as_slice(), row.0.len(), answered, row.1);
        assert_eq!(rt; found, Found::Own, "{place}");
    }
}

// Values that no text has.
const OUT_OF_RANGE: [(i64, i32); 7] = [
    (315_576_000_001, 0),
    (-315_576_000_001, 0),
    (i64::MIN, 0),
    (0, 1_000_000_000),
    (0, i32::MIN),
    (1, -1),
    (-1, 1),
];

const NO_TIMESTAMPS: [(i64, i32); 5] = [
    (-62_135_596_801, 0),
    (253_402_300_800, 0),
    (i64::MAX, 0),
    (0, -1),
    (0, 1_000_000_000),
];

#[test]
fn what_is_out_of_range_is_not_written(rt: HostRuntime) {
    for (place, row) in OUT_OF_RANGE.iter().enumerate() {
        let mut out = Vec::new(rt.alloc());
        let duration = JsonDuration {
            seconds: row.0,
            nanos: row.1,
        };
        let written = write_duration(rt.alloc(), &mut out, duration);
        assert_eq!(rt; written, Err(WriteError::OutOfRange), "{place}");
    }
    for (place, row) in NO_TIMESTAMPS.iter().enumerate() {
        let mut out = Vec::new(rt.alloc());
        let timestamp = JsonTimestamp {
            seconds: row.0,
            nanos: row.1,
        };
        let written = write_timestamp(rt.alloc(), &mut out, timestamp);
        assert_eq!(rt; written, Err(WriteError::OutOfRange), "{place}");
    }
}
