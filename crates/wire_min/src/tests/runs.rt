//! Runs from readers and into writers that work, and that do not.
use super::devices::{BY_BYTES, Habits, Shelf, Source, WILLING};
use crate::counted::Counted;
use crate::error::RunError;
use crate::run::run;
use std::alloc::Global;
use std::io::ErrorKind::{Interrupted, Other};
use wire_codec::DecodeError;

// What is read, how it is read and written, the answer, and what is written.
type Row = (
    &'static [u8],
    Habits,
    Habits,
    Result<(), RunError>,
    &'static [u8],
);

// A number and a string, both padded, and their text.
const PAIR: &[u8] = b"\x88\x00\x80\x00\x12\x01A";

const PAIR_TEXT: &[u8] = b"\x08\x00\x12\x01A";

const BY_TWO: Habits = Habits {
    most_a_call: 2,
    ..WILLING
};

const NO_READ: Result<(), RunError> = Err(RunError::ReadFailed);

const NO_WRITE: Result<(), RunError> = Err(RunError::WriteFailed);

const fn refused(error: DecodeError) -> Result<(), RunError> {
    Err(RunError::Refused(error))
}

fn rows() -> [Row; 25] {
    let well = WILLING;
    let short = || refused(DecodeError::UnexpectedEof);
    let no_type = refused(DecodeError::InvalidWireType(7));
    [
        (b"", well, well, Ok(()), b""),
        (b"\x88\x00\x80\x00", well, well, Ok(()), b"\x08\x00"),
        (b"\x92\x00\x81\x00A", well, well, Ok(()), b"\x12\x01A"),
        (
            b"\x8b\x00\x08\x80\x00\x8c\x00",
            well,
            well,
            Ok(()),
            b"\x0b\x08\x00\x0c",
        ),
        (PAIR, well, well, Ok(()), PAIR_TEXT),
        // A payload that moves by less than its length.
        (
            b"\x92\x00\x8a\x00abcdefghij",
            well,
            well,
            Ok(()),
            b"\x12\x0aabcdefghij",
        ),
        (b"\x08", well, well, short(), b""),
        (b"\x0f", well, well, no_type, b""),
        // The pair, and a tag alone.
        (b"\x88\x00\x80\x00\x12\x01A\x08", well, well, short(), b""),
        (PAIR, BY_BYTES, well, Ok(()), PAIR_TEXT),
        (PAIR, BY_BYTES.failing(3, Other), well, NO_READ, b""),
        (PAIR, BY_BYTES.failing(3, Interrupted), well, NO_READ, b""),
        (PAIR, well.failing(0, Interrupted), well, NO_READ, b""),
        // All is read, and the call that would tell the end fails.
        (PAIR, well.failing(1, Other), well, NO_READ, b""),
        (PAIR, well.failing(1, Interrupted), well, NO_READ, b""),
        // A reader that gives no byte is at its end.
        (PAIR, BY_BYTES.stopping(4), well, Ok(()), b"\x08\x00"),
        (PAIR, well, BY_BYTES, Ok(()), PAIR_TEXT),
        (PAIR, well, BY_TWO, Ok(()), PAIR_TEXT),
        (PAIR, well, BY_TWO.failing(1, Other), NO_WRITE, b"\x08\x00"),
        (
            PAIR,
            well,
            BY_TWO.failing(1, Interrupted),
            NO_WRITE,
            b"\x08\x00",
        ),
        (PAIR, well, BY_TWO.stopping(1), NO_WRITE, b"\x08\x00"),
        (PAIR, well, well.stopping(0), NO_WRITE, b""),
        (PAIR, well, well.failing(0, Interrupted), NO_WRITE, b""),
        // All is written, and the flush fails.
        (PAIR, well, well.failing(1, Other), NO_WRITE, PAIR_TEXT),
        (
            PAIR,
            well,
            well.failing(1, Interrupted),
            NO_WRITE,
            PAIR_TEXT,
        ),
    ]
}

// Padded records of each kind, and their text.
const LONG: &[u8] =
    b"\x88\x00\x80\x00\x92\x00\x81\x00A\x8b\x00\x08\x80\x00\x8c\x00\x15abcd\x99\x00efghijkl";

const LONG_TEXT: &[u8] = b"\x08\x00\x12\x01A\x0b\x08\x00\x0c\x15abcd\x19efghijkl";

// A read for each byte, and one for the end; a write for each byte, and the flush.
const CALLS: usize = LONG.len() + 1;

fn read_behind(calls: usize) -> (Result<(), RunError>, &'static [u8]) {
    if calls < CALLS {
        (NO_READ, b"")
    } else {
        (Ok(()), LONG_TEXT)
    }
}

fn written_behind(calls: usize, last: usize) -> Result<(), RunError> {
    if calls < last { NO_WRITE } else { Ok(()) }
}

// Devices that answer so many calls, and then fail, or take no byte.
fn rows_behind(calls: usize) -> [Row; 5] {
    let (well, broken) = (WILLING, BY_BYTES.failing(calls, Other));
    let interrupted = BY_BYTES.failing(calls, Interrupted);
    let (answer, written) = read_behind(calls);
    let (same, _) = read_behind(calls);
    let front = &LONG_TEXT[..calls.min(LONG_TEXT.len())];
    let flushed = || written_behind(calls, LONG_TEXT.len().saturating_add(1));
    let all = written_behind(calls, LONG_TEXT.len());
    [
        (LONG, broken, well, answer, written),
        (LONG, interrupted, well, same, written),
        (LONG, well, broken, flushed(), front),
        (LONG, well, interrupted, flushed(), front),
        (LONG, well, BY_BYTES.stopping(calls), all, front),
    ]
}

// What the run's own error says of the calls that failed: of the reader, and of the writer.
fn failed_calls(answer: &Result<(), RunError>) -> (u64, u64) {
    match answer {
        Err(RunError::ReadFailed) => (1, 0),
        Err(RunError::WriteFailed) => (0, 1),
        _ => (0, 0),
    }
}

// Whether a run answers so, writes these bytes, and no calls fail but for those that its error
// tells of. Memory is wanted only before a byte is written.
fn runs(alloc: Global, row: &Row) -> Result<bool, RunError> {
    let (input, reading, writing, answer, written) = row;
    let mut reader = Counted::new(Source::new(input, *reading));
    let mut shelf = Shelf::new(*writing);
    let mut writer = Counted::new(&mut shelf);
    let found = run(alloc, &mut reader, &mut writer);
    let counts = (reader.failures(), writer.failures());
    if counts != failed_calls(&found) {
        return Ok(false);
    }
    if found == Err(RunError::OutOfMemory) && shelf.taken().is_empty() {
        return Err(RunError::OutOfMemory);
    }
    Ok(found == *answer && shelf.taken() == *written)
}

#[test]
fn runs_answer_as_their_devices(rt: HostRuntime) {
    for (place, row) in rows().iter().enumerate() {
        assert_eq!(rt; runs(rt.alloc(), row), Ok(true), "{place}");
    }
}

// A device that fails at each of its calls in turn, and at none.
#[test]
fn each_call_may_fail(rt: HostRuntime) {
    for calls in 0..=CALLS {
        for (place, row) in rows_behind(calls).iter().enumerate() {
            assert_eq!(rt; runs(rt.alloc(), row), Ok(true), "{calls} {place}");
        }
    }
}
