//! Errors as they are shown on standard error, and their statuses.
use super::{Found, found_in};
use crate::error::RunError;
use crate::report;
use std::alloc::Global;
use std::cell::Cell;
use std::fmt::Display;
use std::io;
use std::io::ErrorKind;
use std::process::ExitCode;
use wire_codec::DecodeError;

// Each error, its line and its status.
fn lines() -> [(RunError, &'static str, u8); 5] {
    let no_type = RunError::Refused(DecodeError::InvalidWireType(7));
    [
        (
            RunError::Refused(DecodeError::UnexpectedEof),
            "wire_min: refused: unexpected end of buffer",
            1,
        ),
        (no_type, "wire_min: refused: invalid wire type: 7", 1),
        (RunError::OutOfMemory, "wire_min: out of memory", 2),
        (RunError::ReadFailed, "wire_min: read failed", 2),
        (RunError::WriteFailed, "wire_min: write failed", 2),
    ]
}

fn shows<D: Display>(alloc: Global, shown: &D, line: &str) -> Result<bool, RunError> {
    match shown.to_string(alloc) {
        Ok(text) => Ok(text.as_str() == line),
        Err(_) => Err(RunError::OutOfMemory),
    }
}

// A standard error that compares each line with the one that is due.
#[derive(Drop)]
struct Listener {
    alloc: Global,
    due: &'static str,
    lines: Cell<u32>,
    heard: Cell<Found>,
}

impl Eprint for Listener {
    fn eprint<D: Display + Drop>(&self, _value: D) -> io::Result<()> {
        self.heard.set(Found::Other);
        Ok(())
    }

    fn eprintln<D: Display + Drop>(&self, value: D) -> io::Result<()> {
        self.lines.set(self.lines.get().saturating_add(1));
        self.heard
            .set(found_in(shows(self.alloc, &value, self.due)));
        Ok(())
    }
}

// The line is put once on standard error, and the status is that of the error.
fn reports(
    alloc: Global,
    error: RunError,
    due: &'static str,
    status: u8,
) -> Result<bool, RunError> {
    let listener = Listener {
        alloc,
        due,
        lines: Cell::new(0),
        heard: Cell::new(Found::Other),
    };
    if report(&listener, Err(error)) != ExitCode::from(status) || listener.lines.get() != 1 {
        return Ok(false);
    }
    match listener.heard.get() {
        Found::OutOfMemory => Err(RunError::OutOfMemory),
        heard => Ok(heard == Found::Own),
    }
}

#[test]
fn each_error_is_reported(rt: HostRuntime) {
    for (error, line, status) in lines() {
        assert_eq!(rt;
            reports(rt.alloc(), error, line, status),
            Ok(true),
            "{line}"
        );
    }
}

#[test]
fn a_run_that_is_done_reports_no_line(rt: HostRuntime) {
    let listener = Listener {
        alloc: rt.alloc(),
        due: "",
        lines: Cell::new(0),
        heard: Cell::new(Found::Own),
    };
    assert_eq!(rt; report(&listener, Ok(())), ExitCode::SUCCESS);
    assert_eq!(rt; listener.lines.get(), 0);
    assert_eq!(rt; listener.heard.get(), Found::Own);
}

// A standard error that takes nothing.
#[derive(Drop)]
struct Closed;

impl Eprint for Closed {
    fn eprint<D: Display + Drop>(&self, _value: D) -> io::Result<()> {
        Err(io::Error::from(ErrorKind::BrokenPipe))
    }

    fn eprintln<D: Display + Drop>(&self, _value: D) -> io::Result<()> {
        Err(io::Error::from(ErrorKind::BrokenPipe))
    }
}

#[test]
fn a_line_that_cannot_be_written_leaves_the_status(rt: HostRuntime) {
    for (error, line, status) in lines() {
        assert_eq!(rt;
            report(&Closed, Err(error)),
            ExitCode::from(status),
            "{line}"
        );
    }
    assert_eq!(rt; report(&Closed, Ok(())), ExitCode::SUCCESS);
}
