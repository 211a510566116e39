//! The lines that are printed of a log.
use crate::entry::{Broken, LogReader, Stop};
use std::fmt;
use wire_run::{FramePlace, RunError, Source, write_error};

/// The line of a frame whose payload is records.
pub(crate) fn print_line(
    rt: &impl Print,
    place: FramePlace,
    len: usize,
    records: usize,
) -> Result<(), RunError> {
    match println!(rt; "{} {len} {records}", place.start) {
        Ok(()) => Ok(()),
        Err(error) => Err(write_error(error)),
    }
}

/// One line on standard error: where the log stops, and why.
pub(crate) fn tell_stop(
    rt: &impl Eprint,
    source: Source<'_>,
    log: &LogReader,
    stop: &Stop,
) -> RunError {
    let _ = match stop {
        Stop::OutOfMemory => return RunError::OutOfMemory,
        Stop::Frame(error) => eprintln!(rt; "wire_log: {source}: {}: {error}", log.place()),
        Stop::Records(broken) => eprintln!(rt; "wire_log: {source}: {broken}"),
    };
    RunError::Broken
}

/// One line on standard error: which frame is left out, and why.
pub(crate) fn tell_left_out(rt: &impl Eprint, source: Source<'_>, broken: &Broken) {
    let _ = eprintln!(rt; "wire_log: {source}: left out: {broken}");
}

// The places are those in the log.
impl fmt::Display for Broken {
    fn fmt<W: fmt::Write>(&self, f: &mut fmt::Formatter<W>) -> fmt::Result {
        let payload = self.place.start.saturating_add(self.prefix as u64);
        write!(
            f,
            "{}: record at {}, {:?} at {}: {:?}: {}",
            self.place,
            payload.saturating_add(self.fault.record_place as u64),
            self.fault.part,
            payload.saturating_add(self.fault.part_place as u64),
            self.fault.error,
            self.fault.error
        )
    }
}
