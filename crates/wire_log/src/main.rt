//! Reads a log of messages, each behind its length, and prints a line a frame; or writes the
//! longest front of it whose payloads are records, or all frames whose payloads are.
#![tactic(auto)]

mod entry;
mod front;
mod kept;
mod lines;
mod options;

use bytes::Bytes;
use entry::{Entry, LogReader, Stop, count_records};
use front::put_front;
use kept::put_kept;
use lines::{print_line, tell_left_out, tell_stop};
use options::{Options, Task};
use std::fs;
use std::io::{Read, Write};
use std::process::ExitCode;
use wire_frames::FrameError;
use wire_run::{
    RunError, Source, answer_words, open_error, read_error, report, words, write_error,
};

const NAME: &str = "wire_log";

// How many bytes are read at a time.
const CHUNK: u64 = 64 * 1024;

fn main(rt: HostRuntime) -> ExitCode {
    match words(&rt, NAME) {
        Ok(words) => answer(&rt, words.as_slice()),
        Err(error) => report(&rt, NAME, Source::StandardInput, Err(error)),
    }
}

// What these words ask for, and its status.
fn answer(rt: &HostRuntime, words: &[String]) -> ExitCode {
    match Options::parse(rt.alloc(), words) {
        Ok(options) => report(rt, NAME, options.source, run(rt, &options)),
        Err(error) => report(rt, NAME, Source::StandardInput, answer_words(rt, &error)),
    }
}

fn run(rt: &HostRuntime, options: &Options<'_>) -> Result<(), RunError> {
    match options.source {
        Source::StandardInput => read_log(rt, options, &mut rt.stdin()),
        Source::File(path) => match fs::open(rt, path) {
            Ok(mut file) => read_log(rt, options, &mut file),
            Err(error) => Err(open_error(error)),
        },
    }
}

// All of a log. It is broken where it stops before its end, and where frames are left out.
fn read_log(
    rt: &HostRuntime,
    options: &Options<'_>,
    input: &mut (impl Read + Drop),
) -> Result<(), RunError> {
    let mut log = LogReader::new(rt.alloc(), options.limit);
    let mut is_whole = true;
    // Each turn but the last takes a byte.
    for _ in 0..u64::MAX {
        let chunk = read_chunk(rt, input)?;
        if chunk.is_empty() {
            break;
        }
        log.feed(chunk).or(Err(RunError::OutOfMemory))?;
        is_whole &= take_frames(rt, options, &mut log)?;
    }
    if !log.decoder.is_empty() {
        let end = Stop::Frame(FrameError::Truncated);
        return Err(tell_stop(rt, options.source, &log, &end));
    }
    if is_whole {
        Ok(())
    } else {
        Err(RunError::Broken)
    }
}

// The next bytes; none at the end.
fn read_chunk(rt: &HostRuntime, input: &mut (impl Read + Drop)) -> Result<Bytes, RunError> {
    let mut bytes = Vec::new(rt.alloc());
    match input.take(CHUNK).read_to_end(&mut bytes) {
        Ok(_) => Ok(Bytes::from_vec(bytes)?),
        Err(error) => Err(read_error(error)),
    }
}

// Takes all whole frames of what was fed, and answers whether none was left out.
fn take_frames(
    rt: &HostRuntime,
    options: &Options<'_>,
    log: &mut LogReader,
) -> Result<bool, RunError> {
    match options.task {
        Task::List { skip } => list(rt, options.source, log, skip).and(Ok(true)),
        Task::Repair => repair(rt, options.source, log).and(Ok(true)),
        Task::DropBroken => drop_broken(rt, options.source, log),
    }
}

// Prints a line for each frame, but for the first ones that are passed over.
fn list(
    rt: &HostRuntime,
    source: Source<'_>,
    log: &mut LogReader,
    skip: u64,
) -> Result<(), RunError> {
    loop {
        match log.next() {
            Ok(Some(entry)) => {
                if entry.place.number >= skip {
                    print_entry(rt, &entry)?;
                }
            }
            Ok(None) => return Ok(()),
            Err(stop) => return Err(tell_stop(rt, source, log, &stop)),
        }
    }
}

fn print_entry(rt: &HostRuntime, entry: &Entry) -> Result<(), RunError> {
    let payload = entry.whole.payload();
    let records = count_records(rt.alloc(), payload).or(Err(RunError::OutOfMemory))?;
    print_line(rt, entry.place, payload.len(), records)
}

// Writes the frames whose payloads are records up to one that is not, as they stand.
fn repair(rt: &HostRuntime, source: Source<'_>, log: &mut LogReader) -> Result<(), RunError> {
    let mut text = Vec::new(rt.alloc());
    let answer = put_front(log, &mut text);
    write_text(rt, &text)?;
    match answer {
        Ok(()) => Ok(()),
        Err(stop) => Err(tell_stop(rt, source, log, &stop)),
    }
}

// Writes the frames whose payloads are records, as they stand, and tells of those that it leaves
// out.
fn drop_broken(
    rt: &HostRuntime,
    source: Source<'_>,
    log: &mut LogReader,
) -> Result<bool, RunError> {
    let mut text = Vec::new(rt.alloc());
    let mut left_out = Vec::new(rt.alloc());
    let answer = put_kept(log, &mut text, &mut left_out);
    write_text(rt, &text)?;
    for broken in &left_out {
        tell_left_out(rt, source, broken);
    }
    match answer {
        Ok(()) => Ok(left_out.is_empty()),
        Err(stop) => Err(tell_stop(rt, source, log, &stop)),
    }
}

fn write_text(rt: &HostRuntime, text: &[u8]) -> Result<(), RunError> {
    match rt.stdout().write_all(text) {
        Ok(()) => Ok(()),
        Err(error) => Err(write_error(error)),
    }
}
