//! Prints the records of bytes as text, and says where and why broken ones are broken.
#![tactic(auto)]

mod dump;
mod fault_line;
mod field_name;
mod float_text;
mod frames;
mod input;
mod laws;
mod layout;
mod line;
mod misfit;
mod missing;
mod number;
mod options;
mod output;
mod parts;
mod record;
mod shortest;
mod stop;
mod string;
mod typed;
mod typed_line;
mod typed_parts;
mod typed_record;
mod typed_run;

use bytes::Bytes;
use fault_line::{RecordsPlace, tell_fault, tell_frame_error};
use frames::write_frame;
use input::input;
use layout::Layout;
use options::Options;
use parts::{Cut, write_records};
use shortest::{reader_at_stop, shortest_text};
use std::io::Write;
use std::process::ExitCode;
use stop::Stop;
use typed_run::{run_typed, schema_in};
use wire_frames::{FrameDecoder, FrameError, Framing};
use wire_read::Reader;
use wire_run::{FramePlace, RunError, Source, answer_words, report, words, write_error};

const NAME: &str = "wire_dump";

fn main(rt: HostRuntime) -> ExitCode {
    match words(&rt, NAME) {
        Ok(words) => answer(&rt, words.as_slice()),
        Err(error) => report(&rt, NAME, Source::StandardInput, Err(error)),
    }
}

// What these words ask for, and its status.
fn answer(rt: &HostRuntime, words: &[String]) -> ExitCode {
    match Options::parse(rt.alloc(), words) {
        Ok(options) => match options.descriptor_set {
            Some(path) => answer_typed(rt, &options, path),
            None => report(rt, NAME, options.source, run(rt, &options)),
        },
        Err(error) => report(rt, NAME, Source::StandardInput, answer_words(rt, &error)),
    }
}

// The same with the descriptor set in this file.
fn answer_typed(rt: &HostRuntime, options: &Options<'_>, path: &str) -> ExitCode {
    match schema_in(rt, path, options.size) {
        Ok(schema) => report(rt, NAME, options.source, run_typed(rt, options, &schema)),
        Err(error) => report(rt, NAME, Source::File(path), Err(error)),
    }
}

fn run(rt: &HostRuntime, options: &Options<'_>) -> Result<(), RunError> {
    let bytes = input(rt, options)?;
    if options.is_delimited {
        print_log(rt, options, bytes)
    } else if options.is_shortest {
        print_shortest(rt, options, &bytes)
    } else {
        print(rt, options, &bytes)
    }
}

fn print(rt: &HostRuntime, options: &Options<'_>, bytes: &[u8]) -> Result<(), RunError> {
    let mut reader = Reader::within(&options.context);
    let layout = Layout::new(options.has_offsets, 0);
    let mut out = Vec::new(rt.alloc());
    match write_records(&mut rt.stdout(), &mut out, layout, 0, &mut reader, bytes) {
        Ok(()) => send(rt, &out),
        Err(cut) => Err(stopped(rt, &out, &all_of(options.source), cut, &reader)),
    }
}

fn print_shortest(rt: &HostRuntime, options: &Options<'_>, bytes: &[u8]) -> Result<(), RunError> {
    match shortest_text(rt.alloc(), &options.context, bytes) {
        Ok(text) => send(rt, &text),
        Err(stop) => {
            let reader = reader_at_stop(&options.context, bytes);
            let cut = Cut::Stop(stop);
            Err(stopped(rt, &[], &all_of(options.source), cut, &reader))
        }
    }
}

fn print_log(rt: &HostRuntime, options: &Options<'_>, bytes: Vec<u8>) -> Result<(), RunError> {
    let total = bytes.len();
    let mut decoder = FrameDecoder::new(rt.alloc(), Framing::Delimited, usize::MAX);
    let fed = decoder.feed(Bytes::from_vec(bytes)?);
    fed.or(Err(RunError::OutOfMemory))?;
    let mut out = Vec::new(rt.alloc());
    // Each turn but the last takes a byte.
    for number in 0..u64::MAX {
        let start = total.saturating_sub(decoder.unread_len());
        let frame = FramePlace {
            number,
            start: start as u64,
        };
        let payload = match decoder.next_at_end() {
            Ok(Some(frame)) => frame.payload,
            Ok(None) => break,
            Err(error) => return Err(cut(rt, &out, options.source, frame, &error)),
        };
        let end = total.saturating_sub(decoder.unread_len());
        let place = end.saturating_sub(payload.len());
        let layout = Layout::new(options.has_offsets, 1);
        let mut reader = Reader::within(&options.context);
        let bytes = payload.as_slice();
        let sink = &mut rt.stdout();
        let written = write_frame(
            sink,
            &mut out,
            layout,
            number,
            start,
            place,
            &mut reader,
            bytes,
        );
        if let Err(cut) = written {
            let records = RecordsPlace {
                source: options.source,
                frame: Some(frame),
                place,
            };
            return Err(stopped(rt, &out, &records, cut, &reader));
        }
    }
    send(rt, &out)
}

// All of an input, which is no log.
fn all_of(source: Source<'_>) -> RecordsPlace<'_> {
    RecordsPlace {
        source,
        frame: None,
        place: 0,
    }
}

fn send(rt: &HostRuntime, text: &[u8]) -> Result<(), RunError> {
    match rt.stdout().write_all(text) {
        Ok(()) => Ok(()),
        Err(error) => Err(write_error(error)),
    }
}

// Where records stop: what is put of those before a fault is written, and then the fault is told.
fn stopped(
    rt: &HostRuntime,
    out: &[u8],
    records: &RecordsPlace<'_>,
    cut: Cut<Stop>,
    reader: &Reader,
) -> RunError {
    let fault = match cut {
        Cut::Stop(Stop::Fault(fault)) => fault,
        Cut::Stop(Stop::OutOfMemory) => return RunError::OutOfMemory,
        Cut::Unsent(error) => return error,
    };
    match send(rt, out) {
        Ok(()) => {
            tell_fault(rt, records, &fault, reader);
            RunError::Broken
        }
        Err(error) => error,
    }
}

// Where a log stops at a frame: the same.
fn cut(
    rt: &HostRuntime,
    out: &[u8],
    source: Source<'_>,
    frame: FramePlace,
    error: &FrameError,
) -> RunError {
    if *error == FrameError::OutOfMemory {
        return RunError::OutOfMemory;
    }
    match send(rt, out) {
        Ok(()) => {
            tell_frame_error(rt, source, frame, error);
            RunError::Broken
        }
        Err(error) => error,
    }
}
