//! Runs with a schema.
ghost use Rattle.std.specs.Prelude.{◌≡◌, ◌+◌, ◌^◌, ◌<◌, length, min};
ghost use Rattle.wire_read.specs.Reading.{limits_in, Begins};
ghost use Rattle.wire_dynamic.specs.Told.{reader_of, schema_of};

use crate::fault_line::{RecordsPlace, tell_named_fault};
use crate::input::{input, read};
use crate::layout::{BUDGET, Layout};
use crate::line::{put_closing, put_frame_opening};
use crate::missing::Missing;
use crate::options::Options;
use crate::output::{Output, Typed};
use crate::parts::Cut;
use crate::typed::Halt;
use crate::typed_record::Spot;
use bytes::Bytes;
use std::fs;
use std::io::Write;
use wire_codec::{Tag, WireType};
use wire_dynamic::{Field, Schema, SchemaError, Walk};
use wire_frames::{FrameDecoder, Framing};
use wire_run::{FramePlace, RunError, open_error, write_error};

// A run with a schema, for messages of the type at this place.
#[derive(Drop)]
struct TypedRun<'a> {
    rt: &'a HostRuntime,
    options: &'a Options<'a>,
    root: usize,
    typed: Typed<'a>,
    missing: Missing<'a>,
}

/// The schema of the descriptor set in this file. Why there is none is told.
pub(crate) fn schema_in(rt: &HostRuntime, path: &str, size: u64) -> Result<Schema, RunError> {
    let bytes = match fs::open(rt, path) {
        Ok(file) => read(rt.alloc(), file, size)?,
        Err(error) => return Err(open_error(error)),
    };
    match Schema::decode(rt.alloc(), &bytes) {
        Ok(schema) => Ok(schema),
        Err(SchemaError::OutOfMemory) => Err(RunError::OutOfMemory),
        Err(error) => {
            let _ = eprintln!(rt; "wire_dump: {path}: {error}");
            Err(RunError::NoSchema)
        }
    }
}

/// What these options ask for with a schema.
pub(crate) fn run_typed(
    rt: &HostRuntime,
    options: &Options<'_>,
    schema: &Schema,
) -> Result<(), RunError> {
    let Some(name) = options.type_name else {
        return list_types(rt, schema);
    };
    let Ok(missing) = Missing::of(rt.alloc(), schema) else {
        return Err(RunError::OutOfMemory);
    };
    let run = TypedRun {
        rt,
        options,
        root: root_of(rt, options, schema, name)?,
        typed: Typed {
            alloc: rt.alloc(),
            schema,
            has_offsets: options.has_offsets,
            is_strict: options.is_strict,
        },
        missing,
    };
    let bytes = input(rt, options)?;
    let mut out = Output {
        text: Vec::new(rt.alloc()),
        has_note: false,
    };
    if options.is_delimited {
        run.put_log(bytes, &mut out)?;
    } else {
        run.put_whole(&bytes, &mut out)?;
    }
    send(rt, &out.text)?;
    if out.has_note {
        let source = options.source;
        let _ = eprintln!(rt; "wire_dump: {source}: some records do not fit their fields");
        return Err(RunError::Unfit);
    }
    Ok(())
}

// Writes the names of the message types, in their order, a line each.
fn list_types(rt: &HostRuntime, schema: &Schema) -> Result<(), RunError> {
    let mut out = Vec::new(rt.alloc());
    for (name, place) in schema.message_places() {
        if let Some(message) = schema.message(*place)
            && !message.is_entry()
        {
            put_name(&mut out, name.as_str())?;
        }
    }
    send(rt, &out)
}

fn put_name(out: &mut Vec<u8>, name: &str) -> Result<(), RunError> {
    let name = name.strip_prefix('.').unwrap_or(name);
    let put = out.extend_from_slice(name.as_bytes());
    match put.and(out.extend_from_slice(b"\n")) {
        Ok(()) => Ok(()),
        Err(_) => Err(RunError::OutOfMemory),
    }
}

// The place of the type of this name. Where there is none this is told, with the types whose last
// name it is.
fn root_of(
    rt: &HostRuntime,
    options: &Options<'_>,
    schema: &Schema,
    name: &str,
) -> Result<usize, RunError> {
    let Ok(full) = format!(in rt.alloc(); ".{name}") else {
        return Err(RunError::OutOfMemory);
    };
    if let Some(place) = schema.message_place(&full) {
        return Ok(place);
    }
    let set = options.descriptor_set.unwrap_or("");
    let _ = eprintln!(rt; "wire_dump: {set}: no message type {name}");
    for (other, _) in schema.message_places() {
        if other.as_str().ends_with(full.as_str()) {
            let other = other.as_str().strip_prefix('.').unwrap_or("");
            let _ = eprintln!(rt; "wire_dump: {set}: it has {other}");
        }
    }
    Err(RunError::NoType)
}

impl TypedRun<'_> {
    fn put_whole(&self, bytes: &[u8], out: &mut Output) -> Result<(), RunError> {
        let records = RecordsPlace {
            source: self.options.source,
            frame: None,
            place: 0,
        };
        let mut walk = Walk::within(self.typed.schema, self.root, &self.options.context);
        let spot = self.spot(0, 0);
        let sink = &mut self.rt.stdout();
        match self.typed.write_message(sink, out, spot, &mut walk, bytes) {
            Ok(()) => self.tell_missing(&records, bytes),
            Err(cut) => Err(self.halted(&out.text, &records, cut, &walk, bytes)),
        }
    }

    fn put_log(&self, bytes: Vec<u8>, out: &mut Output) -> Result<(), RunError> {
        let source = self.options.source;
        let total = bytes.len();
        let mut decoder = FrameDecoder::new(self.rt.alloc(), Framing::Delimited, usize::MAX);
        let fed = decoder.feed(Bytes::from_vec(bytes)?);
        fed.or(Err(RunError::OutOfMemory))?;
        // Each turn but the last takes a byte.
        for number in 0..u64::MAX {
            let start = total.saturating_sub(decoder.unread_len());
            let frame = FramePlace {
                number,
                start: start as u64,
            };
            let payload = match decoder.next_at_end() {
                Ok(Some(frame)) => frame.payload,
                Ok(None) => break,
                Err(error) => return Err(crate::cut(self.rt, &out.text, source, frame, &error)),
            };
            let end = total.saturating_sub(decoder.unread_len());
            let place = end.saturating_sub(payload.len());
            let records = RecordsPlace {
                source,
                frame: Some(frame),
                place,
            };
            let mut walk = Walk::within(self.typed.schema, self.root, &self.options.context);
            let bytes = payload.as_slice();
            match self.write_frame(out, &records, &mut walk, bytes) {
                Ok(()) => self.tell_missing(&records, bytes)?,
                Err(cut) => return Err(self.halted(&out.text, &records, cut, &walk, bytes)),
            }
        }
        Ok(())
    }

    // Writes the lines of a frame, between that of its prefix and one of no bytes.
    fn write_frame(
        &self,
        out: &mut Output,
        records: &RecordsPlace<'_>,
        walk: &mut Walk<'_>,
        payload: &[u8],
    ) -> Result<(), Cut<Halt>>
        requires begins { Begins (limits_in (reader_of walk.old)) (reader_of walk.old) }
        requires schema { schema_of walk.old ≡ self.now.typed.schema.now }
        requires placed { records.now.place + length payload.now < 2 ^ 64 }
    {
        let layout = Layout::new(self.options.has_offsets, 0);
        let Some(frame) = records.frame else {
            return Ok(());
        };
        let start = usize::try_from(frame.start).unwrap_or(0);
        let margin = layout.margin(start, records.place);
        put_frame_opening(&mut out.text, margin, frame.number)?;
        let spot = self.spot(1, records.place);
        let sink = &mut self.rt.stdout();
        self.typed.write_message(sink, out, spot, walk, payload)?;
        let end = records.place.saturating_add(payload.len());
        Ok(put_closing(&mut out.text, layout.margin(end, end), 0)?)
    }

    fn spot(&self, level: u32, place: usize) -> Spot
        ensures depth { result.depth ≡ min self.now.options.now.context.depth 100 }
        ensures level { result.level ≡ level }
        ensures place { result.place ≡ place }
    {
        Spot {
            level,
            depth: self.options.context.depth().min(100),
            budget: BUDGET,
            place,
        }
    }

    // Where lines end before the bytes do: those that are put are written, and then the cause is
    // told.
    fn halted(
        &self,
        out: &[u8],
        records: &RecordsPlace<'_>,
        cut: Cut<Halt>,
        walk: &Walk<'_>,
        bytes: &[u8],
    ) -> RunError {
        let halt = match cut {
            Cut::Stop(Halt::OutOfMemory) => return RunError::OutOfMemory,
            Cut::Stop(halt) => halt,
            Cut::Unsent(error) => return error,
        };
        if let Err(error) = send(self.rt, out) {
            return error;
        }
        match halt {
            Halt::Fault(fault) => {
                let field = self.field_at(walk, bytes, fault.record_place);
                tell_named_fault(self.rt, records, &fault, walk, field);
                RunError::Broken
            }
            Halt::Misfit(misfit) => {
                let _ = eprintln!(self.rt;
                    "wire_dump: {records}: {} at {}: {}",
                    misfit.path, misfit.place, misfit.cause
                );
                RunError::Unfit
            }
            Halt::OutOfMemory => RunError::OutOfMemory,
        }
    }

    // The field of the record that begins at a place of a message, where a walk stands.
    fn field_at(&self, walk: &Walk<'_>, bytes: &[u8], place: usize) -> Option<&Field> {
        let mut rest = bytes.get(place..)?;
        match Tag::decode(&mut rest) {
            Ok(tag) if tag.wire_type() != WireType::EndGroup => {
                self.typed
                    .schema
                    .field(walk.innermost()?, tag.field_number())
            }
            _ => None,
        }
    }

    // Tells the required fields that a message lacks.
    fn tell_missing(&self, records: &RecordsPlace<'_>, bytes: &[u8]) -> Result<(), RunError> {
        let depth = self.options.context.depth().min(100);
        let Ok(paths) = self.missing.in_message(self.root, depth, bytes) else {
            return Err(RunError::OutOfMemory);
        };
        if !paths.is_empty() {
            let _ = eprintln!(self.rt;
                "wire_dump: {records}: required fields are missing: {paths}"
            );
        }
        Ok(())
    }
}

fn send(rt: &HostRuntime, text: &[u8]) -> Result<(), RunError> {
    match rt.stdout().write_all(text) {
        Ok(()) => Ok(()),
        Err(error) => Err(write_error(error)),
    }
}
