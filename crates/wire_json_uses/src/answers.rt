//! What tests find of texts: written again, or refused.
use crate::rewrite::RewriteError;
use std::alloc::Global;
use wire_json::{FaultKind, Mark, write_mark};
use wire_jsonfields::{
    FieldName, JsonKind, JsonValue, from_json, read_field, read_object, to_json, write_field,
};
use wire_protojson::{ReadError, Reason, Refusal, WriteError};

/// What a row finds: its own answer, want of memory, or anything else.
#[derive(Clone, Copy, Debug, PartialEq)]
pub(crate) enum Found {
    Own,
    Other,
    OutOfMemory,
}

/// What is answered of a text: what is written of its value, or why and at which byte it is
/// refused.
#[derive(Clone, Copy)]
pub(crate) enum Answer {
    Is(&'static [u8]),
    Bad(usize),
    Lone(usize),
    Deep(usize),
    Unfit(usize),
    Twice(usize),
    Unknown(usize),
    NoKey(usize),
    Second(usize),
}

/// A text, and what is answered of it.
pub(crate) type Row = (&'static [u8], Answer);

// Whether a refusal is the one that a row has.
fn is_refused(refusal: Refusal, answer: Answer) -> bool {
    let (reason, at) = match answer {
        Answer::Is(_) => return false,
        Answer::Bad(at) => (Reason::NoJson(FaultKind::Syntax), at),
        Answer::Lone(at) => (Reason::NoJson(FaultKind::LoneSurrogate), at),
        Answer::Deep(at) => (Reason::NoJson(FaultKind::TooDeep), at),
        Answer::Unfit(at) => (Reason::NoValue, at),
        Answer::Twice(at) => (Reason::Duplicate, at),
        Answer::Unknown(at) => (Reason::UnknownName, at),
        Answer::NoKey(at) => (Reason::NoKey, at),
        Answer::Second(at) => (Reason::SecondOfOneof, at),
    };
    refusal.reason == reason && refusal.at == at
}

/// Reads a value of this kind, in which so many arrays and objects may stand in one another, and
/// writes it.
pub(crate) fn found_in<V: JsonValue>(alloc: Global, row: &Row, levels: u32) -> Found {
    let mut out = Vec::new(alloc);
    let own = match V::read_json(alloc, row.0, 0, levels) {
        Err(ReadError::OutOfMemory) => return Found::OutOfMemory,
        Err(ReadError::Refused(refusal)) => is_refused(refusal, row.1),
        Ok((held, after)) => match V::write_json(alloc, &mut out, &held) {
            Ok(()) => match row.1 {
                Answer::Is(text) => out.as_slice() == text && after == row.0.len(),
                _ => false,
            },
            Err(WriteError::OutOfMemory) => return Found::OutOfMemory,
            Err(_) => false,
        },
    };
    if own { Found::Own } else { Found::Other }
}

fn found_of(answered: Result<Vec<u8>, RewriteError>, answer: Answer) -> Found {
    let own = match answered {
        Err(RewriteError::Read(ReadError::OutOfMemory)) => return Found::OutOfMemory,
        Err(RewriteError::Read(ReadError::Refused(refusal))) => is_refused(refusal, answer),
        Err(RewriteError::Write(WriteError::OutOfMemory)) => return Found::OutOfMemory,
        Err(RewriteError::Write(_)) => false,
        Ok(out) => match answer {
            Answer::Is(text) => out.as_slice() == text,
            _ => false,
        },
    };
    if own { Found::Own } else { Found::Other }
}

fn rewrite_message<V: JsonValue>(
    alloc: Global,
    text: &[u8],
    levels: u32,
) -> Result<Vec<u8>, RewriteError> {
    let message = from_json::<V>(alloc, text, levels)?;
    let out = to_json::<V>(alloc, &message)?;
    Ok(out)
}

/// Reads a message from a whole text, in which so many arrays and objects may stand in one another,
/// and writes it.
pub(crate) fn found_whole<V: JsonValue>(alloc: Global, row: &Row, levels: u32) -> Found {
    found_of(rewrite_message::<V>(alloc, row.0, levels), row.1)
}

const HELD: FieldName = FieldName {
    name: "held",
    json_name: "held",
};

fn rewrite_field<K: JsonKind>(alloc: Global, text: &[u8]) -> Result<Vec<u8>, RewriteError> {
    let object = read_object(alloc, text, 0, 2)?;
    let held = read_field::<K>(alloc, text, object.members.as_slice(), 2, &HELD)?;
    let mut out = Vec::new(alloc);
    put_mark(&mut out, Mark::BeginObject)?;
    write_field::<K>(alloc, &mut out, true, &HELD, &held)?;
    put_mark(&mut out, Mark::EndObject)?;
    Ok(out)
}

fn put_mark(out: &mut Vec<u8>, mark: Mark) -> Result<(), WriteError> {
    write_mark(out, mark)?;
    Ok(())
}

/// Reads an object with one field `held` of this kind, at two levels, and writes it.
pub(crate) fn found_held<K: JsonKind>(alloc: Global, row: &Row) -> Found {
    found_of(rewrite_field::<K>(alloc, row.0), row.1)
}
