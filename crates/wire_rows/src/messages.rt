//! Messages: read under limits, merged, and written by each call.
mod sample;
mod tables;
mod writing;

use self::sample::{Sample, given};
use crate::row::Row;
use crate::said::Said;
use bytes::Buf;
use wire_codec::{DecodeContext, DecodeError, DecodeOptions, Message, Tag};
use wire_meter::Meter;
use wire_pulse::Pulse;
use wire_samples::{Gauge, Node, Person, Repeat, Rule};
use wire_tables::{Call, Card, Counter, Expression, Ledger, Profile, Reading, Signal};

// A row's call is `TYPE.CALL`, and `TYPE` alone where the type is decoded.
fn call_of<'a>(row: &Row<'a>) -> (&'a str, &'a str) {
    row.call.split_once('.').unwrap_or((row.call, "decode"))
}

pub fn read<B: Buf>(row: &Row<'_>, buf: &mut B, said: &mut Said) -> bool {
    let (name, call) = call_of(row);
    match name {
        "Person" => read_as::<Person, B>(row, call, buf, said),
        "Node" => read_as::<Node, B>(row, call, buf, said),
        "Repeat" => read_as::<Repeat, B>(row, call, buf, said),
        "Gauge" => read_as::<Gauge, B>(row, call, buf, said),
        "Rule" => read_as::<Rule, B>(row, call, buf, said),
        "Call" => read_as::<Call, B>(row, call, buf, said),
        "Card" => read_as::<Card, B>(row, call, buf, said),
        "Counter" => read_as::<Counter, B>(row, call, buf, said),
        "Expression" => read_as::<Expression, B>(row, call, buf, said),
        "Ledger" => read_as::<Ledger, B>(row, call, buf, said),
        "Meter" => read_as::<Meter, B>(row, call, buf, said),
        "Profile" => read_as::<Profile, B>(row, call, buf, said),
        "Pulse" => read_as::<Pulse, B>(row, call, buf, said),
        "Reading" => read_as::<Reading, B>(row, call, buf, said),
        "Signal" => read_as::<Signal, B>(row, call, buf, said),
        _ => false,
    }
}

pub fn tell(row: &Row<'_>, said: &mut Said) -> bool {
    let (name, call) = call_of(row);
    match name {
        "Person" => tell_as::<Person>(row, call, said),
        "Node" => tell_as::<Node>(row, call, said),
        "Repeat" => tell_as::<Repeat>(row, call, said),
        "Gauge" => tell_as::<Gauge>(row, call, said),
        "Rule" => tell_as::<Rule>(row, call, said),
        "Call" => tell_as::<Call>(row, call, said),
        "Card" => tell_as::<Card>(row, call, said),
        "Counter" => tell_as::<Counter>(row, call, said),
        "Expression" => tell_as::<Expression>(row, call, said),
        "Ledger" => tell_as::<Ledger>(row, call, said),
        "Meter" => tell_as::<Meter>(row, call, said),
        "Profile" => tell_as::<Profile>(row, call, said),
        "Pulse" => tell_as::<Pulse>(row, call, said),
        "Reading" => tell_as::<Reading>(row, call, said),
        "Signal" => tell_as::<Signal>(row, call, said),
        _ => false,
    }
}

// ---- from a buffer

fn read_as<M: Sample + Message, B: Buf>(
    row: &Row<'_>,
    call: &str,
    buf: &mut B,
    said: &mut Said,
) -> bool {
    let alloc = said.alloc;
    let answer = match (call, row.options()) {
        ("decode", Some(options)) => options.decode::<M, B>(alloc, buf),
        ("decode", None) => M::decode(alloc, buf),
        ("decode_length_delimited", Some(options)) => {
            options.decode_length_delimited::<M, B>(alloc, buf)
        }
        ("decode_length_delimited", None) => M::decode_length_delimited(alloc, buf),
        _ => return merge_as::<M, B>(row, call, buf, said),
    };
    if let Some(message) = said.answered(answer) {
        say_message(&message, row.bytes, said);
        said.left(buf.remaining());
    }
    true
}

fn say_message<M: Sample + Message>(message: &M, given: &[u8], said: &mut Said) {
    message.say(said);
    said.word("; ");
    if let Some(text) = said.answered(message.try_encode_to_vec(said.alloc)) {
        said.written(&text, given);
    }
}

// A message is merged into the one that the row names, under a context or under options. What a
// refused call leaves is told where a contract says it.
fn merge_as<M: Sample + Message, B: Buf>(
    row: &Row<'_>,
    call: &str,
    buf: &mut B,
    said: &mut Said,
) -> bool {
    let onto = row.onto(said);
    let Some(mut message) = said.answered(M::decode_from_slice(said.alloc, &onto)) else {
        return true;
    };
    let mut context = row.context();
    let depth = context.depth();
    match merge(&mut message, row, call, buf, &mut context, said) {
        Some(Ok(())) => {
            said.expect(context.depth() == depth, "another depth");
            say_message(&message, row.bytes, said);
            said.left(buf.remaining());
            said.limits(row, &context);
        }
        Some(Err(error)) => {
            is_a_value(&message, said);
            said.refuse(error);
            if call == "merge_within" {
                said.word(", ");
                message.say(said);
                said.left(buf.remaining());
            }
        }
        None => return false,
    }
    true
}

// What a merging call answers; nothing where none has this name.
fn merge<M: Sample + Message, B: Buf>(
    message: &mut M,
    row: &Row<'_>,
    call: &str,
    buf: &mut B,
    context: &mut DecodeContext,
    said: &Said,
) -> Option<Result<(), DecodeError>> {
    let alloc = said.alloc;
    Some(match call {
        "merge" => message.merge(alloc, buf, context),
        "merge_field" => match Tag::decode(buf) {
            Ok(tag) => message.merge_field(alloc, tag, buf, context),
            Err(error) => Err(error),
        },
        "merge_to_limit" => {
            let limit = row.number("limit").unwrap_or(0);
            message.merge_to_limit(alloc, buf, context, limit)
        }
        "merge_length_delimited" => message.merge_length_delimited(alloc, buf, context),
        "merge_group" => {
            let number = row.number("n").unwrap_or(0);
            message.merge_group(alloc, buf, context, number)
        }
        "merge_within" => {
            let options = row.options().unwrap_or(DecodeOptions::new());
            options.merge(alloc, message, buf)
        }
        _ => return None,
    })
}

// A refused merge leaves a value that can be written and read again.
fn is_a_value<M: Message>(message: &M, said: &mut Said) {
    if let Some(text) = said.answered(message.try_encode_to_vec(said.alloc)) {
        let again = said.answered(M::decode_from_slice(said.alloc, &text));
        said.expect(again.as_ref() == Some(message), "no value is left");
    }
}

// ---- from a slice, and all else

fn tell_as<M: Sample + Message>(row: &Row<'_>, call: &str, said: &mut Said) -> bool {
    match call {
        "decode_from_slice" => decode_slice::<M>(row, said),
        "merge_from_slice" => merge_slices::<M>(row, said),
        "clear" => clear::<M>(row, said),
        _ => return writing::tell::<M>(row, call, said),
    }
    true
}

fn decode_slice<M: Sample + Message>(row: &Row<'_>, said: &mut Said) {
    let answer = match row.options() {
        Some(options) => options.decode_from_slice::<M>(said.alloc, row.bytes),
        None => M::decode_from_slice(said.alloc, row.bytes),
    };
    if let Some(message) = said.answered(answer) {
        say_message(&message, row.bytes, said)
    }
}

// Each span is merged by a call of its own, and the first refusal ends the row.
fn merge_slices<M: Sample + Message>(row: &Row<'_>, said: &mut Said) {
    let (alloc, onto) = (said.alloc, row.onto(said));
    let Some(mut message) = given::<M>(row, &onto, said) else {
        return;
    };
    for index in 0..row.span_count() {
        let answer = match row.options() {
            Some(options) => options.merge_from_slice(alloc, &mut message, row.span(index)),
            None => message.merge_from_slice(alloc, row.span(index)),
        };
        if let Err(error) = answer {
            return say_refused(&message, error, said);
        }
    }
    say_message(&message, row.bytes, said);
}

fn say_refused<M: Sample + Message>(message: &M, error: DecodeError, said: &mut Said) {
    if error == DecodeError::OutOfMemory {
        is_a_value(message, said);
    }
    said.refuse(error);
    said.word(", ");
    message.say(said)
}

// A cleared message is a default one, and another than it was.
fn clear<M: Sample + Message>(row: &Row<'_>, said: &mut Said) {
    let Some(mut message) = given::<M>(row, row.bytes, said) else {
        return;
    };
    if let Some(copy) = said.made(message.clone()) {
        message.clear();
        said.expect(message == M::default_value(said.alloc), "not cleared");
        said.expect(message != copy, "nothing to clear");
        copy.say(said);
        said.word("; then ");
        message.say(said);
    }
}
