//! The callers that the documents show.
use crate::row::Row;
use crate::said::{Hex, Said};
use bytes::{Buf, Bytes};
use std::alloc::Global;
use wire_callers::counter::Counter;
use wire_callers::priority::put_priority;
use wire_callers::sums::payload_bytes;
use wire_callers::{first, log, messages as written, sinks};
use wire_codec::{DecodeError, EncodeError, Message, ProtoString, Rope, UnknownFields, laws};
use wire_vectors::callers::texts::ShortText;
use wire_vectors::callers::{messages, records, scalars, texts, views};

pub fn read<B: Buf>(row: &Row<'_>, buf: &mut B, said: &mut Said) -> bool {
    let alloc = said.alloc;
    match row.call {
        "counters_of" => {
            if let Some(counters) = said.answered(log::counters_of(alloc, buf)) {
                let mut sum = 0u64;
                for counter in &counters {
                    sum = sum.saturating_add(counter.value);
                }
                said.show(&counters.len());
                said.also(" of ", &sum)
            }
        }
        "name_of" => said.read(texts::name_of(alloc, buf), buf),
        "short_text_of" => {
            if let Some(short) = said.answered(texts::short_text_of(alloc, buf)) {
                said.read(Ok(short.as_str()), buf)
            }
        }
        _ => return false,
    }
    true
}

pub fn tell(row: &Row<'_>, said: &mut Said) -> bool {
    let (alloc, bytes) = (said.alloc, row.bytes);
    let number = row.number("n").unwrap_or(0);
    match row.call {
        "raised" => say_bytes(first::raised(alloc, bytes), bytes, said),
        "shortened" => say_bytes(sinks::shortened(alloc, bytes), bytes, said),
        "first_number" => said.show(&records::first_number(bytes)),
        "scores_of" => said.show_answer(scalars::scores_of(alloc, bytes)),
        "payload_bytes" => match payload_bytes(bytes, number) {
            Ok(sum) => said.show(&sum),
            Err(fault) => said.refuse(fault.error),
        },
        "body_of" => said.show_answer(scalars::body_of(bytes, number).map(Hex)),
        "without" => say_both(records::without(alloc, bytes, number), said),
        "unknown_twice" => say_both(views::unknown_twice(alloc, bytes), said),
        "person_of" => {
            if let Some(person) = said.answered(messages::person_of(alloc, bytes)) {
                said.show(&person.id);
                said.also(" ", &person.unknown().len())
            }
        }
        "stored" => {
            if let Some((person, again)) = said.answered(messages::stored(alloc, bytes)) {
                said.show(&(person == again))
            }
        }
        _ => return tell_written(row, said),
    }
    true
}

// What a caller writes, and the values that are made of what it is given.
fn tell_written(row: &Row<'_>, said: &mut Said) -> bool {
    let alloc = said.alloc;
    let counter = Counter { value: row.value() };
    match row.call {
        "copied" => {
            if let Some(copy) = said.answered(written::copied(alloc, &counter)) {
                said.show(&copy.value)
            }
        }
        "ShortText" => {
            if let Some(short) = said.answered(ShortText::from_text(alloc, "hi")) {
                said.show(&short.as_str());
                said.also(" ", &ShortText::empty(alloc).as_str())
            }
        }
        "attached" => {
            if let Some(bytes) = said.made(Bytes::copy_from_slice(alloc, row.bytes)) {
                say_rope(records::attached(alloc, bytes), row, said)
            }
        }
        "counter_len" => said.show_answer(counter_len(alloc, &counter)),
        "in_rope" => say_rope(sinks::in_rope(alloc, &counter), row, said),
        "put_priority" => say_priority(row, said),
        "pair" => {
            let mut sink = Vec::new(alloc);
            said.answered(records::put_pair(5, row.value(), &mut sink));
            said.written(&sink, row.bytes)
        }
        "balance" => {
            let mut sink = Vec::new(alloc);
            said.answered(scalars::put_balance(row.value(), &mut sink));
            said.written(&sink, row.bytes)
        }
        _ => return false,
    }
    true
}

// The priority that is read, and the records that stand then.
fn say_priority(row: &Row<'_>, said: &mut Said) {
    let alloc = said.alloc;
    if let Some(mut fields) = said.answered(UnknownFields::decode_from_slice(alloc, row.bytes)) {
        said.show_answer(put_priority(alloc, &mut fields, row.value()));
        let mut sink = Vec::new(alloc);
        said.made(fields.write_to(&mut sink));
        said.also("; ", &Hex(&sink));
    }
}

// The size that a counter measures itself, once it was tested.
fn counter_len(alloc: Global, counter: &Counter) -> Result<u32, EncodeError> {
    laws::sizes_fit();
    counter.try_encoded_len(alloc)?;
    counter.encoded_len(alloc)
}

fn say_bytes(answer: Result<Vec<u8>, DecodeError>, given: &[u8], said: &mut Said) {
    if let Some(bytes) = said.answered(answer) {
        said.written(&bytes, given)
    }
}

// Whether both are equal, and how many fields the second has.
fn say_both(answer: Result<(UnknownFields, UnknownFields), DecodeError>, said: &mut Said) {
    if let Some((first, second)) = said.answered(answer) {
        said.show(&(first == second));
        said.also(" ", &second.len())
    }
}

fn say_rope(answer: Result<Rope, EncodeError>, row: &Row<'_>, said: &mut Said) {
    if let Some(rope) = said.answered(answer) {
        if let Some(bytes) = said.made(rope.to_contiguous_bytes()) {
            said.written(bytes.as_slice(), row.bytes);
        }
    }
}
