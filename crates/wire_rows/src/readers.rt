//! Records read in place: the events with their ranges, and where a broken input is broken.
use crate::row::Row;
use crate::said::{Digits, Said};
use wire_read::{Event, Fault, Reader, Value};

/// Says the events of a reader over the bytes, and then the end or the fault; every front of the
/// bytes has the events that end in it, and none behind.
pub fn tell(row: &Row<'_>, said: &mut Said) -> bool {
    if row.call != "Reader" {
        return false;
    }
    say_events(row, said);
    for len in 0..row.bytes.len() {
        let of_front = read_up_to(row, row.bytes.get(..len).unwrap_or(&[]), len);
        let of_whole = read_up_to(row, row.bytes, len);
        said.expect(of_front == of_whole, "other events of a front");
    }
    true
}

fn say_events(row: &Row<'_>, said: &mut Said) {
    let mut reader = Reader::within(&row.context());
    for _ in 0..=row.bytes.len() {
        match reader.next(row.bytes) {
            Ok(Some(event)) => say_event(&event, said),
            Ok(None) => return said.word("end"),
            Err(fault) => return say_fault(fault, &reader, said),
        }
    }
}

// The number, what stands there, and the places of the tag, of what is behind it, and of the end.
fn say_event(event: &Event<'_>, said: &mut Said) {
    said.show(&event.number);
    match event.value {
        Value::Varint(value) => said.also(" varint ", &value),
        Value::Fixed64(value) => said.also(" fixed64 ", &value),
        Value::Fixed32(value) => said.also(" fixed32 ", &value),
        Value::Bytes(payload) => said.also(" bytes ", &Digits(payload)),
        Value::GroupStart => said.word(" start"),
        Value::GroupEnd => said.word(" end"),
    }
    for place in [event.start, event.payload, event.end] {
        said.also(" ", &place);
    }
    said.word("; ");
}

fn say_fault(fault: Fault, reader: &Reader, said: &mut Said) {
    said.also("record ", &fault.record_place);
    said.also(" ", &fault.part);
    said.also(" ", &fault.part_place);
    said.also(" in ", &reader.open_groups());
    said.word(" ");
    said.refuse(fault.error);
}

// How many events end in the first bytes, and where the last does.
fn read_up_to(row: &Row<'_>, bytes: &[u8], len: usize) -> (usize, usize) {
    let mut reader = Reader::within(&row.context());
    let mut read = (0usize, 0);
    for count in 0..=bytes.len() {
        match reader.next(bytes) {
            Ok(Some(event)) if event.end <= len => read = (count, event.end),
            _ => return read,
        }
    }
    read
}
