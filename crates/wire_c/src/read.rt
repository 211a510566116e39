//! Records read in place.
ghost use Rattle.std.specs.Prelude.{◌≡◌, ℕ, ◌-◌, ◌≤◌, List, length};
ghost use Rattle.wire_read.specs.Budget.{read_limits};
ghost use Rattle.wire_read.specs.Reading.{Begins};
ghost use Rattle.wire_c.specs.Read.{InitAnswers, NextAnswers, told_event, length_in};

use crate::status::{DEPTH_TOO_LARGE, END, OK};
use wire_read::numbers::{FaultNumbers, LimitNumbers, context_of, kind_of, tell_fault, value_of};
use wire_read::{Event, MAX_OPEN_GROUPS, Reader, Value};

/// A record, or the start or the end of a group.
#[repr(C)]
#[derive(Debug, Drop)]
pub struct EventInC {
    /// The wire type.
    pub kind: u32,
    pub number: u32,
    /// The number on the wire, or the length of a payload.
    pub value: u64,
    /// Where the tag begins.
    pub start: usize,
    /// Where what stands behind the tag begins: the value, or the length of a payload.
    pub behind_tag: usize,
    /// Where the value begins, or the payload behind its length.
    pub payload: usize,
    /// How many bytes it is.
    pub length: usize,
}

// An event, as C is told.
fn tell_event(event: &Event<'_>) -> EventInC
    ensures { result ≡ told_event event.now }
{
    let length = length_in(event.value, event.end.saturating_sub(event.payload));
    EventInC {
        kind: kind_of(event.value),
        number: event.number,
        value: value_of(event.value),
        start: event.start,
        behind_tag: event.payload,
        payload: event.end.saturating_sub(length),
        length,
    }
}

// How many of the bytes behind the tag are the value, or the payload behind its length.
fn length_in(value: Value<'_>, len: usize) -> usize
    ensures { result ≡ length_in value.entry len }
{
    match value {
        Value::Bytes(payload) => payload.len(),
        _ => len,
    }
}

/// Sets a reader before the first byte, under these limits; `DEPTH_TOO_LARGE`, and no change, where
/// they have more than 100 levels.
#[unsafe(no_mangle)]
pub extern "C" fn gtv_reader_init(reader: &mut Reader, limits: &LimitNumbers) -> u32
    ensures { InitAnswers limits.now reader.old reader.new result }
{
    if limits.depth > MAX_OPEN_GROUPS {
        return DEPTH_TOO_LARGE;
    }
    *reader = Reader::within(&context_of(limits));
    OK
}

/// The next event in these bytes, which are those of each call before: `OK` and the event, `END`,
/// or the status of the fault that stands here.
#[unsafe(no_mangle)]
pub extern "C" fn gtv_next(
    reader: &mut Reader,
    bytes: &[u8],
    event: &mut EventInC,
    fault: &mut FaultNumbers,
) -> u32
    ensures { NextAnswers bytes.now reader.old reader.new event.old event.new
        fault.old fault.new result }
{
    match reader.next(bytes) {
        Ok(Some(next)) => {
            *event = tell_event(&next);
            OK
        }
        Ok(None) => END,
        Err(stop) => {
            *fault = tell_fault(&stop);
            fault.status
        }
    }
}
