//! An event as a record in memory.
ghost use Rattle.std.specs.Prelude.{◌≡◌};
ghost use Rattle.wire_page.specs.Told.{page_record};

use wire_read::Event;
use wire_read::numbers::{kind_of, value_of};

/// A record, or the start or the end of a group. A payload stands before `end`, and its length is
/// `value`.
#[repr(C)]
#[derive(Clone, Copy, Debug)]
pub struct Record {
    /// The wire type.
    pub kind: u32,
    pub number: u32,
    /// The number on the wire, or the length of a payload.
    pub value: u64,
    /// Where the tag begins.
    pub start: usize,
    /// Where what stands behind the tag begins: the value, or the length of a payload.
    pub behind_tag: usize,
    pub end: usize,
}

/// An event, as the page is told.
pub(crate) fn tell_event(event: &Event<'_>) -> Record
    ensures { result ≡ page_record event.now }
{
    Record {
        kind: kind_of(event.value),
        number: event.number,
        value: value_of(event.value),
        start: event.start,
        behind_tag: event.payload,
        end: event.end,
    }
}
