//! What a reader finds.
ghost use Rattle.std.specs.Prelude.{◌≡◌};

use wire_codec::DecodeError;

/// What stands behind a tag, or the start or the end of a group. See "Message Structure" of the
/// encoding document.
#[derive(Clone, Copy, Debug)]
pub enum Value<'a> {
    Varint(u64),
    Fixed64(u64),
    Fixed32(u32),
    /// A payload, its length left out.
    Bytes(&'a [u8]),
    GroupStart,
    GroupEnd,
}

/// A record, or the start or the end of a group. Its tag is the bytes from `start` to `payload`;
/// from there to `end` is what stands behind it, the length of a payload counted.
#[derive(Clone, Copy, Debug)]
pub struct Event<'a> {
    /// The field number.
    pub number: u32,
    pub value: Value<'a>,
    pub start: usize,
    pub payload: usize,
    pub end: usize,
}

/// The part of a record that is at fault.
#[derive(Clone, Copy, Debug, PartialEq, Eq)]
pub enum Part {
    /// The tag is none, or there is no slot for its record or no level for its group.
    Tag,
    /// A varint is none, or a fixed-width value is cut short.
    Value,
    /// The length of a payload is no varint.
    Length,
    /// A payload is cut short, or is more than the bytes that are left.
    Payload,
    /// An end tag of another number, or outside of a group.
    EndTag,
}

/// Where and why bytes do not go on as records. The groups that are open there are
/// `Reader::open_groups`.
#[derive(Clone, Debug, PartialEq, Eq, Drop)]
pub struct Fault {
    pub error: DecodeError,
    /// The byte where the record begins, or the end tag.
    pub record_place: usize,
    pub part: Part,
    /// The byte where the part begins.
    pub part_place: usize,
}
