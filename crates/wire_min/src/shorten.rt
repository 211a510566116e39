//! Records that are shortened where they stand. No item is spelled by fewer bytes than its shortest
//! text has, so that the text is written over bytes that were read.
ghost use Rattle.std.specs.Prelude.{◌≡◌, ◌+◌, ◌≤◌, length, take, IfOk, IfErr, IfSome, IfNone};
ghost use Rattle.std.specs.List.{copy_within};
ghost use Rattle.wire_base.specs.Room.{in_room};
ghost use Rattle.wire_base.specs.Sink.{Puts};
ghost use Rattle.wire_base.specs.WriteLaws.{FillsSlice};
ghost use Rattle.wire_read.specs.Reading.{at, IsDone, Stops};
ghost use Rattle.wire_write.specs.Shortest.{item_text};
ghost use Rattle.wire_min.specs.Run.{HasFault, IsShortest};
ghost use Rattle.wire_min.specs.Shorten.{head_text, item_of, read_kind, payload_len, Takes};

use wire_base::laws as grammar;
use wire_codec::{
    DEFAULT_UNKNOWN_FIELD_LIMIT, DecodeContext, EncodeError, EncodeSink, RECURSION_LIMIT, Room,
    WireType, tag_as_number,
};
use wire_read::{Fault, Reader, Value, laws};

/// What was read: what stands behind a tag, of a payload its length alone; or the start or the end
/// of a group.
#[derive(Clone, Copy)]
enum Kind {
    Varint(u64),
    Fixed64(u64),
    Fixed32(u32),
    Bytes(usize),
    GroupStart,
    GroupEnd,
}

/// An item that was read, which ends at this place of the bytes. A payload is the last of it.
#[derive(Clone, Copy)]
struct Taken {
    number: u32,
    kind: Kind,
    end: usize,
}

/// Writes the shortest text of the records that these bytes spell over their front, and answers its
/// length. The limits are those of `UnknownFields::decode_from_slice`. Where a fault stands, some of
/// the records before it may be shortened.
pub(crate) fn shorten(bytes: &mut [u8]) -> Result<usize, Fault>
    ensures within { IfOk result (λ len. len ≤ length bytes.new) }
    ensures ok { IfOk result (λ len. IsShortest bytes.old (take len bytes.new)) }
    ensures fault { IfErr result (λ fault. HasFault bytes.old fault.error) }
{
    laws::reader_begins();
    laws::reader_goes_on();
    laws::reader_moves_on();
    laws::reader_is_done();
    laws::reader_is_stuck();
    grammar::no_tag_text_is_shorter();
    grammar::no_text_is_shorter();
    let context = DecodeContext::new(RECURSION_LIMIT, DEFAULT_UNKNOWN_FIELD_LIMIT);
    let mut reader = Reader::within(&context);
    let mut len = 0;
    while let Some(item) = next_item(&mut reader, bytes)? {
        len = put_item(bytes, len, item);
    }
    Ok(len)
}

// The next item in these bytes.
fn next_item(reader: &mut Reader, bytes: &[u8]) -> Result<Option<Taken>, Fault>
    ensures item { IfOk result (λ next. IfSome next (λ item.
        Takes item bytes.now (at reader.old bytes.now) (at reader.new bytes.now))) }
    ensures end { IfOk result (λ next. IfNone next (IsDone (at reader.old bytes.now))) }
    ensures fault { IfErr result (λ fault. Stops fault bytes.now (at reader.old bytes.now)) }
{
    match reader.next(bytes)? {
        None => Ok(None),
        Some(event) => Ok(Some(Taken {
            number: event.number,
            kind: kind_of(event.value),
            end: event.end,
        })),
    }
}

// What was read, without the bytes of a payload.
fn kind_of(value: Value<'_>) -> Kind
    ensures { result ≡ read_kind value.entry }
{
    match value {
        Value::Varint(value) => Kind::Varint(value),
        Value::Fixed64(value) => Kind::Fixed64(value),
        Value::Fixed32(value) => Kind::Fixed32(value),
        Value::Bytes(payload) => Kind::Bytes(payload.len()),
        Value::GroupStart => Kind::GroupStart,
        Value::GroupEnd => Kind::GroupEnd,
    }
}

// Writes the shortest text of an item at a place before it, and answers the place behind the text.
fn put_item(bytes: &mut [u8], place: usize, item: Taken) -> usize
    requires within { item.end ≤ length bytes.old }
    requires payload { payload_len item.kind ≤ item.end }
    requires room { place + length (item_text (item_of item bytes.old)) ≤ item.end }
    ensures { FillsSlice (item_text (item_of item bytes.old)) place bytes.old bytes.new result }
{
    let behind = put_head(bytes, place, item.number, item.kind);
    match item.kind {
        Kind::Bytes(count) => {
            move_down(bytes, item.end - count, item.end, behind);
            behind + count
        }
        _ => behind,
    }
}

// Moves bytes to a place before them, or leaves them there.
fn move_down(bytes: &mut [u8], start: usize, end: usize, place: usize)
    requires ordered { start ≤ end }
    requires within { end ≤ length bytes.old }
    requires before { place ≤ start }
    ensures { bytes.new ≡ copy_within bytes.old start end place }
{
    if place < start {
        bytes.copy_within(start..end, place);
    }
}

// Writes all of an item's text but a payload at a place, and answers the place behind it.
fn put_head(bytes: &mut [u8], place: usize, number: u32, kind: Kind) -> usize
    requires { place + length (head_text number kind) ≤ length bytes.old }
    ensures { FillsSlice (head_text number kind) place bytes.old bytes.new result }
{
    grammar::put_is_a_write();
    grammar::what_fits_is_written();
    let mut sink = Room { room: bytes, place };
    // There is room, and no memory is asked for, so that no put is refused.
    let _ = put(number, kind, &mut sink);
    sink.place
}

// Puts all of an item's text but a payload.
fn put(number: u32, kind: Kind, sink: &mut Room<'_>) -> Result<(), EncodeError>
    ensures { Puts (head_text number kind) (in_room sink.old) (in_room sink.new) result }
{
    match kind {
        Kind::Varint(value) => sink.put_varints(tag_as_number(number, WireType::Varint), value),
        Kind::Fixed64(value) => sink.put_fixed64(tag_as_number(number, WireType::Fixed64), value),
        Kind::Fixed32(value) => sink.put_fixed32(tag_as_number(number, WireType::Fixed32), value),
        Kind::Bytes(count) => {
            sink.put_varints(
                tag_as_number(number, WireType::LengthDelimited),
                count as u64,
            )
        }
        Kind::GroupStart => sink.put_varint(tag_as_number(number, WireType::StartGroup)),
        Kind::GroupEnd => sink.put_varint(tag_as_number(number, WireType::EndGroup)),
    }
}
