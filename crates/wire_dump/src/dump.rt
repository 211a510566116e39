//! The lines of all records of bytes.
ghost use Rattle.std.specs.Prelude.{◌≡◌, ◌≢◌, ◌+◌, ◌*◌, ◌-◌, ◌^◌, ◌<◌, ◌≤◌, [], length, true, false, IsTrue, OnOk, IfOk, Err};
ghost use Rattle.wire_base.specs.declared.tag.WireType.TheVariants.{LengthDelimited};
ghost use Rattle.wire_base.specs.Field.{Fields, bytes};
ghost use Rattle.wire_base.specs.Items.{whole, IsItem};
ghost use Rattle.wire_base.specs.Limits.{uncounted};
ghost use Rattle.wire_base.specs.Read.{Reads};
ghost use Rattle.wire_base.specs.Spells.{Spells};
ghost use Rattle.wire_base.specs.Tag.{IsTagSpelling};
ghost use Rattle.wire_read.specs.declared.event.Fault.{Fault};
ghost use Rattle.wire_read.specs.Reading.{item, groups_of, limits_in, Begins};
ghost use Rattle.wire_dump.specs.Dumped.{IsDumped, IsDumpedFront, ItemLines, Prints, RecordLines};
ghost use Rattle.wire_dump.specs.Dumps.{SpellsRecord};
ghost use Rattle.wire_dump.specs.Front.{IsNoGuess, PrintsFront, PrintsRecord};

use crate::layout::Layout;
use crate::line::{put_closing, put_fixed, put_number, put_opening};
use crate::record::{put_fixed32, put_fixed64, put_varint};
use crate::stop::Stop;
use crate::string::put_string;
use std::alloc::AllocError;
use wire_base::laws as grammar;
use wire_codec::{Tag, WireType, decode_length};
use wire_read::{Event, Reader, Value, laws};

/// Puts the lines of all records of these bytes, which begin at this place of the input. Where a
/// fault stands, those of the records before it are put.
#[cycle(dump)]
pub(crate) fn put_records(
    out: &mut Vec<u8>,
    layout: Layout,
    place: usize,
    reader: &mut Reader,
    bytes: &[u8],
) -> Result<(), Stop>
    requires begins { Begins (limits_in reader.old) reader.old }
    requires room { layout.level + 128 * layout.budget + 128 < 2 ^ 31 }
    requires shallow { layout.budget ≤ 100 }
    requires placed { place + length bytes.now < 2 ^ 64 }
    ensures ok { OnOk result (IsDumped layout place (limits_in reader.old) bytes.now
        out.old.items out.new.items) }
    ensures fault { (f : Fault) → result ≡ Err (Stop.Fault f)
        → IsDumpedFront layout place (limits_in reader.old) bytes.now f (groups_of reader.new)
        out.old.items out.new.items }
{
    laws::reader_begins();
    laws::reader_goes_on();
    laws::reader_moves_on();
    laws::reader_is_done();
    laws::reader_stops();
    laws::items_tell_records();
    while let Some(event) = reader.next(bytes)? {
        let count = reader.open_groups().len() as u32;
        let text = &bytes[event.start..event.end];
        put_item(out, layout, count, &event, place + event.start, text)?;
    }
    Ok(())
}

/// Puts the lines of an event, which is this text, and behind which so many groups are open.
#[cycle(dump)]
pub(crate) fn put_item(
    out: &mut Vec<u8>,
    layout: Layout,
    count: u32,
    event: &Event<'_>,
    place: usize,
    text: &[u8],
) -> Result<(), AllocError>
    requires room { layout.level + 128 * layout.budget + 128 < 2 ^ 31 }
    requires shallow { layout.budget ≤ 100 }
    requires few { count ≤ 100 }
    requires placed { place + length text.now < 2 ^ 64 }
    requires is { IsItem (item event.now.number event.now.value) text.now }
    ensures { OnOk result (Prints layout place
        (ItemLines layout count (item event.now.number event.now.value) text.now)
        text.now out.old.items out.new.items) }
{
    let inside = layout.inside(count);
    let margin = layout.margin(place, place + text.len());
    match event.value {
        Value::Varint(value) => put_number(out, margin, inside.level, event.number, value),
        Value::Fixed64(value) => put_fixed(out, margin, inside.level, event.number, 16, value),
        Value::Fixed32(value) => {
            put_fixed(out, margin, inside.level, event.number, 8, value as u64)
        }
        Value::Bytes(payload) => put_payload(out, inside, event.number, place, text, payload),
        Value::GroupStart => {
            let outside = layout.level + count.saturating_sub(1);
            put_opening(out, margin, outside, event.number)
        }
        Value::GroupEnd => put_closing(out, margin, inside.level),
    }
}

// Puts a payload, as a message where it is one. This text is its record.
#[cycle(dump)]
#[inline(always)]
fn put_payload(
    out: &mut Vec<u8>,
    layout: Layout,
    number: u32,
    place: usize,
    text: &[u8],
    payload: &[u8],
) -> Result<(), AllocError>
    requires room { layout.level + 128 * layout.budget + 28 < 2 ^ 31 }
    requires shallow { layout.budget ≤ 100 }
    requires placed { place + length text.now < 2 ^ 64 }
    requires is { SpellsRecord number (bytes payload.now) text.now }
    ensures { OnOk result (Prints layout place
        (RecordLines layout number (bytes payload.now) text.now)
        text.now out.old.items out.new.items) }
{
    let whole = layout.margin(place, place + text.len());
    if layout.budget == 0 {
        return put_string(out, whole, layout.level, number, payload);
    }
    if payload.is_empty() {
        return put_string(out, whole, layout.level, number, payload);
    }
    if begins_no_record(payload) {
        return put_string(out, whole, layout.level, number, payload);
    }
    put_message(out, layout, number, place, text, payload)
}

// Puts a payload as a message, and where it is none as a string.
#[cycle(dump)]
#[inline(never)]
fn put_message(
    out: &mut Vec<u8>,
    layout: Layout,
    number: u32,
    place: usize,
    text: &[u8],
    payload: &[u8],
) -> Result<(), AllocError>
    requires some { 0 < layout.budget }
    requires full { payload.now ≢ [] }
    requires room { layout.level + 128 * layout.budget + 28 < 2 ^ 31 }
    requires shallow { layout.budget ≤ 100 }
    requires placed { place + length text.now < 2 ^ 64 }
    requires is { SpellsRecord number (bytes payload.now) text.now }
    ensures { OnOk result (Prints layout place
        (RecordLines layout number (bytes payload.now) text.now)
        text.now out.old.items out.new.items) }
{
    let end = place + text.len();
    let start = out.len();
    let payload_place = end - payload.len();
    put_opening(
        out,
        layout.margin(place, payload_place),
        layout.level,
        number,
    )?;
    let is_message = put_guess(out, layout.inside(1), payload_place, payload)?;
    if is_message {
        return put_closing(out, layout.margin(end, end), layout.level);
    }
    out.truncate(start);
    let whole = layout.margin(place, end);
    put_string(out, whole, layout.level, number, payload)
}

// Puts the lines of bytes that are guessed to be records, and answers whether they are. Those at
// the front that are no groups are gone over here, as that is faster than by a reader.
#[cycle(dump)]
#[inline(always)]
fn put_guess(
    out: &mut Vec<u8>,
    layout: Layout,
    place: usize,
    bytes: &[u8],
) -> Result<bool, AllocError>
    requires room { layout.level + 128 * layout.budget + 128 < 2 ^ 31 }
    requires shallow { layout.budget < 100 }
    requires placed { place + length bytes.now < 2 ^ 64 }
    ensures message { IfOk result (λ is. is ≡ true → IsDumped layout place
        (uncounted (layout.budget + 1)) bytes.now out.old.items out.new.items) }
    ensures none { IfOk result (λ is. is ≡ false → IsNoGuess layout bytes.now
        out.old.items out.new.items) }
{
    grammar::joined_texts_spell();
    grammar::joined_adds_up();
    grammar::one_tag();
    grammar::one_payload();
    let count = put_front(out, layout, place, bytes)?;
    if count == bytes.len() {
        return Ok(true);
    }
    let rest = &bytes[count..];
    if begins_no_record(rest) {
        return Ok(false);
    }
    put_rest(out, layout, place + count, rest)
}

// Puts the lines of guessed bytes by a reader, which knows groups and faults.
#[cycle(dump)]
#[inline(never)]
fn put_rest(
    out: &mut Vec<u8>,
    layout: Layout,
    place: usize,
    bytes: &[u8],
) -> Result<bool, AllocError>
    requires room { layout.level + 128 * layout.budget + 128 < 2 ^ 31 }
    requires shallow { layout.budget < 100 }
    requires placed { place + length bytes.now < 2 ^ 64 }
    ensures message { IfOk result (λ is. is ≡ true → IsDumped layout place
        (uncounted (layout.budget + 1)) bytes.now out.old.items out.new.items) }
    ensures none { IfOk result (λ is. is ≡ false → IsNoGuess layout bytes.now
        out.old.items out.new.items) }
{
    grammar::whole_input();
    grammar::no_list_beside_fault();
    let mut reader = Reader::new(layout.budget + 1);
    match put_records(out, layout, place, &mut reader, bytes) {
        Ok(()) => Ok(true),
        Err(Stop::Fault(_)) => Ok(false),
        Err(Stop::OutOfMemory) => Err(AllocError),
    }
}

// Puts the lines of the records at the front of bytes up to the first that is a group, or to where
// none stands, and answers how many bytes they have.
#[cycle(dump)]
#[inline(always)]
fn put_front(
    out: &mut Vec<u8>,
    layout: Layout,
    place: usize,
    bytes: &[u8],
) -> Result<usize, AllocError>
    requires room { layout.level + 128 * layout.budget + 28 < 2 ^ 31 }
    requires shallow { layout.budget ≤ 100 }
    requires placed { place + length bytes.now < 2 ^ 64 }
    ensures { IfOk result (λ count. PrintsFront layout place bytes.now count
        out.old.items out.new.items) }
{
    grammar::joined_texts_spell();
    grammar::joined_adds_up();
    let mut count = 0;
    while count < bytes.len() {
        let len = put_record(out, layout, place + count, &bytes[count..])?;
        if len == 0 {
            return Ok(count);
        }
        count += len;
    }
    Ok(count)
}

// Puts the lines of the record at the front of bytes, where one stands that is no group, and
// answers how many bytes it has; else 0.
#[cycle(dump)]
#[inline(always)]
fn put_record(
    out: &mut Vec<u8>,
    layout: Layout,
    place: usize,
    bytes: &[u8],
) -> Result<usize, AllocError>
    requires room { layout.level + 128 * layout.budget + 28 < 2 ^ 31 }
    requires shallow { layout.budget ≤ 100 }
    requires placed { place + length bytes.now < 2 ^ 64 }
    ensures { IfOk result (λ count. PrintsRecord layout place bytes.now count
        out.old.items out.new.items) }
{
    let mut behind = bytes;
    let Ok(tag) = Tag::decode(&mut behind) else {
        return Ok(0);
    };
    let number = tag.field_number();
    match tag.wire_type() {
        WireType::Varint => put_varint(out, layout, number, place, bytes, behind),
        WireType::Fixed64 => put_fixed64(out, layout, number, place, bytes, behind),
        WireType::Fixed32 => put_fixed32(out, layout, number, place, bytes, behind),
        WireType::LengthDelimited => put_bytes(out, layout, number, place, bytes, behind),
        WireType::StartGroup | WireType::EndGroup => Ok(0),
    }
}

// The same behind a tag, for a payload that has a length.
#[cycle(dump)]
#[inline(always)]
fn put_bytes(
    out: &mut Vec<u8>,
    layout: Layout,
    number: u32,
    place: usize,
    bytes: &[u8],
    behind: &[u8],
) -> Result<usize, AllocError>
    requires room { layout.level + 128 * layout.budget + 28 < 2 ^ 31 }
    requires shallow { layout.budget ≤ 100 }
    requires placed { place + length bytes.now < 2 ^ 64 }
    requires tag { Reads bytes.now (IsTagSpelling number LengthDelimited) behind.now }
    ensures { IfOk result (λ count. PrintsRecord layout place bytes.now count
        out.old.items out.new.items) }
{
    let mut rest = behind;
    let Ok(len) = decode_length(&mut rest, None) else {
        return Ok(0);
    };
    let count = bytes.len() - (rest.len() - len);
    put_payload(out, layout, number, place, &bytes[..count], &rest[..len])?;
    Ok(count)
}

// Whether no record stands at the front of bytes, of which there are some: no tag, or one that ends
// a group.
#[inline(always)]
fn begins_no_record(bytes: &[u8]) -> bool
    requires { bytes.now ≢ [] }
    ensures { IsTrue result → (fs : Fields) → ¬ Spells fs bytes.now }
{
    grammar::one_tag();
    grammar::no_tag_beside_fault();
    let mut rest = bytes;
    match Tag::decode(&mut rest) {
        Ok(tag) => tag.wire_type() == WireType::EndGroup,
        Err(_) => true,
    }
}
