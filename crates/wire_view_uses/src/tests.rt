//! What is answered of some bytes, as views and as messages. A test that is refused a request for
//! memory fails with `OutOfMemory` as what was found, or not at all.
use crate::both::decode_both;
use crate::maps::owed;
use std::alloc::Global;
use wire_albums::{Bill, BillView, Parcel, ParcelView};
use wire_codec::{DecodeContext, DecodeError, Message};
use wire_views::MessageView;

// What is found: the answer that was expected, want of memory, or anything else.
#[derive(Clone, Copy, Debug, PartialEq)]
pub(crate) enum Found {
    Own,
    Other,
    OutOfMemory,
}

// Levels, unknown fields, and bytes for elements.
pub(crate) type Limits = (u32, usize, usize);

// Bytes, the limits, and whether they are an album within these.
pub(crate) type Row<'a> = (&'a [u8], Limits, bool);

pub(crate) const ROWS: [Row<'static>; 42] = [
    (b"", (100, 100, 1000), true),
    (
        b"\x08\x05\x12\x01a\x1a\x02\xff\0\x22\x00\x48\x01",
        (100, 100, 1000),
        true,
    ),
    (
        b"\x12\x01a\x08\x05\x12\x01b\x08\x07\x48\x01\x48\x09\x22\x01c\x22\x01d",
        (100, 100, 1000),
        true,
    ),
    (b"\x2a\x02\x01\x02\x28\x03\x2a\x00", (100, 100, 1000), true),
    (b"\x32\x01a\x32\x00\x32\x02\xc3\xa4", (100, 100, 1000), true),
    (
        b"\x3a\x03\x0a\x01a\x3a\x02\x18\x02\x42\x03\x0a\x01b\x42\x00\x42\x03\x0a\x01c",
        (100, 100, 1000),
        true,
    ),
    (b"\x58\x07\x5a\x02\x08\x09", (100, 100, 1000), true),
    (b"\x82\x01\x00\x72\x01a\x72\x01b", (100, 100, 1000), true),
    (b"\x72\x01a\x78\x05", (100, 100, 1000), true),
    (
        b"\x82\x01\x03\x0a\x01a\x82\x01\x02\x18\x02",
        (100, 100, 1000),
        true,
    ),
    (
        b"\x82\x01\x03\x0a\x01a\x78\x05\x82\x01\x02\x18\x02",
        (100, 100, 1000),
        true,
    ),
    (
        b"\x60\xff\x00\x65\x01\x02\x03\x04\x61\x01\x02\x03\x04\x05\x06\x07\x08\xa2\x01\x01x",
        (100, 100, 1000),
        true,
    ),
    (
        b"\x6b\x08\x01\x73\x74\x12\x01y\x6c\x08\x05\x6b\x6c",
        (100, 100, 1000),
        true,
    ),
    (b"\x42\x07\x0a\x01a\x22\x02bc", (100, 100, 1000), true),
    (b"\x08", (100, 100, 1000), false),
    (b"\x12\x02a", (100, 100, 1000), false),
    (b"\x42\x03\x0a\x02a", (100, 100, 1000), false),
    (b"\x65\x01\x02\x03", (100, 100, 1000), false),
    (b"\x6b\x08\x01", (100, 100, 1000), false),
    (b"\x42\x02\x0a\x01a", (100, 100, 1000), false),
    (b"\x12\x01\xff", (100, 100, 1000), false),
    (b"\x32\x02\xc3\x28", (100, 100, 1000), false),
    (b"\x3a\x03\x0a\x01\xff", (100, 100, 1000), false),
    (b"\x72\x01\xff", (100, 100, 1000), false),
    (b"\x10\x01", (100, 100, 1000), false),
    (b"\x3b\x3c", (100, 100, 1000), false),
    (b"\x6c", (100, 100, 1000), false),
    (b"\x6b\x74", (100, 100, 1000), false),
    (b"\x53\x6c", (100, 100, 1000), false),
    (b"\x00\x01", (100, 100, 1000), false),
    // Within less: levels, unknown fields, and bytes for elements.
    (b"\x3a\x00", (1, 0, 0), true),
    (b"\x3a\x00", (0, 0, 0), false),
    (b"\x53\x54", (0, 0, 0), false),
    (b"\x6b\x73\x74\x6c", (2, 2, 0), true),
    (b"\x6b\x73\x74\x6c", (1, 2, 0), false),
    (b"\x6b\x73\x74\x6c", (2, 1, 0), false),
    (b"\x32\x00\x32\x00", (0, 0, 48), true),
    (b"\x32\x00\x32\x00", (0, 0, 47), false),
    (b"\x42\x00\x42\x00", (1, 0, 160), true),
    (b"\x42\x00\x42\x00", (1, 0, 159), false),
    (b"\x60\x01\x42\x02\x20\x01", (1, 2, 80), true),
    (b"\x60\x01\x42\x02\x20\x01", (1, 1, 80), false),
];

// The same of parcels: groups, oneofs of groups and of bytes, and lists of groups.
pub(crate) const PARCELS: [Row<'static>; 35] = [
    (b"\x0a\x01a\x0a\x01b\x10\x05", (100, 100, 1000), true),
    (
        b"\x1b\x0a\x01x\x12\x01y\x1c\x1b\x12\x01z\x1c",
        (100, 100, 1000),
        true,
    ),
    (b"\x23\x0a\x02\x08\x01\x24\x23\x24", (100, 100, 1000), true),
    (
        b"\x33\x0d\x01\x02\x03\x04\x34\x33\x34",
        (100, 100, 1000),
        true,
    ),
    (b"\x33\x34\x3a\x00", (100, 100, 1000), true),
    (b"\x42\x08\0\0\x80\x3f\0\0\xc0\x7f", (100, 100, 1000), true),
    (
        b"\x45\0\0\x80\x3f\x4a\x01\xff\x2a\x01\xff",
        (100, 100, 1000),
        true,
    ),
    // Packed numbers: of several records, of one number each, mixed, and none.
    (
        b"\x42\x04\0\0\x80\x3f\x42\x08\0\0\xc0\x7f\x01\0\0\0",
        (0, 0, 0),
        true,
    ),
    (b"\x45\0\0\x80\x3f\x45\0\0\xc0\x7f", (0, 0, 0), true),
    (b"\x45\0\0\x80\x3f\x42\x04\0\0\xc0\x7f", (0, 0, 0), true),
    (b"\x42\x04\0\0\xc0\x7f\x45\0\0\x80\x3f", (0, 0, 0), true),
    (b"\x42\x00\x42\x04\0\0\x80\x3f", (0, 0, 0), true),
    (b"\x5b\x18\x07\x5c", (100, 100, 1000), true),
    (b"\x1b", (100, 100, 1000), false),
    (b"\x1b\x24", (100, 100, 1000), false),
    (b"\x1b\x0a\x01\xff\x1c", (100, 100, 1000), false),
    (b"\x1a\x00", (100, 100, 1000), false),
    (b"\x33\x3c", (100, 100, 1000), false),
    (b"\x38\x00", (100, 100, 1000), false),
    (b"\x42\x03\0\0\0", (100, 100, 1000), false),
    (b"\x42\x04\0\0\x80", (100, 100, 1000), false),
    (b"\x42\x05\0\0\x80\x3f\0", (100, 100, 1000), false),
    (
        b"\x42\x04\0\0\x80\x3f\x42\x03\0\0\0",
        (100, 100, 1000),
        false,
    ),
    (b"\x40\x01", (100, 100, 1000), false),
    (b"\x5b\x18\x07", (100, 100, 1000), false),
    (b"\x23\x24\x23\x24", (1, 0, 96), true),
    (b"\x23\x24\x23\x24", (1, 0, 95), false),
    (b"\x33\x34", (0, 0, 0), false),
    (b"\x1b\x1c", (1, 0, 0), true),
    // A closed enum.
    (b"\x50\x00\x50\x02", (100, 0, 0), true),
    (b"\x50\x02\x50\x01", (100, 1, 0), true),
    (b"\x50\x81\x00\x50\x00\x50\xff\xff\x03", (100, 2, 0), true),
    (b"\x50\x01", (100, 0, 0), false),
    (b"\x52\x01\x02", (100, 100, 1000), false),
    (b"\x50\x80", (100, 100, 1000), false),
];

// The same of bills: maps.
const BILLS: [Row<'static>; 18] = [
    (
        b"\x0a\x05\x0a\x01a\x10\x05\x0a\x05\x0a\x01a\x10\x07",
        (100, 100, 1000),
        true,
    ),
    (
        b"\x0a\x05\x0a\x01b\x10\x05\x0a\x05\x0a\x01a\x10\x07\x0a\x00",
        (100, 100, 1000),
        true,
    ),
    (
        b"\x0a\x09\x0a\x01a\x18\x01\x10\x05\x20\x07",
        (100, 100, 1000),
        true,
    ),
    (
        b"\x12\x07\x08\x02\x12\x03\x0a\x01x\x12\x02\x08\x02",
        (100, 100, 1000),
        true,
    ),
    (
        b"\x12\x0b\x12\x03\x0a\x01x\x12\x02\x10\x05\x08\x01\x12\x00",
        (100, 100, 1000),
        true,
    ),
    (
        b"\x1a\x05\x08\x01\x12\x01\xff\x1a\x00\x1a\x02\x08\x00",
        (100, 100, 1000),
        true,
    ),
    (
        b"\x22\x07\x08\xff\x01\x12\x02\xc3\xa4",
        (100, 100, 1000),
        true,
    ),
    (
        b"\x2a\x06\x0a\x01k\x12\x01v\x2a\x03\x12\x01w",
        (100, 100, 1000),
        true,
    ),
    (b"\x0a\x03\x0a\x01\xff", (100, 100, 1000), false),
    (b"\x2a\x03\x12\x01\xff", (100, 100, 1000), false),
    (b"\x08\x01", (100, 100, 1000), false),
    (b"\x0a\x02\x08\x01", (100, 100, 1000), false),
    (b"\x0a\x02\x10", (100, 100, 1000), false),
    (b"\x0a\x01\x10\x05", (100, 100, 1000), false),
    (b"\x12\x04\x12\x02\x08\x01", (100, 100, 1000), false),
    (b"\x0a\x00\x0a\x00", (1, 0, 128), true),
    (b"\x0a\x00\x0a\x00", (1, 0, 127), false),
    (b"\x0a\x00", (0, 0, 128), false),
];

// Whether the message of the view is the message that was read, or both refusals are the same.
pub(crate) fn compared<V: MessageView<Owned = M>, M: PartialEq + Drop>(
    alloc: Global,
    view: &Result<V, DecodeError>,
    message: &Result<M, DecodeError>,
) -> Found {
    match (view, message) {
        (Err(DecodeError::OutOfMemory), _) | (_, Err(DecodeError::OutOfMemory)) => {
            Found::OutOfMemory
        }
        (Ok(view), Ok(message)) => match view.own(alloc) {
            Ok(owned) if owned == *message => Found::Own,
            Err(DecodeError::OutOfMemory) => Found::OutOfMemory,
            _ => Found::Other,
        },
        (Err(error), Err(other)) if error == other => Found::Own,
        _ => Found::Other,
    }
}

// What is found of a row.
fn found_of(alloc: Global, row: &Row<'_>) -> Found {
    let (bytes, (levels, unknown_fields, memory), is_album) = *row;
    let both = decode_both(alloc, bytes, levels, unknown_fields, memory);
    match compared(alloc, &both.view, &both.message) {
        Found::Own if both.view.is_ok() != is_album => Found::Other,
        found => found,
    }
}

// The same of a row of another message.
pub(crate) fn found_by<'a, V: MessageView<Source = &'a [u8], Owned = M>, M: Message + PartialEq>(
    alloc: Global,
    row: &Row<'a>,
) -> Found {
    let (bytes, (levels, unknown_fields, memory), is_message) = *row;
    let context = DecodeContext::new(levels, unknown_fields);
    let mut context = context.with_element_memory(memory);
    let view = V::decode_view(alloc, bytes, &mut context);
    let context = DecodeContext::new(levels, unknown_fields);
    let mut context = context.with_element_memory(memory);
    let mut buf = bytes;
    let mut message = M::default_value(alloc);
    let message = match message.merge(alloc, &mut buf, &mut context) {
        Ok(()) => Ok(message),
        Err(error) => Err(error),
    };
    match compared(alloc, &view, &message) {
        Found::Own if view.is_ok() != is_message => Found::Other,
        found => found,
    }
}

#[test]
fn views_and_messages_are_alike(rt: HostRuntime) {
    for (place, row) in ROWS.iter().enumerate() {
        assert_eq!(rt; found_of(rt.alloc(), row), Found::Own, "{place}");
    }
}

#[test]
fn parcels_and_their_views_are_alike(rt: HostRuntime) {
    for (place, row) in PARCELS.iter().enumerate() {
        let found = found_by::<ParcelView<'_>, Parcel>(rt.alloc(), row);
        assert_eq!(rt; found, Found::Own, "{place}");
    }
}

#[test]
fn bills_and_their_views_are_alike(rt: HostRuntime) {
    for (place, row) in BILLS.iter().enumerate() {
        let found = found_by::<BillView<'_>, Bill>(rt.alloc(), row);
        assert_eq!(rt; found, Found::Own, "{place}");
    }
}

#[test]
fn the_last_of_a_key_is_owed(rt: HostRuntime) {
    let bytes = b"\x0a\x05\x0a\x01b\x10\x05\x0a\x05\x0a\x01a\x10\x07\x0a\x05\x0a\x01b\x10\x08";
    match owed(rt.alloc(), bytes) {
        Ok(owed) => assert_eq!(rt; owed.as_slice(), [("a", 7u64), ("b", 8u64)].as_slice()),
        Err(error) => assert_eq!(rt; error, DecodeError::OutOfMemory),
    }
}
