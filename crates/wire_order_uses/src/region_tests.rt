//! Closed enums and maps of these beside and among the fields by which a type holds itself or others:
//! a number that the enum lacks is kept among the unknown fields, and leaves a oneof as it stands.
use crate::tests::Found;
use std::alloc::Global;
use wire_codec::{DecodeError, EncodeError, Message};
use wire_orders::{Category, Condition, Rebate};

// Bytes, and those that are written of the message that they are.
type Written = (&'static [u8], &'static [u8]);

const CATEGORIES: [Written; 5] = [
    (
        b"\x2a\x04\x08\x01\x10\x02\x0a\x01a",
        b"\x0a\x01a\x2a\x04\x08\x01\x10\x02",
    ),
    (
        b"\x2a\x04\x08\x01\x10\x05\x0a\x01a",
        b"\x0a\x01a\x2a\x04\x08\x01\x10\x05",
    ),
    (
        b"\x2a\x04\x08\x02\x10\x05\x2a\x04\x08\x02\x10\x02\x2a\x04\x08\x01\x10\x00",
        b"\x2a\x04\x08\x01\x10\x00\x2a\x04\x08\x02\x10\x02\x2a\x04\x08\x02\x10\x05",
    ),
    (
        b"\x12\x06\x2a\x04\x08\x01\x10\x07\x22\x06\x2a\x04\x08\x01\x10\x02",
        b"\x12\x06\x2a\x04\x08\x01\x10\x07\x22\x06\x2a\x04\x08\x01\x10\x02",
    ),
    (b"\x2a\x02\x08\x01", b"\x2a\x04\x08\x01\x10\x00"),
];

const CONDITIONS: [Written; 18] = [
    (b"\x28\x02\x20\x04", b"\x20\x04\x28\x02"),
    (b"\x28\x05\x20\x04", b"\x20\x04\x28\x05"),
    (b"\x12\x00\x28\x05", b"\x12\x00\x28\x05"),
    (b"\x12\x00\x28\x02\x28\x05", b"\x12\x00\x28\x02\x28\x05"),
    (b"\x20\x04\x28\x02\x12\x00", b"\x12\x00\x28\x02"),
    (b"\x12\x00\x28\x02\x20\x04", b"\x20\x04\x28\x02"),
    (
        b"\x12\x02\x10\x05\x28\x05\x12\x04\x0a\x02\x28\x02",
        b"\x12\x06\x0a\x02\x28\x02\x10\x05\x28\x05",
    ),
    (b"\x28\x82\x00\x28\x80\x00", b"\x28\x00"),
    (b"\x30\x02", b"\x30\x02"),
    (b"\x30\x05", b"\x30\x05"),
    (b"\x12\x00\x30\x05", b"\x12\x00\x30\x05"),
    (b"\x12\x00\x30\x02", b"\x30\x02"),
    (b"\x30\x05\x12\x00", b"\x12\x00\x30\x05"),
    (b"\x30\x02\x12\x00", b"\x12\x00"),
    (b"\x30\x02\x30\x05", b"\x30\x02\x30\x05"),
    (b"\x20\x04\x30\x05", b"\x20\x04\x30\x05"),
    (b"\x20\x04\x30\x05\x30\x00", b"\x30\x00\x30\x05"),
    (
        b"\x12\x02\x10\x05\x30\x05\x12\x04\x0a\x02\x30\x02",
        b"\x12\x06\x0a\x02\x30\x02\x10\x05\x30\x05",
    ),
];

const REBATES: [Written; 3] = [
    (
        b"\x22\x05\x0a\x01a\x10\x05\x10\x01\x0a\x04\x28\x05\x20\x01",
        b"\x0a\x04\x20\x01\x28\x05\x10\x01\x22\x05\x0a\x01a\x10\x05",
    ),
    (
        b"\x22\x05\x0a\x01b\x10\x02\x22\x05\x0a\x01a\x10\x00",
        b"\x22\x05\x0a\x01a\x10\x00\x22\x05\x0a\x01b\x10\x02",
    ),
    (
        b"\x1a\x07\x0a\x01a\x12\x02\x28\x07",
        b"\x1a\x07\x0a\x01a\x12\x02\x28\x07",
    ),
];

// What is written of the message, and that memory is wanting only where it is.
fn found_of<M: Message>(alloc: Global, row: &Written) -> Found {
    let message = match M::decode_from_slice(alloc, row.0) {
        Ok(message) => message,
        Err(DecodeError::OutOfMemory) => return Found::OutOfMemory,
        Err(_) => return Found::Other,
    };
    match message.try_encode_to_vec(alloc) {
        Ok(bytes) if bytes.as_slice() == row.1 => Found::Own,
        Err(EncodeError::OutOfMemory) => Found::OutOfMemory,
        _ => Found::Other,
    }
}

#[test]
fn categories_keep_their_regions(rt: HostRuntime) {
    for (place, row) in CATEGORIES.iter().enumerate() {
        assert_eq!(rt;
            found_of::<Category>(rt.alloc(), row),
            Found::Own,
            "{place}"
        );
    }
}

#[test]
fn conditions_keep_their_regions(rt: HostRuntime) {
    for (place, row) in CONDITIONS.iter().enumerate() {
        assert_eq!(rt;
            found_of::<Condition>(rt.alloc(), row),
            Found::Own,
            "{place}"
        );
    }
}

#[test]
fn rebates_keep_their_regions(rt: HostRuntime) {
    for (place, row) in REBATES.iter().enumerate() {
        assert_eq!(rt; found_of::<Rebate>(rt.alloc(), row), Found::Own, "{place}");
    }
}
