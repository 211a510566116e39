//! What is answered of closed enums in lists, in a oneof and in maps, as views and as messages.
use crate::tests::{Found, Row, found_by};
use wire_albums::{Rack, RackView, Wears, WearsView};

// The same of racks: closed enums in lists and in a oneof.
pub(crate) const RACKS: [Row<'static>; 24] = [
    (b"\x0a\x03\x00\x02\x05\x10\x02\x10\x00", (0, 0, 0), true),
    (b"\x0a\x05\x00\x01\x02\x03\x05", (0, 2, 0), true),
    (b"\x0a\x05\x00\x01\x02\x03\x05", (0, 1, 0), false),
    (b"\x0a\x06\x81\x00\x02\x01\x83\x00\x0a\x00", (0, 3, 0), true),
    (b"\x08\x01\x08\x02\x08\x84\x00", (0, 2, 0), true),
    (b"\x12\x03\x04\x02\x01\x10\x03\x10\x05", (0, 3, 0), true),
    (b"\x10\x03\x12\x03\xff\xff\x03", (0, 2, 0), true),
    (b"\x10\x03\x12\x03\xff\xff\x03", (0, 1, 0), false),
    (
        b"\x0a\x0a\xff\xff\xff\xff\xff\xff\xff\xff\xff\x01",
        (0, 1, 0),
        true,
    ),
    (b"\x0a\x05\x82\x80\x80\x80\x10", (0, 0, 0), true),
    (b"\x0a\x05\x83\x80\x80\x80\x10", (0, 1, 0), true),
    (
        b"\x28\x07\x0a\x02\x01\x03\x20\x09\x10\x04\x28\x08",
        (0, 6, 0),
        true,
    ),
    (b"\x20\x02\x20\x01", (0, 1, 0), true),
    (b"\x20\x02\x20\x01", (0, 0, 0), false),
    (b"\x20\x01\x1a\x01a\x20\x83\x00", (0, 2, 0), true),
    (b"\x1a\x01a\x20\x05\x20\x00", (0, 0, 0), true),
    (b"\x20\x05\x20\x01\x1a\x00", (0, 1, 0), true),
    (b"\x0a\x02\x01\x80", (100, 100, 1000), false),
    (b"\x0a\x03\x01", (100, 100, 1000), false),
    (b"\x0d\x01\x02\x03\x04", (100, 100, 1000), false),
    (b"\x10", (100, 100, 1000), false),
    (
        b"\x10\xff\xff\xff\xff\xff\xff\xff\xff\xff\x02",
        (100, 100, 1000),
        false,
    ),
    (b"\x20\x05\x1a\x01\xff", (100, 100, 1000), false),
    (b"\x22\x01\x02", (100, 100, 1000), false),
];

// The same of wears: maps of closed enums.
const WEARS: [Row<'static>; 19] = [
    (
        b"\x0a\x05\x0a\x01a\x10\x02\x0a\x05\x0a\x01a\x10\x05",
        (1, 0, 1000),
        true,
    ),
    (
        b"\x0a\x05\x0a\x01a\x10\x02\x0a\x05\x0a\x01a\x10\x01",
        (1, 1, 1000),
        true,
    ),
    (
        b"\x0a\x05\x0a\x01a\x10\x02\x0a\x05\x0a\x01a\x10\x01",
        (1, 0, 1000),
        false,
    ),
    (
        b"\x0a\x05\x0a\x01a\x10\x01\x18\x07\x0a\x05\x10\x03\x0a\x01b",
        (1, 3, 1000),
        true,
    ),
    (b"\x0a\x00\x0a\x03\x0a\x01b", (1, 0, 1000), true),
    (
        b"\x0a\x09\x0a\x01a\x18\x01\x10\x01\x20\x07",
        (100, 100, 1000),
        true,
    ),
    (
        b"\x12\x04\x08\x03\x10\x02\x12\x05\x08\x03\x10\x81\x00",
        (1, 1, 1000),
        true,
    ),
    (
        b"\x12\x04\x08\x04\x10\x05\x12\x02\x08\x03\x12\x02\x08\x04",
        (1, 0, 1000),
        true,
    ),
    (b"\x12\x82\x00\x10\x07\x12\x80\x00", (1, 1, 1000), true),
    (b"\x12\x02\x10\x07", (1, 0, 1000), false),
    (b"\x0a\x03\x0a\x01\xff", (100, 100, 1000), false),
    (b"\x0a\x02\x10\x80", (100, 100, 1000), false),
    (b"\x0a\x05\x0a\x01a\x10", (100, 100, 1000), false),
    (b"\x08\x01", (100, 100, 1000), false),
    (b"\x0a\x01\x10\x05", (100, 100, 1000), false),
    (b"\x12\x02\x0a\x00", (100, 100, 1000), false),
    (b"\x12", (100, 100, 1000), false),
    (b"\x0a\x00", (0, 0, 1000), false),
    (b"\x0a\x02\x10\x01", (1, 1, 0), false),
];

#[test]
fn racks_and_their_views_are_alike(rt: HostRuntime) {
    for (place, row) in RACKS.iter().enumerate() {
        let found = found_by::<RackView<'_>, Rack>(rt.alloc(), row);
        assert_eq!(rt; found, Found::Own, "{place}");
    }
}

#[test]
fn wears_and_their_views_are_alike(rt: HostRuntime) {
    for (place, row) in WEARS.iter().enumerate() {
        let found = found_by::<WearsView<'_>, Wears>(rt.alloc(), row);
        assert_eq!(rt; found, Found::Own, "{place}");
    }
}
