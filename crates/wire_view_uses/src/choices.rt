//! What is answered of types that hold themselves by a oneof, and of types of another crate, as
//! views and as messages.
use crate::tests::{Found, Row, found_by};
use wire_bands::{Cue, CueView, Programme, ProgrammeView, Release, ReleaseView};

// Bytes, the limits, and whether they are a programme within these.
const PROGRAMMES: [Row<'static>; 29] = [
    (b"", (0, 0, 0), true),
    (b"\x0a\x01a\x10\x03", (0, 0, 0), true),
    // The last that stands counts.
    (b"\x10\x03\x1a\x01x\x10\x05\x0a\x00", (0, 0, 0), true),
    (b"\x32\x02\xff\x00\x10\x01\x32\x00", (0, 0, 0), true),
    // A message that stands, in several records, and one that is begun anew.
    (b"\x22\x02\x08\x01\x22\x03\x12\x01z", (1, 2, 0), true),
    (b"\x22\x02\x08\x01\x10\x01\x22\x02\x08\x02", (1, 2, 0), true),
    (
        b"\x2a\x02\x10\x01\x2a\x03\x0a\x01n\x2a\x04\x2a\x02\x10\x03",
        (2, 0, 0),
        true,
    ),
    (
        b"\x3a\x03\x0a\x01a\x2a\x03\x0a\x01b\x3a\x03\x0a\x01c",
        (1, 0, 0),
        true,
    ),
    (
        b"\x2a\x03\x0a\x01a\x10\x01\x2a\x02\x10\x02",
        (1, 0, 0),
        true,
    ),
    // Fields that it lacks, also within.
    (
        b"\x40\x01\x2a\x07\x40\x02\x45\x01\x02\x03\x04",
        (1, 3, 0),
        true,
    ),
    (b"\x43\x08\x01\x44\x3a\x04\x43\x08\x01\x44", (2, 4, 0), true),
    (b"\x10", (100, 100, 1000), false),
    (b"\x0a\x02a", (100, 100, 1000), false),
    (b"\x1a\x01\xff", (100, 100, 1000), false),
    (b"\x2a\x03\x1a\x01\xff", (100, 100, 1000), false),
    (b"\x2a\x01", (100, 100, 1000), false),
    (b"\x12\x00", (100, 100, 1000), false),
    (b"\x28\x01", (100, 100, 1000), false),
    (b"\x2b\x2c", (100, 100, 1000), false),
    (b"\x22\x01\x08", (100, 100, 1000), false),
    (b"\x3a\x02\x2a\x01", (100, 100, 1000), false),
    // Within less: levels and unknown fields.
    (b"\x2a\x00", (1, 0, 0), true),
    (b"\x2a\x00", (0, 0, 0), false),
    (b"\x22\x00", (1, 0, 0), true),
    (b"\x22\x00", (0, 0, 0), false),
    (b"\x3a\x02\x2a\x00", (2, 0, 0), true),
    (b"\x3a\x02\x2a\x00", (1, 0, 0), false),
    (b"\x2a\x02\x40\x01", (1, 1, 0), true),
    (b"\x2a\x02\x40\x01", (1, 0, 0), false),
];

// The same of cues, which are followed by one, or have one beside them.
const CUES: [Row<'static>; 11] = [
    (b"", (0, 0, 0), true),
    (b"\x0d\x01\0\0\0\x12\x05\x0d\x02\0\0\0", (1, 0, 0), true),
    (b"\x12\x00\x1a\x02\x12\x00\x12\x00", (2, 0, 0), true),
    (
        b"\x1a\x05\x0d\x01\0\0\0\x1a\x02\x12\x00\x1a\x05\x0d\x02\0\0\0",
        (2, 0, 0),
        true,
    ),
    (b"\x20\x01\x12\x02\x20\x02", (1, 2, 0), true),
    (b"\x20\x01\x12\x02\x20\x02", (1, 1, 0), false),
    (b"\x12\x02\x12\x00", (1, 0, 0), false),
    (b"\x0d\x01", (100, 100, 1000), false),
    (b"\x08\x01", (100, 100, 1000), false),
    (b"\x12\x02\x10\x01", (100, 100, 1000), false),
    (b"\x12\x01", (100, 100, 1000), false),
];

// The same of releases, which hold types of another crate.
const RELEASES: [Row<'static>; 17] = [
    (
        b"\x0a\x01a\x12\x02\x08\x01\x12\x02\x10\x05\x1a\x00\x1a\x02\x08\x07",
        (100, 100, 1000),
        true,
    ),
    // Notes by their keys, of which the last counts: a truth, a text, nothing, and a list.
    (
        b"\x22\x07\x0a\x01k\x12\x02\x20\x01\x22\x08\x0a\x01k\x12\x03\x1a\x01v",
        (100, 100, 1000),
        true,
    ),
    (
        b"\x22\x07\x0a\x01n\x12\x02\x08\x00\x22\x0d\x0a\x01l\x12\x08\x32\x06\x0a\x02\x08\x00\x0a\x00",
        (100, 100, 1000),
        true,
    ),
    // Credits in several records, and begun anew behind a cover.
    (
        b"\x2a\x09\x0a\x07\x0a\x01a\x12\x02\x20\x01\x2a\x09\x0a\x07\x0a\x01b\x12\x02\x20\x00",
        (100, 100, 1000),
        true,
    ),
    (
        b"\x2a\x09\x0a\x07\x0a\x01a\x12\x02\x20\x01\x32\x01\xff\x2a\x00",
        (100, 100, 1000),
        true,
    ),
    (b"\x38\x01\x12\x02\x18\x02\x2a\x02\x10\x03", (1, 3, 0), true),
    (
        b"\x38\x01\x12\x02\x18\x02\x2a\x02\x10\x03",
        (1, 2, 0),
        false,
    ),
    (b"\x12\x01\x08", (100, 100, 1000), false),
    (b"\x22\x03\x0a\x01\xff", (100, 100, 1000), false),
    (b"\x22\x05\x12\x03\x1a\x01\xff", (100, 100, 1000), false),
    (b"\x2a\x02\x0a\x01", (100, 100, 1000), false),
    (b"\x2a\x05\x0a\x03\x0a\x01\xff", (100, 100, 1000), false),
    (b"\x28\x01", (100, 100, 1000), false),
    (b"\x1a\x00", (1, 0, PLACE_OF_DAY), true),
    (b"\x1a\x00", (1, 0, PLACE_OF_DAY - 1), false),
    (b"\x22\x02\x12\x00", (2, 0, PLACE_OF_NOTE), true),
    (b"\x22\x02\x12\x00", (2, 0, PLACE_OF_NOTE - 1), false),
];

// What a day in the list is charged, and a note by its key.
const PLACE_OF_DAY: usize = 56;

const PLACE_OF_NOTE: usize = 160;

#[test]
fn programmes_and_their_views_are_alike(rt: HostRuntime) {
    for (place, row) in PROGRAMMES.iter().enumerate() {
        let found = found_by::<ProgrammeView<'_>, Programme>(rt.alloc(), row);
        assert_eq!(rt; found, Found::Own, "{place}");
    }
}

#[test]
fn cues_and_their_views_are_alike(rt: HostRuntime) {
    for (place, row) in CUES.iter().enumerate() {
        let found = found_by::<CueView<'_>, Cue>(rt.alloc(), row);
        assert_eq!(rt; found, Found::Own, "{place}");
    }
}

#[test]
fn releases_and_their_views_are_alike(rt: HostRuntime) {
    for (place, row) in RELEASES.iter().enumerate() {
        let found = found_by::<ReleaseView<'_>, Release>(rt.alloc(), row);
        assert_eq!(rt; found, Found::Own, "{place}");
    }
}
