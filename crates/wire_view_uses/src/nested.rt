//! What is answered of types that hold themselves, as views and as messages.
use crate::tests::{Found, Row, found_by};
use wire_albums::{Genre, GenreView, Stock, StockView};
use wire_bands::{Band, BandView, Queue, QueueView};

// Bytes, the limits, and whether they are a genre within these.
const GENRES: [Row<'static>; 29] = [
    (b"", (100, 100, 1000), true),
    (b"\x0a\x01a\x0a\x01b", (100, 100, 1000), true),
    (
        b"\x12\x03\x0a\x01a\x12\x00\x12\x05\x12\x03\x0a\x01c",
        (100, 100, 1000),
        true,
    ),
    // One that is like it, in several records.
    (
        b"\x1a\x03\x0a\x01a\x1a\x02\x28\x02\x1a\x03\x0a\x01b",
        (100, 100, 1000),
        true,
    ),
    (
        b"\x1a\x05\x12\x03\x0a\x01a\x1a\x05\x1a\x03\x0a\x01b\x1a\x02\x12\x00",
        (100, 100, 1000),
        true,
    ),
    // Fields that it lacks, and numbers that a closed enum lacks, also within.
    (
        b"\x60\x01\x12\x05\x62\x01x\x28\x01\x1a\x04\x63\x08\x01\x64",
        (100, 100, 1000),
        true,
    ),
    (
        b"\x20\x01\x20\x03\x1a\x04\x20\x00\x20\x07\x20\x00",
        (100, 100, 1000),
        true,
    ),
    // Numbers, packed and not.
    (b"\x28\x01\x2a\x02\x02\x03\x28\x04", (100, 100, 1000), true),
    (b"\x12", (100, 100, 1000), false),
    (b"\x12\x01", (100, 100, 1000), false),
    (b"\x12\x02\x0a\x01a", (100, 100, 1000), false),
    (b"\x12\x03\x0a\x01\xff", (100, 100, 1000), false),
    (b"\x1a\x03\x0a\x01\xff", (100, 100, 1000), false),
    (b"\x1a\x02\x12\x01", (100, 100, 1000), false),
    (b"\x10\x01", (100, 100, 1000), false),
    (b"\x1b\x1c", (100, 100, 1000), false),
    (b"\x13\x14", (100, 100, 1000), false),
    (b"\x22\x01\x00", (100, 100, 1000), false),
    (b"\x1a\x02\x63\x6c", (100, 100, 1000), false),
    // Within less: levels, unknown fields, and bytes for elements.
    (b"\x12\x00", (1, 0, 120), true),
    (b"\x12\x00", (0, 0, 120), false),
    (b"\x1a\x00", (1, 0, 0), true),
    (b"\x1a\x00", (0, 0, 0), false),
    (b"\x1a\x02\x1a\x00", (2, 0, 0), true),
    (b"\x1a\x02\x1a\x00", (1, 0, 0), false),
    (b"\x12\x02\x12\x00", (2, 0, 240), true),
    (b"\x12\x02\x12\x00", (2, 0, 239), false),
    (b"\x12\x02\x20\x01\x20\x01", (1, 2, 120), true),
    (b"\x12\x02\x20\x01\x20\x01", (1, 1, 120), false),
];

// The same of queues, which have no other field.
const QUEUES: [Row<'static>; 8] = [
    (b"", (0, 0, 0), true),
    (b"\x0a\x00\x0a\x02\x0a\x00\x0a\x00", (2, 0, 0), true),
    (b"\x0a\x02\x0a\x00", (1, 0, 0), false),
    (
        b"\x10\x01\x0a\x02\x10\x02\x0a\x03\x12\x01x",
        (1, 3, 0),
        true,
    ),
    (
        b"\x10\x01\x0a\x02\x10\x02\x0a\x03\x12\x01x",
        (1, 2, 0),
        false,
    ),
    (b"\x08\x01", (100, 100, 0), false),
    (b"\x0a\x02\x08\x01", (100, 100, 0), false),
    (b"\x0a\x01", (100, 100, 0), false),
];

// The same of bands and who plays in them, which hold one another.
const BANDS: [Row<'static>; 14] = [
    (
        b"\x0a\x01a\x12\x03\x0a\x01b\x12\x00\x1a\x05\x1a\x03\x0a\x01c",
        (100, 100, 1000),
        true,
    ),
    // Who sings, in several records.
    (
        b"\x1a\x03\x0a\x01a\x1a\x09\x11\x01\0\0\0\0\0\0\0\x1a\x04\x1a\x02\x1a\x00",
        (100, 100, 1000),
        true,
    ),
    (
        b"\x20\x01\x12\x02\x20\x02\x1a\x05\x22\x00\x1a\x01\x25",
        (100, 100, 1000),
        false,
    ),
    (
        b"\x20\x01\x12\x02\x20\x02\x1a\x06\x22\x00\x1a\x02\x20\x03",
        (100, 100, 1000),
        true,
    ),
    (b"\x12\x03\x0a\x01\xff", (100, 100, 1000), false),
    (b"\x1a\x02\x10\x01", (100, 100, 1000), false),
    (b"\x1a\x02\x18\x01", (100, 100, 1000), false),
    (b"\x12\x02\x1a\x01", (100, 100, 1000), false),
    (b"\x1a\x02\x1a\x00", (2, 0, PLACE_OF_BAND), true),
    (b"\x1a\x02\x1a\x00", (1, 0, PLACE_OF_BAND), false),
    (b"\x1a\x02\x1a\x00", (2, 0, PLACE_OF_BAND - 1), false),
    (b"\x12\x00", (1, 0, PLACE_OF_PLAYER), true),
    (b"\x12\x00", (1, 0, PLACE_OF_PLAYER - 1), false),
    (b"\x12\x02\x20\x01", (1, 0, PLACE_OF_PLAYER), false),
];

// What one in a list is charged.
const PLACE_OF_BAND: usize = 80;

const PLACE_OF_PLAYER: usize = 88;

// The same of stocks, which hold genres.
const STOCKS: [Row<'static>; 4] = [
    (
        b"\x0a\x00\x0a\x07\x12\x03\x0a\x01a\x1a\x00\x12\x03\x0a\x01b",
        (100, 100, 1000),
        true,
    ),
    (b"\x0a\x03\x0a\x01\xff", (100, 100, 1000), false),
    (b"\x0a\x02\x1a\x00", (2, 0, 120), true),
    (b"\x0a\x02\x1a\x00", (1, 0, 120), false),
];

#[test]
fn genres_and_their_views_are_alike(rt: HostRuntime) {
    for (place, row) in GENRES.iter().enumerate() {
        let found = found_by::<GenreView<'_>, Genre>(rt.alloc(), row);
        assert_eq!(rt; found, Found::Own, "{place}");
    }
}

#[test]
fn queues_and_their_views_are_alike(rt: HostRuntime) {
    for (place, row) in QUEUES.iter().enumerate() {
        let found = found_by::<QueueView<'_>, Queue>(rt.alloc(), row);
        assert_eq!(rt; found, Found::Own, "{place}");
    }
}

#[test]
fn bands_and_their_views_are_alike(rt: HostRuntime) {
    for (place, row) in BANDS.iter().enumerate() {
        let found = found_by::<BandView<'_>, Band>(rt.alloc(), row);
        assert_eq!(rt; found, Found::Own, "{place}");
    }
}

#[test]
fn stocks_and_their_views_are_alike(rt: HostRuntime) {
    for (place, row) in STOCKS.iter().enumerate() {
        let found = found_by::<StockView<'_>, Stock>(rt.alloc(), row);
        assert_eq!(rt; found, Found::Own, "{place}");
    }
}
