//! The same of types that hold themselves or one another.
use crate::tests::{Answer, Found, Row, decoded, found_in};
use Answer::{Complete, Fault, Missing};
use wire_orders::{Category, Offer};
use wire_required::Parse;

// Of a type that holds itself by a list and by an optional field.
const CATEGORIES: [Row; 12] = [
    (b"\x0a\x01a", Complete),
    (b"", Missing("name")),
    (b"\x1a\x00\x12\x00", Missing("name")),
    (b"\x0a\x01a\x12\x00", Missing("parts[0].name")),
    (b"\x0a\x01a\x1a\x00\x12\x00", Missing("parts[0].name")),
    (
        b"\x0a\x01a\x12\x03\x0a\x01b\x12\x08\x0a\x01c\x12\x03\x0a\x01d",
        Complete,
    ),
    (
        b"\x0a\x01a\x12\x03\x0a\x01b\x12\x07\x0a\x01c\x12\x02\x1a\x00",
        Missing("parts[1].parts[0].name"),
    ),
    (b"\x0a\x01a\x22\x00\x1a\x00", Missing("least.amount")),
    (b"\x0a\x01a\x22\x00\x1a\x02\x08\x02", Missing("like.name")),
    (
        b"\x0a\x01a\x22\x05\x0a\x01b\x22\x00",
        Missing("like.like.name"),
    ),
    (
        b"\x0a\x01a\x22\x05\x0a\x01b\x1a\x00",
        Missing("like.least.amount"),
    ),
    (b"\x0a\x02a", Fault),
];

// Of what holds such messages, and some of types that hold one another: by a field that is required,
// by a oneof, and by a map, whose entries are messages in the order in which they came.
const OFFERS: [Row; 14] = [
    (b"", Complete),
    (b"\x0a\x00", Missing("category.name")),
    (b"\x0a\x05\x0a\x01a\x22\x00", Missing("category.like.name")),
    (b"\x12\x00", Missing("rebates[0].when")),
    (b"\x12\x02\x0a\x00", Missing("rebates[0].percent")),
    (b"\x12\x04\x0a\x00\x10\x05", Complete),
    (
        b"\x12\x04\x0a\x00\x10\x05\x12\x02\x10\x05",
        Missing("rebates[1].when"),
    ),
    (
        b"\x12\x06\x0a\x02\x1a\x00\x10\x05",
        Missing("rebates[0].when.least.amount"),
    ),
    (
        b"\x12\x06\x0a\x02\x12\x00\x10\x05",
        Missing("rebates[0].when.also.when"),
    ),
    (b"\x12\x08\x0a\x04\x12\x00\x20\x07\x10\x05", Complete),
    (
        b"\x12\x0c\x0a\x08\x12\x06\x0a\x02\x12\x00\x10\x01\x10\x05",
        Missing("rebates[0].when.also.when.also.when"),
    ),
    (
        b"\x12\x0d\x0a\x00\x10\x05\x1a\x07\x0a\x01a\x12\x02\x1a\x00",
        Missing("rebates[0].unless[0].value.least.amount"),
    ),
    (
        b"\x12\x12\x0a\x00\x10\x05\x1a\x03\x0a\x01b\x1a\x07\x0a\x01a\x12\x02\x12\x00",
        Missing("rebates[0].unless[1].value.also.when"),
    ),
    (b"\x12\x01", Fault),
];

#[test]
fn categories_are_asked(rt: HostRuntime) {
    for (place, row) in CATEGORIES.iter().enumerate() {
        let answer = Category::parse_from_slice(rt.alloc(), row.0);
        assert_eq!(rt; found_in(rt.alloc(), &answer, row.1), Found::Own, "{place}");
        assert_eq!(rt; decoded::<Category>(rt.alloc(), row), Found::Own, "{place}");
    }
}

#[test]
fn offers_are_asked(rt: HostRuntime) {
    for (place, row) in OFFERS.iter().enumerate() {
        let answer = Offer::parse_from_slice(rt.alloc(), row.0);
        assert_eq!(rt; found_in(rt.alloc(), &answer, row.1), Found::Own, "{place}");
        assert_eq!(rt; decoded::<Offer>(rt.alloc(), row), Found::Own, "{place}");
    }
}
