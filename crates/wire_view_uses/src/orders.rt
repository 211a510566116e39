//! Entries of maps in order, beside the map that they are put into one behind another.
use crate::tests::Found;
use std::alloc::{AllocError, Global};
use std::collections::BTreeMap;
use wire_views::in_order;

// Entries as they came, and whether each key is above the one before it.
const ORDERS: [(&[(u32, u32)], bool); 9] = [
    (&[], true),
    (&[(1, 1)], true),
    (&[(1, 1), (2, 2), (3, 3)], true),
    (&[(3, 1), (2, 2), (1, 3)], false),
    (&[(1, 1), (1, 2), (1, 3)], false),
    (&[(1, 1), (2, 2), (2, 3)], false),
    (&[(2, 1), (2, 2), (1, 3)], false),
    (&[(2, 1), (1, 2), (2, 3), (1, 4), (3, 5)], false),
    (&[(0, 1), (u32::MAX, 2), (0, 3), (u32::MAX, 4)], false),
];

// For how many entries there is room in a list that is handed in.
const ROOM: usize = 64;

// The map, in order.
fn by_map(alloc: Global, entries: &[(u32, u32)]) -> Result<Vec<(u32, u32)>, AllocError> {
    let mut map = BTreeMap::new(alloc);
    for (key, value) in entries {
        match map.insert(*key, *value) {
            Ok(_) => {}
            Err(_) => return Err(AllocError),
        }
    }
    map.into_iter().collect(alloc)
}

// A list of the entries with room for more.
fn with_room(alloc: Global, entries: &[(u32, u32)]) -> Result<Vec<(u32, u32)>, AllocError> {
    let mut list = Vec::with_capacity(alloc, ROOM)?;
    for entry in entries {
        list.push(*entry)?;
    }
    Ok(list)
}

// What is found of entries: the map in order, in the list that was handed in where the keys rise.
fn found_of(alloc: Global, entries: &[(u32, u32)], rise: bool) -> Found {
    let (Ok(list), Ok(wanted)) = (with_room(alloc, entries), by_map(alloc, entries)) else {
        return Found::OutOfMemory;
    };
    match in_order(alloc, list) {
        Ok(sorted) if sorted == wanted && (sorted.capacity() >= ROOM) == rise => Found::Own,
        Ok(_) => Found::Other,
        Err(_) => Found::OutOfMemory,
    }
}

#[test]
fn entries_in_order_are_the_map(rt: HostRuntime) {
    for (place, (entries, rise)) in ORDERS.iter().enumerate() {
        assert_eq!(rt; found_of(rt.alloc(), entries, *rise), Found::Own, "{place}");
    }
}
