//! What is read of objects with one field, as each type of scalar in implicit presence, and written
//! again. A test that is refused a request for memory fails with `OutOfMemory` as what
//! was found, or not at all.
use crate::answers::Answer::{Is, Unfit};
use crate::answers::{Found, Row, found_held};
use std::alloc::Global;
use wire_jsonfields::{Implicit, JsonScalar, Optional};

const HELD_BOOL: [Row; 6] = [
    (b"{}", Is(b"{}")),
    (b"{\"held\":false}", Is(b"{}")),
    (b"{\"held\":true}", Is(b"{\"held\":true}")),
    (b"{\"held\":null}", Is(b"{}")),
    (b"{\"held\":\"yes\"}", Unfit(8)),
    (b"{\"held\":[]}", Unfit(8)),
];

const HELD_INT32: [Row; 4] = [
    (b"{\"held\":0}", Is(b"{}")),
    (b"{\"held\":-2147483648}", Is(b"{\"held\":-2147483648}")),
    (b"{\"held\":\"7\"}", Is(b"{\"held\":7}")),
    (b"{\"held\":2147483648}", Unfit(8)),
];

const HELD_INT64: [Row; 3] = [
    (b"{\"held\":\"0\"}", Is(b"{}")),
    (
        b"{\"held\":-9223372036854775808}",
        Is(b"{\"held\":\"-9223372036854775808\"}"),
    ),
    (b"{\"held\":9223372036854775808}", Unfit(8)),
];

const HELD_UINT32: [Row; 3] = [
    (b"{\"held\":0}", Is(b"{}")),
    (b"{\"held\":4294967295}", Is(b"{\"held\":4294967295}")),
    (b"{\"held\":4294967296}", Unfit(8)),
];

const HELD_UINT64: [Row; 6] = [
    (b"{}", Is(b"{}")),
    (b"{\"held\":0}", Is(b"{}")),
    (
        b"{\"held\":18446744073709551615}",
        Is(b"{\"held\":\"18446744073709551615\"}"),
    ),
    (b"{\"held\":\"7\"}", Is(b"{\"held\":\"7\"}")),
    (b"{\"held\":-1}", Unfit(8)),
    (b"{\"held\":18446744073709551616}", Unfit(8)),
];

const HELD_FLOAT: [Row; 8] = [
    (b"{}", Is(b"{}")),
    (b"{\"held\":0.0}", Is(b"{}")),
    (b"{\"held\":-0.0}", Is(b"{\"held\":-0.0}")),
    (b"{\"held\":1.5}", Is(b"{\"held\":1.5}")),
    (b"{\"held\":\"NaN\"}", Is(b"{\"held\":\"NaN\"}")),
    (b"{\"held\":\"-Infinity\"}", Is(b"{\"held\":\"-Infinity\"}")),
    (b"{\"held\":3.5e38}", Unfit(8)),
    (b"{\"held\":true}", Unfit(8)),
];

const HELD_DOUBLE: [Row; 3] = [
    (b"{\"held\":0}", Is(b"{}")),
    (b"{\"held\":2.5}", Is(b"{\"held\":2.5}")),
    (b"{\"held\":\"x\"}", Unfit(8)),
];

const HELD_TEXT: [Row; 3] = [
    (b"{\"held\":\"\"}", Is(b"{}")),
    (b"{\"held\":\"a\"}", Is(b"{\"held\":\"a\"}")),
    (b"{\"held\":1}", Unfit(8)),
];

const HELD_BYTES: [Row; 3] = [
    (b"{\"held\":\"\"}", Is(b"{}")),
    (b"{\"held\":\"AQI\"}", Is(b"{\"held\":\"AQI=\"}")),
    (b"{\"held\":[1]}", Unfit(8)),
];

// In explicit presence the default is written, too.
const PRESENT: [Row; 3] = [
    (b"{}", Is(b"{}")),
    (b"{\"held\":null}", Is(b"{}")),
    (b"{\"held\":0}", Is(b"{\"held\":0}")),
];

// The row that does not find its own answer, and what it finds.
fn astray<S: JsonScalar>(alloc: Global, rows: &[Row]) -> Option<(usize, Found)> {
    for (place, row) in rows.iter().enumerate() {
        let found = found_held::<Implicit<S>>(alloc, row);
        if found != Found::Own {
            return Some((place, found));
        }
    }
    None
}

#[test]
fn numbers_are_held(rt: HostRuntime) {
    let alloc = rt.alloc();
    assert_eq!(rt; astray::<i32>(alloc, &HELD_INT32), None);
    assert_eq!(rt; astray::<i64>(alloc, &HELD_INT64), None);
    assert_eq!(rt; astray::<u32>(alloc, &HELD_UINT32), None);
    assert_eq!(rt; astray::<u64>(alloc, &HELD_UINT64), None);
    assert_eq!(rt; astray::<f32>(alloc, &HELD_FLOAT), None);
    assert_eq!(rt; astray::<f64>(alloc, &HELD_DOUBLE), None);
}

#[test]
fn other_scalars_are_held(rt: HostRuntime) {
    let alloc = rt.alloc();
    assert_eq!(rt; astray::<bool>(alloc, &HELD_BOOL), None);
    assert_eq!(rt; astray::<String>(alloc, &HELD_TEXT), None);
    assert_eq!(rt; astray::<Vec<u8>>(alloc, &HELD_BYTES), None);
    for (place, row) in PRESENT.iter().enumerate() {
        assert_eq!(rt;
            found_held::<Optional<u32>>(alloc, row),
            Found::Own,
            "{place}"
        );
    }
}
