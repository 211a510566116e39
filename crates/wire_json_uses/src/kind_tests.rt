//! What is read of texts as lists, maps, enums and messages within others, and written again. A
//! test that is refused a request for memory fails with `OutOfMemory` as what was found, or not at
//! all.
use crate::answers::Answer::{Bad, Deep, Is, NoKey, Twice, Unfit, Unknown};
use crate::answers::{Found, Row, found_in};
use std::alloc::Global;
use wire_jsonfields::grade::Grade;
use wire_jsonfields::sample::Sample;
use wire_jsonfields::{Embedded, EnumOf, Implicit, JsonValue, Map, Optional, Repeated};

const LISTS: [Row; 12] = [
    (b"[]", Is(b"[]")),
    (b"[1]", Is(b"[\"1\"]")),
    (b"[ 1 , \"2\" , 3.0 ]", Is(b"[\"1\",\"2\",\"3\"]")),
    (b"[1,1]", Is(b"[\"1\",\"1\"]")),
    (b"1", Unfit(0)),
    (b"{}", Unfit(0)),
    (b"null", Unfit(0)),
    (b"[null]", Unfit(1)),
    (b"[1,1.5]", Unfit(3)),
    (b"[[1]]", Unfit(1)),
    (b"[1,]", Bad(3)),
    (b"[1 2]", Bad(3)),
];

const MESSAGES: [Row; 5] = [
    (b"{\"name\":\"a\"}", Is(b"{\"name\":\"a\"}")),
    (b"{}", Is(b"{}")),
    (b"[]", Unfit(0)),
    (b"{\"name\":[]}", Unfit(8)),
    (b"{\"value\":[[[]]]}", Deep(10)),
];

const MESSAGE_LISTS: [Row; 6] = [
    (b"[{},{\"name\":\"a\"}]", Is(b"[{},{\"name\":\"a\"}]")),
    (b"[ ]", Is(b"[]")),
    (b"[{},null]", Unfit(4)),
    (b"[{\"name\":1}]", Unfit(9)),
    (b"[{\"other\":1}]", Unknown(10)),
    (b"[{},[]]", Unfit(4)),
];

const GRADES: [Row; 6] = [
    (b"\"HIGH\"", Is(b"\"HIGH\"")),
    (b"1", Is(b"\"HIGH\"")),
    (b"7", Is(b"7")),
    (b"\"high\"", Unfit(0)),
    (b"2147483648", Unfit(0)),
    (b"null", Unfit(0)),
];

const TEXT_KEYS: [Row; 9] = [
    (b"{}", Is(b"{}")),
    (b"{\"b\":1,\"a\":2}", Is(b"{\"a\":\"2\",\"b\":\"1\"}")),
    (b"{\"\":1}", Is(b"{\"\":\"1\"}")),
    (b"{\"a\":1,\"\\u0061\":2}", Twice(16)),
    (b"{\"a\":null}", Unfit(5)),
    (b"{\"a\":\"x\"}", Unfit(5)),
    (b"[]", Unfit(0)),
    (b"{\"a\":1,}", Bad(7)),
    (b"{\"a\":[[[]]]}", Deep(6)),
];

const SIGNED_KEYS: [Row; 12] = [
    (
        b"{\"10\":1,\"-9\":2,\"9\":3}",
        Is(b"{\"-9\":2,\"9\":3,\"10\":1}"),
    ),
    (b"{\"-2147483648\":0}", Is(b"{\"-2147483648\":0}")),
    (b"{\"01\":1}", Is(b"{\"1\":1}")),
    (b"{\"+1\":1}", Is(b"{\"1\":1}")),
    (b"{\"-0\":1}", Is(b"{\"0\":1}")),
    (b"{\"1\":1,\"01\":2}", Twice(12)),
    (b"{\"2147483648\":1}", NoKey(14)),
    (b"{\"1.0\":1}", NoKey(7)),
    (b"{\"1e1\":1}", NoKey(7)),
    (b"{\" 1\":1}", NoKey(6)),
    (b"{\"\":1}", NoKey(4)),
    (b"{\"-\":1}", NoKey(5)),
];

const UNSIGNED_KEYS: [Row; 4] = [
    (
        b"{\"18446744073709551615\":1,\"2\":3}",
        Is(b"{\"2\":3,\"18446744073709551615\":1}"),
    ),
    (b"{\"18446744073709551616\":1}", NoKey(24)),
    (b"{\"-0\":1}", NoKey(6)),
    (b"{\"a\":1}", NoKey(5)),
];

const BOOL_KEYS: [Row; 4] = [
    (
        b"{\"true\":\"LOW\",\"false\":7}",
        Is(b"{\"false\":7,\"true\":\"LOW\"}"),
    ),
    (b"{\"True\":0}", NoKey(8)),
    (b"{\"1\":0}", NoKey(5)),
    (b"{\"true\":\"TOP\"}", Unfit(8)),
];

const MESSAGE_VALUES: [Row; 4] = [
    (
        b"{\"9\":{\"name\":\"a\"},\"-9\":{}}",
        Is(b"{\"-9\":{},\"9\":{\"name\":\"a\"}}"),
    ),
    (b"{\"1\":{\"name\":1}}", Unfit(13)),
    (b"{\"1\":null}", Unfit(5)),
    (b"{\"1\":[]}", Unfit(5)),
];

const BYTES_BY_WORD: [Row; 2] = [
    (
        b"{\"4294967295\":\"-_8\"}",
        Is(b"{\"4294967295\":\"+/8=\"}"),
    ),
    (b"{\"4294967296\":\"\"}", NoKey(14)),
];

// Where no array and no object may stand, at one level, and at two.
const NO_LEVEL: [Row; 3] = [(b"[]", Deep(0)), (b"[1]", Deep(0)), (b"1", Unfit(0))];

const NO_OBJECT: [Row; 2] = [(b"{}", Deep(0)), (b"[]", Unfit(0))];

const FLAT: [Row; 2] = [(b"1", Is(b"\"1\"")), (b"[]", Unfit(0))];

const ONE_LEVEL: [Row; 3] = [(b"[]", Is(b"[]")), (b"[{}]", Deep(1)), (b"[1]", Unfit(1))];

const ONE_OBJECT: [Row; 2] = [(b"{}", Is(b"{}")), (b"{\"1\":{}}", Deep(5))];

const TWO_LEVELS: [Row; 2] = [(b"[{}]", Is(b"[{}]")), (b"[{\"value\":[]}]", Deep(10))];

// The row that does not find its own answer, and what it finds.
fn astray<V: JsonValue>(alloc: Global, rows: &[Row], levels: u32) -> Option<(usize, Found)> {
    for (place, row) in rows.iter().enumerate() {
        let found = found_in::<V>(alloc, row, levels);
        if found != Found::Own {
            return Some((place, found));
        }
    }
    None
}

#[test]
fn lists_are_read_and_written(rt: HostRuntime) {
    let alloc = rt.alloc();
    assert_eq!(rt; astray::<Repeated<Implicit<i64>>>(alloc, &LISTS, 2), None);
    assert_eq!(rt; astray::<Repeated<Sample>>(alloc, &MESSAGE_LISTS, 2), None);
}

#[test]
fn messages_and_enums_within_are_read_and_written(rt: HostRuntime) {
    let alloc = rt.alloc();
    assert_eq!(rt; astray::<Embedded<Sample>>(alloc, &MESSAGES, 2), None);
    assert_eq!(rt; astray::<Implicit<EnumOf<Grade>>>(alloc, &GRADES, 1), None);
    assert_eq!(rt; astray::<Optional<EnumOf<Grade>>>(alloc, &GRADES, 1), None);
}

#[test]
fn arrays_and_objects_are_levels(rt: HostRuntime) {
    let alloc = rt.alloc();
    assert_eq!(rt; astray::<Implicit<i64>>(alloc, &FLAT, 0), None);
    assert_eq!(rt;
        astray::<Repeated<Implicit<i64>>>(alloc, &NO_LEVEL, 0),
        None
    );
    assert_eq!(rt; astray::<Embedded<Sample>>(alloc, &NO_OBJECT, 0), None);
    assert_eq!(rt; astray::<Map<u32, Sample>>(alloc, &NO_OBJECT, 0), None);
    assert_eq!(rt; astray::<Map<u32, Sample>>(alloc, &ONE_OBJECT, 1), None);
    assert_eq!(rt; astray::<Repeated<Sample>>(alloc, &ONE_LEVEL, 1), None);
    assert_eq!(rt; astray::<Repeated<Sample>>(alloc, &TWO_LEVELS, 2), None);
}

#[test]
fn maps_are_read_and_written(rt: HostRuntime) {
    let alloc = rt.alloc();
    assert_eq!(rt;
        astray::<Map<String, Implicit<i64>>>(alloc, &TEXT_KEYS, 2),
        None
    );
    assert_eq!(rt;
        astray::<Map<i32, Implicit<u32>>>(alloc, &SIGNED_KEYS, 2),
        None
    );
    assert_eq!(rt;
        astray::<Map<u64, Implicit<i32>>>(alloc, &UNSIGNED_KEYS, 2),
        None
    );
    assert_eq!(rt;
        astray::<Map<bool, Implicit<EnumOf<Grade>>>>(alloc, &BOOL_KEYS, 2),
        None
    );
    assert_eq!(rt; astray::<Map<i64, Sample>>(alloc, &MESSAGE_VALUES, 2), None);
    assert_eq!(rt;
        astray::<Map<u32, Implicit<Vec<u8>>>>(alloc, &BYTES_BY_WORD, 2),
        None
    );
}
