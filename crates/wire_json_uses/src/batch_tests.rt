//! What is read of texts as a `Batch`, and written again. A test that is refused a request for
//! memory fails with `OutOfMemory` as what was found, or not at all.
use crate::answers::Answer::{Bad, Deep, Is, Lone, Second, Twice, Unfit, Unknown};
use crate::answers::{Found, Row, found_in, found_whole};
use std::alloc::Global;
use wire_jsonfields::batch::Batch;

const ROWS: [Row; 33] = [
    (b"{}", Is(b"{}")),
    (b"{\"grade\":\"HIGH\"}", Is(b"{\"grade\":\"HIGH\"}")),
    (b"{\"grade\":0}", Is(b"{}")),
    (b"{\"grade\":-1}", Is(b"{\"grade\":-1}")),
    (b"{\"grade\":null}", Is(b"{}")),
    (b"{\"grade\":\"TOP\"}", Unfit(9)),
    (b"{\"grade\":true}", Unfit(9)),
    (
        b"{\"samples\":[{\"name\":\"a\"},{}]}",
        Is(b"{\"samples\":[{\"name\":\"a\"},{}]}"),
    ),
    (b"{\"samples\":[]}", Is(b"{}")),
    (b"{\"samples\":null}", Is(b"{}")),
    (b"{\"samples\":[null]}", Unfit(12)),
    (b"{\"samples\":[{},{\"value\":\"x\"}]}", Unfit(24)),
    (b"{\"samples\":{}}", Unfit(11)),
    (
        b"{\"totals\":{\"b\":1,\"a\":\"2\"}}",
        Is(b"{\"totals\":{\"a\":\"2\",\"b\":\"1\"}}"),
    ),
    (b"{\"totals\":{}}", Is(b"{}")),
    (b"{\"totals\":null}", Is(b"{}")),
    (b"{\"totals\":[]}", Unfit(10)),
    (b"{\"totals\":{\"a\":1,\"a\":1}}", Twice(21)),
    (b"{\"totals\":{\"a\":null}}", Unfit(15)),
    (b"{\"file\":\"a\"}", Is(b"{\"file\":\"a\"}")),
    (b"{\"file\":\"\"}", Is(b"{\"file\":\"\"}")),
    (b"{\"file\":null}", Is(b"{}")),
    (b"{\"templateSample\":{}}", Is(b"{\"templateSample\":{}}")),
    (
        b"{\"template_sample\":{\"name\":\"a\"}}",
        Is(b"{\"templateSample\":{\"name\":\"a\"}}"),
    ),
    (
        b"{\"file\":null,\"templateSample\":{}}",
        Is(b"{\"templateSample\":{}}"),
    ),
    (
        b"{\"file\":\"a\",\"templateSample\":null}",
        Is(b"{\"file\":\"a\"}"),
    ),
    (b"{\"file\":\"a\",\"templateSample\":{}}", Second(29)),
    (b"{\"templateSample\":{},\"file\":\"\"}", Second(28)),
    (b"{\"file\":null,\"file\":null}", Twice(20)),
    (b"{\"origin\":\"a\"}", Unknown(10)),
    (b"{\"templateSample\":{\"name\":1}}", Unfit(26)),
    (b"{\"samples\":[{}}", Bad(14)),
    (b"{\"totals\":{\"a\":[[[]]]}}", Deep(16)),
];

// Whole texts: of each way in which a batch is refused one.
const WHOLE: [Row; 13] = [
    (
        b" {\"grade\":\"HIGH\",\"samples\":[{\"name\":\"a\"}],\"totals\":{\"a\":1}} ",
        Is(b"{\"grade\":\"HIGH\",\"samples\":[{\"name\":\"a\"}],\"totals\":{\"a\":\"1\"}}"),
    ),
    (
        b"{\"templateSample\":{\"value\":1.5},\"samples\":[{},{}],\"grade\":7}",
        Is(b"{\"grade\":7,\"samples\":[{},{}],\"templateSample\":{\"value\":1.5}}"),
    ),
    (b"{}", Is(b"{}")),
    (b"{} x", Bad(3)),
    (b"", Bad(0)),
    (b"{\"file\":\"\\ud800\"}", Lone(9)),
    (b"{\"samples\":[{\"name\":[]}]}", Deep(20)),
    (b"[]", Unfit(0)),
    (b"{\"grade\":\"TOP\"}", Unfit(9)),
    (b"{\"grade\":0,\"grade\":0}", Twice(19)),
    (b"{\"totals\":{\"a\":1,\"\\u0061\":1}}", Twice(26)),
    (b"{\"samples\":[{\"other\":1}]}", Unknown(21)),
    (b"{\"file\":\"\",\"templateSample\":{}}", Second(28)),
];

const NO_LEVEL: [Row; 2] = [(b"{}", Deep(0)), (b" {\"grade\":0}", Deep(1))];

const TWO_LEVELS: [Row; 3] = [
    (b"{\"samples\":[]}", Is(b"{}")),
    (b"{\"samples\":[{}]}", Deep(12)),
    (b"{\"totals\":{\"a\":1}}", Is(b"{\"totals\":{\"a\":\"1\"}}")),
];

#[test]
fn batches_are_read_and_written(rt: HostRuntime) {
    for (place, row) in ROWS.iter().enumerate() {
        let found = found_in::<Batch>(rt.alloc(), row, 3);
        assert_eq!(rt; found, Found::Own, "{place}");
    }
}

// The row that does not find its own answer, and what it finds.
fn astray(alloc: Global, rows: &[Row], levels: u32) -> Option<(usize, Found)> {
    for (place, row) in rows.iter().enumerate() {
        let found = found_whole::<Batch>(alloc, row, levels);
        if found != Found::Own {
            return Some((place, found));
        }
    }
    None
}

#[test]
fn whole_batches_are_rewritten(rt: HostRuntime) {
    assert_eq!(rt; astray(rt.alloc(), &WHOLE, 3), None);
    assert_eq!(rt; astray(rt.alloc(), &TWO_LEVELS, 2), None);
    assert_eq!(rt; astray(rt.alloc(), &NO_LEVEL, 0), None);
}
