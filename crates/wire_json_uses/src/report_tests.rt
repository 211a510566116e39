//! What is read of texts as a sample of a report, and written again. A test that is refused a
//! request for memory fails with `OutOfMemory` as what was found, or not at all.
use crate::answers::Answer::{Bad, Deep, Is, Twice, Unfit, Unknown};
use crate::answers::{Found, Row, found_whole};
use std::alloc::Global;
use wire_report_json::ReportSampleJson;

const ROWS: [Row; 16] = [
    (b"{}", Is(b"{}")),
    (
        b"{\"name\":\"a\",\"value\":1.5,\"count\":\"7\"}",
        Is(b"{\"name\":\"a\",\"value\":1.5,\"count\":\"7\"}"),
    ),
    (b"{\"value\":0}", Is(b"{}")),
    (b"{\"value\":-0.0}", Is(b"{\"value\":-0.0}")),
    (b"{\"value\":\"NaN\"}", Is(b"{\"value\":\"NaN\"}")),
    (
        b"{\"value\":\"-Infinity\"}",
        Is(b"{\"value\":\"-Infinity\"}"),
    ),
    (b"{\"value\":\"2.5\"}", Is(b"{\"value\":2.5}")),
    (b"{\"value\":1e400}", Unfit(9)),
    (b"{\"count\":0}", Is(b"{\"count\":\"0\"}")),
    (b"{\"count\":1.0}", Is(b"{\"count\":\"1\"}")),
    (b"{\"count\":9223372036854775808}", Unfit(9)),
    (b"{\"value\":1,\"value\":2}", Twice(19)),
    (b"{\"values\":1}", Unknown(10)),
    (b"{\"name\":[1]}", Deep(8)),
    (b"[]", Unfit(0)),
    (b"{\"name\":\"a\"", Bad(11)),
];

// The row that does not find its own answer, and what it finds.
fn astray(alloc: Global) -> Option<(usize, Found)> {
    for (place, row) in ROWS.iter().enumerate() {
        let found = found_whole::<ReportSampleJson>(alloc, row, 1);
        if found != Found::Own {
            return Some((place, found));
        }
    }
    None
}

#[test]
fn samples_are_read_and_written(rt: HostRuntime) {
    assert_eq!(rt; astray(rt.alloc()), None);
}
