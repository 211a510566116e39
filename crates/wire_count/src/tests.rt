//! What is answered of some bytes, memory being ample.
use crate::reports::{StoreError, stored};
use std::alloc::Global;
use wire_codec::DecodeError;

// Bytes, and why they are no report.
type Row = (&'static [u8], Option<DecodeError>);

const ROWS: [Row; 6] = [
    (b"", None),
    (b"\x0a\x01h", None),
    (b"\x8a\x00\x81\x00h", None),
    (b"\x0a", Some(DecodeError::UnexpectedEof)),
    (b"\x0a\x02h", Some(DecodeError::UnexpectedEof)),
    (b"\x0f", Some(DecodeError::InvalidWireType(7))),
];

// Whether the answer is the row's.
fn answers(alloc: Global, row: &Row) -> bool {
    let (bytes, refusal) = row;
    match stored(alloc, bytes) {
        Ok((report, again)) => refusal.is_none() && report == again,
        Err(StoreError::NotDecoded(why)) => *refusal == Some(why),
        Err(_) => false,
    }
}

#[test]
fn reports_are_stored_or_refused(rt: HostRuntime) {
    for (place, row) in ROWS.iter().enumerate() {
        assert!(rt; answers(rt.alloc(), row), "{place}");
    }
}
