//! Messages behind their lengths, as views and as messages. A test that is refused a request for
//! memory finds `OutOfMemory`.
use crate::tests::{Found, compared};
use std::alloc::Global;
use wire_albums::{Album, AlbumView};
use wire_codec::Message;
use wire_views::MessageView;

// Bytes, and whether they begin with an album behind its length.
const LENGTHS: [(&[u8], bool); 13] = [
    (b"\x00", true),
    (b"\x02\x08\x05", true),
    (b"\x82\x80\x00\x08\x05", true),
    (b"\x02\x08\x05\x02\x08\x07", true),
    (b"\x06\x12\x01a\x32\x01b\xff", true),
    (b"\x00\x08", true),
    (b"", false),
    (b"\x80", false),
    (b"\x02\x08", false),
    (b"\x01\x08\x05", false),
    (b"\x03\x12\x01\xff", false),
    (b"\x80\x80\x80\x80\x08", false),
    (b"\xff\xff\xff\xff\xff\xff\xff\xff\xff\x01", false),
];

// What is found of an album behind its length: as the message, and followed by the same bytes.
fn found_behind_length(alloc: Global, bytes: &[u8], is_album: bool) -> Found {
    let mut rest = bytes;
    let view = AlbumView::decode_view_length_delimited_by_default(alloc, &mut rest);
    let mut left = bytes;
    let message = Album::decode_length_delimited(alloc, &mut left);
    match compared(alloc, &view, &message) {
        Found::Own if view.is_ok() != is_album => Found::Other,
        Found::Own if is_album && rest != left => Found::Other,
        found => found,
    }
}

#[test]
fn albums_behind_their_lengths_and_their_views_are_alike(rt: HostRuntime) {
    for (place, (bytes, is_album)) in LENGTHS.iter().enumerate() {
        let found = found_behind_length(rt.alloc(), bytes, *is_album);
        assert_eq!(rt; found, Found::Own, "{place}");
    }
}
