//! What is written of views, beside what is written of the messages of the same bytes. A test that
//! is refused a request for memory finds `OutOfMemory`.
use crate::closed::RACKS;
use crate::tests::{Found, PARCELS, ROWS, Row};
use std::alloc::Global;
use wire_albums::{Album, AlbumView, Parcel, ParcelView, Rack, RackView};
use wire_codec::{EncodeError, Message, Room};
use wire_views::WrittenView;

// What is found where this was answered, and that wanted.
fn answered<T: PartialEq + Drop>(
    answer: &Result<T, EncodeError>,
    wanted: &Result<T, EncodeError>,
) -> Found {
    match (answer, wanted) {
        (Err(EncodeError::OutOfMemory), _) | (_, Err(EncodeError::OutOfMemory)) => {
            Found::OutOfMemory
        }
        (answer, wanted) if answer == wanted => Found::Own,
        _ => Found::Other,
    }
}

// The worse of two.
fn worse(found: Found, other: Found) -> Found {
    match (found, other) {
        (Found::Own, other) => other,
        (Found::OutOfMemory, Found::Other) => Found::Other,
        (found, _) => found,
    }
}

// A view that is written within a budget: all of it, or nothing and the cause.
fn bounded<V: WrittenView>(alloc: Global, view: &V, whole: &[u8], less: u32) -> Found {
    let len = u32::try_from(whole.len()).unwrap_or(u32::MAX);
    let max_bytes = len.saturating_sub(less);
    let mut sink = Vec::new(alloc);
    let answer = view.try_encode_bounded(alloc, max_bytes, &mut sink);
    let wanted = if max_bytes == len {
        Ok(len)
    } else {
        Err(EncodeError::ExceedsBudget { len, max_bytes })
    };
    match answered(&answer, &wanted) {
        Found::Own if answer.is_ok() && sink.as_slice() != whole => Found::Other,
        Found::Own if answer.is_err() && !sink.is_empty() => Found::Other,
        found => found,
    }
}

// A view that is written into a slice: all of it, or a front of it where the slice is too short.
fn in_slice<V: WrittenView>(alloc: Global, view: &V, whole: &[u8], less: usize) -> Found {
    let Ok(mut slice) = whole.to_vec(alloc) else {
        return Found::OutOfMemory;
    };
    slice.truncate(whole.len().saturating_sub(less));
    let fits = slice.len() == whole.len();
    slice.fill(0);
    let mut room = Room {
        room: &mut slice,
        place: 0,
    };
    let answer = view.try_encode(alloc, &mut room);
    let place = room.place;
    let wanted = if fits {
        Ok(())
    } else {
        Err(EncodeError::LengthOverflow)
    };
    let (filled, rest) = slice.split_at(place.min(slice.len()));
    match answered(&answer, &wanted) {
        Found::Own if !whole.starts_with(filled) => Found::Other,
        Found::Own if rest.iter().any(|byte| *byte != 0) => Found::Other,
        found => found,
    }
}

// What is written of a view, by each call, where the bytes are one.
fn found_written<'a, V: WrittenView<Source = &'a [u8]>, M: Message>(
    alloc: Global,
    bytes: &'a [u8],
) -> Found {
    let (Ok(view), Ok(message)) = (
        V::decode_view_by_default(alloc, bytes),
        M::decode_from_slice(alloc, bytes),
    ) else {
        return Found::Own;
    };
    let whole = message.try_encode_to_vec(alloc);
    let mut found = answered(&view.try_encode_to_vec(alloc), &whole);
    found = worse(
        found,
        answered(
            &view.try_encoded_len(alloc),
            &message.try_encoded_len(alloc),
        ),
    );
    let Ok(whole) = whole else {
        return found;
    };
    for less in 0..2 {
        found = worse(found, bounded(alloc, &view, &whole, less));
        found = worse(found, in_slice(alloc, &view, &whole, less as usize));
    }
    let mut behind_length = Vec::new(alloc);
    let mut wanted = Vec::new(alloc);
    let answer = view.try_encode_length_delimited(alloc, &mut behind_length);
    let other = message.try_encode_length_delimited(alloc, &mut wanted);
    match answered(&answer, &other) {
        Found::Own if behind_length != wanted => Found::Other,
        last => worse(found, last),
    }
}

#[test]
fn albums_are_written_as_their_views(rt: HostRuntime) {
    for (place, row) in ROWS.iter().enumerate() {
        let found = found_written::<AlbumView<'_>, Album>(rt.alloc(), row.0);
        assert_eq!(rt; found, Found::Own, "{place}");
    }
}

#[test]
fn parcels_are_written_as_their_views(rt: HostRuntime) {
    for (place, row) in PARCELS.iter().enumerate() {
        let found = found_written::<ParcelView<'_>, Parcel>(rt.alloc(), row.0);
        assert_eq!(rt; found, Found::Own, "{place}");
    }
}

#[test]
fn racks_are_written_as_their_views(rt: HostRuntime) {
    for (place, row) in RACKS.iter().enumerate() {
        let found = found_written::<RackView<'_>, Rack>(rt.alloc(), row.0);
        assert_eq!(rt; found, Found::Own, "{place}");
    }
}
