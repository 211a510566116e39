//! What is read of packed numbers of four and eight bytes each, beside what a message holds of the
//! same bytes. A test that is refused a request for memory finds `OutOfMemory`.
use crate::tests::Found;
use std::alloc::Global;
use wire_albums::{Parcel, ParcelView};
use wire_codec::{DecodeContext, DecodeError, Message, Tag};
use wire_fields::{Float, FloatBits, Kind, Packed, Sfixed64};
use wire_views::{FixedIn, FixedList, MessageView, ViewKind};

// Parcels, and whether their weights stay where they stand.
const WEIGHTS: [(&[u8], bool); 14] = [
    (b"", true),
    (b"\x42\x00", true),
    (b"\x42\x04\0\0\x80\x3f", true),
    (b"\x42\x0c\0\0\x80\x3f\0\0\xc0\x7f\x01\x02\x03\x04", true),
    (b"\x42\x00\x42\x04\0\0\x80\x3f\x50\x02", true),
    (b"\x42\x04\0\0\x80\x3f\x42\x08\0\0\xc0\x7f\x01\0\0\0", false),
    (b"\x42\x04\0\0\x80\x3f\x42\x00", false),
    (b"\x45\0\0\x80\x3f", false),
    (b"\x45\0\0\x80\x3f\x45\0\0\xc0\x7f", false),
    (b"\x45\0\0\x80\x3f\x42\x04\0\0\xc0\x7f", false),
    (b"\x42\x04\0\0\xc0\x7f\x45\0\0\x80\x3f", false),
    (b"\x42\x05\0\0\x80\x3f\0", true),
    (b"\x42\x04\0\0\x80", true),
    (b"\x42\x04\0\0\x80\x3f\x42\x03\0\0\0", false),
];

// Whether a list has just these numbers, by each of its calls.
fn has_weights(weights: &FixedList<'_, Float>, wanted: &[FloatBits]) -> bool {
    let len = weights.len();
    for index in 0..len {
        if weights.get(index) != wanted.get(index).copied() {
            return false;
        }
    }
    let mut rest = wanted;
    for weight in weights.iter() {
        match rest.split_first() {
            Some((first, others)) if *first == weight => rest = others,
            _ => return false,
        }
    }
    rest.is_empty()
        && len == wanted.len()
        && weights.is_empty() == wanted.is_empty()
        && weights.get(len).is_none()
        && weights.get(usize::MAX).is_none()
}

// What is found of a list where it is to have these numbers, and to stay in place or not.
fn compared(
    alloc: Global,
    weights: &FixedList<'_, Float>,
    wanted: &Vec<FloatBits>,
    in_place: bool,
) -> Found {
    let stays = match weights {
        FixedList::InPlace(_) => true,
        FixedList::Listed(_) => false,
    };
    if stays != in_place || !has_weights(weights, wanted) {
        return Found::Other;
    }
    match &weights.to_vec(alloc) {
        Ok(copy) if copy == wanted => Found::Own,
        Ok(_) => Found::Other,
        Err(_) => Found::OutOfMemory,
    }
}

// What is found of the weights of a parcel.
fn weights_of(alloc: Global, bytes: &[u8], in_place: bool) -> Found {
    let view = ParcelView::decode_view_by_default(alloc, bytes);
    let message = Parcel::decode_from_slice(alloc, bytes);
    match (&view, &message) {
        (Err(DecodeError::OutOfMemory), _) | (_, Err(DecodeError::OutOfMemory)) => {
            Found::OutOfMemory
        }
        (Ok(view), Ok(message)) => compared(alloc, &view.weights, &message.weights, in_place),
        (Err(error), Err(other)) if error == other => Found::Own,
        _ => Found::Other,
    }
}

#[test]
fn weights_are_those_of_the_message(rt: HostRuntime) {
    for (place, (bytes, in_place)) in WEIGHTS.iter().enumerate() {
        let found = weights_of(rt.alloc(), bytes, *in_place);
        assert_eq!(rt; found, Found::Own, "{place}");
    }
}

// Records of `sfixed64`, one packed list of the number 1, and whether they stay where they stand.
const EIGHTS: [(&[u8], bool); 9] = [
    (b"", true),
    (b"\x0a\x08\x01\0\0\0\0\0\0\x80", true),
    (
        b"\x0a\x10\x01\0\0\0\0\0\0\0\xff\xff\xff\xff\xff\xff\xff\xff",
        true,
    ),
    (
        b"\x0a\x08\x01\0\0\0\0\0\0\0\x0a\x08\x02\0\0\0\0\0\0\0",
        false,
    ),
    (b"\x09\x01\0\0\0\0\0\0\0\x0a\x08\x02\0\0\0\0\0\0\0", false),
    (b"\x09\x01\0\0\0\0\0\0\0", false),
    (b"\x0a\x0c\x01\0\0\0\0\0\0\0\x02\0\0\0", true),
    (b"\x0a\x07\x01\0\0\0\0\0\0", true),
    (b"\x0d\x01\0\0\0", true),
];

// The numbers of records, as a kind of field of a view reads them.
fn in_view<'a>(alloc: Global, bytes: &'a [u8]) -> Result<FixedList<'a, Sfixed64>, DecodeError> {
    let mut context = DecodeContext::new(100, 100);
    let mut buf = bytes;
    let mut held = FixedIn::<'a, Sfixed64>::empty(alloc);
    for _ in 0..bytes.len() {
        if buf.is_empty() {
            break;
        }
        let tag = Tag::decode(&mut buf)?;
        FixedIn::<'a, Sfixed64>::merge(alloc, tag, &mut held, &mut buf, &mut context)?;
    }
    Ok(held)
}

// The same as a kind of field of a message does.
fn in_message(alloc: Global, bytes: &[u8]) -> Result<Vec<i64>, DecodeError> {
    let mut context = DecodeContext::new(100, 100);
    let mut buf = bytes;
    let mut held = Packed::<Sfixed64>::empty(alloc);
    for _ in 0..bytes.len() {
        if buf.is_empty() {
            break;
        }
        let tag = Tag::decode(&mut buf)?;
        Packed::<Sfixed64>::merge(alloc, tag, &mut held, &mut buf, &mut context)?;
    }
    Ok(held)
}

// What is found of a row.
fn eights_of(alloc: Global, bytes: &[u8], in_place: bool) -> Found {
    match (&in_view(alloc, bytes), &in_message(alloc, bytes)) {
        (Err(DecodeError::OutOfMemory), _) | (_, Err(DecodeError::OutOfMemory)) => {
            Found::OutOfMemory
        }
        (Ok(list), Ok(wanted)) => owned(alloc, list, wanted, in_place),
        (Err(error), Err(other)) if error == other => Found::Own,
        _ => Found::Other,
    }
}

// The same of a list where it is to have these numbers, and to stay in place or not.
fn owned(
    alloc: Global,
    list: &FixedList<'_, Sfixed64>,
    wanted: &Vec<i64>,
    in_place: bool,
) -> Found {
    let stays = match list {
        FixedList::InPlace(_) => true,
        FixedList::Listed(_) => false,
    };
    match &list.to_vec(alloc) {
        Ok(copy) if copy == wanted && stays == in_place => Found::Own,
        Ok(_) => Found::Other,
        Err(_) => Found::OutOfMemory,
    }
}

#[test]
fn numbers_of_eight_bytes_are_those_of_the_message(rt: HostRuntime) {
    for (place, (bytes, in_place)) in EIGHTS.iter().enumerate() {
        let found = eights_of(rt.alloc(), bytes, *in_place);
        assert_eq!(rt; found, Found::Own, "{place}");
    }
}
