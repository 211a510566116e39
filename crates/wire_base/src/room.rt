//! Room of the caller's.
ghost use Rattle.std.specs.Prelude.{◌≤◌, length};

mod sink;

/// A slice of the caller's as a sink: the bytes before the place are those that were put. What does
/// not fit is `LengthOverflow`, and leaves the slice and the place as they were: a varint, two, a
/// tag with its bytes and a payload too, so that a record is put whole or not at all. No memory is
/// asked for. Behind the place the slice stays as it was lent.
#[derive(Drop)]
pub struct Room<'a> {
    pub room: &'a mut [u8],
    pub place: usize,
    pub ghost within: { place ≤ length room.now },
}
