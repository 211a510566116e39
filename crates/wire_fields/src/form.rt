//! How a number stands on the wire.

/// A varint, or eight or four bytes, the lowest first.
#[derive(Clone, Copy, Debug)]
pub enum Form {
    Varint,
    Fixed64,
    Fixed32,
}
