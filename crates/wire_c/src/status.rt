//! What a call answers, as a number. A fault has that of its error (`wire_read::numbers`).

/// The call did what it is for.
pub(crate) const OK: u32 = 0;
/// There is no more.
pub(crate) const END: u32 = 1;
/// The room is too small.
pub(crate) const NO_ROOM: u32 = 32;
/// More than 100 levels were asked for.
pub(crate) const DEPTH_TOO_LARGE: u32 = 33;
/// There is no such record.
pub(crate) const NOT_FOUND: u32 = 34;
