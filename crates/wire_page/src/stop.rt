//! Why a call came to its end.
ghost use Rattle.std.specs.Prelude.{◌≡◌};
ghost use Rattle.wire_page.specs.Told.{stopped};

use wire_read::numbers::FaultNumbers;

/// There is more, and the room is full.
pub(crate) const MORE: u32 = 0;
/// The call did all of what it is for.
pub(crate) const DONE: u32 = 1;

/// A stop without a fault: but for the status all is 0.
pub(crate) fn stopped(status: u32) -> FaultNumbers
    ensures { result ≡ stopped status }
{
    FaultNumbers {
        status,
        detail: 0,
        part: 0,
        record_place: 0,
        part_place: 0,
    }
}
