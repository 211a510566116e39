//! Calls on all of some bytes.
ghost use Rattle.std.specs.Prelude.{◌≡◌, ◌<◌, ◌≤◌, ◌⊎◌};
ghost use Rattle.wire_read.specs.Budget.{read_limits};
ghost use Rattle.wire_read.specs.Numbers.{context_of};
ghost use Rattle.wire_c.specs.Whole.{Finds, TellsSize, Shortens, Validates, WithLevels, told_range};

use crate::status::{DEPTH_TOO_LARGE, NO_ROOM, NOT_FOUND, OK};
use wire_read::numbers::{FaultNumbers, LimitNumbers, context_of, status_of, tell_fault};
use wire_read::{MAX_OPEN_GROUPS, Place};
use wire_write::ShortestError;

/// Whether all of the bytes are records within the limits: `OK`, or the status of the fault.
#[unsafe(no_mangle)]
pub extern "C" fn gtv_validate(bytes: &[u8], limits: &LimitNumbers, fault: &mut FaultNumbers) -> u32
    ensures { WithLevels limits.now
        (Validates (read_limits (context_of limits.now)) bytes.now fault.old fault.new result)
        result (fault.new ≡ fault.old) }
{
    if limits.depth > MAX_OPEN_GROUPS {
        return DEPTH_TOO_LARGE;
    }
    match wire_read::validate(bytes, &context_of(limits)) {
        Ok(()) => OK,
        Err(stop) => {
            *fault = tell_fault(&stop);
            fault.status
        }
    }
}

/// Where a record stands.
#[repr(C)]
#[derive(Debug, Drop)]
pub struct RangeInC {
    pub wire_type: u32,
    pub start: usize,
    /// Where what stands behind the tag begins.
    pub behind_tag: usize,
    pub end: usize,
}

/// The last record of a number, those in groups left out: `OK`, `NOT_FOUND`, or the status of the
/// fault.
#[unsafe(no_mangle)]
pub extern "C" fn gtv_find(bytes: &[u8], number: u32, depth: u32, range: &mut RangeInC) -> u32
    ensures { ((depth ≤ 100) × Finds number depth bytes.now range.old range.new result)
        ⊎ ((100 < depth) × (result ≡ 33) × (range.new ≡ range.old)) }
{
    if depth > MAX_OPEN_GROUPS {
        return DEPTH_TOO_LARGE;
    }
    match wire_read::find_last(bytes, number, depth) {
        Ok(Some(place)) => {
            *range = tell_range(place);
            OK
        }
        Ok(None) => NOT_FOUND,
        Err(error) => status_of(&error),
    }
}

fn tell_range(place: Place) -> RangeInC
    ensures { result ≡ told_range place }
{
    RangeInC {
        wire_type: place.wire_type as u32,
        start: place.start,
        behind_tag: place.payload,
        end: place.end,
    }
}

/// How many bytes the shortest encoding of the same records has.
#[unsafe(no_mangle)]
pub extern "C" fn gtv_shortest_len(
    bytes: &[u8],
    limits: &LimitNumbers,
    len: &mut usize,
    fault: &mut FaultNumbers,
) -> u32
    ensures { WithLevels limits.now
        (TellsSize (read_limits (context_of limits.now)) bytes.now len.old len.new
        fault.old fault.new result)
        result ((len.new ≡ len.old) × (fault.new ≡ fault.old)) }
{
    if limits.depth > MAX_OPEN_GROUPS {
        return DEPTH_TOO_LARGE;
    }
    match wire_write::shortest_len(bytes, &context_of(limits)) {
        Ok(shortest) => {
            *len = shortest;
            OK
        }
        Err(stop) => {
            *fault = tell_fault(&stop);
            fault.status
        }
    }
}

/// Writes the shortest encoding of the same records at the front of the room. `len` is its length,
/// also where there is no room for it.
#[unsafe(no_mangle)]
pub extern "C" fn gtv_shortest(
    bytes: &[u8],
    limits: &LimitNumbers,
    room: &mut [u8],
    len: &mut usize,
    fault: &mut FaultNumbers,
) -> u32
    ensures { WithLevels limits.now
        (Shortens (read_limits (context_of limits.now)) bytes.now room.old room.new len.old len.new
        fault.old fault.new result)
        result ((room.new ≡ room.old) × (len.new ≡ len.old) × (fault.new ≡ fault.old)) }
{
    if limits.depth > MAX_OPEN_GROUPS {
        return DEPTH_TOO_LARGE;
    }
    match wire_write::write_shortest(bytes, &context_of(limits), room) {
        Ok(written) => {
            *len = written;
            OK
        }
        Err(ShortestError::NoRoom(wanted)) => {
            *len = wanted;
            NO_ROOM
        }
        Err(ShortestError::Fault(stop)) => {
            *fault = tell_fault(&stop);
            fault.status
        }
    }
}
