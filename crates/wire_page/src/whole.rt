//! Calls on all of some bytes.
ghost use Rattle.wire_read.specs.Budget.{read_limits};
ghost use Rattle.wire_read.specs.Numbers.{context_of};
ghost use Rattle.wire_page.specs.Whole.{TellsCheck, TellsShortest, HasPrefix};

use crate::stop::{DONE, MORE, stopped};
use wire_read::numbers::{FaultNumbers, LimitNumbers, context_of, status_of, tell_fault};
use wire_write::ShortestError;

/// Whether all of the bytes are records within the limits: `stop` is `DONE`, or the fault.
#[unsafe(no_mangle)]
pub extern "C" fn page_validate(bytes: &[u8], limits: &LimitNumbers, stop: &mut FaultNumbers)
    ensures { TellsCheck (read_limits (context_of limits.now)) bytes.now stop.new }
{
    *stop = match wire_read::validate(bytes, &context_of(limits)) {
        Ok(()) => stopped(DONE),
        Err(fault) => tell_fault(&fault),
    };
}

/// Writes the shortest encoding of the same records at the front of the room, and answers its
/// length. `stop` is `DONE`; `MORE` where the room is shorter, and nothing is written; or the
/// fault, with 0 for the length.
#[unsafe(no_mangle)]
pub extern "C" fn page_shortest(
    bytes: &[u8],
    limits: &LimitNumbers,
    room: &mut [u8],
    stop: &mut FaultNumbers,
) -> usize
    ensures { TellsShortest (read_limits (context_of limits.now)) bytes.now room.old room.new
        result stop.new }
{
    match wire_write::write_shortest(bytes, &context_of(limits), room) {
        Ok(len) => {
            *stop = stopped(DONE);
            len
        }
        Err(ShortestError::NoRoom(len)) => {
            *stop = stopped(MORE);
            len
        }
        Err(ShortestError::Fault(fault)) => {
            *stop = tell_fault(&fault);
            0
        }
    }
}

/// The varint at the front of the bytes, as a log has it before each message, and how many bytes it
/// takes. `stop` is `DONE`; or the error, and the answer is 0.
#[unsafe(no_mangle)]
pub extern "C" fn page_prefix(bytes: &[u8], length: &mut u64, stop: &mut FaultNumbers) -> usize
    ensures { HasPrefix bytes.now length.old length.new result stop.new }
{
    let mut rest = bytes;
    match wire_codec::decode_varint(&mut rest) {
        Ok(number) => {
            *length = number;
            *stop = stopped(DONE);
            bytes.len() - rest.len()
        }
        Err(error) => {
            *stop = stopped(status_of(&error));
            0
        }
    }
}
