//! Events in batches.
ghost use Rattle.wire_read.specs.Budget.{read_limits};
ghost use Rattle.wire_read.specs.Numbers.{context_of};
ghost use Rattle.wire_read.specs.Reading.{Begins, at};
ghost use Rattle.wire_page.specs.Batch.{Batch};

use crate::record::{Record, tell_event};
use crate::stop::{DONE, MORE, stopped};
use wire_read::Reader;
use wire_read::numbers::{FaultNumbers, LimitNumbers, context_of, tell_fault};

/// Sets a reader before the first byte, under these limits. More than 100 levels count as 100.
#[unsafe(no_mangle)]
pub extern "C" fn page_begin(reader: &mut Reader, limits: &LimitNumbers)
    ensures { Begins (read_limits (context_of limits.now)) reader.new }
{
    *reader = Reader::within(&context_of(limits));
}

/// Puts the next events in these bytes into the room, as many as it has places for, and answers how
/// many there are. `stop` is `MORE` where the room is full, `DONE` where all is read, or the fault.
/// The bytes are those of each call before.
#[unsafe(no_mangle)]
pub extern "C" fn page_events(
    reader: &mut Reader,
    bytes: &[u8],
    room: &mut [Record],
    stop: &mut FaultNumbers,
) -> usize
    ensures { Batch bytes.now (at reader.old bytes.now) (at reader.new bytes.now)
        room.old room.new result stop.new }
{
    let mut count = 0;
    while count < room.len() {
        match reader.next(bytes) {
            Ok(Some(event)) => {
                room[count] = tell_event(&event);
                count += 1;
            }
            Ok(None) => {
                *stop = stopped(DONE);
                return count;
            }
            Err(fault) => {
                *stop = tell_fault(&fault);
                return count;
            }
        }
    }
    *stop = stopped(MORE);
    count
}
