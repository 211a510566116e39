//! The shortest text of all records of bytes.
ghost use Rattle.std.specs.Prelude.{◌≡◌, IfOk, Err};
ghost use Rattle.wire_read.specs.declared.event.Fault.{Fault};
ghost use Rattle.wire_read.specs.Budget.{read_limits};
ghost use Rattle.wire_read.specs.Faults.{IsFault};
ghost use Rattle.wire_read.specs.Reading.{groups_of};
ghost use Rattle.wire_dump.specs.Refused.{BreaksAt};
ghost use Rattle.wire_dump.specs.Shortened.{IsShortened};

use crate::stop::Stop;
use std::alloc::Global;
use wire_base::laws as grammar;
use wire_codec::DecodeContext;
use wire_read::{Reader, laws};
use wire_write::{ShortestError, shortest_len, write_shortest};

/// The shortest text of all records of these bytes: the same records, where no varint is padded.
pub(crate) fn shortest_text(
    alloc: Global,
    context: &DecodeContext,
    bytes: &[u8],
) -> Result<Vec<u8>, Stop>
    ensures ok { IfOk result (λ text. IsShortened (read_limits context.now) bytes.now text.items) }
    ensures fault { (f : Fault) → result ≡ Err (Stop.Fault f)
        → IsFault (read_limits context.now) bytes.now f }
{
    grammar::no_text_is_shorter();
    grammar::no_other_text_is_as_short();
    grammar::one_spelled();
    let len = shortest_len(bytes, context)?;
    let mut text = vec![in alloc; 0; len]?;
    match write_shortest(bytes, context, &mut text) {
        Ok(_) => Ok(text),
        Err(ShortestError::Fault(fault)) => Err(Stop::Fault(fault)),
        // The room is just as long as the text.
        Err(ShortestError::NoRoom(_)) => Err(Stop::OutOfMemory),
    }
}

/// A reader where these bytes do not go on as records, or at their end.
pub(crate) fn reader_at_stop(context: &DecodeContext, bytes: &[u8]) -> Reader
    ensures { (f : Fault) → IsFault (read_limits context.now) bytes.now f
        → BreaksAt (read_limits context.now) bytes.now f (groups_of result) }
{
    laws::reader_begins();
    laws::reader_goes_on();
    laws::reader_moves_on();
    laws::reader_is_done();
    laws::reader_stops();
    laws::one_fault();
    grammar::no_list_beside_fault();
    grammar::whole_input();
    let mut reader = Reader::within(context);
    while let Ok(Some(_event)) = reader.next(bytes) {}
    reader
}
