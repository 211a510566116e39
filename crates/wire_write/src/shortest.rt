//! The shortest encoding of the records that bytes spell.
ghost use Rattle.std.specs.Prelude.{◌≡◌, ◌≤◌, length, OnErr, IfOk, IfErr};
ghost use Rattle.wire_base.specs.Field.{Fields};
ghost use Rattle.wire_base.specs.Room.{in_room};
ghost use Rattle.wire_base.specs.Sink.{Writes};
ghost use Rattle.wire_base.specs.Text.{size, text_of};
ghost use Rattle.wire_base.specs.WriteLaws.{FillsSlice};
ghost use Rattle.wire_read.specs.Budget.{read_limits};
ghost use Rattle.wire_read.specs.Faults.{IsFault};
ghost use Rattle.wire_write.specs.Shortest.{SpellsIn, ShortestFault};

use crate::item::{item_len, put};
use wire_codec::{DecodeContext, EncodeError, Room, laws};
use wire_read::{Fault, Reader};

/// Why a shortest encoding is not written.
#[derive(Clone, Debug, PartialEq, Eq, Drop)]
pub enum ShortestError {
    /// The bytes are no records within the limits.
    Fault(Fault),
    /// The encoding takes so many bytes, and the room has fewer.
    NoRoom(usize),
}

impl From<Fault> for ShortestError {
    ghost use Rattle.wire_write.specs.declared.shortest.ShortestError.TheVariants as errors;

    ghost from_gives = { λ fault e. e ≡ errors.Fault fault };

    fn from(fault: Fault) -> ShortestError {
        ShortestError::Fault(fault)
    }
}

/// How many bytes the shortest encoding of these records has. The limits are those of
/// `Reader::within`.
pub fn shortest_len(bytes: &[u8], context: &DecodeContext) -> Result<usize, Fault>
    ensures ok { IfOk result (λ len. (fs : Fields) × SpellsIn (read_limits context.now) fs bytes.now
        × (len ≡ size fs)) }
    ensures fault { IfErr result (IsFault (read_limits context.now) bytes.now) }
{
    wire_read::laws::reader_begins();
    wire_read::laws::reader_goes_on();
    wire_read::laws::reader_is_done();
    wire_read::laws::reader_stops();
    wire_base::laws::no_text_is_shorter();
    let mut reader = Reader::within(context);
    let mut len: usize = 0;
    while let Some(event) = reader.next(bytes)? {
        len = item_len(event.number, event.value).saturating_add(len);
    }
    Ok(len)
}

/// Writes the shortest encoding of these records at the front of the room, and answers its length.
/// The limits are those of `Reader::within`.
pub fn write_shortest(
    bytes: &[u8],
    context: &DecodeContext,
    room: &mut [u8],
) -> Result<usize, ShortestError>
    ensures ok { IfOk result (λ len. (fs : Fields) × SpellsIn (read_limits context.now) fs bytes.now
        × FillsSlice (text_of fs) 0 room.old room.new len) }
    ensures err { IfErr result (ShortestFault (read_limits context.now) bytes.now room.old) }
    ensures unchanged { OnErr result (room.new ≡ room.old) }
{
    let len = shortest_len(bytes, context)?;
    if len > room.len() {
        return Err(ShortestError::NoRoom(len));
    }
    Ok(write_all(bytes, context, room))
}

// Writes the shortest encoding of records for which there is room, and answers its length.
fn write_all(bytes: &[u8], context: &DecodeContext, room: &mut [u8]) -> usize
    requires { (fs : Fields) × SpellsIn (read_limits context.now) fs bytes.now
        × (size fs ≤ length room.old) }
    ensures { (fs : Fields) × SpellsIn (read_limits context.now) fs bytes.now
        × FillsSlice (text_of fs) 0 room.old room.new result }
{
    wire_base::laws::one_spelled();
    wire_base::laws::what_fits_is_written();
    let mut sink = Room { room, place: 0 };
    // There is room, and no memory is asked for, so that no put is refused.
    let _ = put_all(bytes, context, &mut sink);
    sink.place
}

// Writes the shortest encoding of records.
fn put_all(bytes: &[u8], context: &DecodeContext, sink: &mut Room<'_>) -> Result<(), EncodeError>
    requires { (fs : Fields) × SpellsIn (read_limits context.now) fs bytes.now }
    ensures { (fs : Fields) × SpellsIn (read_limits context.now) fs bytes.now
        × Writes (text_of fs) (in_room sink.old) (in_room sink.new) result }
{
    wire_read::laws::reader_begins();
    wire_read::laws::reader_goes_on();
    wire_read::laws::reader_is_done();
    wire_read::laws::reader_stops();
    wire_read::laws::events_are_in_front();
    wire_read::laws::reader_moves_on();
    wire_base::laws::no_list_beside_fault();
    wire_base::laws::whole_input();
    laws::piece_by_piece();
    laws::two_parts();
    laws::put_is_a_write();
    let mut reader = Reader::within(context);
    while let Ok(Some(event)) = reader.next(bytes) {
        put(event.number, event.value, sink)?;
    }
    Ok(())
}
