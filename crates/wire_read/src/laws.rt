//! Laws of the places of a reader: each function is a theorem, and does nothing.
ghost use Rattle.wire_read.specs.Laws.{ReaderBegins, ReaderGoesOn, ReaderMovesOn, ReaderIsDone, ReaderIsStuck, FaultIsBehindLongest, OneLongestFront, OnePartFault, ReaderStops, OneFault, ItemsTellRecords, EventsAreInFront};

use wire_base::laws;

/// Before the first event a reader is at the front.
pub fn reader_begins()
    ensures { ReaderBegins }
{
    laws::records_one_by_one();
    laws::limits_add_up();
}

/// An event is one item more.
pub fn reader_goes_on()
    ensures { ReaderGoesOn }
{
    laws::records_one_by_one();
    laws::charges_add_up();
    laws::limits_add_up();
    laws::levels_add_up();
}

/// An event takes a byte at least, so that a loop over events ends.
pub fn reader_moves_on()
    ensures { ReaderMovesOn }
{}

/// At the end the events are those of the records that all of the bytes spell, within the limits.
pub fn reader_is_done()
    ensures { ReaderIsDone }
{}

/// Where a fault stands, its error is the fault of the list, as decoding all of the bytes names it.
pub fn reader_is_stuck()
    ensures { ReaderIsStuck }
{}

/// A fault stands behind the longest front that spells records within the limits, open groups
/// counted.
pub fn fault_is_behind_longest()
    ensures { FaultIsBehindLongest }
{
    laws::one_tag();
    laws::one_payload();
    laws::no_tag_beside_fault();
    laws::no_payload_beside_fault();
    laws::limits_add_up();
    laws::levels_add_up();
}

/// Bytes have one longest front at most: its open groups, its records and what follows are
/// determined.
pub fn one_longest_front()
    ensures { OneLongestFront }
{
    laws::one_tag();
    laws::one_payload();
    laws::limits_add_up();
    laws::levels_add_up();
}

/// Where a fault stands, one part is at fault, from one byte, with one error.
pub fn one_part_fault()
    ensures { OnePartFault }
{
    laws::one_tag();
    laws::no_tag_beside_fault();
    laws::one_tag_fault();
    laws::one_varint();
    laws::no_varint_beside_fault();
    laws::one_varint_fault();
}

/// Where a reader stops, its fault is that of all of the bytes, behind the events so far and in the
/// groups that are open.
pub fn reader_stops()
    ensures { ReaderStops }
{
    reader_is_stuck();
    fault_is_behind_longest();
}

/// Bytes have one fault at most: its error, its part and both of its places are determined.
pub fn one_fault()
    ensures { OneFault }
{
    one_longest_front();
    one_part_fault();
}

/// Records that are pushed item by item, a group when it ends, are the records that the items are
/// of.
pub fn items_tell_records()
    ensures { ItemsTellRecords }
{}

/// Where all of the bytes spell records within the limits, the events so far are the first of
/// theirs, however far the reader is.
pub fn events_are_in_front()
    ensures { EventsAreInFront }
{
    laws::one_tag();
    laws::one_payload();
    laws::limits_add_up();
    laws::levels_add_up();
}
