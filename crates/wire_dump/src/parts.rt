//! Lines that go out in parts, so that not all of them are held at once.
ghost use Rattle.std.specs.Prelude.{◌≡◌, ◌+◌, ◌*◌, ◌^◌, ◌<◌, ◌≤◌, length, OnOk, Err};
ghost use Rattle.wire_read.specs.declared.event.Fault.{Fault};
ghost use Rattle.wire_read.specs.Reading.{groups_of, limits_in, Begins};
ghost use Rattle.wire_dump.specs.declared.parts.Cut.TheVariants as cuts;
ghost use Rattle.wire_dump.specs.declared.stop.Stop.TheVariants as stops;
ghost use Rattle.wire_dump.specs.Dumped.{IsDumped, IsDumpedFront};
ghost use Rattle.wire_dump.specs.Parts.{InParts};

use crate::dump::put_item;
use crate::layout::Layout;
use crate::stop::Stop;
use std::alloc::AllocError;
use std::io::Write;
use wire_read::{Fault, Reader, laws};
use wire_run::{RunError, write_error};

/// How many bytes are put before they go out.
const PART: usize = 65_536;

/// Why lines that go out in parts end before the bytes do.
#[derive(Drop)]
pub(crate) enum Cut<S> {
    Stop(S),
    /// What was put cannot be written.
    Unsent(RunError),
}

impl From<AllocError> for Cut<Stop> {
    ghost from_gives = { λ _ e. e ≡ cuts.Stop stops.OutOfMemory };

    fn from(_error: AllocError) -> Cut<Stop> {
        Cut::Stop(Stop::OutOfMemory)
    }
}

impl From<Fault> for Cut<Stop> {
    ghost from_gives = { λ fault e. e ≡ cuts.Stop (stops.Fault fault) };

    fn from(fault: Fault) -> Cut<Stop> {
        Cut::Stop(Stop::Fault(fault))
    }
}

/// Writes what was put, where it is enough for a part.
pub(crate) fn send_part<W: Write>(sink: &mut W, out: &mut Vec<u8>) -> Result<(), RunError>
    ensures { OnOk result (InParts (W.contents sink.old) (W.contents sink.new) out.new.items
        (λ all. all ≡ out.old.items)) }
{
    if out.len() < PART {
        return Ok(());
    }
    if let Err(error) = sink.write_all(out.as_slice()) {
        return Err(write_error(error));
    }
    out.clear();
    Ok(())
}

/// Puts the lines of all records of these bytes, which begin at this place of the input, and writes
/// all parts of them but the last, which is left in `out`. Where a fault stands, the lines are those
/// of the records before it.
pub(crate) fn write_records<W: Write>(
    sink: &mut W,
    out: &mut Vec<u8>,
    layout: Layout,
    place: usize,
    reader: &mut Reader,
    bytes: &[u8],
) -> Result<(), Cut<Stop>>
    requires begins { Begins (limits_in reader.old) reader.old }
    requires room { layout.level + 128 * layout.budget + 128 < 2 ^ 31 }
    requires shallow { layout.budget ≤ 100 }
    requires placed { place + length bytes.now < 2 ^ 64 }
    ensures ok { OnOk result (InParts (W.contents sink.old) (W.contents sink.new) out.new.items
        (IsDumped layout place (limits_in reader.old) bytes.now out.old.items)) }
    ensures fault { (f : Fault) → result ≡ Err (cuts.Stop (stops.Fault f))
        → InParts (W.contents sink.old) (W.contents sink.new) out.new.items
        (IsDumpedFront layout place (limits_in reader.old) bytes.now f (groups_of reader.new)
        out.old.items) }
{
    laws::reader_begins();
    laws::reader_goes_on();
    laws::reader_moves_on();
    laws::reader_is_done();
    laws::reader_stops();
    laws::items_tell_records();
    while let Some(event) = reader.next(bytes)? {
        let count = reader.open_groups().len() as u32;
        let text = &bytes[event.start..event.end];
        put_item(out, layout, count, &event, place + event.start, text)?;
        if let Err(error) = send_part(sink, out) {
            return Err(Cut::Unsent(error));
        }
    }
    Ok(())
}
