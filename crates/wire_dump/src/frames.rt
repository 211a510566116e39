//! The lines of the frames of a log.
ghost use Rattle.std.specs.Prelude.{◌≡◌, ◌+◌, ◌*◌, ◌^◌, ◌<◌, ◌≤◌, length, OnOk, Err};
ghost use Rattle.wire_read.specs.declared.event.Fault.{Fault};
ghost use Rattle.wire_read.specs.Reading.{groups_of, limits_in, Begins};
ghost use Rattle.wire_dump.specs.declared.parts.Cut.TheVariants as cuts;
ghost use Rattle.wire_dump.specs.Frames.{IsDumpedFrame, frame_opened};
ghost use Rattle.wire_dump.specs.Dumped.{IsDumpedFront};
ghost use Rattle.wire_dump.specs.Parts.{InParts};

use crate::layout::Layout;
use crate::line::{put_closing, put_frame_opening};
use crate::parts::{Cut, write_records};
use crate::stop::Stop;
use std::io::Write;
use wire_read::Reader;

/// Puts the lines of a frame with this number, and writes all parts of them but the last: one of its
/// prefix, those of the records of its payload, and one of no bytes. The prefix begins at a place of
/// the input, and the payload behind it at another. Where a fault stands, the lines are those of the
/// records before it.
pub(crate) fn write_frame<W: Write>(
    sink: &mut W,
    out: &mut Vec<u8>,
    layout: Layout,
    index: u64,
    place: usize,
    payload_place: usize,
    reader: &mut Reader,
    payload: &[u8],
) -> Result<(), Cut<Stop>>
    requires begins { Begins (limits_in reader.old) reader.old }
    requires room { layout.level + 128 * layout.budget + 128 < 2 ^ 31 }
    requires shallow { layout.budget ≤ 100 }
    requires placed { payload_place + length payload.now < 2 ^ 64 }
    ensures ok { OnOk result (InParts (W.contents sink.old) (W.contents sink.new) out.new.items
        (IsDumpedFrame layout index place payload_place (limits_in reader.old) payload.now
        out.old.items)) }
    ensures fault { (f : Fault) → result ≡ Err (cuts.Stop (Stop.Fault f))
        → InParts (W.contents sink.old) (W.contents sink.new) out.new.items
        (IsDumpedFront layout payload_place (limits_in reader.old) payload.now f
        (groups_of reader.new)
        (frame_opened layout.has_offsets index place payload_place out.old.items)) }
{
    put_frame_opening(out, layout.margin(place, payload_place), index)?;
    write_records(sink, out, layout, payload_place, reader, payload)?;
    let end = payload_place + payload.len();
    put_closing(out, layout.margin(end, end), 0)?;
    Ok(())
}
