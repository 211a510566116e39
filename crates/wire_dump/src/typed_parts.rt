//! Lines with a schema that go out in parts.
ghost use Rattle.std.specs.Prelude.{◌≡◌, ◌+◌, ◌^◌, ◌<◌, ◌≤◌, IsTrue, OnOk, Err, length};
ghost use Rattle.wire_read.specs.declared.event.Fault.{Fault};
ghost use Rattle.wire_read.specs.Reading.{limits_in, Begins};
ghost use Rattle.wire_dynamic.specs.Told.{reader_of, root_of, schema_of};
ghost use Rattle.wire_dump.specs.declared.misfit.Misfit.{Misfit};
ghost use Rattle.wire_dump.specs.declared.parts.Cut.TheVariants as cuts;
ghost use Rattle.wire_dump.specs.declared.typed.Halt.TheVariants as halts;
ghost use Rattle.wire_dump.specs.Parts.{InParts};
ghost use Rattle.wire_dump.specs.Shown.{AreRecords, IsFrontText, PutsText};

use crate::output::{Output, Typed};
use crate::parts::{Cut, send_part};
use crate::typed::{Halt, halt_within};
use crate::typed_record::Spot;
use std::alloc::AllocError;
use std::io::Write;
use wire_dynamic::Walk;
use wire_read::{Fault, laws};

impl From<AllocError> for Cut<Halt> {
    ghost from_gives = { λ _ e. e ≡ cuts.Stop halts.OutOfMemory };

    fn from(_error: AllocError) -> Cut<Halt> {
        Cut::Stop(Halt::OutOfMemory)
    }
}

impl From<Fault> for Cut<Halt> {
    ghost from_gives = { λ fault e. e ≡ cuts.Stop (halts.Fault fault) };

    fn from(fault: Fault) -> Cut<Halt> {
        Cut::Stop(Halt::Fault(fault))
    }
}

impl Typed<'_> {
    /// Puts the lines of all records of a message, as `put_message` does, and writes all parts of
    /// them but the last, which is left in `out`.
    pub(crate) fn write_message<W: Write>(
        &self,
        sink: &mut W,
        out: &mut Output,
        spot: Spot,
        walk: &mut Walk<'_>,
        bytes: &[u8],
    ) -> Result<(), Cut<Halt>>
        requires begins { Begins (limits_in (reader_of walk.old)) (reader_of walk.old) }
        requires schema { schema_of walk.old ≡ self.now.schema.now }
        requires shallow { spot.depth ≤ 100 }
        requires bounded { spot.level + spot.depth ≤ 200 }
        requires placed { spot.place + length bytes.now < 2 ^ 64 }
        ensures ok { OnOk result (InParts (W.contents sink.old) (W.contents sink.new)
            out.new.text.items (λ all. PutsText self.now spot.place
            (AreRecords self.now.schema.now spot.depth spot.level (root_of walk.old)
            (limits_in (reader_of walk.old)) bytes.now) bytes.now
            out.old.text.items out.old.has_note all out.new.has_note)) }
        ensures fault { (f : Fault) → result ≡ Err (cuts.Stop (halts.Fault f))
            → InParts (W.contents sink.old) (W.contents sink.new) out.new.text.items
            (λ all. IsFrontText self.now spot.depth spot.level (root_of walk.old) spot.place
            (limits_in (reader_of walk.old)) bytes.now f
            out.old.text.items out.old.has_note all out.new.has_note) }
        ensures misfit { (m : Misfit) → result ≡ Err (cuts.Stop (halts.Misfit m))
            → IsTrue self.now.is_strict }
    {
        laws::reader_begins();
        laws::reader_goes_on();
        laws::reader_moves_on();
        laws::reader_is_done();
        laws::reader_stops();
        laws::items_tell_records();
        while let Some(told) = walk.next(bytes)? {
            let count = walk.reader().open_groups().len() as u32;
            let text = &bytes[told.event.start..told.event.end];
            let place = spot.place + told.event.start;
            let here = spot.within(walk.unknown_groups());
            if let Err(unput) = self.put_told(out, here, count, place, &told, text) {
                return Err(Cut::Stop(halt_within(self.alloc, walk, &told, bytes, unput)));
            }
            if let Err(error) = send_part(sink, &mut out.text) {
                return Err(Cut::Unsent(error));
            }
        }
        Ok(())
    }
}
