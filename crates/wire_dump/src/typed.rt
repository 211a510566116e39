//! The lines of all records of a message whose type is known.
ghost use Rattle.std.specs.Prelude.{◌≡◌, ◌+◌, ◌^◌, ◌<◌, ◌≤◌, ℕ, IsTrue, OnOk, IfOk, IfSome, IfNone, Err, Some, length};
ghost use Rattle.std.specs.Option.{option_copied};
ghost use Rattle.wire_base.specs.Field.{bytes};
ghost use Rattle.wire_base.specs.Items.{IsItem};
ghost use Rattle.wire_read.specs.declared.event.Fault.{Fault};
ghost use Rattle.wire_read.specs.Reading.{item, limits_in, Begins};
ghost use Rattle.wire_dynamic.specs.declared.field.Kind.TheVariants as kinds;
ghost use Rattle.wire_dynamic.specs.Told.{reader_of, root_of, schema_of};
ghost use Rattle.wire_dump.specs.declared.misfit.Misfit.{Misfit};
ghost use Rattle.wire_dump.specs.declared.typed.Halt.TheVariants as halts;
ghost use Rattle.wire_dump.specs.declared.typed_record.Unput.TheVariants as unputs;
ghost use Rattle.wire_dump.specs.Dumps.{SpellsRecord};
ghost use Rattle.wire_dump.specs.Shown.{event_payload, AreRecords, IsRecord, IsShownFront, IsUnfit, ItemSpans, PutsSpans};
ghost use Rattle.wire_dump.specs.Shows.{ShowsRecord};

use crate::dump::put_item;
use crate::layout::{BUDGET, Layout};
use crate::line::put_closing;
use crate::misfit::{Cause, Misfit, step_to};
use crate::output::{Output, Typed};
use crate::typed_line::FieldLine;
use crate::typed_record::{Record, Spot, Unput};
use std::alloc::{AllocError, Global};
use wire_base::laws as grammar;
use wire_codec::WireType;
use wire_dynamic::{Kind, Told, Walk};
use wire_read::{Fault, Value, laws};

/// Why the lines of a message end before its bytes do.
#[derive(Drop)]
pub(crate) enum Halt {
    /// No record goes on here.
    Fault(Fault),
    /// A record does not fit its field, and nothing is to be put then.
    Misfit(Misfit),
    OutOfMemory,
}

impl From<AllocError> for Halt {
    ghost from_gives = { λ _ e. e ≡ halts.OutOfMemory };

    fn from(_error: AllocError) -> Halt {
        Halt::OutOfMemory
    }
}

impl From<Fault> for Halt {
    ghost from_gives = { λ fault e. e ≡ halts.Fault fault };

    fn from(fault: Fault) -> Halt {
        Halt::Fault(fault)
    }
}

impl Typed<'_> {
    /// Puts the lines of all records of a message. Where a fault stands, those of the records
    /// before it are put. It calls itself for messages in it, within the depth of the spot.
    #[cycle(typed)]
    pub(crate) fn put_message(
        &self,
        out: &mut Output,
        spot: Spot,
        walk: &mut Walk<'_>,
        bytes: &[u8],
    ) -> Result<(), Halt>
        requires begins { Begins (limits_in (reader_of walk.old)) (reader_of walk.old) }
        requires schema { schema_of walk.old ≡ self.now.schema.now }
        requires shallow { spot.depth ≤ 100 }
        requires bounded { spot.level + spot.depth ≤ 200 }
        requires placed { spot.place + length bytes.now < 2 ^ 64 }
        ensures ok { OnOk result (PutsSpans self.now spot.place
            (AreRecords self.now.schema.now spot.depth spot.level (root_of walk.old)
            (limits_in (reader_of walk.old)) bytes.now) bytes.now
            out.old.text.items out.old.has_note out.new) }
        ensures fault { (f : Fault) → result ≡ Err (halts.Fault f)
            → IsShownFront self.now spot.depth spot.level (root_of walk.old) spot.place
            (limits_in (reader_of walk.old)) bytes.now f
            out.old.text.items out.old.has_note out.new }
        ensures misfit { (m : Misfit) → result ≡ Err (halts.Misfit m)
            → IsTrue self.now.is_strict }
    {
        laws::reader_begins();
        laws::reader_goes_on();
        laws::reader_moves_on();
        laws::reader_is_done();
        laws::reader_stops();
        laws::items_tell_records();
        while let Some(told) = walk.next(bytes)? {
            let count = walk.reader().open_groups().len() as u32;
            let text = &bytes[told.event.start..told.event.end];
            let place = spot.place + told.event.start;
            let here = spot.within(walk.unknown_groups());
            match self.put_told(out, here, count, place, &told, text) {
                Ok(()) => {}
                Err(unput) => return Err(halt_within(self.alloc, walk, &told, bytes, unput)),
            }
        }
        Ok(())
    }

    /// Puts the lines of an event, which is this text, and behind which so many groups are open.
    #[cycle(typed)]
    pub(crate) fn put_told(
        &self,
        out: &mut Output,
        spot: Spot,
        count: u32,
        place: usize,
        told: &Told<'_, '_>,
        text: &[u8],
    ) -> Result<(), Unput>
        requires shallow { spot.depth ≤ 100 }
        requires bounded { spot.level + spot.depth ≤ 200 }
        requires guesses { spot.budget ≤ 10 }
        requires few { count ≤ 100 }
        requires placed { place + length text.now < 2 ^ 64 }
        requires is { IsItem (item told.now.event.number told.now.event.value) text.now }
        ensures ok { OnOk result (PutsSpans self.now place
            (ItemSpans self.now.schema.now spot.depth spot.budget spot.level count
            (option_copied told.now.field)
            (item told.now.event.number told.now.event.value) text.now)
            text.now out.old.text.items out.old.has_note out.new) }
        ensures misfit { (m : Misfit) → result ≡ Err (unputs.Misfit m)
            → IsTrue self.now.is_strict }
    {
        let event = told.event;
        let level = spot.level + count;
        let outside = spot.level + count.saturating_sub(1);
        match event.value {
            Value::GroupStart => {
                self.put_group_opening(out, outside, told.field, event.number, place, text)
            }
            Value::GroupEnd => {
                let margin = self.margin(place, text);
                Ok(put_closing(&mut out.text, margin, level)?)
            }
            Value::Varint(_) | Value::Fixed64(_) | Value::Fixed32(_) | Value::Bytes(_) => {
                let spot = Spot {
                    level,
                    depth: spot.depth.saturating_sub(count),
                    budget: spot.budget,
                    place,
                };
                self.put_flat(out, spot, told, text)
            }
        }
    }

    // Puts the lines of a record that is no group, and may have no field.
    #[cycle(typed)]
    fn put_flat(
        &self,
        out: &mut Output,
        spot: Spot,
        told: &Told<'_, '_>,
        text: &[u8],
    ) -> Result<(), Unput>
        requires shallow { spot.depth ≤ 100 }
        requires room { spot.level ≤ 300 }
        requires guesses { spot.budget ≤ 10 }
        requires bounded { 0 < spot.depth → spot.level + spot.depth ≤ 200 }
        requires placed { spot.place + length text.now < 2 ^ 64 }
        requires is { IsRecord told.now.event.number (event_payload told.now.event.value) text.now }
        ensures ok { OnOk result (PutsSpans self.now spot.place
            (ShowsRecord self.now.schema.now spot.depth spot.budget spot.level
            (option_copied told.now.field)
            told.now.event.number (event_payload told.now.event.value) text.now)
            text.now out.old.text.items out.old.has_note out.new) }
        ensures misfit { (m : Misfit) → result ≡ Err (unputs.Misfit m)
            → IsTrue self.now.is_strict }
    {
        match told.field {
            None => {
                let layout = Layout::guessing(self.has_offsets, spot.level, spot.budget);
                Ok(put_item(&mut out.text, layout, 0, &told.event, spot.place, text)?)
            }
            Some(field) => {
                let record = Record {
                    field,
                    event: told.event,
                    text,
                    spot,
                };
                self.put_record(out, &record)
            }
        }
    }

    // Puts the lines of a record that is no group.
    #[cycle(typed)]
    fn put_record(&self, out: &mut Output, found: &Record<'_, '_>) -> Result<(), Unput>
        requires shallow { found.now.spot.depth ≤ 100 }
        requires room { found.now.spot.level ≤ 300 }
        requires guesses { found.now.spot.budget ≤ 10 }
        requires bounded { 0 < found.now.spot.depth
            → found.now.spot.level + found.now.spot.depth ≤ 200 }
        requires placed { found.now.spot.place + length found.now.text.now < 2 ^ 64 }
        requires is { IsRecord found.now.event.number (event_payload found.now.event.value)
            found.now.text.now }
        ensures ok { OnOk result (PutsSpans self.now found.now.spot.place
            (ShowsRecord self.now.schema.now found.now.spot.depth found.now.spot.budget
            found.now.spot.level (Some found.now.field.now) found.now.event.number
            (event_payload found.now.event.value)
            found.now.text.now) found.now.text.now out.old.text.items out.old.has_note out.new) }
        ensures misfit { (m : Misfit) → result ≡ Err (unputs.Misfit m)
            → IsTrue self.now.is_strict }
    {
        let start = out.text.len();
        let Some(cause) = self.put_fitting(out, found)? else {
            return Ok(());
        };
        out.text.truncate(start);
        self.put_unfit(out, found, cause)
    }

    // Puts the lines of a record as its field has it, or some of them, where it does not fit.
    #[cycle(typed)]
    fn put_fitting(&self, out: &mut Output, found: &Record<'_, '_>) -> Result<Option<Cause>, Unput>
        requires shallow { found.now.spot.depth ≤ 100 }
        requires room { found.now.spot.level ≤ 300 }
        requires guesses { found.now.spot.budget ≤ 10 }
        requires bounded { 0 < found.now.spot.depth
            → found.now.spot.level + found.now.spot.depth ≤ 200 }
        requires placed { found.now.spot.place + length found.now.text.now < 2 ^ 64 }
        requires is { IsRecord found.now.event.number (event_payload found.now.event.value)
            found.now.text.now }
        ensures fits { IfOk result (λ cause. IfNone cause (PutsSpans self.now found.now.spot.place
            (ShowsRecord self.now.schema.now found.now.spot.depth found.now.spot.budget
            found.now.spot.level (Some found.now.field.now) found.now.event.number
            (event_payload found.now.event.value)
            found.now.text.now) found.now.text.now out.old.text.items out.old.has_note out.new)) }
        ensures unfit { IfOk result (λ cause. IfSome cause (λ _. IsUnfit found.now.spot.depth
            found.now.field.now (event_payload found.now.event.value) out.old.text.items out.new)) }
        ensures misfit { (m : Misfit) → result ≡ Err (unputs.Misfit m)
            → IsTrue self.now.is_strict }
    {
        match (found.field.kind, found.event.value) {
            (Kind::Message(root), Value::Bytes(payload)) => {
                self.put_embedded(out, found, root, payload)
            }
            (Kind::Text | Kind::Blob, Value::Bytes(payload)) => {
                self.put_string(out, found, payload)
            }
            (_, Value::Bytes(payload)) => self.put_packed(out, found, payload),
            (_, Value::Varint(number)) => { self.put_single(out, found, WireType::Varint, number) }
            (_, Value::Fixed64(number)) => {
                self.put_single(out, found, WireType::Fixed64, number)
            }
            (_, Value::Fixed32(number)) => {
                self.put_single(out, found, WireType::Fixed32, u64::from(number))
            }
            (_, Value::GroupStart | Value::GroupEnd) => Ok(Some(Cause::Type)),
        }
    }

    // Puts the lines of a message in a message.
    #[cycle(typed)]
    fn put_embedded(
        &self,
        out: &mut Output,
        found: &Record<'_, '_>,
        root: usize,
        payload: &[u8],
    ) -> Result<Option<Cause>, Unput>
        requires shallow { found.now.spot.depth ≤ 100 }
        requires room { found.now.spot.level ≤ 300 }
        requires guesses { found.now.spot.budget ≤ 10 }
        requires bounded { 0 < found.now.spot.depth
            → found.now.spot.level + found.now.spot.depth ≤ 200 }
        requires placed { found.now.spot.place + length found.now.text.now < 2 ^ 64 }
        requires kind { found.now.field.now.kind ≡ kinds.Message root }
        requires is { SpellsRecord found.now.event.number (bytes payload.now) found.now.text.now }
        ensures fits { IfOk result (λ cause. IfNone cause (PutsSpans self.now found.now.spot.place
            (ShowsRecord self.now.schema.now found.now.spot.depth found.now.spot.budget
            found.now.spot.level (Some found.now.field.now) found.now.event.number
            (bytes payload.now)
            found.now.text.now) found.now.text.now out.old.text.items out.old.has_note out.new)) }
        ensures unfit { IfOk result (λ cause. IfSome cause (λ _. IsUnfit found.now.spot.depth
            found.now.field.now (bytes payload.now) out.old.text.items out.new)) }
        ensures misfit { (m : Misfit) → result ≡ Err (unputs.Misfit m)
            → IsTrue self.now.is_strict }
    {
        if found.spot.depth == 0 {
            return Ok(Some(Cause::Depth));
        }
        grammar::whole_input();
        grammar::no_list_beside_fault();
        let end = found.spot.place + found.text.len();
        let place = end.saturating_sub(payload.len());
        let layout = Layout::new(self.has_offsets, found.spot.level);
        let line = FieldLine {
            schema: &*self.schema,
            field: &*found.field,
            level: layout.level,
            margin: layout.margin(found.spot.place, place),
        };
        line.put_opening(&mut out.text)?;
        let spot = Spot {
            level: found.spot.level + 1,
            depth: found.spot.depth - 1,
            budget: BUDGET,
            place,
        };
        let mut walk = Walk::new(&*self.schema, root, spot.depth);
        match self.put_message(out, spot, &mut walk, payload) {
            Ok(()) => {
                put_closing(&mut out.text, layout.margin(end, end), layout.level)?;
                Ok(None)
            }
            Err(Halt::Fault(fault)) => Ok(Some(Cause::Fault(
                fault.error,
                place.saturating_add(fault.part_place),
            ))),
            Err(Halt::Misfit(misfit)) => Err(Unput::Misfit(misfit)),
            Err(Halt::OutOfMemory) => Err(Unput::OutOfMemory),
        }
    }
}

/// What ends the lines of a message, where an event did.
pub(crate) fn halt_within(
    alloc: Global,
    walk: &Walk<'_>,
    told: &Told<'_, '_>,
    bytes: &[u8],
    unput: Unput,
) -> Halt
    ensures fault { (f : Fault) → result ≡ halts.Fault f → ⊥ }
    ensures misfit { (m : Misfit) → result ≡ halts.Misfit m
        → (n : Misfit) × (unput ≡ unputs.Misfit n) }
{
    let Unput::Misfit(misfit) = unput else {
        return Halt::OutOfMemory;
    };
    let Ok(step) = step_to(alloc, walk, told, bytes) else {
        return Halt::OutOfMemory;
    };
    match misfit.within(alloc, &step) {
        Ok(misfit) => Halt::Misfit(misfit),
        Err(_) => Halt::OutOfMemory,
    }
}
