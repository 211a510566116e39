//! The lines of records whose fields are known.
ghost use Rattle.std.specs.Prelude.{◌≡◌, ◌+◌, ◌-◌, ◌++◌, ◌^◌, ◌<◌, ◌≤◌, ℕ, Bool, List, IsTrue, IsFalse, OnOk, IfOk, IfSome, IfNone, Err, Some, length, is_some, true};
ghost use Rattle.std.specs.Option.{option_copied};
ghost use Rattle.std.specs.Str.{IsUtf8};
ghost use Rattle.wire_base.specs.Field.{bytes, type_of};
ghost use Rattle.wire_dump.specs.declared.misfit.Misfit.{Misfit};
ghost use Rattle.wire_dump.specs.declared.typed_record.Unput.TheVariants as unputs;
ghost use Rattle.wire_dump.specs.Dumps.{SpellsRecord};
ghost use Rattle.wire_dump.specs.Numbers.{number_in, number_type};
ghost use Rattle.wire_dump.specs.Places.{range_text};
ghost use Rattle.wire_dump.specs.Shown.{event_payload, IsRecord, IsUnfit, PutsSpans};
ghost use Rattle.wire_dump.specs.Shows.{group_opening, BytesFit, FitsField, IsNumberLine, IsNoString, IsQuoted, ShowsRecord};

use crate::dump::put_item;
use crate::layout::{BUDGET, Layout, Margin};
use crate::line::put_opening;
use crate::misfit::{Cause, Misfit, TYPE_CAUSE};
use crate::number::{number_type, take_number};
use crate::output::{Output, Typed};
use crate::typed_line::{FieldLine, put_note};
use std::alloc::AllocError;
use std::str;
use wire_base::laws as grammar;
use wire_codec::WireType;
use wire_dynamic::{Field, Kind};
use wire_read::{Event, Value};

/// Why the lines of a record are not put.
#[derive(Drop)]
pub(crate) enum Unput {
    /// It does not fit its field, and nothing is to be put then.
    Misfit(Misfit),
    OutOfMemory,
}

/// Where a message or a record stands: how far its lines are indented, how many levels may stand in
/// it, how deep payloads that have no field are read as messages, and the byte of the input at which
/// it begins.
#[derive(Clone, Copy, Debug)]
pub(crate) struct Spot {
    pub(crate) level: u32,
    pub(crate) depth: u32,
    pub(crate) budget: u32,
    pub(crate) place: usize,
}

impl Spot {
    /// The same where so many groups are open that the schema lacks.
    pub(crate) fn within(self, unknown_groups: usize) -> Spot
        ensures { result ≡ record {
          level = self.level;
          depth = self.depth;
          budget = 10 - unknown_groups;
          place = self.place;
        } }
    {
        Spot {
            level: self.level,
            depth: self.depth,
            budget: BUDGET - unknown_groups.min(BUDGET as usize) as u32,
            place: self.place,
        }
    }
}

/// A record that is no group, with its field and its bytes.
#[derive(Drop)]
pub(crate) struct Record<'a, 's> {
    pub(crate) field: &'s Field,
    pub(crate) event: Event<'a>,
    pub(crate) text: &'a [u8],
    pub(crate) spot: Spot,
}

impl From<AllocError> for Unput {
    ghost from_gives = { λ _ e. e ≡ unputs.OutOfMemory };

    fn from(_error: AllocError) -> Unput {
        Unput::OutOfMemory
    }
}

impl Typed<'_> {
    /// Puts the line before what stands in a group, by its name where it is one for the schema.
    pub(crate) fn put_group_opening(
        &self,
        out: &mut Output,
        level: u32,
        field: Option<&Field>,
        number: u32,
        place: usize,
        text: &[u8],
    ) -> Result<(), Unput>
        requires placed { place + length text.now < 2 ^ 64 }
        ensures ok { OnOk result (PutsSpans self.now place
            (λ spans. spans ≡ group_opening self.now.schema.now level number
            (option_copied field.entry) text.now)
            text.now out.old.text.items out.old.has_note out.new) }
        ensures misfit { (m : Misfit) → result ≡ Err (unputs.Misfit m)
            → IsTrue self.now.is_strict }
    {
        let margin = self.margin(place, text);
        let Some(field) = field else {
            return Ok(put_opening(&mut out.text, margin, level, number)?);
        };
        if let Kind::Group(_) = field.kind {
            let line = FieldLine {
                schema: self.schema,
                field,
                level,
                margin,
            };
            return Ok(line.put_opening(&mut out.text)?);
        }
        if self.is_strict {
            return Err(Unput::Misfit(Misfit::new(self.alloc, place, Cause::Type)));
        }
        put_opening(&mut out.text, margin, level, number)?;
        put_note(&mut out.text, field, TYPE_CAUSE)?;
        out.has_note = true;
        Ok(())
    }

    /// Puts the lines of a record that does not fit its field, for this cause, whatever is kept of
    /// notes.
    pub(crate) fn put_unfit(
        &self,
        out: &mut Output,
        found: &Record<'_, '_>,
        cause: Cause,
    ) -> Result<(), Unput>
        requires room { found.now.spot.level ≤ 300 }
        requires guesses { found.now.spot.budget ≤ 10 }
        requires placed { found.now.spot.place + length found.now.text.now < 2 ^ 64 }
        requires is { IsRecord found.now.event.number (event_payload found.now.event.value)
            found.now.text.now }
        requires never { FitsField found.now.spot.depth found.now.field.now
            (event_payload found.now.event.value) → ⊥ }
        ensures ok { OnOk result ((before : Bool) → PutsSpans self.now found.now.spot.place
            (ShowsRecord self.now.schema.now found.now.spot.depth found.now.spot.budget
            found.now.spot.level (Some found.now.field.now) found.now.event.number
            (event_payload found.now.event.value)
            found.now.text.now) found.now.text.now out.old.text.items before out.new) }
        ensures misfit { (m : Misfit) → result ≡ Err (unputs.Misfit m)
            → IsTrue self.now.is_strict }
    {
        if self.is_strict {
            return Err(Unput::Misfit(Misfit::new(self.alloc, found.spot.place, cause)));
        }
        let layout = Layout::guessing(self.has_offsets, found.spot.level, found.spot.budget);
        let note = format!(in self.alloc; "{cause}")?;
        put_item(
            &mut out.text,
            layout,
            0,
            &found.event,
            found.spot.place,
            found.text,
        )?;
        put_note(&mut out.text, found.field, &note)?;
        out.has_note = true;
        Ok(())
    }

    /// Puts the line of a string or of bytes.
    pub(crate) fn put_string(
        &self,
        out: &mut Output,
        found: &Record<'_, '_>,
        payload: &[u8],
    ) -> Result<Option<Cause>, Unput>
        requires placed { found.now.spot.place + length found.now.text.now < 2 ^ 64 }
        requires kind { IsQuoted found.now.field.now.kind }
        requires is { SpellsRecord found.now.event.number (bytes payload.now) found.now.text.now }
        ensures fits { IfOk result (λ cause. IfNone cause (PutsSpans self.now found.now.spot.place
            (ShowsRecord self.now.schema.now found.now.spot.depth found.now.spot.budget
            found.now.spot.level (Some found.now.field.now) found.now.event.number
            (bytes payload.now)
            found.now.text.now) found.now.text.now out.old.text.items out.old.has_note out.new)) }
        ensures unfit { IfOk result (λ cause. IfSome cause (λ _. IsUnfit found.now.spot.depth
            found.now.field.now (bytes payload.now) out.old.text.items out.new)) }
        ensures misfit { (m : Misfit) → result ≡ Err (unputs.Misfit m) → ⊥ }
    {
        if !is_string_of(found.field, payload) {
            return Ok(Some(Cause::Text));
        }
        let line = self.line(&*found, self.margin(found.spot.place, found.text));
        line.put_string(&mut out.text, payload)?;
        Ok(None)
    }

    /// Puts the line of a number of this wire type.
    pub(crate) fn put_single(
        &self,
        out: &mut Output,
        found: &Record<'_, '_>,
        wire_type: WireType,
        number: u64,
    ) -> Result<Option<Cause>, Unput>
        requires placed { found.now.spot.place + length found.now.text.now < 2 ^ 64 }
        requires is { IsRecord found.now.event.number (event_payload found.now.event.value)
            found.now.text.now }
        requires number { number_in (event_payload found.now.event.value) ≡ Some number }
        requires type_is { type_of (event_payload found.now.event.value) ≡ wire_type }
        ensures fits { IfOk result (λ cause. IfNone cause (PutsSpans self.now found.now.spot.place
            (ShowsRecord self.now.schema.now found.now.spot.depth found.now.spot.budget
            found.now.spot.level (Some found.now.field.now) found.now.event.number
            (event_payload found.now.event.value)
            found.now.text.now) found.now.text.now out.old.text.items out.old.has_note out.new)) }
        ensures unfit { IfOk result (λ cause. IfSome cause (λ _. IsUnfit found.now.spot.depth
            found.now.field.now (event_payload found.now.event.value) out.old.text.items out.new)) }
        ensures misfit { (m : Misfit) → result ≡ Err (unputs.Misfit m) → ⊥ }
    {
        if number_type(found.field.kind) != Some(wire_type) {
            return Ok(Some(Cause::Type));
        }
        self.put_number(&mut out.text, found, number)?;
        Ok(None)
    }

    /// Puts a line for each number of a packed list.
    pub(crate) fn put_packed(
        &self,
        out: &mut Output,
        found: &Record<'_, '_>,
        payload: &[u8],
    ) -> Result<Option<Cause>, Unput>
        requires placed { found.now.spot.place + length found.now.text.now < 2 ^ 64 }
        requires kind { IsNoString found.now.field.now.kind }
        requires is { SpellsRecord found.now.event.number (bytes payload.now) found.now.text.now }
        ensures fits { IfOk result (λ cause. IfNone cause (PutsSpans self.now found.now.spot.place
            (ShowsRecord self.now.schema.now found.now.spot.depth found.now.spot.budget
            found.now.spot.level (Some found.now.field.now) found.now.event.number
            (bytes payload.now)
            found.now.text.now) found.now.text.now out.old.text.items out.old.has_note out.new)) }
        ensures unfit { IfOk result (λ cause. IfSome cause (λ _. IsUnfit found.now.spot.depth
            found.now.field.now (bytes payload.now) out.old.text.items out.new)) }
        ensures misfit { (m : Misfit) → result ≡ Err (unputs.Misfit m) → ⊥ }
    {
        grammar::one_varint();
        let Some(wire_type) = number_type(found.field.kind) else {
            return Ok(Some(Cause::Type));
        };
        if !found.field.is_repeated {
            return Ok(Some(Cause::Type));
        }
        let mut rest = payload;
        while !rest.is_empty() {
            let Some(number) = take_number(wire_type, &mut rest) else {
                return Ok(Some(Cause::Type));
            };
            self.put_number(&mut out.text, found, number)?;
        }
        Ok(None)
    }

    // Puts the line of a number of a record.
    fn put_number(
        &self,
        out: &mut Vec<u8>,
        found: &Record<'_, '_>,
        number: u64,
    ) -> Result<(), AllocError>
        requires placed { found.now.spot.place + length found.now.text.now < 2 ^ 64 }
        requires kind { is_some (number_type found.now.field.now.kind) ≡ true }
        ensures { OnOk result ((line : List ℕ) × IsNumberLine self.now.schema.now
            found.now.spot.level found.now.event.number found.now.field.now number line
            × (out.new.items ≡ out.old.items
            ++ (range_text self.now.has_offsets found.now.spot.place
            (found.now.spot.place + length found.now.text.now) ++ line))) }
    {
        let line = self.line(&*found, self.margin(found.spot.place, found.text));
        line.put_number(self.alloc, out, found.event.number, number)
    }

    /// What stands before a line of this text.
    pub(crate) fn margin(&self, place: usize, text: &[u8]) -> Margin
        requires placed { place + length text.now < 2 ^ 64 }
        ensures { result ≡ record {
          is_shown = self.now.has_offsets;
          start = place;
          end = place + length text.now;
        } }
    {
        Margin {
            is_shown: self.has_offsets,
            start: place,
            end: place + text.len(),
        }
    }

    /// A line of a record.
    pub(crate) fn line<'a>(&'a self, found: &'a Record<'_, '_>, margin: Margin) -> FieldLine<'a>
        ensures { result ≡ record {
          schema = self.now.schema;
          field = found.now.field;
          level = found.now.spot.level;
          margin = margin;
        } }
    {
        FieldLine {
            schema: self.schema,
            field: found.field,
            level: found.spot.level,
            margin,
        }
    }
}

// Whether bytes fit a field of strings or of bytes.
fn is_string_of(field: &Field, bytes: &[u8]) -> bool
    requires kind { IsQuoted field.now.kind }
    ensures yes { IsTrue result → (depth : ℕ) → BytesFit depth field.now field.now.kind bytes.now }
    ensures no { IsFalse result → (depth : ℕ)
        → BytesFit depth field.now field.now.kind bytes.now → ⊥ }
{
    match field.kind {
        Kind::Text if field.is_checked => is_text(bytes),
        _ => true,
    }
}

fn is_text(bytes: &[u8]) -> bool
    ensures yes { IsTrue result → IsUtf8 bytes.now }
    ensures no { IsFalse result → IsUtf8 bytes.now → ⊥ }
{
    str::from_utf8(bytes).is_ok()
}
