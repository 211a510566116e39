//! What an extension is, and its calls.
ghost use Rattle.std.specs.Prelude.{◌≡◌, ◌≢◌, ◌↔◌, ◌^◌, ◌-◌, IsTrue, None, Some};
ghost use Rattle.std.specs.Prelude.{OnOk, OnErr, IfOk, IfErr, IfSome, IfNone};
ghost use Rattle.wire_codec.specs.DecodeError.TheVariants.{OutOfMemory};
ghost use Rattle.wire_codec.specs.Field.{Fields, none, joined};
ghost use Rattle.wire_codec.specs.FieldNumber.{IsFieldNumber};
ghost use Rattle.wire_codec.specs.Folds.{IsSingle};
ghost use Rattle.wire_codec.specs.InRange.{AreNumbered};
ghost use Rattle.wire_codec.specs.Limits.{NoCountGrew, counted};
ghost use Rattle.wire_codec.specs.Taking.{IsCharged};
ghost use Rattle.wire_codec.specs.UnknownFields.{payload_of};
ghost use Rattle.wire_extensions.specs.Extension.{is_own, picked, others, replaced};
ghost use Rattle.wire_extensions.specs.Extension.{IsValue, NoValue, Stores, NotStored};

use crate::putting::{append, put_behind, stored};
use crate::record::{take_record, type_of};
use std::alloc::Global;
use std::marker::PhantomData;
use wire_codec::{DecodeContext, DecodeError, MAX_FIELD_NUMBER, UnknownField, UnknownFields, laws};
use wire_fields::{Kind, OwnTypes};

/// A field that a message type does not declare: its number and its kind, as
/// `Extension<Optional<Int32>>`. Its own records are those of its number, or, where it names wire
/// types, those of its number that have one of these.
#[derive(Debug, Drop)]
pub struct Extension<K: Kind> {
    pub number: u32,
    pub types: Option<OwnTypes>,
    kind: PhantomData<K>,
    pub ghost in_range: { IsFieldNumber number },
}

impl<K: Kind> Extension<K> {
    /// The extension of this number, or none where that is not from 1 to `MAX_FIELD_NUMBER`. All
    /// records of the number are its own: `get` refuses one of a wire type that the kind does not
    /// have.
    pub fn new(number: u32) -> Option<Extension<K>>
        ensures some { IfSome result (λ extension. (extension.number ≡ number)
            × (extension.types ≡ None)) }
        ensures none { IfNone result (¬ IsFieldNumber number) }
    {
        if number == 0 || number > MAX_FIELD_NUMBER {
            return None;
        }
        Some(Extension {
            number,
            types: None,
            kind: PhantomData,
        })
    }

    /// The same extension, to which records of other wire types than these do not belong: they are
    /// passed over, and stay.
    pub fn of_types(self, types: OwnTypes) -> Extension<K>
        ensures number { result.number ≡ self.number }
        ensures types { result.types ≡ Some types }
    {
        Extension {
            number: self.number,
            types: Some(types),
            kind: PhantomData,
        }
    }

    /// Whether the record is the extension's own.
    pub fn owns(&self, field: &UnknownField) -> bool
        ensures { result ≡ is_own self.now.number self.now.types field.now.number
            (payload_of field.now.value) }
    {
        if field.number != self.number {
            return false;
        }
        match self.types {
            None => true,
            Some(types) => types.has(type_of(&field.value)),
        }
    }

    /// Whether the extension has a record of its own.
    pub fn has(&self, fields: &UnknownFields) -> bool
        ensures { IsTrue result
            ↔ (picked (is_own self.now.number self.now.types) fields.now ≢ none) }
    {
        for field in fields.iter() {
            if self.owns(field) {
                return true;
            }
        }
        false
    }

    /// The value that the extension's records make, one after another, as a message makes it that
    /// has the field. Refused where the kind refuses a record, with its error, or with
    /// `OutOfMemory`. What it takes is taken from the context. Records that were decoded have
    /// numbers in range, those in groups too.
    pub fn get(
        &self,
        alloc: Global,
        fields: &UnknownFields,
        context: &mut DecodeContext,
    ) -> Result<K::Held, DecodeError>
        ensures ok { IfOk result (λ held.
            AreNumbered (picked (is_own self.now.number self.now.types) fields.now)
            → IsCharged context.old context.new (λ c. IsValue K.kind
            (is_own self.now.number self.now.types) fields.now context.old c (K.view held))) }
        ensures err { IfErr result (λ e. e ≢ OutOfMemory
            → AreNumbered (picked (is_own self.now.number self.now.types) fields.now)
            → IsSingle K.kind.takes → NoValue K.kind
            (is_own self.now.number self.now.types) fields.now context.old) }
        ensures counts { NoCountGrew context.old context.new }
    {
        laws::grammar::limits_add_up();
        laws::grammar::charges_add_up();
        laws::grammar::counts_fall();
        fields.widths_fit();
        let mut held = K::empty(alloc);
        let mut text = Vec::new(alloc);
        for record in fields.iter() {
            if self.owns(record) {
                take_record::<K>(alloc, record, &mut text, &mut held, context)?;
            }
        }
        Ok(held)
    }

    /// Puts the records of the value behind all others, in the place of the extension's own.
    /// `MessageTooLarge` where they are more than 2,147,483,647 bytes, `RecursionLimitExceeded`
    /// where groups nest more than 100 deep, or `OutOfMemory`; the fields are then as they were. So
    /// that they are, records that are replaced, and several new ones, take memory for a copy of
    /// the fields.
    pub fn set(
        &self,
        alloc: Global,
        fields: &mut UnknownFields,
        held: &K::Held,
    ) -> Result<(), DecodeError>
        ensures ok { OnOk result ((more : Fields) × Stores
            (K.kind.records self.now.number (K.view held.now)) (counted 100 (2 ^ 64 - 1)) more
            × (fields.new ≡ replaced (is_own self.now.number self.now.types) fields.old more)) }
        ensures err { IfErr result (λ e. e ≢ OutOfMemory → NotStored
            (K.kind.records self.now.number (K.view held.now)) (counted 100 (2 ^ 64 - 1))) }
        ensures unchanged { OnErr result (fields.new ≡ fields.old) }
    {
        let more = stored::<K>(alloc, self.number, held)?;
        if !self.has(fields) {
            return put_behind(fields, more);
        }
        let mut next = fields.clone()?;
        self.clear(&mut next);
        append(&mut next, more)?;
        *fields = next;
        Ok(())
    }

    /// Takes the extension's records out. The others stay, in order.
    pub fn clear(&self, fields: &mut UnknownFields)
        ensures { fields.new ≡ others (is_own self.now.number self.now.types) fields.old }
    {
        fields.retain(|field| !self.owns(field));
    }

    /// Puts the records of the value behind all others, the extension's own too: a repeated field
    /// has these values more, and a message takes these records too. Refused as `set`.
    pub fn add(
        &self,
        alloc: Global,
        fields: &mut UnknownFields,
        held: &K::Held,
    ) -> Result<(), DecodeError>
        ensures ok { OnOk result ((more : Fields) × Stores
            (K.kind.records self.now.number (K.view held.now)) (counted 100 (2 ^ 64 - 1)) more
            × (fields.new ≡ joined fields.old more)) }
        ensures err { IfErr result (λ e. e ≢ OutOfMemory → NotStored
            (K.kind.records self.now.number (K.view held.now)) (counted 100 (2 ^ 64 - 1))) }
        ensures unchanged { OnErr result (fields.new ≡ fields.old) }
    {
        put_behind(fields, stored::<K>(alloc, self.number, held)?)
    }
}
