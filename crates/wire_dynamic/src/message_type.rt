//! A message type, with its fields by their numbers and by their names.
ghost use Rattle.std.specs.Prelude.{◌≡◌, ◌≢◌, ℕ, string_bytes, IfErr, IfOk, OnOk};
ghost use Rattle.std.specs.BTreeMap.{get, get_by_text};
ghost use Rattle.std.specs.Option.{option_copied};
ghost use Rattle.std.specs.Ordering.{nat_cmp};
ghost use Rattle.wire_dynamic.specs.declared.error.SchemaError.TheVariants.{OutOfMemory};
ghost use Rattle.wire_dynamic.specs.Fields.{has_number, field_has_name, as_number, AreNumberedApart};
ghost use Rattle.wire_dynamic.specs.Messages.{own_field, own_field_named, IsAsDeclared, IsOwnField};
ghost use Rattle.wire_dynamic.specs.Refusals.{OwnFault};
ghost use Rattle.wire_dynamic.specs.Table.{IsTableOf};

use crate::declared::{Declared, DeclaredMessage};
use crate::error::SchemaError;
use crate::field::Field;
use crate::places::Places;
use std::alloc::{AllocError, Global};
use std::collections::BTreeMap;
use wire_descriptor::FieldDescriptorProto;

/// A message type of a schema.
#[derive(Drop)]
pub struct MessageType {
    name: String,
    is_entry: bool,
    pub(crate) fields: BTreeMap<u32, Field>,
    pub(crate) numbers: BTreeMap<String, u32>,
}

impl MessageType {
    /// The one that is declared.
    pub(crate) fn of(
        alloc: Global,
        message: &DeclaredMessage,
        declared: &Declared,
        places: &Places,
    ) -> Result<MessageType, SchemaError>
        ensures ok { IfOk result (IsAsDeclared declared.now places.now message.now) }
        ensures err { IfErr result (λ e. e ≢ OutOfMemory → OwnFault declared.now places.now
            message.now e) }
    {
        let name = message.name.clone()?;
        let is_entry = message.is_entry();
        let fields = fields_of(alloc, message, declared, places)?;
        let numbers = numbers_of(alloc, &message.descriptor.field)?;
        Ok(MessageType {
            name,
            is_entry,
            fields,
            numbers,
        })
    }

    /// Its full name, as `.package.Outer.Inner`.
    pub fn name(&self) -> &str
        ensures { result.now ≡ string_bytes self.now.name }
    {
        self.name.as_str()
    }

    /// Whether it is the type of a map's entries.
    pub fn is_entry(&self) -> bool
        ensures { result ≡ self.now.is_entry }
    {
        self.is_entry
    }

    /// Its fields by their numbers, without extensions.
    pub fn fields(&self) -> &BTreeMap<u32, Field>
        ensures { (n : ℕ) → get nat_cmp result.now n ≡ own_field self.now n }
    {
        &self.fields
    }

    /// The field of this name, where it has one; no extension. Of several the first counts.
    pub fn field_named(&self, name: &str) -> Option<&Field>
        ensures { option_copied result ≡ own_field_named self.now name.now }
    {
        self.fields.get(self.numbers.get(name)?)
    }
}

// The fields of a message type, by their numbers.
fn fields_of(
    alloc: Global,
    message: &DeclaredMessage,
    declared: &Declared,
    places: &Places,
) -> Result<BTreeMap<u32, Field>, SchemaError>
    ensures ok { IfOk result (λ fields. IsTableOf has_number
        (IsOwnField declared.now places.now message.now)
        message.now.descriptor.field.items (get nat_cmp fields)) }
    ensures apart { OnOk result (AreNumberedApart message.now.descriptor.field.items) }
    ensures err { IfErr result (λ e. e ≢ OutOfMemory → OwnFault declared.now places.now
        message.now e) }
{
    let mut fields = BTreeMap::new(alloc);
    for descriptor in &message.descriptor.field {
        let name = descriptor.name.clone()?;
        let features = message.features_of(descriptor);
        let field = Field::of(name, descriptor, features, declared, places)?;
        let number = field.number;
        if fields.insert(number, field)?.is_some() {
            return Err(SchemaError::NumberTwice(descriptor.name.clone()?));
        }
    }
    Ok(fields)
}

// The numbers of fields by their names.
fn numbers_of(
    alloc: Global,
    fields: &[FieldDescriptorProto],
) -> Result<BTreeMap<String, u32>, AllocError>
    ensures { IfOk result (λ numbers. IsTableOf field_has_name
        (λ d number. number ≡ as_number d.number) fields.now (get_by_text numbers)) }
{
    let mut numbers = BTreeMap::new(alloc);
    for field in fields {
        if numbers.contains_key(field.name.as_str()) {
            continue;
        }
        let number = u32::try_from(field.number).unwrap_or(0);
        numbers.insert(field.name.clone()?, number)?;
    }
    Ok(numbers)
}
