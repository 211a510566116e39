//! The types of a descriptor set.
ghost use Rattle.std.specs.Prelude.{◌≡◌, ◌≢◌, ℕ, List, IfErr, IfOk};
ghost use Rattle.std.specs.BTreeMap.{get_by_text};
ghost use Rattle.std.specs.List.{AllZip};
ghost use Rattle.std.specs.Option.{option_copied};
ghost use Rattle.wire_dynamic.specs.declared.error.SchemaError.TheVariants.{OutOfMemory};
ghost use Rattle.wire_dynamic.specs.Enums.{IsEnum};
ghost use Rattle.wire_dynamic.specs.Messages.{IsAsDeclared};
ghost use Rattle.wire_dynamic.specs.Refusals.{BytesHaveNoSchema, HasNoSchema, MessagesFault, SchemaFault};
ghost use Rattle.wire_dynamic.specs.Schemas.{enum_at, field_named, field_of, type_at, message_place, IsDecodedSchema, IsSchema, IsSchemaOf};

use crate::declared::Declared;
use crate::enum_type::EnumType;
use crate::error::SchemaError;
use crate::extensions::{Extensions, extensions_of};
use crate::field::Field;
use crate::message_type::MessageType;
use crate::places::Places;
use std::alloc::{AllocError, Global};
use std::collections::BTreeMap;
use wire_codec::Message;
use wire_descriptor::FileDescriptorSet;

/// The message types and the enums of a descriptor set, with its extensions.
#[derive(Drop)]
pub struct Schema {
    messages: Vec<MessageType>,
    enums: Vec<EnumType>,
    extensions: Extensions,
    places: Places,
}

impl Schema {
    /// The schema of the bytes of a descriptor set, as `protoc --descriptor_set_out` writes them.
    /// Refused as `of`, and where the bytes are no set.
    pub fn decode(alloc: Global, bytes: &[u8]) -> Result<Schema, SchemaError>
        ensures ok { IfOk result (IsDecodedSchema bytes.now) }
        ensures err { IfErr result (λ e. e ≢ OutOfMemory → BytesHaveNoSchema bytes.now e) }
    {
        let set = FileDescriptorSet::decode_from_slice(alloc, bytes)?;
        Schema::of(alloc, &set)
    }

    /// The schema of a descriptor set. Refused as `Declared::of` and `of_declared`.
    pub fn of(alloc: Global, set: &FileDescriptorSet) -> Result<Schema, SchemaError>
        ensures ok { IfOk result (IsSchemaOf set.now) }
        ensures err { IfErr result (λ e. e ≢ OutOfMemory → HasNoSchema set.now e) }
    {
        let declared = Declared::of(alloc, set)?;
        Schema::of_declared(alloc, &declared)
    }

    /// The schema of what a set declares. Refused where two message types or two enums have one
    /// name, where two fields of a message or two extensions of it have one number, where a number
    /// is not of 1 to 536,870,911, where a type is none that a field can have, or is not declared,
    /// and where memory runs out.
    pub fn of_declared(alloc: Global, declared: &Declared) -> Result<Schema, SchemaError>
        ensures ok { IfOk result (IsSchema declared.now) }
        ensures err { IfErr result (λ e. e ≢ OutOfMemory → SchemaFault declared.now e) }
    {
        let places = Places::of(alloc, declared)?;
        let messages = messages_of(alloc, declared, &places)?;
        let enums = enums_of(alloc, declared)?;
        let extensions = extensions_of(alloc, declared, &places)?;
        Ok(Schema {
            messages,
            enums,
            extensions,
            places,
        })
    }

    /// The places of the message types, in the order of their full names.
    pub fn message_places(&self) -> &BTreeMap<String, usize>
        ensures { (name : List ℕ) → get_by_text result.now name ≡ message_place self.now name }
    {
        &self.places.messages
    }

    /// The place of the message type of this full name, as `.package.Outer.Inner`.
    pub fn message_place(&self, name: &str) -> Option<usize>
        ensures { result ≡ message_place self.now name.now }
    {
        self.places.messages.get(name).copied()
    }

    /// The message type at this place.
    pub fn message(&self, place: usize) -> Option<&MessageType>
        ensures { option_copied result ≡ type_at self.now place }
    {
        self.messages.get(place)
    }

    /// The enum at this place.
    pub fn enum_at(&self, place: usize) -> Option<&EnumType>
        ensures { option_copied result ≡ enum_at self.now place }
    {
        self.enums.get(place)
    }

    /// The field of this number of the message type at this place, or else the extension.
    pub fn field(&self, place: usize, number: u32) -> Option<&Field>
        ensures { option_copied result ≡ field_of self.now place number }
    {
        match self.messages.get(place)?.fields.get(&number) {
            Some(field) => Some(field),
            None => self.extensions.get(&(place, number)),
        }
    }

    /// The field of this name of the message type at this place, among its own. An extension is
    /// not found by its name.
    pub fn field_named(&self, place: usize, name: &str) -> Option<&Field>
        ensures { option_copied result ≡ field_named self.now place name.now }
    {
        self.messages.get(place)?.field_named(name)
    }
}

fn messages_of(
    alloc: Global,
    declared: &Declared,
    places: &Places,
) -> Result<Vec<MessageType>, SchemaError>
    ensures ok { IfOk result (λ messages. AllZip (IsAsDeclared declared.now places.now)
        declared.now.messages.items messages.items) }
    ensures err { IfErr result (λ e. e ≢ OutOfMemory
        → MessagesFault declared.now places.now e) }
{
    let mut messages = Vec::new(alloc);
    for message in &declared.messages {
        messages.push(MessageType::of(alloc, message, declared, places)?)?;
    }
    Ok(messages)
}

fn enums_of(alloc: Global, declared: &Declared) -> Result<Vec<EnumType>, AllocError>
    ensures { IfOk result (λ enums. AllZip IsEnum declared.now.enums.items enums.items) }
{
    let mut enums = Vec::new(alloc);
    for of_enum in &declared.enums {
        enums.push(EnumType::of(alloc, of_enum)?)?;
    }
    Ok(enums)
}
