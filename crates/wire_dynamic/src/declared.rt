//! What the files of a descriptor set declare, each with its full name: message types and enums, at
//! whatever level they stand, and extensions.
ghost use Rattle.std.specs.Prelude.{◌≡◌, ◌≢◌, ◌<◌, ◌≤◌, IfErr, IfOk, OnOk, string_bytes};
ghost use Rattle.wire_dynamic.specs.Declares.{enum_features, full_name, message_features, scope_of, IsDeclaredBy, IsEnumOf, IsExtensionOf, IsMessageIn, IsNestedIn};
ghost use Rattle.wire_dynamic.specs.DeclaresFault.{FileFault, TypeFault, NestedFault, SetFault};
ghost use Rattle.wire_dynamic.specs.declared.error.SchemaError.TheVariants.{OutOfMemory};
ghost use Rattle.wire_dynamic.specs.Fields.{is_entry, own_features};
ghost use Rattle.wire_dynamic.specs.Gained.{GainsAll, GainsFile, GainsMessage};

use crate::error::SchemaError;
use crate::features::Features;
use crate::field::features_of;
use std::alloc::{AllocError, Global};
use wire_codec::Message;
use wire_descriptor::{
    DescriptorProto, EnumDescriptorProto, FieldDescriptorProto, FileDescriptorProto,
    FileDescriptorSet,
};

// The most message types that another stands in.
const MOST_LEVELS: u32 = 100;

/// A message type: its full name, as `.package.Outer.Inner`, and what it leaves to its fields.
#[derive(Drop)]
pub struct DeclaredMessage {
    pub name: String,
    pub descriptor: DescriptorProto,
    pub features: Features,
    /// How many message types it stands in.
    pub level: u32,
}

/// An enum, with its full name and its features.
#[derive(Drop)]
pub struct DeclaredEnum {
    pub name: String,
    pub descriptor: EnumDescriptorProto,
    pub features: Features,
}

/// An extension, with its full name, and the features of what it stands in.
#[derive(Drop)]
pub struct DeclaredExtension {
    pub name: String,
    pub descriptor: FieldDescriptorProto,
    pub features: Features,
}

/// All that a descriptor set declares, file by file. Of a file each message type stands behind
/// those that are nested in it. The enums are those of the file itself and then those of each
/// message type, and so are the extensions.
#[derive(Drop)]
pub struct Declared {
    pub alloc: Global,
    pub messages: Vec<DeclaredMessage>,
    pub enums: Vec<DeclaredEnum>,
    pub extensions: Vec<DeclaredExtension>,
}

impl DeclaredMessage {
    // One that stands in a package or a message type of this name and these features.
    fn of(
        alloc: Global,
        scope: &str,
        descriptor: DescriptorProto,
        outer: Features,
        level: u32,
    ) -> Result<DeclaredMessage, AllocError>
        ensures descriptor { IfOk result (λ m. m.descriptor ≡ descriptor) }
        ensures declared { IfOk result (IsMessageIn scope.now outer level) }
    {
        let name = full_name(alloc, scope, &descriptor.name)?;
        let features = message_features(&descriptor, outer);
        Ok(DeclaredMessage {
            name,
            descriptor,
            features,
            level,
        })
    }

    // The one nested in it that these bytes are.
    fn nested(&self, alloc: Global, bytes: &[u8]) -> Result<DeclaredMessage, SchemaError>
        ensures ok { IfOk result (IsNestedIn self.now bytes.now) }
        ensures level { OnOk result (self.now.level < 100) }
        ensures err { IfErr result (λ e. e ≢ OutOfMemory → NestedFault self.now bytes.now e) }
    {
        if self.level >= MOST_LEVELS {
            return Err(SchemaError::TooMany(self.name.clone()?));
        }
        let descriptor = DescriptorProto::decode_from_slice(alloc, bytes)?;
        let level = self.level + 1;
        let message = DeclaredMessage::of(alloc, &self.name, descriptor, self.features, level)?;
        Ok(message)
    }

    /// The features of a field of it. What stands in an entry of a map is no group.
    pub(crate) fn features_of(&self, descriptor: &FieldDescriptorProto) -> Features
        ensures { result ≡ own_features self.now descriptor.now }
    {
        let features = features_of(descriptor, self.features);
        if self.is_entry() {
            features.prefixed()
        } else {
            features
        }
    }

    /// Whether it is the type of a map's entries.
    pub(crate) fn is_entry(&self) -> bool
        ensures { result ≡ is_entry self.now }
    {
        match &self.descriptor.options {
            Some(options) => options.map_entry,
            None => false,
        }
    }
}

impl Declared {
    /// What the files of a set declare. Refused where a file is of a syntax or an edition that is
    /// not known, where a message type stands in more than 100 others, where the bytes of one
    /// within another are none, and where memory runs out.
    pub fn of(alloc: Global, set: &FileDescriptorSet) -> Result<Declared, SchemaError>
        ensures ok { IfOk result (IsDeclaredBy set.now) }
        ensures err { IfErr result (λ e. e ≢ OutOfMemory → SetFault set.now e) }
    {
        let mut declared = Declared {
            alloc,
            messages: Vec::new(alloc),
            enums: Vec::new(alloc),
            extensions: Vec::new(alloc),
        };
        for file in &set.file {
            declared.add_file(file)?;
        }
        Ok(declared)
    }

    fn add_file(&mut self, file: &FileDescriptorProto) -> Result<(), SchemaError>
        ensures ok { OnOk result (GainsFile file.now self.old self.new) }
        ensures err { IfErr result (λ e. e ≢ OutOfMemory → FileFault file.now e) }
    {
        let Some(features) = Features::of_file(file) else {
            return Err(SchemaError::UnknownEdition(file.name.clone()?));
        };
        let scope = scope_of(self.alloc, &file.package)?;
        add_enums(
            self.alloc,
            &mut self.enums,
            &scope,
            &file.enum_type,
            features,
        )?;
        add_extensions(
            self.alloc,
            &mut self.extensions,
            &scope,
            &file.extension,
            features,
        )?;
        for descriptor in &file.message_type {
            let descriptor = descriptor.clone()?;
            let message = DeclaredMessage::of(self.alloc, &scope, descriptor, features, 0)?;
            self.add_message(message)?;
        }
        Ok(())
    }

    // Takes a message type in, behind those that are nested in it.
    fn add_message(&mut self, message: DeclaredMessage) -> Result<(), SchemaError>
        requires { message.level ≤ 100 }
        ensures ok { OnOk result (GainsMessage message self.old self.new) }
        ensures err { IfErr result (λ e. e ≢ OutOfMemory → TypeFault message e) }
    {
        for bytes in &message.descriptor.nested_type {
            let nested = message.nested(self.alloc, bytes)?;
            self.add_message(nested)?;
        }
        let DeclaredMessage {
            name,
            descriptor,
            features,
            ..
        } = &message;
        add_enums(
            self.alloc,
            &mut self.enums,
            name,
            &descriptor.enum_type,
            *features,
        )?;
        add_extensions(
            self.alloc,
            &mut self.extensions,
            name,
            &descriptor.extension,
            *features,
        )?;
        self.messages.push(message)?;
        Ok(())
    }
}

// The enums of a package or a message type of this name.
fn add_enums(
    alloc: Global,
    enums: &mut Vec<DeclaredEnum>,
    scope: &str,
    descriptors: &[EnumDescriptorProto],
    outer: Features,
) -> Result<(), AllocError>
    ensures { OnOk result (GainsAll IsEnumOf scope.now outer descriptors.now
        enums.old.items enums.new.items) }
{
    for descriptor in descriptors {
        enums.push(DeclaredEnum {
            name: full_name(alloc, scope, &descriptor.name)?,
            descriptor: descriptor.clone()?,
            features: enum_features(descriptor, outer),
        })?;
    }
    Ok(())
}

// The extensions that stand in a package or a message type of this name.
fn add_extensions(
    alloc: Global,
    extensions: &mut Vec<DeclaredExtension>,
    scope: &str,
    descriptors: &[FieldDescriptorProto],
    outer: Features,
) -> Result<(), AllocError>
    ensures { OnOk result (GainsAll IsExtensionOf scope.now outer descriptors.now
        extensions.old.items extensions.new.items) }
{
    for descriptor in descriptors {
        extensions.push(DeclaredExtension {
            name: full_name(alloc, scope, &descriptor.name)?,
            descriptor: descriptor.clone()?,
            features: outer,
        })?;
    }
    Ok(())
}

fn message_features(descriptor: &DescriptorProto, outer: Features) -> Features
    ensures { result ≡ message_features outer descriptor.now.options }
{
    match &descriptor.options {
        Some(options) => outer.with(&options.features),
        None => outer,
    }
}

fn enum_features(descriptor: &EnumDescriptorProto, outer: Features) -> Features
    ensures { result ≡ enum_features outer descriptor.now.options }
{
    match &descriptor.options {
        Some(options) => outer.with(&options.features),
        None => outer,
    }
}

// What stands before the names of a package, with a dot in front, or of none.
fn scope_of(alloc: Global, name: &str) -> Result<String, AllocError>
    ensures { IfOk result (λ scope. string_bytes scope ≡ scope_of name.now) }
{
    if name.is_empty() {
        return Ok(String::new(alloc));
    }
    full_name(alloc, "", name)
}

// The full name of what is declared in a package or a type.
fn full_name(alloc: Global, scope: &str, name: &str) -> Result<String, AllocError>
    ensures { IfOk result (λ full. string_bytes full ≡ full_name scope.now name.now) }
{
    format!(in alloc; "{scope}.{name}")
}
