//! The message types and enums of the files that are to be generated.
use crate::comment::documentation;
use crate::error::GenerateError;
use crate::features::Features;
use crate::message_type::{MessageType, Origin};
use crate::origin::{home_of, inner, own_origin};
use crate::parameters::adapt;
use crate::places::Places;
use crate::type_names::{TypeNames, place_of};
use crate::words::Words;
use std::alloc::Global;
use wire_codec::Message;
use wire_descriptor::{
    CodeGeneratorRequest, DescriptorProto, EnumDescriptorProto, FieldDescriptorProto,
    FileDescriptorProto, ServiceDescriptorProto,
};

// The most message types of one file.
const MOST_MESSAGES: u32 = 100_000;

// The most message types that stand within one another.
const MOST_LEVELS: usize = 100;

/// An enum, with the words of a message type.
#[derive(Drop)]
pub struct EnumType {
    pub words: Words,
    pub origin: Origin,
    pub descriptor: EnumDescriptorProto,
    /// As of a message type.
    pub part: usize,
}

/// An extension, with the words of what it stands in, its own `at`, and its `function`.
#[derive(Drop)]
pub struct Extension {
    pub words: Words,
    pub origin: Origin,
    pub descriptor: FieldDescriptorProto,
}

/// A service, with the words of a message type.
#[derive(Drop)]
pub struct ServiceType {
    pub words: Words,
    pub descriptor: ServiceDescriptorProto,
}

#[derive(Drop)]
pub struct Schema {
    pub alloc: Global,
    pub messages: Vec<MessageType>,
    /// The types of the entries of maps.
    pub entries: Vec<MessageType>,
    pub enums: Vec<EnumType>,
    pub extensions: Vec<Extension>,
    /// Those of the files that are to be generated.
    pub services: Vec<ServiceType>,
    /// The names of types, and of the functions that are extensions.
    pub names: TypeNames,
    pub(crate) functions: TypeNames,
    pub(crate) places: Places,
    comments: Vec<String>,
}

impl Schema {
    /// The types of the files that are to be generated, and of all that these import; no field is of
    /// a type whose file is of no crate that is named.
    pub fn of(base: &Words, request: &CodeGeneratorRequest) -> Result<Schema, GenerateError> {
        let alloc = base.alloc();
        let mut schema = Schema {
            alloc,
            messages: Vec::new(alloc),
            entries: Vec::new(alloc),
            enums: Vec::new(alloc),
            extensions: Vec::new(alloc),
            services: Vec::new(alloc),
            names: TypeNames::new(alloc),
            functions: TypeNames::new(alloc),
            places: Places::new(alloc),
            comments: Vec::new(alloc),
        };
        for file in &request.proto_file {
            let is_own = request.file_to_generate.contains(&file.name);
            if is_own {
                schema.add_file(file, is_own, base.get("crate"))?;
                if base.get("services") != "skip" {
                    schema.add_services(file)?;
                }
                continue;
            }
            match home_of(file, base.get("imported")) {
                "" => schema.add_beyond(file)?,
                home => schema.add_file(file, is_own, home)?,
            }
        }
        adapt(base, &mut schema)?;
        schema.open_entries(base)?;
        schema.find_families()?;
        schema.find_twins()?;
        schema.find_charged()?;
        schema.find_required(base)?;
        schema.find_views(base)?;
        Ok(schema)
    }

    // A file of no crate that is named, which may have what is not generated.
    fn add_beyond(&mut self, file: &FileDescriptorProto) -> Result<(), GenerateError> {
        match self.add_file(file, false, "") {
            Err(GenerateError::Refused(_)) => Ok(()),
            answer => answer,
        }
    }

    fn add_file(
        &mut self,
        file: &FileDescriptorProto,
        is_own: bool,
        home: &str,
    ) -> Result<(), GenerateError> {
        let mut words = Words::new(self.alloc);
        words.set("home", home);
        words.set("file", &file.name);
        words.set("place", &file.name);
        words.set("schema", &file.name);
        if !file.package.is_empty() {
            words.set("package", &file.package);
            words.fill("full", ".$package$");
        }
        if is_own {
            self.add_comments(file)?;
        }
        let origin = Origin {
            features: Features::of_file(file, &mut words)?,
            is_own,
        };
        let before = self.counts();
        self.add_extensions(&words, "$place$.7.$index$", &file.extension, origin)?;
        self.add_enums(&words, "$place$.5.$index$", &file.enum_type, origin)?;
        self.add_messages(&mut words, file, origin)?;
        self.name_types(file, home, before)
    }

    // The message types of a file, with those within them.
    fn add_messages(
        &mut self,
        file_words: &mut Words,
        file: &FileDescriptorProto,
        origin: Origin,
    ) -> Result<(), GenerateError> {
        let mut pending = Vec::new(self.alloc);
        for (index, descriptor) in file.message_type.iter().enumerate() {
            let words = inner(file_words, &descriptor.name, "$place$.4.$index$", index)?;
            pending.push(MessageType::new(words, origin, descriptor.clone()?))?;
        }
        for _ in 0..MOST_MESSAGES {
            match pending.pop() {
                Some(message) => self.add_message(message, &mut pending)?,
                None => return Ok(()),
            }
        }
        Err(file_words.refused("$file$: more than 100,000 message types"))
    }

    // Takes a message type in, and puts those within it to the ones that are to be taken in.
    fn add_message(
        &mut self,
        message: MessageType,
        pending: &mut Vec<MessageType>,
    ) -> Result<(), GenerateError> {
        let origin = own_origin(&message)?;
        let extensions = &message.descriptor.extension;
        self.add_extensions(&message.words, "$place$.6.$index$", extensions, origin)?;
        if !message.descriptor.nested_type.is_empty() && message.level() >= MOST_LEVELS {
            let mut words = message.words;
            return Err(words.refused("$full$: more than 100 message types within one another"));
        }
        self.find_within(&message, origin, pending)?;
        let enums = &message.descriptor.enum_type;
        self.add_enums(&message.words, "$place$.4.$index$", enums, origin)?;
        let message = MessageType::new(message.words, origin, message.descriptor);
        let full = message.words.get("full");
        if message.is_entry() {
            self.places.add_entry(full, self.entries.len())?;
            self.entries.push(message)?;
        } else {
            self.places.add_message(full, self.messages.len())?;
            self.messages.push(message)?;
        }
        Ok(())
    }

    // The message types within one, which is not too deep for that.
    fn find_within(
        &self,
        message: &MessageType,
        origin: Origin,
        pending: &mut Vec<MessageType>,
    ) -> Result<(), GenerateError> {
        for (index, bytes) in message.descriptor.nested_type.iter().enumerate() {
            let descriptor = match DescriptorProto::decode_from_slice(self.alloc, bytes) {
                Ok(descriptor) => descriptor,
                Err(error) => return Err(GenerateError::Request(error)),
            };
            let words = inner(&message.words, &descriptor.name, "$place$.3.$index$", index)?;
            pending.push(MessageType::new(words, origin, descriptor))?;
        }
        Ok(())
    }

    // The enums of a file or a message type, whose places are such.
    fn add_enums(
        &mut self,
        outer: &Words,
        place: &str,
        enums: &[EnumDescriptorProto],
        origin: Origin,
    ) -> Result<(), GenerateError> {
        for (index, descriptor) in enums.iter().enumerate() {
            let mut words = inner(outer, &descriptor.name, place, index)?;
            let mut origin = origin;
            if let Some(options) = &descriptor.options {
                let features = options.features.as_deref();
                origin.features = origin.features.with(features, &mut words)?;
            }
            self.places.add_enum(words.get("full"), self.enums.len())?;
            self.enums.push(EnumType {
                words,
                origin,
                descriptor: descriptor.clone()?,
                part: 0,
            })?;
        }
        Ok(())
    }

    // The extensions that a file or a message type declares, whose places are such.
    fn add_extensions(
        &mut self,
        outer: &Words,
        place: &str,
        extensions: &[FieldDescriptorProto],
        origin: Origin,
    ) -> Result<(), GenerateError> {
        for (index, descriptor) in extensions.iter().enumerate() {
            let mut words = Words::like(outer);
            words.index("index", index);
            words.fill("at", place);
            self.extensions.push(Extension {
                words,
                origin,
                descriptor: descriptor.clone()?,
            })?;
        }
        Ok(())
    }

    // The services of a file that is to be generated.
    fn add_services(&mut self, file: &FileDescriptorProto) -> Result<(), GenerateError> {
        let mut outer = Words::new(self.alloc);
        outer.set("place", &file.name);
        if !file.package.is_empty() {
            outer.set("package", &file.package);
            outer.fill("full", ".$package$");
        }
        for (index, descriptor) in file.service.iter().enumerate() {
            self.services.push(ServiceType {
                words: inner(&outer, &descriptor.name, "$place$.6.$index$", index)?,
                descriptor: descriptor.clone()?,
            })?;
        }
        Ok(())
    }

    fn add_comments(&mut self, file: &FileDescriptorProto) -> Result<(), GenerateError> {
        let Some(info) = &file.source_code_info else {
            return Ok(());
        };
        for location in &info.location {
            if location.leading_comments.is_empty() {
                continue;
            }
            let before = place_of(self.alloc, &file.name, &location.path)?;
            self.places.add_comment(&before, self.comments.len())?;
            let text = documentation(self.alloc, &location.leading_comments)?;
            self.comments.push(text)?;
        }
        Ok(())
    }

    /// What stands before the part of a file that is at this place.
    pub fn comment(&self, place: &str) -> &str {
        match self
            .comments
            .get(self.places.comment(place).unwrap_or(usize::MAX))
        {
            Some(comment) => comment,
            None => "",
        }
    }

    /// The message type of this full name.
    pub fn message(&self, full: &str) -> Option<&MessageType> {
        self.messages.get(self.places.message(full)?)
    }

    /// The type of a map's entries of this full name.
    pub(crate) fn entry(&self, full: &str) -> Option<&MessageType> {
        self.entries.get(self.places.entry(full)?)
    }

    /// The enum of this full name.
    pub fn enum_of(&self, full: &str) -> Option<&EnumType> {
        self.enums.get(self.places.enum_of(full)?)
    }
}
