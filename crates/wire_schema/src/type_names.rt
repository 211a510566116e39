//! Names of types, of which no two in a crate are one.
use crate::error::GenerateError;
use crate::message_type::MessageType;
use crate::names::{module_name, order_key, type_name, variant_name, word_name};
use crate::schema::{Extension, Schema};
use crate::words::Words;
use std::alloc::Global;
use std::collections::BTreeMap;
use wire_descriptor::FileDescriptorProto;

/// How many types have each name so far, whatever its capitals and the underscores behind it: files
/// and modules of two types differ where these do. No name has a number behind an underscore by
/// itself.
#[derive(Drop)]
pub struct TypeNames {
    alloc: Global,
    counts: BTreeMap<String, usize>,
}

impl TypeNames {
    /// No names.
    pub fn new(alloc: Global) -> TypeNames {
        TypeNames {
            alloc,
            counts: BTreeMap::new(alloc),
        }
    }

    /// The name for one type more of this crate: as it is for the first, and with an underscore and
    /// the next number behind it for each further one, from 2 on.
    pub fn given(&mut self, home: &str, name: &str) -> Result<String, GenerateError> {
        let number = self.next_number(home, name)?;
        let key = key_of(self.alloc, home, name)?;
        self.counts.insert(key, number)?;
        numbered(self.alloc, name, number)
    }

    /// The name for what is made of a type beside it, which no type has that was given one.
    pub fn beside(&self, home: &str, name: &str) -> Result<String, GenerateError> {
        numbered(self.alloc, name, self.next_number(home, name)?)
    }

    fn next_number(&self, home: &str, name: &str) -> Result<usize, GenerateError> {
        let key = key_of(self.alloc, home, name)?;
        let count = self.counts.get(key.as_str()).copied().unwrap_or(0);
        Ok(count.saturating_add(1))
    }
}

// What two names have in common that are told apart.
fn key_of(alloc: Global, home: &str, name: &str) -> Result<String, GenerateError> {
    let mut key = String::from_str(alloc, home)?;
    key.push(' ')?;
    key.push_str(name.trim_end_matches('_'))?;
    Ok(key.to_ascii_lowercase(alloc)?)
}

fn numbered(alloc: Global, name: &str, number: usize) -> Result<String, GenerateError> {
    let mut text = String::from_str(alloc, name)?;
    if number > 1 {
        text.push('_')?;
        text.push_str(&number.to_string(alloc)?)?;
    }
    Ok(text)
}

/// What has a name: the message type at a place, its oneof at another, an enum, or an extension.
#[derive(Clone, Copy)]
enum Bearer {
    Message(usize),
    Oneof(usize, usize),
    Enum(usize),
    Extension(usize),
}

/// The places of those that have names, each with where it stands in the file.
#[derive(Drop)]
struct Bearers {
    alloc: Global,
    positions: BTreeMap<String, usize>,
    bearers: Vec<Bearer>,
    order: Vec<(usize, String, usize)>,
}

impl Bearers {
    // None yet, of a file.
    fn of_file(alloc: Global, file: &FileDescriptorProto) -> Result<Bearers, GenerateError> {
        let mut positions = BTreeMap::new(alloc);
        if let Some(info) = &file.source_code_info {
            for (position, location) in info.location.iter().enumerate() {
                if is_place(&location.path) {
                    positions.insert(place_of(alloc, &file.name, &location.path)?, position)?;
                }
            }
        }
        Ok(Bearers {
            alloc,
            positions,
            bearers: Vec::new(alloc),
            order: Vec::new(alloc),
        })
    }

    // One more. Those whose position is not known are behind the others, in the order of their
    // places.
    fn push(&mut self, place: &str, bearer: Bearer) -> Result<(), GenerateError> {
        let position = self.positions.get(place).copied().unwrap_or(usize::MAX);
        let key = order_key(self.alloc, place)?;
        self.order.push((position, key, self.bearers.len()))?;
        self.bearers.push(bearer)?;
        Ok(())
    }

    // The oneofs of the message type at a place, but for those that stand for `optional`.
    fn push_oneofs(&mut self, message: &MessageType, place: usize) -> Result<(), GenerateError> {
        let mut words = Words::new(self.alloc);
        for (index, _) in message.descriptor.oneof_decl.iter().enumerate() {
            if message.has_oneof(index) {
                words.copy(&message.words, &["place"]);
                words.index("index", index);
                words.append("place", ".8.$index$");
                self.push(words.get("place"), Bearer::Oneof(place, index))?;
            }
        }
        words.ended()
    }

    // All in the order of the file.
    fn ordered(mut self) -> Result<Vec<Bearer>, GenerateError> {
        let mut ordered = Vec::new(self.alloc);
        self.order.sort()?;
        for (_, _, index) in &self.order {
            if let Some(bearer) = self.bearers.get(*index) {
                ordered.push(*bearer)?;
            }
        }
        Ok(ordered)
    }
}

// Whether a path may lead to a type, a oneof or an extension.
fn is_place(path: &[i32]) -> bool {
    let kind = match path.len().checked_sub(2) {
        Some(place) => path.get(place),
        None => None,
    };
    matches!(kind, Some(3..=8))
}

/// The place of a part of a file: its name and the numbers that lead there.
pub(crate) fn place_of(alloc: Global, file: &str, path: &[i32]) -> Result<String, GenerateError> {
    let mut place = String::from_str(alloc, file)?;
    for number in path {
        place.push('.')?;
        place.push_str(&number.to_string(alloc)?)?;
    }
    Ok(place)
}

/// How many types of each sort there are.
#[derive(Clone, Copy)]
pub(crate) struct Counts {
    messages: usize,
    enums: usize,
    extensions: usize,
}

impl Schema {
    pub(crate) fn counts(&self) -> Counts {
        Counts {
            messages: self.messages.len(),
            enums: self.enums.len(),
            extensions: self.extensions.len(),
        }
    }

    /// Names the types of a file, which are behind so many others, in the order in which they stand
    /// there, so that what is behind one leaves its name as it is.
    pub(crate) fn name_types(
        &mut self,
        file: &FileDescriptorProto,
        home: &str,
        before: Counts,
    ) -> Result<(), GenerateError> {
        for bearer in self.bearers(file, before)? {
            self.name(bearer, home)?;
        }
        Ok(())
    }

    fn name(&mut self, bearer: Bearer, home: &str) -> Result<(), GenerateError> {
        match bearer {
            Bearer::Message(place) => match self.messages.get_mut(place) {
                Some(message) => rename(&mut message.words, home, &mut self.names),
                None => Ok(()),
            },
            Bearer::Oneof(place, index) => match self.messages.get_mut(place) {
                Some(message) => name_oneof(message, index, home, &mut self.names),
                None => Ok(()),
            },
            Bearer::Enum(place) => match self.enums.get_mut(place) {
                Some(of_enum) => rename(&mut of_enum.words, home, &mut self.names),
                None => Ok(()),
            },
            Bearer::Extension(place) => match self.extensions.get_mut(place) {
                Some(extension) => name_function(extension, home, &mut self.functions),
                None => Ok(()),
            },
        }
    }

    // What of the file has a name, behind so many others.
    fn bearers(
        &self,
        file: &FileDescriptorProto,
        before: Counts,
    ) -> Result<Vec<Bearer>, GenerateError> {
        let mut bearers = Bearers::of_file(self.alloc, file)?;
        for (place, message) in self.messages.iter().enumerate().skip(before.messages) {
            bearers.push(message.words.get("place"), Bearer::Message(place))?;
            bearers.push_oneofs(message, place)?;
        }
        for (place, of_enum) in self.enums.iter().enumerate().skip(before.enums) {
            bearers.push(of_enum.words.get("place"), Bearer::Enum(place))?;
        }
        let extensions = self.extensions.iter().enumerate();
        for (place, extension) in extensions.skip(before.extensions) {
            bearers.push(extension.words.get("at"), Bearer::Extension(place))?;
        }
        bearers.ordered()
    }
}

/// Gives a type its name and its module.
pub(crate) fn rename(
    words: &mut Words,
    home: &str,
    names: &mut TypeNames,
) -> Result<(), GenerateError> {
    let name = names.given(home, words.get("name"))?;
    words.set("module", &module_name(words.alloc(), &name)?);
    words.set("name", &name);
    words.ended()
}

fn name_oneof(
    message: &mut MessageType,
    index: usize,
    home: &str,
    names: &mut TypeNames,
) -> Result<(), GenerateError> {
    let Some(descriptor) = message.descriptor.oneof_decl.get(index) else {
        return Ok(());
    };
    let mut words = Words::like(&message.words);
    words.set("proto", &descriptor.name);
    words.append("outer", "$proto$");
    let name = type_name(words.alloc(), words.get("outer"))?;
    words.ended()?;
    message
        .oneof_names
        .push((index, names.given(home, &name)?))?;
    Ok(())
}

// The function that is an extension, and the one that gives its default value, where it has one.
fn name_function(
    extension: &mut Extension,
    home: &str,
    functions: &mut TypeNames,
) -> Result<(), GenerateError> {
    let words = &mut extension.words;
    let alloc = words.alloc();
    words.fill("function", "$outer$");
    words.set("proto", &extension.descriptor.name);
    words.append("function", "$proto$");
    let name = word_name(alloc, &variant_name(alloc, words.get("function"))?)?;
    words.set("function", &functions.given(home, &name)?);
    if !extension.descriptor.default_value.is_empty() {
        words.fill("function_default", "$function$_default");
        let given = functions.given(home, words.get("function_default"))?;
        words.set("function_default", &given);
    }
    words.ended()
}
