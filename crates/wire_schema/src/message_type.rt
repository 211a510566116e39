//! Message types, and what a type has of its file.
use crate::features::Features;
use crate::words::Words;
use wire_descriptor::{DescriptorProto, FieldDescriptorProto};

/// What a type has of its file.
#[derive(Clone, Copy)]
pub struct Origin {
    pub features: Features,
    /// Whether it is generated, and not of another crate.
    pub is_own: bool,
}

/// A message type. Its words are `full`, its name in schemas, as `.package.Outer.Inner`; `name`,
/// the one in code, and `module`; `outer`, the names of the types that it stands in and its own;
/// `home`, its crate, if one is named; `place`, its file and the numbers that lead there; `charged`,
/// where it or what it holds leaves entries of maps; `requiring`, where it or what it holds has
/// required fields; and `member`, its place in its family as the head of a list.
#[derive(Drop)]
pub struct MessageType {
    pub words: Words,
    pub origin: Origin,
    pub descriptor: DescriptorProto,
    /// Whether it holds messages of its own type.
    pub is_recursive: bool,
    /// The place of the first of the types that hold one another, where it is one of these.
    pub family: Option<usize>,
    /// Whether a clone is seen by contracts as its source is.
    pub is_twin: bool,
    /// The part that has it where the schema is split, from 1 on.
    pub part: usize,
    /// The places of its oneofs, and what their types are called.
    pub(crate) oneof_names: Vec<(usize, String)>,
}

impl MessageType {
    /// One of which nothing is known yet.
    pub(crate) fn new(words: Words, origin: Origin, descriptor: DescriptorProto) -> MessageType {
        MessageType {
            oneof_names: Vec::new(words.alloc()),
            words,
            origin,
            descriptor,
            is_recursive: false,
            family: None,
            is_twin: true,
            part: 0,
        }
    }

    /// Whether it has a oneof at this place, which does not stand for `optional`.
    pub(crate) fn has_oneof(&self, place: usize) -> bool {
        self.descriptor
            .field
            .iter()
            .any(|it| oneof_place(it) == Some(place))
    }

    /// What the type of the oneof at this place is called.
    pub(crate) fn oneof_name(&self, place: usize) -> &str {
        match self.oneof_names.iter().find(|(of, _)| *of == place) {
            Some((_, name)) => name,
            None => "",
        }
    }

    /// What the types of its oneofs are called.
    pub fn oneof_types(&self) -> &[(usize, String)] {
        &self.oneof_names
    }

    /// How many types it is one of that stand within one another.
    pub(crate) fn level(&self) -> usize {
        let outer = self.words.get("outer");
        outer.chars().filter(|it| *it == '.').count()
    }

    /// Has numbers and texts in it there only where they are none that is the default.
    pub(crate) fn be_implicit(&mut self) {
        self.origin.features = self.origin.features.with_implicit_presence();
    }

    /// Whether it is the type of a map's entries.
    pub fn is_entry(&self) -> bool {
        match &self.descriptor.options {
            Some(options) => options.map_entry,
            None => false,
        }
    }
}

/// The place of the oneof that a field is of, which does not stand for `optional`.
pub(crate) fn oneof_place(field: &FieldDescriptorProto) -> Option<usize> {
    match field.oneof_index {
        Some(index) if !field.proto3_optional => usize::try_from(index).ok(),
        _ => None,
    }
}
