//! Required fields that a message lacks.
use crate::field_name::shown_name;
use crate::number::number_type;
use std::alloc::{AllocError, Global};
use std::collections::BTreeMap;
use wire_codec::WireType;
use wire_dynamic::{Field, Kind, Schema, Walk};
use wire_read::{Value, laws};

/// What looks for required fields that messages lack.
#[derive(Drop)]
pub(crate) struct Missing<'s> {
    alloc: Global,
    schema: &'s Schema,
    // Whether a message of the type at a place, or one in it, may lack a field.
    may_lack: Vec<bool>,
}

// The records of a field: none of which more is to be known, or the bytes of messages, those of a
// single one joined.
type Parts = BTreeMap<u32, Vec<Vec<u8>>>;

impl<'s> Missing<'s> {
    /// What looks for required fields of this schema.
    pub(crate) fn of(alloc: Global, schema: &'s Schema) -> Result<Missing<'s>, AllocError> {
        let count = schema.message_places().len();
        let mut may_lack = vec![in alloc; false; count]?;
        // Each turn but the last finds one type more.
        for _ in 0..count {
            if !find_more(schema, &mut may_lack) {
                break;
            }
        }
        Ok(Missing {
            alloc,
            schema,
            may_lack,
        })
    }

    /// The paths of the required fields that a message of the type at a place lacks, in which so
    /// many levels may stand, with a comma between them.
    pub(crate) fn in_message(
        &self,
        place: usize,
        depth: u32,
        bytes: &[u8],
    ) -> Result<String, AllocError> {
        let mut paths = String::new(self.alloc);
        self.put_paths(&mut paths, place, depth, "", bytes)?;
        Ok(paths)
    }

    // Puts the paths of what a message lacks, each behind this one. It calls itself for messages in
    // it, within the depth.
    fn put_paths(
        &self,
        paths: &mut String,
        place: usize,
        depth: u32,
        path: &str,
        bytes: &[u8],
    ) -> Result<(), AllocError> {
        if !self.may_lack(place) {
            return Ok(());
        }
        let Some(message) = self.schema.message(place) else {
            return Ok(());
        };
        let parts = self.parts(place, depth, bytes)?;
        for (number, field) in message.fields() {
            if field.is_required && !parts.contains_key(number) {
                put_path(paths, path, shown_name(field))?;
            }
        }
        if depth == 0 {
            return Ok(());
        }
        for (number, field) in message.fields() {
            let (Some(inner), Some(messages)) = (message_place(field.kind), parts.get(number))
            else {
                continue;
            };
            for (index, message) in messages.iter().enumerate() {
                let step = self.step(path, field, index)?;
                self.put_paths(paths, inner, depth - 1, &step, message)?;
            }
        }
        Ok(())
    }

    fn may_lack(&self, place: usize) -> bool {
        self.may_lack.get(place) == Some(&true)
    }

    // The path of a message in one of this path, with a dot behind it.
    fn step(&self, path: &str, field: &Field, index: usize) -> Result<String, AllocError> {
        let name = shown_name(field);
        if field.is_repeated {
            format!(in self.alloc; "{path}{name}[{index}].")
        } else {
            format!(in self.alloc; "{path}{name}.")
        }
    }

    // The records of each field of a message that fit it by their wire type.
    fn parts(&self, place: usize, depth: u32, bytes: &[u8]) -> Result<Parts, AllocError> {
        laws::reader_moves_on();
        let mut parts = BTreeMap::new(self.alloc);
        let mut walk = Walk::new(self.schema, place, depth);
        let mut group_start = 0;
        while let Ok(Some(told)) = walk.next(bytes) {
            let groups = walk.reader().open_groups().len();
            let Some(field) = told.field else {
                continue;
            };
            match told.event.value {
                Value::GroupStart if groups == 1 => group_start = told.event.end,
                Value::GroupEnd if groups == 0 => {
                    if let Kind::Group(_) = field.kind {
                        let body = bytes.get(group_start..told.event.start).unwrap_or(&[]);
                        self.add(&mut parts, field, body)?;
                    }
                }
                Value::GroupStart | Value::GroupEnd => {}
                Value::Bytes(payload) if groups == 0 && takes_bytes(field) => {
                    self.add(&mut parts, field, payload)?;
                }
                value if groups == 0 && is_number_of(field.kind, value) => {
                    self.add(&mut parts, field, &[])?;
                }
                _ => {}
            }
        }
        Ok(parts)
    }

    // Adds a record of a field: bytes of a message where it is one that may lack fields.
    fn add(&self, parts: &mut Parts, field: &Field, bytes: &[u8]) -> Result<(), AllocError> {
        let may_lack = message_place(field.kind).is_some_and(|place| self.may_lack(place));
        let messages = match parts.remove(&field.number) {
            Some(messages) => messages,
            None => Vec::new(self.alloc),
        };
        let messages = if may_lack {
            self.with_message(messages, field, bytes)?
        } else {
            messages
        };
        parts.insert(field.number, messages)?;
        Ok(())
    }

    // The same messages and one more, which is joined to the one before where there may be but one.
    fn with_message(
        &self,
        mut messages: Vec<Vec<u8>>,
        field: &Field,
        bytes: &[u8],
    ) -> Result<Vec<Vec<u8>>, AllocError> {
        if !field.is_repeated
            && let Some(message) = messages.last_mut()
        {
            message.extend_from_slice(bytes)?;
            return Ok(messages);
        }
        messages.push(Vec::from_slice(self.alloc, bytes)?)?;
        Ok(messages)
    }
}

// Finds types that may lack a field, or of which a message in them may; whether there were any.
fn find_more(schema: &Schema, may_lack: &mut [bool]) -> bool {
    let mut has_more = false;
    for place in 0..may_lack.len() {
        let Some(message) = schema.message(place) else {
            continue;
        };
        let lacks = message.fields().values().any(|field| {
            field.is_required
                || message_place(field.kind).is_some_and(|it| may_lack.get(it) == Some(&true))
        });
        if lacks && !may_lack[place] {
            may_lack[place] = true;
            has_more = true;
        }
    }
    has_more
}

// The place of the type of a field that is a message or a group.
fn message_place(kind: Kind) -> Option<usize> {
    match kind {
        Kind::Message(place) | Kind::Group(place) => Some(place),
        _ => None,
    }
}

// Whether bytes can be of a field.
fn takes_bytes(field: &Field) -> bool {
    match field.kind {
        Kind::Text | Kind::Blob | Kind::Message(_) => true,
        kind => field.is_repeated && number_type(kind).is_some(),
    }
}

// Whether a value is a number of a kind.
fn is_number_of(kind: Kind, value: Value<'_>) -> bool {
    let wire_type = match value {
        Value::Varint(_) => WireType::Varint,
        Value::Fixed64(_) => WireType::Fixed64,
        Value::Fixed32(_) => WireType::Fixed32,
        _ => return false,
    };
    number_type(kind) == Some(wire_type)
}

fn put_path(paths: &mut String, path: &str, name: &str) -> Result<(), AllocError> {
    if !paths.is_empty() {
        paths.push_str(", ")?;
    }
    paths.push_str(path)?;
    paths.push_str(name)
}
