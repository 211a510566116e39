//! What the fields of a message are called, and its oneofs.
use crate::error::GenerateError;
use crate::message_type::oneof_place;
use crate::names::{apart, word_name};
use std::alloc::Global;
use wire_descriptor::{DescriptorProto, FieldDescriptorProto};

/// The names of the fields in the order of the schema, and of the oneofs by their places. No two
/// fields of the struct have one name, a oneof being one, nor two fields of the schema.
#[derive(Drop)]
pub(crate) struct FieldNames {
    pub fields: Vec<String>,
    oneofs: Vec<(usize, String)>,
    // Those of the struct.
    held: Vec<String>,
    // Those of the schema, and of the oneofs.
    all: Vec<String>,
}

impl FieldNames {
    pub(crate) fn of(
        alloc: Global,
        message: &DescriptorProto,
    ) -> Result<FieldNames, GenerateError> {
        let mut names = FieldNames {
            fields: Vec::new(alloc),
            oneofs: Vec::new(alloc),
            held: Vec::new(alloc),
            all: Vec::new(alloc),
        };
        for field in &message.field {
            names.add(alloc, message, field)?;
        }
        Ok(names)
    }

    // The name of one field more; a oneof stands before its first field.
    fn add(
        &mut self,
        alloc: Global,
        message: &DescriptorProto,
        field: &FieldDescriptorProto,
    ) -> Result<(), GenerateError> {
        let name = word_name(alloc, &field.name)?;
        let name = match oneof_place(field) {
            Some(place) => {
                self.add_oneof(alloc, message, place)?;
                apart(alloc, name, &self.fields)?
            }
            None => {
                let name = apart(alloc, name, &self.all)?;
                self.held.push(name.clone()?)?;
                name
            }
        };
        self.all.push(name.clone()?)?;
        self.fields.push(name)?;
        Ok(())
    }

    fn add_oneof(
        &mut self,
        alloc: Global,
        message: &DescriptorProto,
        place: usize,
    ) -> Result<(), GenerateError> {
        let is_known = self.oneofs.iter().any(|(of, _)| *of == place);
        let Some(descriptor) = message.oneof_decl.get(place) else {
            return Ok(());
        };
        if !is_known {
            let name = apart(alloc, word_name(alloc, &descriptor.name)?, &self.held)?;
            self.held.push(name.clone()?)?;
            self.all.push(name.clone()?)?;
            self.oneofs.push((place, name))?;
        }
        Ok(())
    }

    /// The name of the oneof that a field is of.
    pub(crate) fn of_oneof(&self, field: &FieldDescriptorProto) -> &str {
        let place = oneof_place(field);
        match self.oneofs.iter().find(|(of, _)| Some(*of) == place) {
            Some((_, name)) => name,
            None => "",
        }
    }
}
