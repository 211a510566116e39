//! Maps by which message types hold themselves or one another, and those of which there are structs
//! for C: such a map is a list of its entries, and these are messages of a type of their own.
use crate::error::GenerateError;
use crate::graph::{filled, put_at};
use crate::message_type::MessageType;
use crate::schema::Schema;
use crate::type_names::rename;
use crate::words::Words;

impl Schema {
    /// Makes the types of the entries of such maps message types.
    pub(crate) fn open_entries(&mut self, base: &Words) -> Result<(), GenerateError> {
        let mut is_open = self.round_entries()?;
        if !base.get("c").is_empty() {
            self.open_own(&mut is_open);
        }
        let entries = std::mem::replace(&mut self.entries, Vec::new(self.alloc));
        self.places.clear_entries();
        for (entry, is_open) in entries.into_iter().zip(is_open) {
            if is_open {
                self.open_entry(entry)?;
            } else {
                let full = entry.words.get("full");
                self.places.add_entry(full, self.entries.len())?;
                self.entries.push(entry)?;
            }
        }
        Ok(())
    }

    // Whether the values of each type of entries lead back to the message with the map.
    fn round_entries(&self) -> Result<Vec<bool>, GenerateError> {
        let components = self.held_by_each()?.components()?;
        let mut is_round = filled(self.alloc, self.entries.len(), false)?;
        for (holder, message) in self.messages.iter().enumerate() {
            for field in &message.descriptor.field {
                let held = self.places.message(self.held(field));
                if let (Some(entry), Some(held)) = (self.places.entry(&field.type_name), held) {
                    if components.get(holder) == components.get(held) {
                        put_at(&mut is_round, entry, true);
                    }
                }
            }
        }
        Ok(is_round)
    }

    // Opens all that are generated, but those with values of a closed enum: such a map leaves whole
    // entries to the unknown fields.
    fn open_own(&self, is_open: &mut [bool]) {
        for (entry, flag) in self.entries.iter().zip(is_open.iter_mut()) {
            let is_left = entry
                .descriptor
                .field
                .iter()
                .any(|it| self.is_of_closed_enum(it));
            *flag |= entry.origin.is_own && !is_left;
        }
    }

    // Makes it a message type, whose key is there always.
    fn open_entry(&mut self, mut entry: MessageType) -> Result<(), GenerateError> {
        let home = String::from_str(self.alloc, entry.words.get("home"))?;
        rename(&mut entry.words, &home, &mut self.names)?;
        entry.be_implicit();
        let full = entry.words.get("full");
        self.places.add_message(full, self.messages.len())?;
        self.messages.push(entry)?;
        Ok(())
    }
}
