//! Where the types of a schema stand, by their names.
use crate::error::GenerateError;
use std::alloc::Global;
use std::collections::BTreeMap;

/// The place of each message type, each type of entries, each enum and each comment among those of
/// its sort: of each type by its full name, of a comment by what it stands before. Of several with
/// one name it is that of the first.
#[derive(Drop)]
pub(crate) struct Places {
    alloc: Global,
    messages: BTreeMap<String, usize>,
    entries: BTreeMap<String, usize>,
    enums: BTreeMap<String, usize>,
    comments: BTreeMap<String, usize>,
}

impl Places {
    /// None yet.
    pub(crate) fn new(alloc: Global) -> Places {
        Places {
            alloc,
            messages: BTreeMap::new(alloc),
            entries: BTreeMap::new(alloc),
            enums: BTreeMap::new(alloc),
            comments: BTreeMap::new(alloc),
        }
    }

    pub(crate) fn message(&self, full: &str) -> Option<usize> {
        self.messages.get(full).copied()
    }

    pub(crate) fn entry(&self, full: &str) -> Option<usize> {
        self.entries.get(full).copied()
    }

    pub(crate) fn enum_of(&self, full: &str) -> Option<usize> {
        self.enums.get(full).copied()
    }

    pub(crate) fn comment(&self, place: &str) -> Option<usize> {
        self.comments.get(place).copied()
    }

    pub(crate) fn add_message(&mut self, full: &str, place: usize) -> Result<(), GenerateError> {
        add(self.alloc, &mut self.messages, full, place)
    }

    pub(crate) fn add_entry(&mut self, full: &str, place: usize) -> Result<(), GenerateError> {
        add(self.alloc, &mut self.entries, full, place)
    }

    /// As if no type of entries had been added.
    pub(crate) fn clear_entries(&mut self) {
        self.entries.clear();
    }

    pub(crate) fn add_enum(&mut self, full: &str, place: usize) -> Result<(), GenerateError> {
        add(self.alloc, &mut self.enums, full, place)
    }

    pub(crate) fn add_comment(&mut self, before: &str, place: usize) -> Result<(), GenerateError> {
        add(self.alloc, &mut self.comments, before, place)
    }
}

// Keeps the place of a name that has none yet.
fn add(
    alloc: Global,
    places: &mut BTreeMap<String, usize>,
    name: &str,
    place: usize,
) -> Result<(), GenerateError> {
    if places.get(name).is_none() {
        places.insert(String::from_str(alloc, name)?, place)?;
    }
    Ok(())
}
