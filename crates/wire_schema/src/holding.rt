//! Which message types hold one another or themselves, and what follows for those that hold such.
use crate::error::GenerateError;
use crate::features::is_required;
use crate::graph::{Graph, filled, put_at};
use crate::message_type::{MessageType, oneof_place};
use crate::names::module_name;
use crate::schema::Schema;
use crate::words::Words;
use std::alloc::Global;
use wire_descriptor::FieldDescriptorProto;

impl Schema {
    /// Which message types hold themselves, and which hold one another: each tells the place of the
    /// first of its family, by their modules.
    pub(crate) fn find_families(&mut self) -> Result<(), GenerateError> {
        let held = self.held_by_each()?;
        for (place, family) in self.families(&held)?.iter().enumerate() {
            if let Some(message) = self.messages.get_mut(place) {
                message.family = *family;
                message.is_recursive = held.from(place).contains(&place);
            }
        }
        self.number_members()?;
        self.find_choices()
    }

    // Tells each type of which oneofs some variants are messages of the type itself or of its
    // family: the word `choice`, what the type of such a oneof is called, and `choice_module`; where
    // there are several, the word `choices`.
    fn find_choices(&mut self) -> Result<(), GenerateError> {
        let mut found: Vec<(usize, Words)> = Vec::new(self.alloc);
        for (holder, message) in self.messages.iter().enumerate() {
            for field in &message.descriptor.field {
                if let (Some(place), true) = (oneof_place(field), self.holds_own(message, field)) {
                    found.push((holder, choice_of(self.alloc, message, place)?))?;
                }
            }
        }
        for (holder, words) in found {
            if let Some(message) = self.messages.get_mut(holder) {
                tell_choice(&mut message.words, &words);
            }
        }
        Ok(())
    }

    /// Whether a field that is no map holds messages of its message's own type, or of its family.
    pub(crate) fn holds_own(&self, message: &MessageType, field: &FieldDescriptorProto) -> bool {
        let full = message.words.get("full");
        match self.message(&field.type_name) {
            Some(held) if held.words.get("full") == full => message.is_recursive,
            Some(held) => message.family.is_some() && held.family == message.family,
            None => false,
        }
    }

    // The place of the first of its family for each type that is of one.
    fn families(&self, held: &Graph) -> Result<Vec<Option<usize>>, GenerateError> {
        let components = held.components()?;
        let mut counts: Vec<usize> = filled(self.alloc, components.len(), 0)?;
        let mut firsts: Vec<Option<usize>> = filled(self.alloc, components.len(), None)?;
        for (place, component) in components.iter().enumerate() {
            let first = firsts.get(*component).copied().unwrap_or(None);
            put_at(&mut firsts, *component, self.earlier(first, place));
            let count = counts.get(*component).copied().unwrap_or(0);
            put_at(&mut counts, *component, count.saturating_add(1));
        }
        let mut families = Vec::new(self.alloc);
        for component in &components {
            let count = counts.get(*component).copied().unwrap_or(0);
            let first = firsts.get(*component).copied().unwrap_or(None);
            families.push(if count > 1 { first } else { None })?;
        }
        Ok(families)
    }

    // Of two places the one whose module comes first.
    fn earlier(&self, first: Option<usize>, place: usize) -> Option<usize> {
        match first {
            Some(first) if self.order(first) <= self.order(place) => Some(first),
            _ => Some(place),
        }
    }

    // By what a type comes before others of its family.
    fn order(&self, place: usize) -> (&str, usize) {
        match self.messages.get(place) {
            Some(message) => (message.words.get("module"), place),
            None => ("", place),
        }
    }

    // Tells each type of a family its place there, by their modules.
    fn number_members(&mut self) -> Result<(), GenerateError> {
        let mut members = Vec::new(self.alloc);
        for (place, message) in self.messages.iter().enumerate() {
            if let Some(family) = message.family {
                let module = String::from_str(self.alloc, message.words.get("module"))?;
                members.push((family, module, place))?;
            }
        }
        members.sort()?;
        let mut last = None;
        let mut index: usize = 0;
        for (family, _, place) in members {
            index = if last == Some(family) {
                index.saturating_add(1)
            } else {
                0
            };
            last = Some(family);
            if let Some(message) = self.messages.get_mut(place) {
                message.words.index("index", index);
                message.words.fill("member", "$index$ ∷ ");
            }
        }
        Ok(())
    }

    /// The clone of a message that holds itself, or others that hold it, says nothing of the copy,
    /// nor does that of what holds such a message.
    pub(crate) fn find_twins(&mut self) -> Result<(), GenerateError> {
        let mut flags = self.flags(true)?;
        for (message, flag) in self.messages.iter().zip(flags.iter_mut()) {
            *flag = !message.is_recursive && message.family.is_none();
        }
        self.held_by_each()?.spread(&mut flags)?;
        for (message, flag) in self.messages.iter_mut().zip(flags) {
            message.is_twin = flag;
        }
        Ok(())
    }

    /// Which types leave entries of maps to their unknown fields, or hold such a type: what is read
    /// back of these follows from what such a record is charged.
    pub(crate) fn find_charged(&mut self) -> Result<(), GenerateError> {
        let mut flags = Vec::new(self.alloc);
        for message in &self.messages {
            let mut fields = message.descriptor.field.iter();
            flags.push(!fields.any(|it| self.leaves_entries(it)))?;
        }
        self.held_by_each()?.spread(&mut flags)?;
        for (message, is_plain) in self.messages.iter_mut().zip(flags) {
            if !is_plain {
                message.words.set("charged", "charged");
            }
        }
        Ok(())
    }

    /// Which types have required fields, or hold messages of one that has, where these are looked
    /// at.
    pub(crate) fn find_required(&mut self, base: &Words) -> Result<(), GenerateError> {
        let mut flags = Vec::new(self.alloc);
        for message in &self.messages {
            flags.push(!message.descriptor.field.iter().any(is_required))?;
        }
        if base.get("required") == "optional" || flags.iter().all(|it| *it) {
            return Ok(());
        }
        self.held_by_each()?.spread(&mut flags)?;
        for (message, is_plain) in self.messages.iter_mut().zip(flags) {
            if !is_plain {
                message.words.set("requiring", "requiring");
            }
        }
        Ok(())
    }

    /// Whether a field holds a message that has required fields, or holds such a message.
    pub(crate) fn is_requiring(&self, field: &FieldDescriptorProto) -> bool {
        match self.message(self.held(field)) {
            Some(message) => !message.words.get("requiring").is_empty(),
            None => false,
        }
    }

    /// Whether the values of a field, those of a map too, are of a closed enum.
    pub(crate) fn is_of_closed_enum(&self, field: &FieldDescriptorProto) -> bool {
        match self.enum_of(self.held(field)) {
            Some(of_enum) => of_enum.origin.features.is_closed(),
            None => false,
        }
    }

    // Whether a field is a map with the values of a closed enum.
    fn leaves_entries(&self, field: &FieldDescriptorProto) -> bool {
        match self.entry(&field.type_name) {
            Some(_) => self.is_of_closed_enum(field),
            None => false,
        }
    }

    /// Whether a field holds a message of which what is read back follows from what is charged.
    pub(crate) fn is_charged(&self, field: &FieldDescriptorProto) -> bool {
        match self.message(self.held(field)) {
            Some(message) => !message.words.get("charged").is_empty(),
            None => false,
        }
    }

    // A flag for each message type.
    fn flags(&self, flag: bool) -> Result<Vec<bool>, GenerateError> {
        let mut flags = Vec::new(self.alloc);
        for _ in &self.messages {
            flags.push(flag)?;
        }
        Ok(flags)
    }

    // Which message types hold which, by their places.
    pub(crate) fn held_by_each(&self) -> Result<Graph, GenerateError> {
        let mut held = Graph::new(self.alloc, self.messages.len())?;
        for (holder, message) in self.messages.iter().enumerate() {
            for field in &message.descriptor.field {
                if let Some(place) = self.places.message(self.held(field)) {
                    held.lead(holder, place)?;
                }
            }
        }
        Ok(held)
    }

    // The message that a field holds, as values of a map too; nothing where it holds none.
    pub(crate) fn held<'a>(&'a self, field: &'a FieldDescriptorProto) -> &'a str {
        match self.entry(&field.type_name) {
            Some(entry) => match entry.descriptor.field.iter().find(|it| it.number == 2) {
                Some(value) => value.type_name.as_str(),
                None => "",
            },
            None => field.type_name.as_str(),
        }
    }
}

// What the type of the oneof at this place is called.
fn choice_of(alloc: Global, message: &MessageType, place: usize) -> Result<Words, GenerateError> {
    let mut words = Words::new(alloc);
    words.set("choice", message.oneof_name(place));
    let module = module_name(alloc, message.oneof_name(place))?;
    words.set("choice_module", &module);
    Ok(words)
}

// Tells a type of such a oneof.
fn tell_choice(message: &mut Words, words: &Words) {
    let is_new = message.get("choice") != words.get("choice");
    if is_new && !message.get("choice").is_empty() {
        message.set("choices", "several");
    }
    message.copy(words, &["choice", "choice_module"]);
}
