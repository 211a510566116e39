//! Views of messages: what they are called, and which of them are written.
use crate::error::GenerateError;
use crate::message_type::MessageType;
use crate::names::{free_name, module_name};
use crate::schema::Schema;
use crate::type_names::TypeNames;
use crate::words::{Template, Words};
use std::alloc::Global;

impl Schema {
    /// Names the view of each type, where views are asked for: the words `view_name` and
    /// `view_module`, and `view_written` where it can be written; and that of a oneof of which some
    /// variants are messages of the type itself or of its family: `choice_view` and
    /// `choice_view_module`. The types of a crate that is named have views there.
    pub(crate) fn find_views(&mut self, base: &Words) -> Result<(), GenerateError> {
        if base.get("views").is_empty() {
            return Ok(());
        }
        self.find_written()?;
        for message in &mut self.messages {
            if !message.words.get("home").is_empty() {
                name_view(message, &mut self.names)?;
            }
        }
        for message in &mut self.messages {
            if !message.words.get("choice").is_empty() {
                name_choice_view(message, &self.names)?;
            }
        }
        Ok(())
    }

    // Tells each type whether a view of it can be written: where it has no map, whose entries a view
    // holds as they came, does not hold itself, and holds no message of a type that does or has one.
    fn find_written(&mut self) -> Result<(), GenerateError> {
        let mut flags = Vec::new(self.alloc);
        for message in &self.messages {
            let mut fields = message.descriptor.field.iter();
            let has_map = fields.any(|it| self.entry(&it.type_name).is_some());
            flags.push(!has_map && !message.is_recursive)?;
        }
        self.held_by_each()?.spread(&mut flags)?;
        for (message, is_written) in self.messages.iter_mut().zip(flags) {
            let written = if is_written { "yes" } else { "" };
            message.words.set("view_written", written);
            message.words.ended()?;
        }
        Ok(())
    }
}

// Names the view of a type.
fn name_view(message: &mut MessageType, names: &mut TypeNames) -> Result<(), GenerateError> {
    let words = &mut message.words;
    let alloc = words.alloc();
    let view = view_of(alloc, words.get("name"))?;
    let name = names.given(words.get("home"), &view)?;
    words.set("view_module", &module_name(alloc, &name)?);
    words.set("view_name", &name);
    words.ended()
}

// Names that of its oneof of which some variants are rows.
fn name_choice_view(message: &mut MessageType, names: &TypeNames) -> Result<(), GenerateError> {
    let words = &mut message.words;
    let alloc = words.alloc();
    let view = view_of(alloc, words.get("choice"))?;
    let name = names.beside(words.get("home"), &view)?;
    words.set("choice_view_module", &module_name(alloc, &name)?);
    words.set("choice_view", &name);
    words.ended()
}

// The words of a oneof as a field of a view.
const ONEOF: [Template; 5] = [
    ("view_held", "Option<$view_name$<'a>>"),
    ("view_kind", "$view_kind_name$<'a>"),
    ("view_seen", "$module$-view_of m.$field$"),
    (
        "view_code",
        "crate::$view_module$ $view_name$\ncrate::$view_module$ $view_kind_name$\n",
    ),
    ("view_definitions", "$specs$ $module$-view_of\n"),
];

/// Names the view of a oneof whose message has one, and its kind, and sets the words of its field.
pub(crate) fn set_oneof_view(
    schema: &Schema,
    message: &MessageType,
    words: &mut Words,
) -> Result<(), GenerateError> {
    if message.words.get("view_name").is_empty() {
        return Ok(());
    }
    let name = schema.oneof_view(words.get("whole"), words.get("name"))?;
    words.set("view_module", &module_name(words.alloc(), &name)?);
    words.set("view_name", &name);
    words.set("view_written", message.words.get("view_written"));
    words.fill("view_kind_name", "$view_name$Kind");
    let kind_name = schema
        .names
        .beside(words.get("whole"), words.get("view_kind_name"))?;
    words.set("view_kind_name", &kind_name);
    words.fill_all(&ONEOF);
    Ok(())
}

impl Schema {
    /// What the view of a oneof of this name is called.
    pub fn oneof_view(&self, of_crate: &str, name: &str) -> Result<String, GenerateError> {
        self.names.beside(of_crate, &view_of(self.alloc, name)?)
    }
}

// What the view of a type of this name is called, if nothing else is.
fn view_of(alloc: Global, name: &str) -> Result<String, GenerateError> {
    let mut view = String::from_str(alloc, name.trim_end_matches('_'))?;
    view.push_str("View")?;
    free_name(view)
}
