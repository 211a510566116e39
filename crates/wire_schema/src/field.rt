//! Fields of a message type, each with its kind.
use crate::closed::set_closed;
use crate::default::set_default;
use crate::error::GenerateError;
use crate::features::{Features, is_required};
use crate::field_names::FieldNames;
use crate::item::{Sort, set_item};
use crate::keeping::{leave_others, set_keeping, set_types};
use crate::kind::{set_always, set_key, set_kind, set_map};
use crate::message_type::MessageType;
use crate::names::{variant_name, word_name};
use crate::oneof::{Oneof, add_variant, is_new, oneof_of};
use crate::schema::Schema;
use crate::view_field::{set_key_view, set_variant_view};
use crate::words::{Template, Words};
use std::alloc::Global;
use wire_descriptor::{DescriptorProto, FieldDescriptorProto};

const LABEL_REPEATED: i32 = 3;

/// A field. Its words are those of its kind, and `field`, its name in code; `at`, its place among
/// the fields of its descriptor; its `number`, and the `numbers` of all, where it is a oneof; its
/// part of the `table`, and the `step` of its records; whether it is `needed`, as required; and
/// whether it is `of_requiring`, of a message that has required fields, or holds such.
#[derive(Drop)]
pub struct Field {
    pub words: Words,
    /// The fields of a oneof.
    pub oneof: Option<Oneof>,
}

/// The fields of a message type, in the order of their numbers.
pub fn fields_of(
    base: &Words,
    schema: &Schema,
    message: &MessageType,
) -> Result<Vec<Field>, GenerateError> {
    let alloc = base.alloc();
    let mut order: Vec<(i32, usize)> = Vec::new(alloc);
    for (place, field) in message.descriptor.field.iter().enumerate() {
        order.push((field.number, place))?;
    }
    order.sort()?;
    let names = FieldNames::of(alloc, &message.descriptor)?;
    let mut fields = Vec::new(alloc);
    for (_, place) in order {
        let name = names.fields.get(place);
        if let (Some(field), Some(name)) = (message.descriptor.field.get(place), name) {
            let mut words = started(base, &message.words, field)?;
            words.set("field", name);
            words.index("at", place);
            add_field(base, words, schema, message, &names, field, &mut fields)?;
        }
    }
    leave_others(&mut fields);
    Ok(fields)
}

// Puts a field behind others, or into its oneof.
fn add_field(
    base: &Words,
    mut words: Words,
    schema: &Schema,
    message: &MessageType,
    names: &FieldNames,
    field: &FieldDescriptorProto,
    fields: &mut Vec<Field>,
) -> Result<(), GenerateError> {
    let features = features_of(message.origin.features, field, &mut words)?;
    if schema.is_requiring(field) {
        words.set("of_requiring", "requiring");
    }
    let index = match field.oneof_index {
        Some(index) if !field.proto3_optional => index,
        _ => {
            fields.push(field_of(words, schema, features, field)?)?;
            return Ok(());
        }
    };
    let variant = variant_of(words, schema, features, field)?;
    if is_new(fields, index) {
        let name = names.of_oneof(field);
        fields.push(oneof_of(base, schema, message, index, name)?)?;
    }
    add_variant(index, variant, schema.holds_own(message, field), fields)
}

// The numbers that a closed enum lacks go to the unknown fields.
fn stop_on_closed(words: &mut Words) -> Result<(), GenerateError> {
    let is_plain = words.get("unknown") == "keep" && words.get("mismatch") == "refuse";
    if is_plain || words.get("closed").is_empty() {
        return Ok(());
    }
    let why = "$full$.$proto$: closed enums are not generated with unknown=drop or mismatch=keep";
    Err(words.refused(why))
}

/// The features of a field of a message, or of an extension. Where it is a required one the word
/// `needed` says so.
pub fn features_of(
    outer: Features,
    field: &FieldDescriptorProto,
    words: &mut Words,
) -> Result<Features, GenerateError> {
    let features = match &field.options {
        Some(options) => outer.with(options.features.as_deref(), words)?,
        None => outer,
    };
    if is_required(field) && words.get("required") != "optional" {
        words.set("needed", "needed");
    }
    Ok(features)
}

/// The words of a field but for those of its values.
pub fn started(
    base: &Words,
    message: &Words,
    field: &FieldDescriptorProto,
) -> Result<Words, GenerateError> {
    let mut words = Words::like(base);
    words.copy(message, &["full", "name", "module", "member"]);
    words.set("proto", &field.name);
    words.set("field", &word_name(base.alloc(), &field.name)?);
    words.number("number", field.number);
    words.fill("numbers", "$number$");
    Ok(words)
}

fn field_of(
    mut words: Words,
    schema: &Schema,
    features: Features,
    field: &FieldDescriptorProto,
) -> Result<Field, GenerateError> {
    set_field(schema, features, field, &mut words)?;
    words.fill_all(&PLAIN);
    stop_on_closed(&mut words)?;
    if !words.get("closed").is_empty() {
        set_closed(&mut words);
    } else if words.get("mismatch") == "keep" {
        set_keeping(&mut words);
    }
    Ok(Field { words, oneof: None })
}

/// Sets the words of the kind of a field, as an open one where it is of a closed enum.
pub fn set_field(
    schema: &Schema,
    features: Features,
    field: &FieldDescriptorProto,
    words: &mut Words,
) -> Result<(), GenerateError> {
    let entry = match field.type_ {
        11 => schema.entry(&field.type_name),
        _ => None,
    };
    match entry {
        Some(entry) => {
            set_size("of_entry", entry_size(schema, &entry.descriptor), words);
            words.set("entry_part", "key");
            set_part(schema, features, &entry.descriptor, 1, words)?;
            words.set("entry_part", "value");
            set_key(words);
            set_key_view(words);
            let sort = set_part(schema, features, &entry.descriptor, 2, words)?;
            set_map(sort, words);
            words.set("wire_type", "LengthDelimited");
            set_types(false, words);
        }
        None => {
            let sort = set_item(schema, features, field, words)?;
            set_default(schema, field, words)?;
            set_size("size", element_size(schema, field), words);
            set_kind(features, field, sort, words);
            let is_number = matches!(sort, Sort::Number);
            set_types(is_number && field.label == LABEL_REPEATED, words);
        }
    }
    Ok(())
}

// The key, field 1, or the value, field 2, of a map's entries.
fn set_part(
    schema: &Schema,
    features: Features,
    entry: &DescriptorProto,
    number: i32,
    words: &mut Words,
) -> Result<Sort, GenerateError> {
    let Some(field) = entry.field.iter().find(|it| it.number == number) else {
        return Err(words.refused("$full$: a map whose entries lack a field"));
    };
    // (entries are length-prefixed, and so are messages in them)
    set_item(schema, features.prefixed(), field, words)
}

fn variant_of(
    mut words: Words,
    schema: &Schema,
    features: Features,
    field: &FieldDescriptorProto,
) -> Result<Words, GenerateError> {
    let sort = set_item(schema, features, field, &mut words)?;
    set_default(schema, field, &mut words)?;
    stop_on_closed(&mut words)?;
    set_always(sort, &mut words);
    set_variant_view(&mut words);
    set_types(false, &mut words);
    let alloc = words.alloc();
    let is_own = words.get("field") == word_name(alloc, &field.name)?.as_str();
    let variant = if is_own {
        variant_name(alloc, &field.name)?
    } else {
        variant_name(alloc, words.get("field"))?
    };
    words.set("variant", &variant);
    // (a clause has one name for one thing)
    if words.get("kind").starts_with("Enum<") && words.get("variant") == words.get("of_name") {
        words.append("variant", "_");
    }
    words.fill_all(&[("word", "$field$"), ("digits", "$number$")]);
    Ok(words)
}

// A field that leaves nothing to the unknown fields, as all but those of closed enums.
const PLAIN: [Template; 9] = [
    ("own_range", "$range$"),
    ("range", "$module$-$field$-range"),
    (
        "returned",
        "known_returned g $number$ $module$-$field$-kind $module$-$field$-range\n    \
        (omega arith) (omega arith)\n    ($kind_returned$)",
    ),
    (
        "stays",
        "known_stays $number$ $module$-$field$-kind\n    ($kind_stays$)",
    ),
    ("apart", "rw h refl"),
    ("table", "known $number$ $module$-$field$-kind"),
    ("step", "$module$-$field$-kind.kind.takes"),
    ("sort", "Lawful"),
    ("call", "merge"),
];

// What an element is charged: so many bytes, if no parameter says how many.
fn set_size(word: &'static str, size: i32, words: &mut Words) {
    words.number(word, size);
    if !words.get("element").is_empty() {
        words.fill(word, "$element$");
    }
}

// How many bytes an entry of a map takes: its key, its value and its place, each rounded up.
fn entry_size(schema: &Schema, entry: &DescriptorProto) -> i32 {
    let mut size: i32 = 24;
    for part in &entry.field {
        size = size.saturating_add(match part.type_ {
            11 => element_size(schema, part),
            _ => size_of(part),
        });
    }
    size
}

// How many bytes a message of this field takes where it stands in a list: those of its fields and
// of its unknown fields, each rounded up.
fn element_size(schema: &Schema, field: &FieldDescriptorProto) -> i32 {
    let mut size: i32 = 24;
    if let Some(message) = schema.message(&field.type_name) {
        for field in &message.descriptor.field {
            size = size.saturating_add(size_of(field));
        }
    }
    size
}

fn size_of(field: &FieldDescriptorProto) -> i32 {
    match (field.label, field.type_) {
        (LABEL_REPEATED, _) | (_, 9 | 12) => 24,
        (_, 10 | 11) => 8,
        _ => 16,
    }
}
