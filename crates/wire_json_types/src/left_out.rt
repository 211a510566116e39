//! Which messages have no JSON, and why.
use crate::members::described;
use crate::well_known::{CRATE, has_rule, is_null_value, is_well_known};
use wire_schema::{Field, MessageType, Schema, Words};

// The most fields of a message.
const MOST_FIELDS: usize = 80;

/// Why a message of these fields has no JSON: the field that it can't have, as the schema calls it,
/// or nothing where it is the message, and what that is. The crates and modules of the messages that
/// have JSON are between spaces, with a stroke between them.
pub fn reason<'a>(
    message: &'a MessageType,
    schema: &Schema,
    fields: &'a [Field],
    there: &str,
) -> Option<(&'a str, &'static str)> {
    if message.is_recursive || message.family.is_some() {
        return Some(("", "it holds itself, or others that hold it"));
    }
    if has_rule(message.words.get("full")) {
        return Some((
            "",
            "the mapping has a rule of its own for it, which is not generated",
        ));
    }
    if fields.len() > MOST_FIELDS {
        return Some(("", "it has more than 80 fields"));
    }
    let name = message.words.get("name");
    if is_called_as_library(name) || is_called_as_json(name, schema) {
        return Some((
            "",
            "it is called as a type of the library, or as the JSON of another",
        ));
    }
    for field in fields {
        let why = match &field.oneof {
            None => why_not(message, schema, &field.words, there),
            Some(oneof) if is_called_as_library(oneof.words.get("name")) => OF_LIBRARY,
            Some(oneof) => match why_no_member(message, schema, &oneof.variants, there) {
                None => "",
                why => return why,
            },
        };
        if !why.is_empty() {
            return Some((field.words.get("proto"), why));
        }
    }
    None
}

const OF_LIBRARY: &str = "called as a type of the library";

fn why_no_member<'a>(
    message: &MessageType,
    schema: &Schema,
    members: &'a [Words],
    there: &str,
) -> Option<(&'a str, &'static str)> {
    for words in members {
        match why_not(message, schema, words, there) {
            "" => {}
            why => return Some((words.get("proto"), why)),
        }
    }
    None
}

// What a field is that has no JSON, or nothing where it has.
fn why_not(message: &MessageType, schema: &Schema, words: &Words, there: &str) -> &'static str {
    let Some(descriptor) = described(&message.descriptor, words) else {
        return "a field of another kind";
    };
    let is_plain = |it: char| it.is_ascii_graphic() && it != '"' && it != '\\';
    if descriptor.json_name.is_empty() || !descriptor.json_name.chars().all(is_plain) {
        return "of a name in JSON that is empty, or has other signs than those of ASCII";
    }
    why_no_type(schema, words, there)
}

// What a field of this type is that has no JSON, or nothing where it has, or is a scalar.
fn why_no_type(schema: &Schema, words: &Words, there: &str) -> &'static str {
    let name = words.get("of_name");
    if name.is_empty() {
        return "";
    }
    if is_called_as_library(name) || is_called_as_json(name, schema) {
        return "of a type that is called as one of the library, or its JSON as another type";
    }
    if is_well_known(words) {
        return "";
    }
    if words.get("of_crate") == CRATE || is_null(schema, words) {
        return "of a well-known type that has no JSON";
    }
    let is_enum = words.get("kind").contains("Enum<");
    if !is_enum && !is_there(words, there) {
        return "a message that has no JSON";
    }
    ""
}

// Whether the message of a field is one of these, each a crate and a module with a stroke between.
fn is_there(words: &Words, there: &str) -> bool {
    there.split(' ').any(|it| match it.split_once('/') {
        Some((home, module)) => home == words.get("of_crate") && module == words.get("of_module"),
        None => false,
    })
}

// Whether a field is of the enum that is `null` in JSON.
fn is_null(schema: &Schema, words: &Words) -> bool {
    schema.enums.iter().any(|it| {
        is_null_value(it.words.get("full"))
            && it.words.get("name") == words.get("of_name")
            && it.words.get("home") == words.get("of_crate")
    })
}

// Whether a type is called as the JSON of the type of this name.
fn is_called_as_json(name: &str, schema: &Schema) -> bool {
    let is_json = |other: &str| other.strip_prefix(name) == Some("Json");
    schema
        .messages
        .iter()
        .any(|it| is_json(it.words.get("name")))
        || schema.enums.iter().any(|it| is_json(it.words.get("name")))
}

fn is_called_as_library(name: &str) -> bool {
    TYPES.split(' ').any(|it| it == name)
}

// Types that each module has.
const TYPES: &str = "Both Boxed Chosen ChoiceComesBack ClosedNamed ClosedNumbered ComesBack Either \
    EitherSays EitherTrees EnumName EnumNamed EnumNumbered EnumTable FieldMeans FieldName \
    JsonChoice JsonMessage JsonNames JsonPart JsonValue AreNoMembers IsAnyNothing ListMeans \
    MapMeans Maybe Members MembersSay Names NoField PartComesBack Parts PlacedMember ReadError \
    SayNothing SayOne WriteError";
