//! Which messages have no struct for C, and why.
use crate::struct_fields::is_c_word;
use crate::struct_numbers::is_of_numbers;
use wire_definitions::has_groups;
use wire_schema::{Field, GenerateError, MessageType, Oneof, Schema, Template, Words};

const LEFT: [Template; 2] = [
    ("left", " * - `$full$`: $why$;\n"),
    ("told_left", "wire_gen: no struct for `$full$`: $why$\n"),
];

// What a field is that a struct can't have, and how it can be had all the same.
const CLOSED: &str = "of a closed enum; enums=open takes its numbers as they are";

const CLOSED_MAP: &str = "a map of a closed enum; enums=open takes its numbers as they are";

const EACH: &str =
    "of messages that have lists, or no struct; encoded=$full$.$field$ takes each as bytes, and \
    encoded=inside all such";

const INSIDE: &str =
    "a message that has lists, or no struct; encoded=$full$.$field$ takes it as bytes, and \
    encoded=inside all such";

/// Says why a message has no struct, in the header and beside the answer: the first field that it
/// can't have, and what that is.
pub fn put_left_out(
    words: &mut Words,
    message: &MessageType,
    (field, what): (&str, &str),
) -> Result<(), GenerateError> {
    words.set("full", message.words.get("full").trim_start_matches('.'));
    words.set("field", field);
    words.fill("what", what);
    words.fill(
        "why",
        if field.is_empty() {
            "$what$"
        } else {
            "`$field$` is $what$"
        },
    );
    words.append_all(&LEFT);
    words.ended()
}

/// Why a message of these fields can have no struct: the first that it can't have, as the schema
/// calls it, and what that is. Those that may be inside are between spaces.
pub fn reason<'a>(fields: &'a [Field], inside: &str) -> Option<(&'a str, &'static str)> {
    if fields.is_empty() {
        return Some(("", "it has no fields"));
    }
    if has_groups(fields.len()) {
        return Some(("", "it has more than 80 fields"));
    }
    if let Some(field) = fields.iter().find(|it| is_called_as_a_member(it, fields)) {
        return Some((
            field.words.get("proto"),
            "called as what there is of another field",
        ));
    }
    for field in fields {
        let why = why_not(field, inside);
        if why.is_some() {
            return why;
        }
    }
    None
}

// Why a struct can't have a field, if it can't: what of it, as the schema calls it, and what that
// is.
fn why_not<'a>(field: &'a Field, inside: &str) -> Option<(&'a str, &'static str)> {
    let name = field.words.get("proto");
    if matches!(field.words.get("field"), "new" | "old" | "now") {
        return Some((name, "called as a word of clauses"));
    }
    if let Some(oneof) = &field.oneof {
        return why_not_oneof(&field.words, oneof, inside);
    }
    match what_of(&field.words, inside) {
        "" => None,
        what => Some((name, what)),
    }
}

// What a field is that a struct can't have, or nothing where it can.
fn what_of(field: &Words, inside: &str) -> &'static str {
    let kind = field.get("kind");
    let is_scalar = kind.starts_with("Implicit<") || kind.starts_with("Optional<");
    match kind {
        _ if kind.starts_with("Map<") => CLOSED_MAP,
        _ if !field.get("closed").is_empty() => CLOSED,
        _ if is_scalar => "",
        _ if kind.starts_with("Repeated<") || is_of_numbers(kind) => "",
        _ if kind.starts_with("EachEmbedded<") && is_there(field, inside) => "",
        _ if kind.starts_with("EachEmbedded<") => EACH,
        _ if kind.starts_with("Embedded<") && is_there(field, inside) => "",
        _ if kind.starts_with("Embedded<") => INSIDE,
        _ if kind.starts_with("Group<") => "a group",
        _ if kind.starts_with("EachGroup<") => "a list of groups",
        _ => "a field of another kind",
    }
}

// The same of a oneof, or of a field in it.
fn why_not_oneof<'a>(
    words: &'a Words,
    oneof: &'a Oneof,
    inside: &str,
) -> Option<(&'a str, &'static str)> {
    let name = words.get("proto");
    if !oneof.rows.is_empty() {
        return Some((
            name,
            "a oneof by which messages hold themselves (encoded=inside)",
        ));
    }
    if ENDS.split(' ').any(|it| words.get("module").ends_with(it)) {
        return Some((name, "a oneof called as a call"));
    }
    if TYPES.split(' ').any(|it| it == words.get("name")) {
        return Some((name, "a oneof called as a type of the library"));
    }
    for variant in &oneof.variants {
        let what = match (variant.get("field"), variant.get("presence")) {
            ("new" | "old" | "now", _) => "called as a word of clauses",
            ("which" | "no_bytes", _) => "called as what each oneof has",
            (_, "Always") if variant.get("closed").is_empty() => "",
            (_, "Always") => CLOSED,
            (_, "AlwaysEmbedded") if is_there(variant, inside) => "",
            (_, "AlwaysEmbedded") => INSIDE,
            _ => "a group in a oneof",
        };
        if !what.is_empty() {
            return Some((variant.get("proto"), what));
        }
    }
    None
}

// Whether the message of a field may be inside.
fn is_there(field: &Words, inside: &str) -> bool {
    let is_own = field.get("of_crate") == field.get("crate");
    is_own && inside.split(' ').any(|it| it == field.get("of_module"))
}

// Whether a field has the name of what there is of another: its flag, its call that sets it, its
// count, its length or its call within limits, or its name in C.
fn is_called_as_a_member(field: &Field, fields: &[Field]) -> bool {
    let name = field.words.get("field");
    name == "no_bytes"
        || fields.iter().any(|it| {
            let other = Some(it.words.get("field"));
            let kind = it.words.get("kind");
            let is_list = kind.starts_with("Repeated<")
                || kind.starts_with("Each")
                || is_of_numbers(kind);
            let has_flag = kind.starts_with("Optional<") || kind.starts_with("Embedded<");
            let is_counted = name.strip_suffix("_count") == other;
            let is_measured = name.strip_suffix("_len") == other;
            let is_limited = name.strip_suffix("_within") == other;
            let is_escaped = name.strip_suffix("_") == other;
            is_list && (is_counted || is_measured || is_limited)
                || has_flag && name.strip_prefix("has_") == other
                || name.strip_prefix("set_") == other
                || is_escaped && is_c_word(it.words.get("field"))
        })
}

/// Whether a message has the name of a call of another, or of its lists.
pub fn is_called_as_a_call(message: &MessageType, schema: &Schema) -> bool {
    let name = message.words.get("module");
    schema.messages.iter().any(|it| {
        let rest = name.strip_prefix(it.words.get("module")).unwrap_or("");
        rest.starts_with("_next_") || ENDS.split(' ').any(|end| end == rest)
    })
}

/// Whether another type has the name of the struct of a message, or of what there is of it.
pub fn is_struct_there(message: &MessageType, schema: &Schema) -> bool {
    let name = message.words.get("name");
    schema
        .enums
        .iter()
        .any(|it| is_struct_of(name, it.words.get("name")))
        || schema.messages.iter().any(|it| has_struct_of(name, it))
}

// The same of a message and of the oneofs in it.
fn has_struct_of(name: &str, other: &MessageType) -> bool {
    let mut oneofs = other.oneof_types().iter();
    is_struct_of(name, other.words.get("name")) || oneofs.any(|(_, it)| is_struct_of(name, it))
}

// Whether a type is called as the struct of a message of this name, or as what there is of it.
fn is_struct_of(name: &str, other: &str) -> bool {
    let rest = other.strip_prefix(name).unwrap_or("");
    rest.starts_with("InC")
}

/// Types of the Rust crate, and what it brings in.
pub const TYPES: &str =
    "Bytes Default FaultCall FaultWithinCall Iterator Limits List MaybeUninit NextCall \
    NextNumberCall NoRoom NotWritten Numbers NumbersWalk ReadCall ReadWithinCall Refusal SizeCall \
    SizeKeepingCall SizeKeepingWithCall SizeWithCall Struct Text Walk WriteCall WriteKeepingCall \
    WriteKeepingWithCall WriteWithCall Written WrittenWith";

const ENDS: &str =
    "_fault _fault_within _lists _read _read_within _size _size_keeping _unknown_record _write \
    _write_keeping";
