//! What the parameter of a request says.
use crate::error::GenerateError;
use crate::field::features_of;
use crate::message_type::MessageType;
use crate::names::is_crate_name;
use crate::schema::Schema;
use crate::words::{Template, Words};
use std::alloc::Global;
use wire_descriptor::CodeGeneratorRequest;

/// Sets the words of a crate. `crate=NAME` is its own name, or else that of the first file; each
/// `import=PACKAGE=CRATE` names the crate that has another package, or file; `element=BYTES` is
/// what an element of a list or a map is charged; `unknown=` whether fields that a schema lacks are
/// kept; `mismatch=` whether records of other wire types are refused, or kept with these;
/// `enums=open` takes closed enums as open ones, `strings=bytes` strings that need not be UTF-8 as
/// bytes, and `required=optional` required fields as optional ones; `views=true` writes views;
/// `services=skip` passes over services, `defaults=skip` over default values, and `laws=skip`
/// writes no laws; `split=COUNT` writes crates of about so many message types; `c=NAME`
/// writes structs for C, whose names begin so, and the crate of their library, and makes maps lists
/// of their entries; `json=true` writes the crate of their JSON, in which `json_unknown=skip`
/// passes over names that no field has, `json_defaults=write` writes fields that are as without a
/// member, `json_names=schema` writes names as the schema has them, and `json_enums=numbers` enums
/// as numbers; and each `encoded=FIELD` names a field of messages that is held as the bytes of their
/// encodings.
pub fn set_crate(base: &mut Words, request: &CodeGeneratorRequest) -> Result<(), GenerateError> {
    base.set("crate", first_name(request));
    base.fill_all(&DEFAULTS);
    for file in &request.file_to_generate {
        base.set("next", file);
        let is_first = base.get("schema").is_empty();
        base.append("schema", if is_first { "$next$" } else { ", $next$" });
        base.append("command", " \\\n        $next$");
    }
    for option in request.parameter.split(',') {
        base.set("option", option);
        if !option.is_empty() {
            base.append("options", "        --rattle_opt=$option$ \\\n");
        }
        match option.split_once('=') {
            Some((name, choice)) => set_parameter(base, name, choice)?,
            None if option.is_empty() => {}
            None => return Err(base.refused(PARAMETERS)),
        }
    }
    if base.get("crate").is_empty() {
        return Err(base.refused("no file is to be generated"));
    }
    if !is_crate_name(base.get("crate")) {
        return Err(base.refused(NO_NAME));
    }
    base.fill_all(&[("whole", "$crate$"), ("target", "crates/$crate$")]);
    if base.get("unknown") == "drop" && base.get("mismatch") == "keep" {
        return Err(base.refused("mismatch=keep wants unknown=keep"));
    }
    let is_plain = base.get("unknown") == "keep" && base.get("mismatch") == "refuse";
    if !is_plain && !base.get("views").is_empty() {
        return Err(base.refused("views=true wants unknown=keep and mismatch=refuse"));
    }
    set_beside(base)
}

// Makes the words of a crate those of one beside which another stands, if one does: a library of
// structs, or the crate of its JSON.
fn set_beside(base: &mut Words) -> Result<(), GenerateError> {
    let has_structs = !base.get("c").is_empty();
    let has_json = !base.get("json").is_empty();
    let is_plain = base.get("unknown") == "keep" && base.get("mismatch") == "refuse";
    let is_one = base.get("split").is_empty();
    let has_laws = base.get("without_laws").is_empty();
    if has_structs && !(is_plain && is_one && has_laws) {
        return Err(base.refused(PLAIN_IN_C));
    }
    if has_json && (has_structs || !is_plain || !is_one) {
        return Err(base.refused(PLAIN_IN_JSON));
    }
    if !has_json && OF_JSON.iter().any(|it| !base.get(it).is_empty()) {
        return Err(base.refused(NO_JSON));
    }
    if has_structs || has_json {
        base.fill_all(&[("target", "crates"), ("crate_folder", "$crate$/")]);
    }
    Ok(())
}

const DEFAULTS: [Template; 3] = [
    ("of_text", "24"),
    ("unknown", "keep"),
    ("mismatch", "refuse"),
];

const NO_NAME: &str = "\
    a crate is called by letters, digits and underscores, no digit first, and by no word of the \
    language: crate=$crate$";

const PARAMETERS: &str = "\
    parameters are crate=NAME, import=PACKAGE=CRATE, element=BYTES, unknown=keep or drop, \
    mismatch=refuse or keep, enums=open, strings=bytes, required=optional, views=true, \
    services=skip, defaults=skip, laws=skip, split=COUNT, c=NAME, json=true, json_unknown=skip, \
    json_defaults=write, json_names=schema, json_enums=numbers, and encoded=FIELD: $option$";

const PLAIN_IN_C: &str =
    "c=NAME wants unknown=keep and mismatch=refuse, and neither laws=skip nor split=";

const PLAIN_IN_JSON: &str =
    "json=true wants unknown=keep and mismatch=refuse, and neither c=NAME nor split=";

// What JSON is read and written, where it is not as by default.
const OF_JSON: [&str; 4] = ["json_unknown", "json_defaults", "json_names", "json_enums"];

const NO_JSON: &str = "\
    json_unknown=skip, json_defaults=write, json_names=schema and json_enums=numbers want \
    json=true";

fn set_parameter(base: &mut Words, name: &str, choice: &str) -> Result<(), GenerateError> {
    match (name, choice) {
        ("crate", _) => base.set("crate", choice),
        ("import", _) => set_import(base, choice)?,
        ("unknown", "keep" | "drop") => base.set("unknown", choice),
        ("mismatch", "keep" | "refuse") => base.set("mismatch", choice),
        ("enums", "open") => base.set("enums", choice),
        ("strings", "bytes") => base.set("strings", choice),
        ("required", "optional") => base.set("required", choice),
        ("views", "true") => base.set("views", choice),
        ("services", "skip") => base.set("services", choice),
        ("defaults", "skip") => base.set("defaults", choice),
        ("laws", "skip") => base.set("without_laws", choice),
        ("element", _) if is_size(choice) => {
            base.set("element", choice);
            base.fill("of_text", "$element$");
        }
        ("split", _) if is_size(choice) => base.set("split", choice),
        ("c", _) if is_crate_name(choice) => base.set("c", choice),
        ("json", "true") => base.set("json", choice),
        ("json_unknown", "skip") => base.set("json_unknown", choice),
        ("json_defaults", "write") => base.set("json_defaults", choice),
        ("json_names", "schema") => base.set("json_names", choice),
        ("json_enums", "numbers") => base.set("json_enums", choice),
        ("encoded", _) => {
            base.set("name", choice);
            base.append("encoded", ".$name$\n");
        }
        _ => return Err(base.refused(PARAMETERS)),
    }
    Ok(())
}

fn set_import(base: &mut Words, import: &str) -> Result<(), GenerateError> {
    let Some((package, home)) = import.split_once('=') else {
        return Err(base.refused("an import is import=PACKAGE=CRATE: $option$"));
    };
    base.set("package", package);
    base.set("home", home);
    base.append("imported", "$package$ $home$\n");
    if !base.get("needs").split(' ').any(|it| it == home) {
        base.append("needs", " $home$");
    }
    Ok(())
}

// Digits of a number that is at most 999,999,999.
fn is_size(digits: &str) -> bool {
    let is_short = !digits.is_empty() && digits.len() < 10 && !digits.starts_with('0');
    is_short && digits.chars().all(|it| it.is_ascii_digit())
}

// What the first file is called.
fn first_name(request: &CodeGeneratorRequest) -> &str {
    let Some(file) = request.file_to_generate.first() else {
        return "";
    };
    let path = file.as_str();
    let path = path.strip_suffix(".proto").unwrap_or(path);
    let (_, name) = path.rsplit_once('/').unwrap_or(("", path));
    name
}

/// Makes the types of the schema those that the parameter asks for.
pub(crate) fn adapt(base: &Words, schema: &mut Schema) -> Result<(), GenerateError> {
    if base.get("enums") == "open" {
        for of_enum in &mut schema.enums {
            of_enum.origin.features = of_enum.origin.features.with_open_enums();
        }
    }
    for name in base.get("encoded").split('\n') {
        if let Some((owner, field)) = name.rsplit_once('.') {
            hold_encoded(base, schema, owner, field)?;
        }
    }
    Ok(())
}

// Makes a field of messages, or the values of a map, one of bytes.
fn hold_encoded(
    base: &Words,
    schema: &mut Schema,
    owner: &str,
    field: &str,
) -> Result<(), GenerateError> {
    let mut words = Words::like(base);
    words.set("full", owner);
    words.set("proto", field);
    let held = held_by(base.alloc(), schema, owner, field)?;
    let is_found = match schema.entry(&held) {
        Some(_) => make_bytes(&mut schema.entries, &held, "value", &mut words)?,
        None => make_bytes(&mut schema.messages, owner, field, &mut words)?,
    };
    if is_found {
        return Ok(());
    }
    Err(words.refused("$full$.$proto$: encoded= wants a field of messages behind their length"))
}

// The name of the type that a field has.
fn held_by(
    alloc: Global,
    schema: &Schema,
    owner: &str,
    field: &str,
) -> Result<String, GenerateError> {
    let held = match schema.message(owner) {
        Some(message) => match message
            .descriptor
            .field
            .iter()
            .find(|it| it.name.as_str() == field)
        {
            Some(found) => found.type_name.as_str(),
            None => "",
        },
        None => "",
    };
    Ok(String::from_str(alloc, held)?)
}

// Whether the type has such a field of messages, which is one of bytes then.
fn make_bytes(
    types: &mut [MessageType],
    owner: &str,
    field: &str,
    words: &mut Words,
) -> Result<bool, GenerateError> {
    for of_type in types {
        if of_type.words.get("full") != owner {
            continue;
        }
        let outer = of_type.origin.features;
        for found in &mut of_type.descriptor.field {
            if found.name.as_str() == field && found.type_ == 11 {
                let is_delimited = features_of(outer, found, words)?.is_delimited();
                found.type_ = 12;
                found.type_name.clear();
                // (an empty encoding is a message too)
                found.proto3_optional = found.oneof_index.is_none();
                return Ok(!is_delimited);
            }
        }
    }
    Ok(false)
}
