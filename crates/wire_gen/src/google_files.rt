//! Files of `google/protobuf` whose types no crate has here: where a field is of one of them, its
//! file is one of those that are to be generated.
use wire_descriptor::CodeGeneratorRequest;
use wire_schema::{GenerateError, MessageType, Schema, Words};

const FOLDER: &str = "google/protobuf/";

// More than that folder has: each round adds one at least.
const MOST_ROUNDS: usize = 16;

/// The schema of a request, with such files, which become words of the base too.
pub(crate) fn schema_of(
    base: &mut Words,
    request: &mut CodeGeneratorRequest,
) -> Result<Schema, GenerateError> {
    let mut schema = Schema::of(base, request)?;
    for _ in 0..MOST_ROUNDS {
        let wanted = wanted_files(&schema)?;
        if wanted.is_empty() {
            break;
        }
        for file in wanted {
            if !request.file_to_generate.contains(&file) {
                base.set("next", &file);
                base.append_all(&[("schema", ", $next$"), ("command", " \\\n        $next$")]);
                request.file_to_generate.push(file)?;
            }
        }
        schema = Schema::of(base, request)?;
    }
    Ok(schema)
}

// The files of no crate, of that folder, of whose types fields, extensions and methods are.
fn wanted_files(schema: &Schema) -> Result<Vec<String>, GenerateError> {
    let mut wanted = Vec::new(schema.alloc);
    for message in &schema.messages {
        put_files(schema, message, &mut wanted)?;
    }
    for entry in &schema.entries {
        put_files(schema, entry, &mut wanted)?;
    }
    for extension in &schema.extensions {
        if extension.origin.is_own {
            put_file(schema, &extension.descriptor.type_name, &mut wanted)?;
        }
    }
    for service in &schema.services {
        for method in &service.descriptor.method {
            put_file(schema, &method.input_type, &mut wanted)?;
            put_file(schema, &method.output_type, &mut wanted)?;
        }
    }
    Ok(wanted)
}

// Puts those of the fields of a message type that is to be generated.
fn put_files(
    schema: &Schema,
    message: &MessageType,
    wanted: &mut Vec<String>,
) -> Result<(), GenerateError> {
    if message.origin.is_own {
        for field in &message.descriptor.field {
            put_file(schema, &field.type_name, wanted)?;
        }
    }
    Ok(())
}

// Puts that of the type of this full name.
fn put_file(schema: &Schema, full: &str, wanted: &mut Vec<String>) -> Result<(), GenerateError> {
    let of = match (schema.message(full), schema.enum_of(full)) {
        (Some(message), _) => &message.words,
        (None, Some(of_enum)) => &of_enum.words,
        (None, None) => return Ok(()),
    };
    let file = of.get("schema");
    if of.get("home").is_empty() && file.starts_with(FOLDER) {
        wanted.push(String::from_str(schema.alloc, file)?)?;
    }
    Ok(())
}
