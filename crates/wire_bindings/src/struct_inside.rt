//! Messages that can be no structs within others, and that `encoded=inside` holds as bytes there.
use wire_definitions::has_groups;
use wire_descriptor::FieldDescriptorProto;
use wire_schema::{GenerateError, MessageType, Schema, Words};

// As of descriptors.
const LABEL_REPEATED: i32 = 3;

const TYPE_GROUP: i32 = 10;

const TYPE_MESSAGE: i32 = 11;

/// Whether `encoded=inside` is among the parameters of a crate. What is left are names of fields.
pub fn takes_inside(base: &mut Words) -> Result<bool, GenerateError> {
    let encoded = base.take("encoded");
    let mut is_asked = false;
    for name in encoded.split('\n') {
        is_asked |= name == ".inside";
        if !matches!(name, "" | ".inside") {
            base.set("next", name);
            base.append("encoded", "$next$\n");
        }
    }
    if is_asked && base.get("c").is_empty() {
        return Err(base.refused("encoded=inside wants c=NAME"));
    }
    Ok(is_asked)
}

/// Names the fields of messages that can be no structs where they are held, those of maps too.
pub fn encode_inside(base: &mut Words, schema: &Schema) {
    for message in &schema.messages {
        if !message.origin.is_own || message.is_entry() {
            continue;
        }
        for field in &message.descriptor.field {
            if held_in(schema, field).is_some_and(|it| !is_inside(schema, message, it)) {
                base.set("encoded_in", message.words.get("full"));
                base.set("encoded_as", &field.name);
                base.append("encoded", "$encoded_in$.$encoded_as$\n");
            }
        }
    }
}

// The message that a field holds behind its length, by a map too.
fn held_in<'a>(schema: &'a Schema, field: &FieldDescriptorProto) -> Option<&'a MessageType> {
    if field.type_ != TYPE_MESSAGE {
        return None;
    }
    let held = schema.message(&field.type_name)?;
    if !held.is_entry() {
        return Some(held);
    }
    let value = held.descriptor.field.iter().find(|it| it.number == 2)?;
    if value.type_ != TYPE_MESSAGE {
        return None;
    }
    schema.message(&value.type_name)
}

// Whether a message may be a struct within another, as far as its descriptor says: it has no field
// that a struct can't have there, and does not lead back.
fn is_inside(schema: &Schema, holder: &MessageType, message: &MessageType) -> bool {
    let fields = &message.descriptor.field;
    let is_of_family = holder.family.is_some() && holder.family == message.family;
    message.origin.is_own
        && !message.is_recursive
        && !is_of_family
        && !fields.is_empty()
        && !has_groups(fields.len())
        && fields.iter().all(|it| is_flat(schema, it))
}

// Whether a field is no list, no group and of no closed enum.
fn is_flat(schema: &Schema, field: &FieldDescriptorProto) -> bool {
    let is_closed = match schema.enum_of(&field.type_name) {
        Some(of_enum) => of_enum.origin.features.is_closed(),
        None => false,
    };
    field.label != LABEL_REPEATED && field.type_ != TYPE_GROUP && !is_closed
}
