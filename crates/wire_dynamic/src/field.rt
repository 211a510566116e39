//! A field of a message type, as its descriptor tells it.
ghost use Rattle.std.specs.Prelude.{◌≡◌, ◌≢◌, ◌<◌, ◌≤◌, pos, false, string_bytes, slice_get, IfErr, IfNone, IfOk, IfSome};
ghost use Rattle.std.specs.Option.{option_map_or};
ghost use Rattle.wire_dynamic.specs.declared.error.SchemaError.TheVariants.{OutOfMemory};
ghost use Rattle.wire_dynamic.specs.Fields.{field_features, is_entry, kind_in, message_kind, scalar_of, IsField};
ghost use Rattle.wire_dynamic.specs.Refusals.{FieldFault, IsNoNumber, IsWantOfKind};

use crate::declared::Declared;
use crate::error::SchemaError;
use crate::features::Features;
use crate::places::Places;
use std::alloc::AllocError;
use wire_descriptor::FieldDescriptorProto;

/// What a field holds. A message type or an enum is given by its place among those of the schema;
/// a message stands behind its length, or as a group.
#[derive(Clone, Copy, Debug, PartialEq, Eq)]
pub enum Kind {
    Double,
    Float,
    Int64,
    Uint64,
    Int32,
    Fixed64,
    Fixed32,
    Bool,
    Text,
    Group(usize),
    Message(usize),
    Blob,
    Uint32,
    Enum(usize),
    Sfixed32,
    Sfixed64,
    Sint32,
    Sint64,
}

/// A field of a message type, or an extension of one.
#[derive(Debug, Drop)]
pub struct Field {
    /// (of an extension its full name)
    pub name: String,
    pub number: u32,
    pub kind: Kind,
    pub is_extension: bool,
    pub is_repeated: bool,
    pub is_required: bool,
    /// Whether its text is to be UTF-8.
    pub is_checked: bool,
}

const LABEL_REQUIRED: i32 = 2;

const LABEL_REPEATED: i32 = 3;

const TYPE_GROUP: i32 = 10;

const TYPE_MESSAGE: i32 = 11;

const TYPE_ENUM: i32 = 14;

const MOST_NUMBER: u32 = 536_870_911;

/// The number of a field, where it is one.
pub(crate) fn number_of(descriptor: &FieldDescriptorProto) -> Option<u32>
    ensures is { IfSome result (λ number. descriptor.now.number ≡ pos number) }
    ensures within { IfSome result (λ number. 0 < number × number ≤ 536870911) }
    ensures none { IfNone result (IsNoNumber descriptor.now.number) }
{
    match u32::try_from(descriptor.number) {
        Ok(number) if (1..=MOST_NUMBER).contains(&number) => Some(number),
        _ => None,
    }
}

impl Field {
    /// The field of this name and these features that a descriptor tells.
    pub(crate) fn of(
        name: String,
        descriptor: &FieldDescriptorProto,
        features: Features,
        declared: &Declared,
        places: &Places,
    ) -> Result<Field, SchemaError>
        ensures ok { IfOk result (IsField declared.now places.now features (string_bytes name)
            descriptor.now) }
        ensures err { IfErr result (λ e. e ≢ OutOfMemory → FieldFault declared.now places.now
            features (string_bytes name) descriptor.now e) }
    {
        let Some(number) = number_of(descriptor) else {
            return Err(SchemaError::NoNumber(name));
        };
        let Some(kind) = kind_of(descriptor, features, declared, places) else {
            return Err(no_kind(name, descriptor)?);
        };
        Ok(Field {
            name,
            number,
            kind,
            is_extension: !descriptor.extendee.is_empty(),
            is_repeated: descriptor.label == LABEL_REPEATED,
            is_required: descriptor.label == LABEL_REQUIRED || features.is_required(),
            is_checked: features.is_checked(),
        })
    }
}

/// The features of a field, within those of what it stands in.
pub(crate) fn features_of(descriptor: &FieldDescriptorProto, outer: Features) -> Features
    ensures { result ≡ field_features outer descriptor.now.options }
{
    match &descriptor.options {
        Some(options) => outer.with(&options.features),
        None => outer,
    }
}

// Why a field of this name has no kind.
fn no_kind(name: String, descriptor: &FieldDescriptorProto) -> Result<SchemaError, AllocError>
    ensures { IfOk result (IsWantOfKind (string_bytes name) descriptor.now) }
{
    Ok(match descriptor.type_ {
        TYPE_GROUP | TYPE_MESSAGE | TYPE_ENUM => SchemaError::NoType(descriptor.type_name.clone()?),
        _ => SchemaError::NoKind(name),
    })
}

// What a field holds, if its type is one that a field can have, and is declared.
fn kind_of(
    descriptor: &FieldDescriptorProto,
    features: Features,
    declared: &Declared,
    places: &Places,
) -> Option<Kind>
    ensures { result ≡ kind_in declared.now places.now features descriptor.now }
{
    let number = descriptor.type_;
    if number == TYPE_GROUP {
        return Some(Kind::Group(places.message(&descriptor.type_name)?));
    }
    if number == TYPE_MESSAGE {
        let place = places.message(&descriptor.type_name)?;
        return Some(message_kind(place, features, declared));
    }
    if number == TYPE_ENUM {
        return Some(Kind::Enum(places.enum_of(&descriptor.type_name)?));
    }
    scalar_of(number)
}

// The kind of a field of the message type at this place.
fn message_kind(place: usize, features: Features, declared: &Declared) -> Kind
    ensures { result ≡ message_kind declared.now features place }
{
    if features.is_delimited() && !is_entry(place, declared) {
        return Kind::Group(place);
    }
    Kind::Message(place)
}

// The kind of a field of this type, which is no message and no enum.
fn scalar_of(number: i32) -> Option<Kind>
    ensures { result ≡ scalar_of number }
{
    Some(match number {
        1 => Kind::Double,
        2 => Kind::Float,
        3 => Kind::Int64,
        4 => Kind::Uint64,
        5 => Kind::Int32,
        6 => Kind::Fixed64,
        7 => Kind::Fixed32,
        8 => Kind::Bool,
        9 => Kind::Text,
        12 => Kind::Blob,
        13 => Kind::Uint32,
        15 => Kind::Sfixed32,
        16 => Kind::Sfixed64,
        17 => Kind::Sint32,
        18 => Kind::Sint64,
        _ => return None,
    })
}

fn is_entry(place: usize, declared: &Declared) -> bool
    ensures { result
        ≡ option_map_or is_entry (slice_get declared.now.messages.items place) false }
{
    match declared.messages.get(place) {
        Some(message) => message.is_entry(),
        None => false,
    }
}
