//! A record of an extension, read as a field of its kind.
ghost use Rattle.std.specs.Prelude.{◌≡◌, ◌≢◌, OnOk, IfErr};
ghost use Rattle.wire_codec.specs.DecodeError.TheVariants.{OutOfMemory};
ghost use Rattle.wire_codec.specs.Field.{type_of as payload_type};
ghost use Rattle.wire_codec.specs.FieldNumber.{IsFieldNumber};
ghost use Rattle.wire_codec.specs.InRange.{IsPayloadFitting, IsPayloadNumbered};
ghost use Rattle.wire_codec.specs.Limits.{NoCountGrew};
ghost use Rattle.wire_codec.specs.Taking.{IsCharged};
ghost use Rattle.wire_codec.specs.UnknownFields.{payload_of};
ghost use Rattle.wire_extensions.specs.Extension.{TakesOne, TakesNone};

use std::alloc::Global;
use wire_codec::{DecodeContext, DecodeError, Tag, UnknownField, UnknownFieldData, WireType, laws};
use wire_fields::Kind;

// The wire type in the tag of a record.
pub(crate) fn type_of(value: &UnknownFieldData) -> WireType
    ensures { result ≡ payload_type (payload_of value.now) }
{
    match value {
        UnknownFieldData::Varint(_) => WireType::Varint,
        UnknownFieldData::Fixed64(_) => WireType::Fixed64,
        UnknownFieldData::Fixed32(_) => WireType::Fixed32,
        UnknownFieldData::LengthDelimited(_) => WireType::LengthDelimited,
        UnknownFieldData::Group(_) => WireType::StartGroup,
    }
}

// Takes the record into the value, by way of its text.
pub(crate) fn take_record<K: Kind>(
    alloc: Global,
    field: &UnknownField,
    text: &mut Vec<u8>,
    held: &mut K::Held,
    context: &mut DecodeContext,
) -> Result<(), DecodeError>
    requires number { IsFieldNumber field.now.number }
    requires fitting { IsPayloadFitting (payload_of field.now.value) }
    ensures ok { OnOk result (IsPayloadNumbered (payload_of field.now.value)
        → IsCharged context.old context.new (λ c. TakesOne K.kind.takes context.old
        field.now.number (payload_of field.now.value) (K.view held.old) c (K.view held.new))) }
    ensures err { IfErr result (λ e. e ≢ OutOfMemory
        → IsPayloadNumbered (payload_of field.now.value) → TakesNone K.kind.takes context.old
        field.now.number (payload_of field.now.value) (K.view held.old)) }
    ensures counts { NoCountGrew context.old context.new }
{
    laws::records_in_order();
    laws::grammar::payload_is_field();
    laws::grammar::shortest_text_spells();
    text.clear();
    field.write_to(text).map_err(|_| DecodeError::OutOfMemory)?;
    let mut buf = text.as_slice();
    let tag = Tag::decode(&mut buf)?;
    K::merge(alloc, tag, held, &mut buf, context)
}
