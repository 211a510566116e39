//! Callers of `wire_base`: tags, sinks, and unknown fields.
ghost use Rattle.std.specs.Prelude.{◌≡◌, ◌++◌, length, OnOk, IfOk, IfErr};
ghost use Rattle.wire_base.specs.FieldNumber.{IsFieldNumber};
ghost use Rattle.wire_base.specs.Rope.{rope_bytes};
ghost use Rattle.wire_base.specs.Sink.{Writes};
ghost use Rattle.wire_base.specs.Tag.{TagFault, tag_text};
ghost use Rattle.wire_base.specs.Varint.{shortest_varint};
ghost use Rattle.wire_base.specs.declared.tag.WireType.TheVariants.{LengthDelimited};

use bytes::Bytes;
use std::alloc::Global;
use wire_base::{
    DecodeError, EncodeError, EncodeSink, Rope, Tag, UnknownFields, WireType, encode_varint, laws,
};

/// The field number of the first record.
pub fn first_number(bytes: &[u8]) -> Result<u32, DecodeError>
    ensures in_range { IfOk result (λ number. IsFieldNumber number) }
    ensures fault { IfErr result (TagFault bytes.now) }
{
    let mut rest = bytes;
    let tag = Tag::decode(&mut rest)?;
    Ok(tag.field_number())
}

/// Writes two numbers as the shortest varints.
pub fn put_pair<S: EncodeSink>(first: u64, second: u64, sink: &mut S) -> Result<(), EncodeError>
    ensures { Writes (shortest_varint first ++ shortest_varint second)
        (S.held sink.old) (S.held sink.new) result }
{
    sink.put_varints(first, second)
}

/// Records but for those of one number, and what is read from their text: the same records.
pub fn without(
    alloc: Global,
    bytes: &[u8],
    number: u32,
) -> Result<(UnknownFields, UnknownFields), DecodeError>
    ensures same { IfOk result (λ both. both.0 ≡ both.1) }
{
    let mut fields = UnknownFields::decode_from_slice(alloc, bytes)?;
    fields.retain(|field| field.number != number);
    fields.widths_fit();
    laws::text_spells_one_list();
    let mut text = Vec::new(alloc);
    fields
        .write_to(&mut text)
        .or(Err(DecodeError::OutOfMemory))?;
    let again = UnknownFields::decode_from_slice(alloc, &text)?;
    Ok((again, fields))
}

/// A rope of one record, a file in field 2. A file of 4,096 bytes or more is a segment of
/// its own.
pub fn attached(alloc: Global, file: Bytes) -> Result<Rope, EncodeError>
    ensures ok { IfOk result (λ rope. rope_bytes rope
        ≡ (tag_text 2 LengthDelimited ++ shortest_varint (length file)) ++ file) }
{
    let mut rope = Rope::new(alloc);
    Tag::new(2, WireType::LengthDelimited).encode(&mut rope)?;
    encode_varint(file.len() as u64, &mut rope)?;
    rope.put_shared(file)?;
    Ok(rope)
}
