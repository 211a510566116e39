//! Unknown fields as bytes.
ghost use Rattle.std.specs.Prelude.{◌≡◌, ◌++◌, OnOk, OnErr};
ghost use Rattle.wire_base.specs.Sink.{Writes};
ghost use Rattle.wire_base.specs.Field.{group, type_of};
ghost use Rattle.wire_base.specs.Shortest.{WritesShortest};
ghost use Rattle.wire_base.specs.Text.{text_of, record_text};
ghost use Rattle.wire_base.specs.UnknownFields.{one_record, payload_of};

use super::{UnknownField, UnknownFieldData, UnknownFields};
use crate::encode_sink::EncodeSink;
use crate::error::EncodeError;
use crate::tag::{WireType, put_tag, tag_as_number};

impl UnknownFields {
    /// Writes the shortest text of the records. Padding that they came with is gone. Refused where
    /// the sink refuses a put.
    #[inline(always)]
    pub fn write_to<S: EncodeSink>(&self, sink: &mut S) -> Result<(), EncodeError>
        ensures written { Writes (text_of self.now) (S.held sink.old) (S.held sink.new) result }
        ensures shortest { OnOk result
            (WritesShortest self.now (S.held sink.old).bytes (S.held sink.new).bytes) }
    {
        if self.is_empty() {
            return Ok(());
        }
        self.write_fields(sink)
    }

    // Writes the records. Most messages have none, so this stands out of line.
    #[cycle(write)]
    #[inline(never)]
    fn write_fields<S: EncodeSink>(&self, sink: &mut S) -> Result<(), EncodeError>
        ensures { Writes (text_of self.now) (S.held sink.old) (S.held sink.new) result }
    {
        for field in self.fields.as_slice() {
            field.write_record(sink)?;
        }
        Ok(())
    }

    // Writes the records as a group. What the inner call answers has its place here, so that the
    // records of other kinds do not clear it.
    #[cycle(write)]
    #[inline(always)]
    fn write_group<S: EncodeSink>(&self, number: u32, sink: &mut S) -> Result<(), EncodeError>
        ensures { Writes (record_text number (group self.now))
            (S.held sink.old) (S.held sink.new) result }
    {
        put_tag(number, WireType::StartGroup, sink)?;
        self.write_fields(sink)?;
        put_tag(number, WireType::EndGroup, sink)
    }
}

impl UnknownField {
    /// Writes the shortest text of the record. Its number may be one that decoding refuses. Refused
    /// where the sink refuses a put.
    pub fn write_to<S: EncodeSink>(&self, sink: &mut S) -> Result<(), EncodeError>
        ensures written { Writes (record_text self.now.number (payload_of self.now.value))
            (S.held sink.old) (S.held sink.new) result }
        ensures shortest { OnOk result
            (WritesShortest (one_record self.now) (S.held sink.old).bytes (S.held sink.new).bytes) }
    {
        self.write_record(sink)
    }

    // Writes the record.
    #[cycle(write)]
    #[inline(always)]
    fn write_record<S: EncodeSink>(&self, sink: &mut S) -> Result<(), EncodeError>
        ensures { Writes (record_text self.now.number (payload_of self.now.value))
            (S.held sink.old) (S.held sink.new) result }
    {
        let number = self.number;
        match &self.value {
            UnknownFieldData::Varint(value) => {
                sink.put_varints(tag_as_number(number, WireType::Varint), *value)
            }
            UnknownFieldData::Fixed64(value) => {
                sink.put_fixed64(tag_as_number(number, WireType::Fixed64), *value)
            }
            UnknownFieldData::Fixed32(value) => {
                sink.put_fixed32(tag_as_number(number, WireType::Fixed32), *value)
            }
            UnknownFieldData::LengthDelimited(bytes) => {
                sink.put_delimited(tag_as_number(number, WireType::LengthDelimited), bytes)
            }
            UnknownFieldData::Group(fields) => fields.write_group(number, sink),
        }
    }
}

impl UnknownFieldData {
    // The wire type in the record's tag.
    pub(super) fn wire_type(&self) -> WireType
        ensures { result ≡ type_of (payload_of self.now) }
    {
        match self {
            UnknownFieldData::Varint(_) => WireType::Varint,
            UnknownFieldData::Fixed64(_) => WireType::Fixed64,
            UnknownFieldData::Fixed32(_) => WireType::Fixed32,
            UnknownFieldData::LengthDelimited(_) => WireType::LengthDelimited,
            UnknownFieldData::Group(_) => WireType::StartGroup,
        }
    }
}
