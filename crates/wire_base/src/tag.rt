//! Tags: the field number and the wire type of a record.
ghost use Rattle.std.specs.Prelude.{◌≡◌, ◌≢◌, ◌++◌, ◌+◌, ◌-◌, ◌^◌, ◌<◌, ◌≤◌, ◌*◌, length, OnOk, OnErr, IfOk, IfErr, IfSome, IfNone};
ghost use Rattle.wire_base.specs.FieldNumber.{IsFieldNumber};

use crate::encode_sink::EncodeSink;
use crate::error::{DecodeError, EncodeError};
use crate::varint::decode_varint;
use bytes::Buf;

mod check;
mod put;

pub use check::{check_wire_type, wire_type_mismatch};
pub(crate) use put::put_tag;
pub use put::{tag_as_number, tag_len};

/// The greatest field number.
pub const MAX_FIELD_NUMBER: u32 = (1 << 29) - 1;

/// The first of the field numbers that the format reserves for itself. They are not refused.
pub const FIRST_RESERVED_FIELD_NUMBER: u32 = 19_000;

/// The last of the field numbers that the format reserves for itself. They are not refused.
pub const LAST_RESERVED_FIELD_NUMBER: u32 = 19_999;

/// How the payload behind a tag is laid out. See "Message Structure" of the encoding document.
#[derive(Clone, Copy, Debug, PartialEq, Eq)]
pub enum WireType {
    Varint = 0,
    Fixed64 = 1,
    LengthDelimited = 2,
    StartGroup = 3,
    EndGroup = 4,
    Fixed32 = 5,
}

impl WireType {
    ghost use Rattle.wire_base.specs.declared.error.DecodeError.TheVariants.{InvalidWireType};
    ghost use Rattle.wire_base.specs.Tag.{wire_number};

    /// The wire type of a number, which is the low three bits of a tag. A number above 5 is
    /// `InvalidWireType`.
    pub fn from_u32(value: u32) -> Result<WireType, DecodeError>
        ensures ok { IfOk result (λ wire_type. wire_number wire_type ≡ value) }
        ensures err { IfErr result (λ e. (5 < value) × (e ≡ InvalidWireType value)) }
    {
        match value {
            0 => Ok(WireType::Varint),
            1 => Ok(WireType::Fixed64),
            2 => Ok(WireType::LengthDelimited),
            3 => Ok(WireType::StartGroup),
            4 => Ok(WireType::EndGroup),
            5 => Ok(WireType::Fixed32),
            _ => Err(DecodeError::InvalidWireType(value)),
        }
    }
}

/// What stands before each payload: the field's number, and how the payload is laid out. See
/// "Message Structure" of the encoding document.
#[derive(Clone, Copy, Debug, PartialEq, Eq)]
pub struct Tag {
    field_number: u32,
    wire_type: WireType,
    pub ghost in_range: { IsFieldNumber field_number },
}

impl Tag {
    ghost use Rattle.wire_base.specs.declared.tag.WireType.TheVariants.{EndGroup};
    ghost use Rattle.wire_base.specs.Ending.{by_tag, Ends};
    ghost use Rattle.wire_base.specs.Fault.{NextTagFault};
    ghost use Rattle.wire_base.specs.Read.{Reads};
    ghost use Rattle.wire_base.specs.Sink.{Writes};
    ghost use Rattle.wire_base.specs.Tag.{IsTagSpelling, TagFault, tag_text};
    ghost use Rattle.wire_base.specs.TagView.{tag_number, tag_type};

    /// A tag of a field number from 1 to `MAX_FIELD_NUMBER`.
    pub fn new(field_number: u32, wire_type: WireType) -> Tag
        requires { IsFieldNumber field_number }
        ensures number { tag_number result ≡ field_number }
        ensures wire_type { tag_type result ≡ wire_type }
    {
        Tag {
            field_number,
            wire_type,
        }
    }

    /// A number from 1 to `MAX_FIELD_NUMBER`.
    pub fn field_number(&self) -> u32
        ensures number { result ≡ tag_number self.now }
        ensures in_range { IsFieldNumber result }
    {
        self.field_number
    }

    /// How the payload behind the tag is laid out.
    pub fn wire_type(&self) -> WireType
        ensures { result ≡ tag_type self.now }
    {
        self.wire_type
    }

    /// Writes the shortest text of the tag. Refused where the sink refuses a byte.
    #[inline(always)]
    pub fn encode<S: EncodeSink>(&self, sink: &mut S) -> Result<(), EncodeError>
        ensures { Writes (tag_text (tag_number self.now) (tag_type self.now))
            (S.held sink.old) (S.held sink.new) result }
    {
        put_tag(self.field_number, self.wire_type, sink)
    }

    /// Reads a tag, padded or not, from the front of the buffer. A number of 2^32 or more is
    /// `InvalidFieldNumber`, wire types 6 and 7 are `InvalidWireType`, and field number 0 is
    /// `InvalidFieldNumber`; a varint's own fault comes first.
    #[inline(always)]
    pub fn decode<B: Buf>(buf: &mut B) -> Result<Tag, DecodeError>
        ensures ok { IfOk result (λ tag. Reads (B.unread buf.old)
            (IsTagSpelling (tag_number tag) (tag_type tag)) (B.unread buf.new)) }
        ensures fault { IfErr result (TagFault (B.unread buf.old)) }
        ensures kept { B.kept buf.new ≡ B.kept buf.old }
    {
        let value = decode_varint(buf)?;
        if value >= 1 << 32 {
            return Err(DecodeError::InvalidFieldNumber);
        }
        let wire_type = WireType::from_u32((value % 8) as u32)?;
        let field_number = (value / 8) as u32;
        if field_number == 0 {
            return Err(DecodeError::InvalidFieldNumber);
        }
        Ok(Tag {
            field_number,
            wire_type,
        })
    }

    /// Reads the tag of the next record in the body of a group of this number: none where its end
    /// tag stands, which is taken. The end tag of another number is `InvalidEndGroup`. Refused else
    /// as `Tag::decode`, so with `UnexpectedEof` where the bytes end before the group does. See
    /// "Groups" of the encoding document.
    #[inline(always)]
    pub fn decode_in_group<B: Buf>(buf: &mut B, number: u32) -> Result<Option<Tag>, DecodeError>
        ensures record { IfOk result (λ next. IfSome next (λ tag. Reads (B.unread buf.old)
            (IsTagSpelling (tag_number tag) (tag_type tag)) (B.unread buf.new))) }
        ensures inside { IfOk result (λ next. IfSome next (λ tag. tag_type tag ≢ EndGroup)) }
        ensures end { IfOk result (λ next. IfNone next (Ends (by_tag number)
            (B.unread buf.old) (B.unread buf.new))) }
        ensures fault { IfErr result (NextTagFault (by_tag number) (B.unread buf.old)) }
        ensures kept { B.kept buf.new ≡ B.kept buf.old }
    {
        let tag = Tag::decode(buf)?;
        if let WireType::EndGroup = tag.wire_type {
            if tag.field_number == number {
                return Ok(None);
            }
            return Err(DecodeError::InvalidEndGroup(tag.field_number));
        }
        Ok(Some(tag))
    }
}
