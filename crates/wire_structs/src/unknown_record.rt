//! A record that no field of a message owns, as it is written: in its shortest form, as
//! `UnknownFields` writes it. It is gone through where it stands, and groups by recursion.
ghost use Rattle.std.specs.Prelude.{◌≡◌, ◌≢◌, ℕ, List, length, OnOk, IfOk, IfErr, IfSome, IfNone};
ghost use Rattle.wire_codec.specs.Charge.{charge, payload_charge};
ghost use Rattle.wire_codec.specs.Ending.{by_tag};
ghost use Rattle.wire_codec.specs.Fault.{PayloadFault, ListFault};
ghost use Rattle.wire_codec.specs.Field.{Payload, Fields, group, none};
ghost use Rattle.wire_codec.specs.FieldNumber.{IsFieldNumber};
ghost use Rattle.wire_codec.specs.Limits.{uncounted};
ghost use Rattle.wire_codec.specs.Read.{Reads};
ghost use Rattle.wire_codec.specs.Spells.{IsPayload};
ghost use Rattle.wire_codec.specs.Tag.{IsTagSpelling};
ghost use Rattle.wire_codec.specs.TagView.{tag_number, tag_type};
ghost use Rattle.wire_codec.specs.Taken.{TakesPayload, TakesUntil};
ghost use Rattle.wire_codec.specs.Text.{payload_text, record_text};
ghost use Rattle.wire_codec.specs.WireType.TheVariants.{StartGroup, EndGroup};
ghost use Rattle.wire_codec.specs.Writes.{Writes};
ghost use Rattle.wire_fields.specs.Numbers.{in_64_bits};
ghost use Rattle.wire_structs.specs.Payloads.{scalar_payload};

use crate::payload::{ScalarPayload, put_record, record_len};
use wire_codec::{
    DecodeError, EncodeError, EncodeSink, Tag, WireType, borrow_bytes, decode_fixed32,
    decode_fixed64, decode_varint, laws, put_group_end, put_group_start, tag_len,
};

/// How many bytes the record behind this tag takes, or `u64::MAX` where it is more. Groups, its own
/// counted, nest at most `depth` deep. Refused as `skip_field_depth`.
#[cycle(measure)]
pub(crate) fn unknown_record_len(tag: Tag, buf: &mut &[u8], depth: u32) -> Result<u64, DecodeError>
    ensures ok { IfOk result (λ len. (p : Payload) × TakesPayload (payload_charge p)
        (uncounted depth) (tag_number tag) (tag_type tag) p buf.old.now buf.new.now
        × (len ≡ in_64_bits (length (record_text (tag_number tag) p)))) }
    ensures fault { IfErr result
        (PayloadFault (uncounted depth) (tag_number tag) (tag_type tag) buf.old.now) }
{
    match tag.wire_type() {
        WireType::StartGroup => {
            if depth == 0 {
                return Err(DecodeError::RecursionLimitExceeded);
            }
            let body = group_len(tag.field_number(), buf, depth - 1)?;
            let start = tag_len(tag.field_number(), WireType::StartGroup) as u64;
            Ok(body.saturating_add(start))
        }
        _ => {
            let payload = read_payload(tag, buf)?;
            Ok(record_len(tag.field_number(), payload))
        }
    }
}

// How many bytes the body of a group of this number takes, its end tag too, or `u64::MAX` where it
// is more.
#[cycle(measure)]
#[inline(never)]
fn group_len(number: u32, buf: &mut &[u8], depth: u32) -> Result<u64, DecodeError>
    requires { IsFieldNumber number }
    ensures ok { IfOk result (λ len. (fs : Fields) × TakesUntil (charge fs) (uncounted depth)
        (by_tag number) fs buf.old.now buf.new.now
        × (len ≡ in_64_bits (length (payload_text number (group fs))))) }
    ensures fault { IfErr result (ListFault (uncounted depth) (by_tag number) buf.old.now) }
{
    let mut len = 0u64;
    while let Some(tag) = Tag::decode_in_group(buf, number)? {
        let record = unknown_record_len(tag, buf, depth)?;
        len = len.saturating_add(record);
    }
    Ok(len.saturating_add(tag_len(number, WireType::EndGroup) as u64))
}

/// Writes the record behind this tag, which is one. Refused where the sink refuses a put.
#[cycle(put)]
pub(crate) fn put_unknown_record<E: EncodeSink>(
    tag: Tag,
    buf: &mut &[u8],
    sink: &mut E,
) -> Result<(), EncodeError>
    requires { (p : Payload) × (rest : List ℕ)
        × Reads buf.old.now (IsPayload (tag_number tag) (tag_type tag) p) rest }
    ensures written { (p : Payload) (rest : List ℕ)
        → Reads buf.old.now (IsPayload (tag_number tag) (tag_type tag) p) rest
        → Writes (record_text (tag_number tag) p) (E.held sink.old) (E.held sink.new) result }
    ensures read { (p : Payload) (rest : List ℕ)
        → Reads buf.old.now (IsPayload (tag_number tag) (tag_type tag) p) rest
        → OnOk result (buf.new.now ≡ rest) }
{
    laws::piece_by_piece();
    match tag.wire_type() {
        WireType::StartGroup => {
            put_group_start(tag.field_number(), sink)?;
            put_group(tag.field_number(), buf, sink)
        }
        _ => {
            let Ok(payload) = read_payload(tag, buf) else {
                return Ok(());
            };
            put_record(tag.field_number(), payload, sink)
        }
    }
}

// Writes the body of a group of this number, its end tag too.
#[cycle(put)]
#[inline(never)]
fn put_group<E: EncodeSink>(number: u32, buf: &mut &[u8], sink: &mut E) -> Result<(), EncodeError>
    requires number { IsFieldNumber number }
    requires there { (fs : Fields) × (rest : List ℕ)
        × Reads buf.old.now (IsPayload number StartGroup (group fs)) rest }
    ensures written { (fs : Fields) (rest : List ℕ)
        → Reads buf.old.now (IsPayload number StartGroup (group fs)) rest
        → Writes (payload_text number (group fs)) (E.held sink.old) (E.held sink.new) result }
    ensures read { (fs : Fields) (rest : List ℕ)
        → Reads buf.old.now (IsPayload number StartGroup (group fs)) rest
        → OnOk result (buf.new.now ≡ rest) }
{
    laws::piece_by_piece();
    while let Some(tag) = next_in_group(number, buf) {
        put_unknown_record(tag, buf, sink)?;
    }
    put_group_end(number, sink)
}

// Reads the tag of the next record in the body of a group of this number: none where its end tag
// stands, which is taken.
#[inline(always)]
fn next_in_group(number: u32, buf: &mut &[u8]) -> Option<Tag>
    ensures record { IfSome result (λ tag. Reads buf.old.now
        (IsTagSpelling (tag_number tag) (tag_type tag)) buf.new.now) }
    ensures inside { IfSome result (λ tag. tag_type tag ≢ EndGroup) }
    ensures end { IfNone result ((fs : Fields) (rest : List ℕ)
        → Reads buf.old.now (IsPayload number StartGroup (group fs)) rest
        → (fs ≡ none) × (buf.new.now ≡ rest)) }
{
    match Tag::decode_in_group(buf, number) {
        Ok(next) => next,
        Err(_) => None,
    }
}

// Reads the payload behind a tag that begins no group.
fn read_payload<'a>(tag: Tag, buf: &mut &'a [u8]) -> Result<ScalarPayload<'a>, DecodeError>
    requires { tag_type tag ≢ StartGroup }
    ensures ok { IfOk result (λ held. Reads buf.old.now
        (IsPayload (tag_number tag) (tag_type tag) (scalar_payload held)) buf.new.now) }
    ensures fault { IfErr result (λ e. (depth : ℕ)
        → PayloadFault (uncounted depth) (tag_number tag) (tag_type tag) buf.old.now e) }
{
    match tag.wire_type() {
        WireType::Varint => Ok(ScalarPayload::Varint(decode_varint(buf)?)),
        WireType::Fixed64 => Ok(ScalarPayload::Fixed64(decode_fixed64(buf)?)),
        WireType::LengthDelimited => Ok(ScalarPayload::Bytes(borrow_bytes(buf)?)),
        WireType::Fixed32 => Ok(ScalarPayload::Fixed32(decode_fixed32(buf)?)),
        // A tag that begins a group is not handed in.
        WireType::StartGroup => Err(DecodeError::InvalidWireType(3)),
        WireType::EndGroup => Err(DecodeError::InvalidWireType(4)),
    }
}
