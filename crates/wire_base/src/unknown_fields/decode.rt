//! Unknown fields from bytes.
ghost use Rattle.std.specs.Prelude.{◌≡◌, ◌≢◌, [], OnOk, OnErr, IfOk, IfErr, MatchResult};
ghost use Rattle.wire_base.specs.declared.error.DecodeError.TheVariants.{OutOfMemory};
ghost use Rattle.wire_base.specs.declared.tag.WireType.TheVariants.{StartGroup};
ghost use Rattle.wire_base.specs.Agreement.{NeverWantsRoom, KeepsWhatIsSkipped, RefusesAsSkipping, IsShortOrWantsMemory, StaysRefused, FaultOrMemory};
ghost use Rattle.wire_base.specs.Charge.{charge, payload_charge};
ghost use Rattle.wire_base.specs.Ending.{by_input, by_tag};
ghost use Rattle.wire_base.specs.Field.{Fields};
ghost use Rattle.wire_base.specs.InRange.{AreFitting, AreNumbered, IsPayloadFitting, IsPayloadNumbered};
ghost use Rattle.wire_base.specs.Limits.{Fits, NoCountGrew, counted, left_after};
ghost use Rattle.wire_base.specs.Refusal.{PayloadRefusal, ListRefusal};
ghost use Rattle.wire_base.specs.Spells.{Spells};
ghost use Rattle.wire_base.specs.TagView.{tag_number, tag_type};
ghost use Rattle.wire_base.specs.Taken.{KeepsBehind, TakesPayload, TakesUntil};
ghost use Rattle.wire_base.specs.UnknownFields.{payload_of};

use super::{UnknownField, UnknownFieldData, UnknownFields};
use crate::decode_context::{DEFAULT_UNKNOWN_FIELD_LIMIT, DecodeContext, RECURSION_LIMIT};
use crate::error::DecodeError;
use crate::payload::{decode_length, take_bytes};
use crate::tag::{Tag, WireType};
use crate::varint::decode_varint;
use bytes::Buf;
use std::alloc::Global;

impl UnknownFields {
    /// Reads all of the bytes as records, in which groups nest at most 100 deep and which are at
    /// most 1,000,000, those in groups counted. Refused as `decode_from_slice_within`.
    pub fn decode_from_slice(alloc: Global, bytes: &[u8]) -> Result<UnknownFields, DecodeError>
        ensures spelled { IfOk result (λ fs. Spells fs bytes.now) }
        ensures within { IfOk result (λ fs. Fits (charge fs) (counted 100 1000000)) }
        ensures in_range { IfOk result (λ fs. AreFitting fs × AreNumbered fs) }
        ensures fault { IfErr result (ListRefusal (counted 100 1000000) by_input bytes.now) }

        // What the bytes spell within the limits is what is read, unless memory runs out.
        ensures only { (fs : Fields) → Spells fs bytes.now → Fits (charge fs) (counted 100 1000000)
            → MatchResult result (λ read. read ≡ fs) (λ e. e ≡ OutOfMemory) }
    {
        let mut context = DecodeContext::new(RECURSION_LIMIT, DEFAULT_UNKNOWN_FIELD_LIMIT);
        UnknownFields::decode_from_slice_within(alloc, bytes, &mut context)
    }

    /// Reads all of the bytes as records, under the limits of the context. Refused with the first
    /// fault from the left, of a tag as `Tag::decode` or of a payload as `decode_unknown_field`, or
    /// with `OutOfMemory`. A refused attempt may have used up slots and levels of the context. See
    /// "Message Structure" of the encoding document.
    pub fn decode_from_slice_within(
        alloc: Global,
        bytes: &[u8],
        context: &mut DecodeContext,
    ) -> Result<UnknownFields, DecodeError>
        ensures spelled { IfOk result (λ fs. Spells fs bytes.now) }
        ensures within { IfOk result (λ fs. Fits (charge fs) context.old) }
        ensures in_range { IfOk result (λ fs. AreFitting fs × AreNumbered fs) }
        ensures charged { IfOk result (λ fs. context.new ≡ left_after context.old (charge fs)) }
        ensures fault { IfErr result (ListRefusal context.old by_input bytes.now) }
        ensures counts { OnErr result (NoCountGrew context.old context.new) }
    {
        let mut fields = UnknownFields::new(alloc);
        fields.append_from_slice(alloc, bytes, context)?;
        fields.widths_fit();
        Ok(fields)
    }

    // Reads all of the bytes as records, and keeps them behind those that are there.
    pub(crate) fn append_from_slice(
        &mut self,
        alloc: Global,
        bytes: &[u8],
        context: &mut DecodeContext,
    ) -> Result<(), DecodeError>
        ensures ok { OnOk result
            (KeepsBehind context.old context.new self.old bytes.now self.new []) }
        ensures fault { IfErr result (ListRefusal context.old by_input bytes.now) }
        ensures counts { OnErr result (NoCountGrew context.old context.new) }
    {
        let mut buf = bytes;
        while !buf.is_empty() {
            let tag = Tag::decode(&mut buf)?;
            let field = decode_field(alloc, tag, &mut buf, context)?;
            if self.push(field).is_err() {
                return Err(DecodeError::OutOfMemory);
            }
        }
        Ok(())
    }
}

/// Reads the payload of a tag that was read, and keeps it as a field. It takes a slot for itself
/// and one for each field in its groups, a level for each group while that is read, and the bytes
/// of each length-delimited payload.
/// `UnknownFieldLimitExceeded`, where no slot is left, comes before any fault of the payload; else
/// refused as `skip_field_depth` at the levels of the context, with `UnknownFieldLimitExceeded` for
/// a length-delimited payload that is there and is more than the bytes that are left, or with
/// `OutOfMemory`, only for bytes that are there and are no more. A refused attempt may have used up
/// slots, bytes and levels. With more slots left than bytes, and no fewer unknown bytes where these
/// have a limit, it agrees with `skip_field_depth` at as many levels, but for memory.
#[inline(always)]
pub fn decode_unknown_field<B: Buf>(
    alloc: Global,
    tag: Tag,
    buf: &mut B,
    context: &mut DecodeContext,
) -> Result<UnknownField, DecodeError>
    ensures number { IfOk result (λ field. field.number ≡ tag_number tag) }
    ensures in_range { IfOk result (λ field.
        IsPayloadFitting (payload_of field.value) × IsPayloadNumbered (payload_of field.value)) }
    ensures ok { IfOk result (λ field. TakesPayload (payload_charge (payload_of field.value))
        context.old (tag_number tag) (tag_type tag) (payload_of field.value)
        (B.unread buf.old) (B.unread buf.new)) }
    ensures charged { IfOk result (λ field. context.new
        ≡ left_after context.old (payload_charge (payload_of field.value))) }
    ensures fault { IfErr result
        (PayloadRefusal context.old (tag_number tag) (tag_type tag) (B.unread buf.old)) }
    ensures counts { OnErr result (NoCountGrew context.old context.new) }
    ensures enough { NeverWantsRoom context.old (B.unread buf.old) result }
    ensures skipped { KeepsWhatIsSkipped (λ field. payload_of field.value) context.old
        (tag_number tag) (tag_type tag) (B.unread buf.old) (B.unread buf.new) result }
    ensures refused { RefusesAsSkipping context.old (tag_number tag) (tag_type tag)
        (B.unread buf.old) result }
    ensures cut { IsShortOrWantsMemory context.old (tag_number tag) (tag_type tag)
        (B.unread buf.old) result }
    ensures stays { StaysRefused (FaultOrMemory context.old (tag_number tag) (tag_type tag))
        (B.unread buf.old) result }
    ensures kept { B.kept buf.new ≡ B.kept buf.old }
{
    decode_field(alloc, tag, buf, context)
}

// Reads a payload, and keeps it as a field.
#[cycle(decode)]
#[inline(always)]
fn decode_field<B: Buf>(
    alloc: Global,
    tag: Tag,
    buf: &mut B,
    context: &mut DecodeContext,
) -> Result<UnknownField, DecodeError>
    ensures number { IfOk result (λ field. field.number ≡ tag_number tag) }
    ensures in_range { IfOk result (λ field.
        IsPayloadFitting (payload_of field.value) × IsPayloadNumbered (payload_of field.value)) }
    ensures ok { IfOk result (λ field. TakesPayload (payload_charge (payload_of field.value))
        context.old (tag_number tag) (tag_type tag) (payload_of field.value)
        (B.unread buf.old) (B.unread buf.new)) }
    ensures charged { IfOk result (λ field. context.new
        ≡ left_after context.old (payload_charge (payload_of field.value))) }
    ensures fault { IfErr result
        (PayloadRefusal context.old (tag_number tag) (tag_type tag) (B.unread buf.old)) }
    ensures counts { OnErr result (NoCountGrew context.old context.new) }
    ensures kept { B.kept buf.new ≡ B.kept buf.old }
{
    let value = decode_value(alloc, tag, buf, context)?;
    value.widths_fit();
    Ok(UnknownField {
        number: tag.field_number(),
        value,
    })
}

// Reads a payload: its slot first, then what its wire type says.
#[cycle(decode)]
#[inline(always)]
fn decode_value<B: Buf>(
    alloc: Global,
    tag: Tag,
    buf: &mut B,
    context: &mut DecodeContext,
) -> Result<UnknownFieldData, DecodeError>
    ensures ok { IfOk result (λ value. TakesPayload (payload_charge (payload_of value))
        context.old (tag_number tag) (tag_type tag) (payload_of value)
        (B.unread buf.old) (B.unread buf.new)) }
    ensures charged { IfOk result (λ value. context.new
        ≡ left_after context.old (payload_charge (payload_of value))) }
    ensures fault { IfErr result
        (PayloadRefusal context.old (tag_number tag) (tag_type tag) (B.unread buf.old)) }
    ensures counts { OnErr result (NoCountGrew context.old context.new) }
    ensures kept { B.kept buf.new ≡ B.kept buf.old }
{
    match tag.wire_type() {
        WireType::StartGroup => {
            context.register_unknown_field()?;
            context.descend()?;
            let fields = decode_group(alloc, tag.field_number(), buf, context)?;
            context.ascend();
            Ok(UnknownFieldData::Group(fields))
        }
        _ => decode_flat(alloc, tag, buf, context),
    }
}

// Reads a payload that is no group.
#[inline(always)]
fn decode_flat<B: Buf>(
    alloc: Global,
    tag: Tag,
    buf: &mut B,
    context: &mut DecodeContext,
) -> Result<UnknownFieldData, DecodeError>
    requires { tag_type tag ≢ StartGroup }
    ensures ok { IfOk result (λ value. TakesPayload (payload_charge (payload_of value))
        context.old (tag_number tag) (tag_type tag) (payload_of value)
        (B.unread buf.old) (B.unread buf.new)) }
    ensures charged { IfOk result (λ value. context.new
        ≡ left_after context.old (payload_charge (payload_of value))) }
    ensures fault { IfErr result
        (PayloadRefusal context.old (tag_number tag) (tag_type tag) (B.unread buf.old)) }
    ensures counts { OnErr result (NoCountGrew context.old context.new) }
    ensures kept { B.kept buf.new ≡ B.kept buf.old }
{
    context.register_unknown_field()?;
    match tag.wire_type() {
        WireType::Varint => Ok(UnknownFieldData::Varint(decode_varint(buf)?)),
        WireType::Fixed64 => Ok(UnknownFieldData::Fixed64(buf.try_get_u64_le()?)),
        WireType::LengthDelimited => {
            let len = decode_length(buf, None)?;
            context.register_unknown_bytes(len)?;
            Ok(UnknownFieldData::LengthDelimited(take_bytes(alloc, buf, len)?))
        }
        WireType::Fixed32 => Ok(UnknownFieldData::Fixed32(buf.try_get_u32_le()?)),
        WireType::StartGroup | WireType::EndGroup => Err(DecodeError::InvalidWireType(4)),
    }
}

// Reads the body of a group of this number, its end tag too.
#[cycle(decode)]
#[inline(never)]
fn decode_group<B: Buf>(
    alloc: Global,
    number: u32,
    buf: &mut B,
    context: &mut DecodeContext,
) -> Result<UnknownFields, DecodeError>
    ensures ok { IfOk result (λ fs. TakesUntil (charge fs) context.old (by_tag number) fs
        (B.unread buf.old) (B.unread buf.new)) }
    ensures charged { IfOk result (λ fs. context.new ≡ left_after context.old (charge fs)) }
    ensures fault { IfErr result (ListRefusal context.old (by_tag number) (B.unread buf.old)) }
    ensures counts { OnErr result (NoCountGrew context.old context.new) }
    ensures kept { B.kept buf.new ≡ B.kept buf.old }
{
    let mut fields = UnknownFields::new(alloc);
    while let Some(tag) = Tag::decode_in_group(buf, number)? {
        let field = decode_field(alloc, tag, buf, context)?;
        if fields.push(field).is_err() {
            return Err(DecodeError::OutOfMemory);
        }
    }
    Ok(fields)
}
