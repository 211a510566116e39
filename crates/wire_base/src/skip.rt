//! Passing over records that nobody asked for.
ghost use Rattle.std.specs.Prelude.{◌≡◌, OnOk, IfErr};
ghost use Rattle.wire_base.specs.Agreement.{FollowsDecoding, RefusesAsDecoding, IsShortWhereCut, StaysRefused};
ghost use Rattle.wire_base.specs.Charge.{payload_charge, charge};
ghost use Rattle.wire_base.specs.Ending.{by_tag};
ghost use Rattle.wire_base.specs.Fault.{PayloadFault, ListFault};
ghost use Rattle.wire_base.specs.Field.{Payload, Fields};
ghost use Rattle.wire_base.specs.Limits.{uncounted};
ghost use Rattle.wire_base.specs.TagView.{tag_number, tag_type};
ghost use Rattle.wire_base.specs.Taken.{TakesPayload, TakesUntil};

use crate::decode_context::RECURSION_LIMIT;
use crate::error::DecodeError;
use crate::payload::{decode_length, skip_bytes};
use crate::tag::{Tag, WireType};
use crate::varint::decode_varint;
use bytes::Buf;

/// Passes over the payload of a tag that was read, in which groups, its own counted, nest at most
/// 100 deep. Refused as `skip_field_depth`.
#[inline(always)]
pub fn skip_field<B: Buf>(tag: Tag, buf: &mut B) -> Result<(), DecodeError>
    ensures ok { OnOk result ((p : Payload) × TakesPayload (payload_charge p) (uncounted 100)
        (tag_number tag) (tag_type tag) p (B.unread buf.old) (B.unread buf.new)) }
    ensures fault { IfErr result
        (PayloadFault (uncounted 100) (tag_number tag) (tag_type tag) (B.unread buf.old)) }
    ensures decoded { FollowsDecoding 100 (tag_number tag) (tag_type tag)
        (B.unread buf.old) (B.unread buf.new) result }
    ensures refused { RefusesAsDecoding 100 (tag_number tag) (tag_type tag)
        (B.unread buf.old) result }
    ensures cut { IsShortWhereCut (uncounted 100) (tag_number tag) (tag_type tag)
        (B.unread buf.old) result }
    ensures stays { StaysRefused (PayloadFault (uncounted 100) (tag_number tag) (tag_type tag))
        (B.unread buf.old) result }
    ensures kept { B.kept buf.new ≡ B.kept buf.old }
{
    skip_field_depth(tag, buf, RECURSION_LIMIT)
}

/// Passes over the payload of a tag that was read, in which groups, its own counted, nest at most
/// `depth` deep. Refused with the first fault from the left: as `decode_varint`, as `decode_length`
/// without a maximum, as `Tag::decode_in_group`, with `UnexpectedEof` where a payload of a fixed
/// width is cut short, with `RecursionLimitExceeded` at a group too deep, and with
/// `InvalidWireType` where the tag itself is an end tag. But for slots, unknown bytes and memory it
/// agrees with `decode_unknown_field` under as many levels. See "Message Structure" and "Groups" of
/// the encoding document.
#[inline(always)]
pub fn skip_field_depth<B: Buf>(tag: Tag, buf: &mut B, depth: u32) -> Result<(), DecodeError>
    ensures ok { OnOk result ((p : Payload) × TakesPayload (payload_charge p) (uncounted depth)
        (tag_number tag) (tag_type tag) p (B.unread buf.old) (B.unread buf.new)) }
    ensures fault { IfErr result
        (PayloadFault (uncounted depth) (tag_number tag) (tag_type tag) (B.unread buf.old)) }
    ensures decoded { FollowsDecoding depth (tag_number tag) (tag_type tag)
        (B.unread buf.old) (B.unread buf.new) result }
    ensures refused { RefusesAsDecoding depth (tag_number tag) (tag_type tag)
        (B.unread buf.old) result }
    ensures cut { IsShortWhereCut (uncounted depth) (tag_number tag) (tag_type tag)
        (B.unread buf.old) result }
    ensures stays { StaysRefused (PayloadFault (uncounted depth) (tag_number tag) (tag_type tag))
        (B.unread buf.old) result }
    ensures kept { B.kept buf.new ≡ B.kept buf.old }
{
    skip_payload(tag, buf, depth)
}

// Passes over a payload.
#[cycle(skip)]
#[inline(always)]
fn skip_payload<B: Buf>(tag: Tag, buf: &mut B, depth: u32) -> Result<(), DecodeError>
    ensures ok { OnOk result ((p : Payload) × TakesPayload (payload_charge p) (uncounted depth)
        (tag_number tag) (tag_type tag) p (B.unread buf.old) (B.unread buf.new)) }
    ensures fault { IfErr result
        (PayloadFault (uncounted depth) (tag_number tag) (tag_type tag) (B.unread buf.old)) }
    ensures kept { B.kept buf.new ≡ B.kept buf.old }
{
    match tag.wire_type() {
        WireType::Varint => {
            decode_varint(buf)?;
            Ok(())
        }
        WireType::Fixed64 => skip_bytes(buf, 8),
        WireType::LengthDelimited => {
            let len = decode_length(buf, None)?;
            buf.advance(len);
            Ok(())
        }
        WireType::StartGroup => {
            if depth == 0 {
                return Err(DecodeError::RecursionLimitExceeded);
            }
            skip_group(tag.field_number(), buf, depth - 1)
        }
        WireType::EndGroup => Err(DecodeError::InvalidWireType(4)),
        WireType::Fixed32 => skip_bytes(buf, 4),
    }
}

// Passes over the body of a group of this number, its end tag too.
#[cycle(skip)]
#[inline(never)]
fn skip_group<B: Buf>(number: u32, buf: &mut B, depth: u32) -> Result<(), DecodeError>
    ensures ok { OnOk result ((fs : Fields) × TakesUntil (charge fs) (uncounted depth)
        (by_tag number) fs (B.unread buf.old) (B.unread buf.new)) }
    ensures fault { IfErr result (ListFault (uncounted depth) (by_tag number) (B.unread buf.old)) }
    ensures kept { B.kept buf.new ≡ B.kept buf.old }
{
    while let Some(tag) = Tag::decode_in_group(buf, number)? {
        skip_payload(tag, buf, depth)?;
    }
    Ok(())
}
