//! Records that are counted and not kept.
ghost use Rattle.std.specs.Prelude.{◌≡◌, ◌≢◌, ◌^◌, ◌<◌, ◌≤◌, List, [], length, OnErr, IfOk, IfErr, MatchResult};
ghost use Rattle.wire_base.specs.declared.tag.WireType.TheVariants.{StartGroup};
ghost use Rattle.wire_base.specs.Charge.{charge, count, payload_charge};
ghost use Rattle.wire_base.specs.Fault.{PayloadFault};
ghost use Rattle.wire_base.specs.Field.{Payload, Fields};
ghost use Rattle.wire_base.specs.Items.{Item, TakesItems, SpanFault, flat_charge, greatest_level, item_bytes, slots};
ghost use Rattle.wire_base.specs.Limits.{HaveRoom, NoCountGrew, left_after};
ghost use Rattle.wire_base.specs.Spells.{Spells};
ghost use Rattle.wire_base.specs.TagView.{tag_number, tag_type};
ghost use Rattle.wire_base.specs.Taken.{TakesPayload};

use crate::decode_context::DecodeContext;
use crate::error::DecodeError;
use crate::payload::decode_length;
use crate::skip::skip_field_depth;
use crate::tag::{Tag, WireType};
use bytes::Buf;

/// What `register_unknown_record` found in a span.
#[derive(Clone, Copy, Debug, PartialEq, Eq)]
pub struct UnknownSpanCharge {
    /// The unknown fields that were taken, those in groups counted too.
    pub fields: usize,
    /// The greatest level of the walk, at most `u32::MAX`. Where the span is records that nest less
    /// than 2^32 deep, it is how deep their groups nest.
    pub depth: u32,
    /// The bytes of the length-delimited payloads, those in groups too. They are counted also where
    /// the context has no limit for them.
    pub bytes: usize,
}

/// Takes the slots and bytes of the records in a span from the context, as decoding them would, and
/// keeps nothing. It walks from tag to tag: an end tag is not compared with the start tag of its
/// group and changes nothing where no group is open, groups may be left open, and no level is
/// taken. Refused with the first fault from the left: of a tag as `Tag::decode`, with
/// `UnknownFieldLimitExceeded` where its record has no slot, or of a payload, which is never that
/// of a group, as `skip_field_depth`, and then with `UnknownFieldLimitExceeded` where the payload
/// is more than the bytes that are left. A refused walk may have used up slots and bytes.
pub fn register_unknown_record(
    span: &[u8],
    context: &mut DecodeContext,
) -> Result<UnknownSpanCharge, DecodeError>
    ensures ok { IfOk result (λ taken. (items : List Item)
        × TakesItems items context.old span.now []
        × (taken.fields ≡ slots items) × (taken.depth ≡ greatest_level 0 items)
        × (taken.bytes ≡ item_bytes items)
        × (context.new ≡ left_after context.old (flat_charge items))) }
    ensures fault { IfErr result (SpanFault context.old span.now) }
    ensures counts { OnErr result (NoCountGrew context.old context.new) }
    ensures depth { context.new.depth ≡ context.old.depth }
    ensures records { (fs : Fields) → Spells fs span.now → (charge fs).depth < 2 ^ 32
        → HaveRoom context.old.counts (charge fs).counts
        → MatchResult result
        (λ taken. (taken.fields ≡ count fs) × (taken.depth ≡ (charge fs).depth)
        × (taken.bytes ≡ (charge fs).counts.unknown_bytes)
        × (context.new ≡ left_after context.old (charge fs))) (λ e. ⊥) }
{
    walk(span, context)
}

// Goes over the span.
fn walk(span: &[u8], context: &mut DecodeContext) -> Result<UnknownSpanCharge, DecodeError>
    ensures ok { IfOk result (λ taken. (items : List Item)
        × TakesItems items context.old span.now []
        × (taken.fields ≡ slots items) × (taken.depth ≡ greatest_level 0 items)
        × (taken.bytes ≡ item_bytes items)
        × (context.new ≡ left_after context.old (flat_charge items))) }
    ensures fault { IfErr result (SpanFault context.old span.now) }
    ensures counts { OnErr result (NoCountGrew context.old context.new) }
    ensures depth { context.new.depth ≡ context.old.depth }
{
    let before = context.remaining_unknown_fields();
    let mut rest = span;
    let mut level = 0u32;
    let mut depth = 0u32;
    let mut bytes = 0usize;
    while !rest.is_empty() {
        let tag = Tag::decode(&mut rest)?;
        match tag.wire_type() {
            WireType::EndGroup => level = level.saturating_sub(1),
            WireType::StartGroup => {
                context.register_unknown_field()?;
                level = level.saturating_add(1);
                depth = depth.max(level);
            }
            _ => bytes += pass_payload(tag, &mut rest, context)?,
        }
    }
    let fields = before - context.remaining_unknown_fields();
    Ok(UnknownSpanCharge {
        fields,
        depth,
        bytes,
    })
}

// Passes over a payload that is not that of a group, takes what it is charged, and gives the bytes
// among that.
#[inline(always)]
fn pass_payload(
    tag: Tag,
    rest: &mut &[u8],
    context: &mut DecodeContext,
) -> Result<usize, DecodeError>
    requires flat { tag_type tag ≢ StartGroup }
    ensures ok { IfOk result (λ bytes. (p : Payload) × TakesPayload (payload_charge p) context.old
        (tag_number tag) (tag_type tag) p rest.old.now rest.new.now
        × (context.new ≡ left_after context.old (payload_charge p))
        × (bytes ≡ (payload_charge p).counts.unknown_bytes)) }
    ensures fault { IfErr result
        (PayloadFault context.old (tag_number tag) (tag_type tag) rest.old.now) }
    ensures few { IfOk result (λ bytes. bytes ≤ length rest.old.now) }
    ensures counts { OnErr result (NoCountGrew context.old context.new) }
    ensures depth { context.new.depth ≡ context.old.depth }
{
    context.register_unknown_field()?;
    if tag.wire_type() == WireType::LengthDelimited {
        let len = decode_length(rest, None)?;
        context.register_unknown_bytes(len)?;
        rest.advance(len);
        return Ok(len);
    }
    skip_field_depth(tag, rest, 0)?;
    Ok(0)
}
