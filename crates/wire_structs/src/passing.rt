//! The records that a struct does not hold, which stay where they stand and are charged as they are
//! when they are kept.
ghost use Rattle.std.specs.Prelude.{◌≡◌, ◌<◌, ◌≤◌, drop, length, OnOk, OnErr, IfErr};
ghost use Rattle.wire_codec.specs.DecodeError.TheVariants.{UnexpectedEof};
ghost use Rattle.wire_codec.specs.Ending.{by_tag};
ghost use Rattle.wire_codec.specs.Fault.{PayloadFault, ListFault};
ghost use Rattle.wire_codec.specs.TagView.{tag_number, tag_type};
ghost use Rattle.wire_codec.specs.Taking.{TakesRecord, IsCharged, NotTaken};
ghost use Rattle.wire_structs.specs.Passed.{passes, IsPassedBy, IsGroupPassedBy};

use bytes::Buf;
use wire_codec::{DecodeContext, DecodeError, Tag, WireType, decode_length, decode_varint, laws};

/// Passes over the record behind this tag: the last arm of a struct, in place of `keep` of
/// `wire_fields`, as which it is charged and refused, but never for want of memory. It recurses as
/// deep as groups nest, within the levels of the context.
pub fn pass_by<B: Buf>(
    tag: Tag,
    buf: &mut B,
    context: &mut DecodeContext,
) -> Result<(), DecodeError>
    ensures ok { OnOk result (IsCharged context.old context.new (λ c.
        TakesRecord passes context.old (tag_number tag) (tag_type tag) tt (B.unread buf.old) c tt
        (B.unread buf.new))) }
    ensures err { OnErr result (NotTaken
        (TakesRecord passes context.old (tag_number tag) (tag_type tag) tt (B.unread buf.old))) }
{
    laws::grammar::no_payload_beside_fault();
    pass_payload(tag, buf, context)
}

// Passes over a payload: its slot first, then what its wire type says.
#[cycle(pass)]
fn pass_payload<B: Buf>(
    tag: Tag,
    buf: &mut B,
    context: &mut DecodeContext,
) -> Result<(), DecodeError>
    ensures ok { OnOk result (IsPassedBy context.old context.new (tag_number tag) (tag_type tag)
        (B.unread buf.old) (B.unread buf.new)) }
    ensures fault { IfErr result
        (PayloadFault context.old (tag_number tag) (tag_type tag) (B.unread buf.old)) }
{
    context.register_unknown_field()?;
    match tag.wire_type() {
        WireType::Varint => {
            decode_varint(buf)?;
            Ok(())
        }
        WireType::Fixed64 => pass_bytes(buf, 8),
        WireType::LengthDelimited => {
            let len = decode_length(buf, None)?;
            context.register_unknown_bytes(len)?;
            buf.advance(len);
            Ok(())
        }
        WireType::StartGroup => {
            context.descend()?;
            pass_group(tag.field_number(), buf, context)?;
            context.ascend();
            Ok(())
        }
        WireType::EndGroup => Err(DecodeError::InvalidWireType(4)),
        WireType::Fixed32 => pass_bytes(buf, 4),
    }
}

// Passes over the body of a group of this number, its end tag too.
#[cycle(pass)]
#[inline(never)]
fn pass_group<B: Buf>(
    number: u32,
    buf: &mut B,
    context: &mut DecodeContext,
) -> Result<(), DecodeError>
    ensures ok { OnOk result (IsGroupPassedBy context.old context.new number
        (B.unread buf.old) (B.unread buf.new)) }
    ensures fault { IfErr result (ListFault context.old (by_tag number) (B.unread buf.old)) }
{
    while let Some(tag) = Tag::decode_in_group(buf, number)? {
        pass_payload(tag, buf, context)?;
    }
    Ok(())
}

// Passes over so many bytes.
fn pass_bytes<B: Buf>(buf: &mut B, len: u64) -> Result<(), DecodeError>
    ensures ok { OnOk result (B.unread buf.new ≡ drop len (B.unread buf.old)) }
    ensures long { OnOk result (len ≤ length (B.unread buf.old)) }
    ensures err { IfErr result (λ e. e ≡ UnexpectedEof) }
    ensures short { OnErr result (length (B.unread buf.old) < len) }
{
    if (buf.remaining() as u64) < len {
        return Err(DecodeError::UnexpectedEof);
    }
    buf.advance(len as usize);
    Ok(())
}
