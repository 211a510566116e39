//! The records of handed-in bytes that no field of a message owns, as they are written: each in its
//! shortest form. They stay where they stand, and are gone through once to be measured and once to
//! be written.
ghost use Rattle.std.specs.Prelude.{◌≡◌, ℕ, List, true, false, OnOk, IfOk, IfErr};
ghost use Rattle.wire_codec.specs.Charge.{payload_charge};
ghost use Rattle.wire_codec.specs.Field.{Payload, Fields, field, none};
ghost use Rattle.wire_codec.specs.Limits.{uncounted};
ghost use Rattle.wire_codec.specs.TagView.{tag_number, tag_type};
ghost use Rattle.wire_codec.specs.Taken.{TakesPayload};
ghost use Rattle.wire_codec.specs.Text.{size, text_of};
ghost use Rattle.wire_codec.specs.Writes.{Writes};
ghost use Rattle.wire_fields.specs.Numbers.{in_64_bits};
ghost use Rattle.wire_fields.specs.Shape.{Owns};
ghost use Rattle.wire_structs.specs.Unknown.{SpellsShallow, RecordsFault, unowned};

use crate::unknown_record::{put_unknown_record, unknown_record_len};
use wire_codec::{
    DecodeError, EncodeError, EncodeSink, RECURSION_LIMIT, Tag, laws, skip_field_depth,
};

/// A message whose fields are known by their numbers.
pub trait FieldNumbers {
    /// Which records its fields own.
    ghost owns: { Owns };

    /// Whether a field has this number.
    fn has(number: u32) -> bool
        ensures { (p : Payload) → owns number p ≡ result };
}

/// How many bytes the records take that no field of the message owns, or `u64::MAX` where it is
/// more. Refused where the bytes are no records, or these nest more than 100 groups.
pub fn unknown_len<M: FieldNumbers>(bytes: &[u8]) -> Result<u64, DecodeError>
    ensures ok { IfOk result (λ len. (fs : Fields) × SpellsShallow bytes.now fs
        × (len ≡ in_64_bits (size (unowned M.owns fs)))) }
    ensures fault { IfErr result (RecordsFault bytes.now) }
{
    let mut buf = bytes;
    let mut len = 0u64;
    while !buf.is_empty() {
        let tag = Tag::decode(&mut buf)?;
        let taken = unknown_record_len(tag, &mut buf, RECURSION_LIMIT)?;
        len = len.saturating_add(counted::<M>(tag.field_number(), taken));
    }
    Ok(len)
}

// What a record of this number and length counts: nothing where a field owns it.
#[inline(always)]
fn counted<M: FieldNumbers>(number: u32, taken: u64) -> u64
    ensures owned { (p : Payload) → M.owns number p ≡ true → result ≡ 0 }
    ensures other { (p : Payload) → M.owns number p ≡ false → result ≡ taken }
{
    if M::has(number) {
        return 0;
    }
    taken
}

/// Writes those records of bytes that are records. Refused where the sink refuses a put.
pub fn put_unknown<M: FieldNumbers, E: EncodeSink>(
    bytes: &[u8],
    sink: &mut E,
) -> Result<(), EncodeError>
    requires { (fs : Fields) × SpellsShallow bytes.now fs }
    ensures { (fs : Fields) → SpellsShallow bytes.now fs → Writes (text_of (unowned M.owns fs))
        (E.held sink.old) (E.held sink.new) result }
{
    laws::piece_by_piece();
    let mut buf = bytes;
    while let Ok(tag) = Tag::decode(&mut buf) {
        put_or_skip::<M, E>(tag, &mut buf, sink)?;
    }
    Ok(())
}

// Writes the record behind this tag, which is one, or passes over it where a field owns it.
#[inline(always)]
fn put_or_skip<M: FieldNumbers, E: EncodeSink>(
    tag: Tag,
    buf: &mut &[u8],
    sink: &mut E,
) -> Result<(), EncodeError>
    requires { (p : Payload) × (rest : List ℕ) × TakesPayload (payload_charge p) (uncounted 100)
        (tag_number tag) (tag_type tag) p buf.old.now rest }
    ensures written { (p : Payload) (rest : List ℕ) → TakesPayload (payload_charge p)
        (uncounted 100) (tag_number tag) (tag_type tag) p buf.old.now rest
        → Writes (text_of (unowned M.owns (field (tag_number tag) p none)))
        (E.held sink.old) (E.held sink.new) result }
    ensures read { (p : Payload) (rest : List ℕ) → TakesPayload (payload_charge p)
        (uncounted 100) (tag_number tag) (tag_type tag) p buf.old.now rest
        → OnOk result (buf.new.now ≡ rest) }
{
    laws::piece_by_piece();
    if M::has(tag.field_number()) {
        // The record is one, so that it is passed over.
        let _ = skip_field_depth(tag, buf, RECURSION_LIMIT);
        return Ok(());
    }
    put_unknown_record(tag, buf, sink)
}
