//! Lists of numbers, packed or not, of which a struct has the count.
ghost use Rattle.std.specs.Prelude.{◌≡◌, ◌+◌, List, [], length, OnOk, OnErr, IfOk};
ghost use Rattle.wire_codec.specs.Limits.{Limits};
ghost use Rattle.wire_codec.specs.Packed.{Appends};
ghost use Rattle.wire_codec.specs.TagView.{tag_number, tag_type};
ghost use Rattle.wire_codec.specs.Taking.{TakesRecord, IsCharged, NotTaken};
ghost use Rattle.wire_fields.specs.Numbers.{in_64_bits};
ghost use Rattle.wire_fields.specs.Packed.{IsNumberText};
ghost use Rattle.wire_structs.specs.NumberCounts.{counts_numbers};

use crate::number::read_number;
use crate::number_texts::take_number;
use crate::scalar::StructNumber;
use wire_codec::{DecodeError, Tag, WireType, borrow_bytes, laws};

/// Counts the numbers of the record behind this tag, one or those of a packed payload, as `Packed`
/// and `Unpacked` of `wire_fields` hold them. No count is above `u64::MAX`. It is charged nothing,
/// whatever the limits. Refused where the record has no numbers, which leaves open the place of the
/// buffer.
pub fn merge_numbers_count<'a, S: StructNumber>(
    tag: Tag,
    count: &mut u64,
    buf: &mut &'a [u8],
) -> Result<(), DecodeError>
    ensures ok { (l : Limits) → OnOk result (IsCharged l l (λ c.
        TakesRecord (counts_numbers S.form S.map) l (tag_number tag) (tag_type tag) count.old
        buf.old.now c count.new buf.new.now)) }
    ensures err { (l : Limits) → OnErr result (NotTaken
        (TakesRecord (counts_numbers S.form S.map) l (tag_number tag) (tag_type tag) count.old
        buf.old.now)) }
{
    laws::grammar::limits_add_up();
    laws::grammar::one_delimited();
    laws::grammar::no_delimited_beside_fault();
    match tag.wire_type() {
        WireType::LengthDelimited => {
            let payload = borrow_bytes(buf)?;
            *count = count_payload::<S>(payload, *count)?;
            Ok(())
        }
        _ => {
            let _read = read_number(tag, S::form(), buf)?;
            *count = count.saturating_add(1);
            Ok(())
        }
    }
}

// Counts the numbers of a payload beside so many.
fn count_payload<S: StructNumber>(payload: &[u8], before: u64) -> Result<u64, DecodeError>
    ensures ok { IfOk result (λ count. (vs : List S.Value)
        × Appends (IsNumberText S.form) S.map payload.now [] vs
        × (count ≡ in_64_bits (before + length vs))) }
    ensures err { OnErr result ((vs : List S.Value)
        → Appends (IsNumberText S.form) S.map payload.now [] vs → ⊥) }
{
    laws::grammar::one_varint();
    let form = S::form();
    let mut rest = payload;
    let mut count = before;
    while !rest.is_empty() {
        let _read = take_number(form, &mut rest)?;
        count = count.saturating_add(1);
    }
    Ok(count)
}
