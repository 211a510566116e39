//! The last record of a field number.
ghost use Rattle.std.specs.Prelude.{◌≡◌, [], IfOk, IfErr};
ghost use Rattle.wire_base.specs.Charge.{charge};
ghost use Rattle.wire_base.specs.Ending.{by_input};
ghost use Rattle.wire_base.specs.Fault.{ListFault};
ghost use Rattle.wire_base.specs.Field.{Fields};
ghost use Rattle.wire_base.specs.Limits.{Fits, uncounted};
ghost use Rattle.wire_base.specs.Spells.{Spells};
ghost use Rattle.wire_read.specs.Last.{FoundLast};

use wire_base::laws;
use wire_codec::{DecodeError, Tag, WireType, skip_field_depth};

/// Where a record stands: its tag is the bytes from `start` to `payload`; from there to `end` is
/// what stands behind it, the length of a payload or the end tag of a group counted.
#[derive(Clone, Copy, Debug)]
pub struct Place {
    pub wire_type: WireType,
    pub start: usize,
    pub payload: usize,
    pub end: usize,
}

/// The last record of this number, those in groups left out, in bytes that all spell records with
/// at most so many levels; else the fault that decoding names.
pub fn find_last(bytes: &[u8], number: u32, depth: u32) -> Result<Option<Place>, DecodeError>
    ensures ok { IfOk result (λ found. (fs : Fields) × Spells fs bytes.now
        × Fits (charge fs) (uncounted depth) × FoundLast number fs bytes.now [] found) }
    ensures fault { IfErr result (ListFault (uncounted depth) by_input bytes.now) }
{
    laws::records_one_by_one();
    laws::charges_add_up();
    laws::joined_texts_spell();
    let mut rest = bytes;
    let mut last = None;
    while !rest.is_empty() {
        let start = bytes.len() - rest.len();
        let tag = Tag::decode(&mut rest)?;
        let payload = bytes.len() - rest.len();
        skip_field_depth(tag, &mut rest, depth)?;
        if tag.field_number() == number {
            last = Some(Place {
                wire_type: tag.wire_type(),
                start,
                payload,
                end: bytes.len() - rest.len(),
            });
        }
    }
    Ok(last)
}
