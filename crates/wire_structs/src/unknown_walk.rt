//! The records of bytes that no field of a message owns, one after another.
ghost use Rattle.std.specs.Prelude.{◌≡◌, ◌≢◌, [], IfOk, IfErr, IfSome, IfNone};
ghost use Rattle.wire_structs.specs.Unknown.{HasStatus, RecordsFault};
ghost use Rattle.wire_structs.specs.UnknownWalks.{GivesUnknown, HasNoUnknown};

use crate::unknown::FieldNumbers;
use crate::walking::SliceInC;
use wire_codec::{DecodeError, RECURSION_LIMIT, Tag, laws, skip_field_depth};
use wire_read::numbers::status_of;

/// The bytes of the next record that no field of the message owns, its tag and a group whole, as
/// they came; none where all that are left are owned. What is left then begins behind it. Refused
/// where the bytes up to there are no records, or these nest more than 100 groups, which leaves open
/// where it begins.
pub fn next_unknown<'a, M: FieldNumbers>(
    buf: &mut &'a [u8],
) -> Result<Option<&'a [u8]>, DecodeError>
    ensures given { IfOk result (λ next. IfSome next (λ found.
        GivesUnknown M.owns buf.old.now found.now buf.new.now)) }
    ensures ended { IfOk result (λ next. IfNone next (HasNoUnknown M.owns buf.old.now)) }
    ensures fault { IfErr result (RecordsFault buf.old.now) }
{
    laws::grammar::payload_is_field();
    while !buf.is_empty() {
        let front = *buf;
        let tag = Tag::decode(buf)?;
        skip_field_depth(tag, buf, RECURSION_LIMIT)?;
        if !M::has(tag.field_number()) {
            return Ok(Some(&front[..front.len() - buf.len()]));
        }
    }
    Ok(None)
}

/// `next_unknown`, for a caller in another language: 0 and the record, 1 where none is left, or the
/// number that `status_of` gives the error, which is from 2 on. Without 0 the walk stays, and the
/// record is of no bytes.
pub fn next_unknown_status<'a, M: FieldNumbers>(
    walk: &mut SliceInC<'a>,
    element: &mut SliceInC<'a>,
) -> u32
    ensures given { result ≡ 0 → GivesUnknown M.owns walk.old.bytes.now element.new.bytes.now
        walk.new.bytes.now }
    ensures ended { result ≡ 1 → HasNoUnknown M.owns walk.old.bytes.now }
    ensures other { result ≢ 0 → result ≢ 1 → HasStatus walk.old.bytes.now result }
    ensures stays { result ≢ 0 → walk.new ≡ walk.old }
    ensures empty { result ≢ 0 → element.new.bytes.now ≡ [] }
{
    element.bytes = &[];
    let mut rest = walk.bytes;
    match next_unknown::<M>(&mut rest) {
        Ok(Some(found)) => {
            element.bytes = found;
            walk.bytes = rest;
            0
        }
        Ok(None) => 1,
        Err(error) => status_of(&error),
    }
}
