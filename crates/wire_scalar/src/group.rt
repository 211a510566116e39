//! Groups that are not copied.
ghost use Rattle.std.specs.Prelude.{◌≡◌, ◌≢◌, ℕ, ◌+◌, List, [], ◌++◌, OnErr, IfOk, IfErr, MatchResult};
ghost use Rattle.wire_base.specs.declared.error.DecodeError.TheVariants.{UnexpectedEof};
ghost use Rattle.wire_base.specs.declared.tag.WireType.TheVariants.{StartGroup};
ghost use Rattle.wire_base.specs.Agreement.{StaysRefused};
ghost use Rattle.wire_base.specs.Charge.{payload_charge};
ghost use Rattle.wire_base.specs.Ending.{by_tag};
ghost use Rattle.wire_base.specs.Fault.{ListFault};
ghost use Rattle.wire_base.specs.Field.{Fields, group};
ghost use Rattle.wire_base.specs.Limits.{Limits, uncounted};
ghost use Rattle.wire_base.specs.Spells.{Spells};
ghost use Rattle.wire_base.specs.Taken.{TakesPayload};
ghost use Rattle.wire_scalar.specs.Borrow.{BorrowsBody};

use wire_base::{DecodeError, Tag, laws, skip_field_depth};

/// The body of a group whose start tag was read, up to the end tag of the same number. The slice
/// then begins behind that tag. Groups in the body nest at most `depth` deep; the group itself is
/// not counted. Refused with the first fault in the body or at its end, and the slice then stays:
/// with that of a tag or a payload, with `InvalidEndGroup` at the end tag of another number, with
/// `UnexpectedEof` where there is no end tag, or with `RecursionLimitExceeded` at a group too deep.
/// See "Groups" of the encoding document.
pub fn borrow_group<'a>(
    buf: &mut &'a [u8],
    number: u32,
    depth: u32,
) -> Result<&'a [u8], DecodeError>
    ensures ok { IfOk result (λ body. BorrowsBody (uncounted depth) number
        body.now buf.old.now buf.new.now) }
    ensures fault { IfErr result (ListFault (uncounted depth) (by_tag number) buf.old.now) }
    ensures unchanged { OnErr result (buf.new.now ≡ buf.old.now) }

    // Where decoding with one level more takes a group, its body is borrowed.
    ensures decoded { (l : Limits) (fs : Fields) (rest : List ℕ) → l.depth ≡ depth + 1
        → TakesPayload (payload_charge (group fs)) l number StartGroup (group fs) buf.old.now rest
        → MatchResult result (λ body. Spells fs body.now × (buf.new.now ≡ rest)) (λ e. ⊥) }
    ensures cut { (fs : Fields) (missing : List ℕ) → missing ≢ []
        → TakesPayload (payload_charge (group fs)) (uncounted (depth + 1)) number StartGroup
        (group fs) (buf.old.now ++ missing) []
        → MatchResult result (λ body. ⊥) (λ e. e ≡ UnexpectedEof) }
    ensures stays { StaysRefused (ListFault (uncounted depth) (by_tag number)) buf.old.now result }
{
    laws::one_payload();
    laws::one_payload_fault();
    laws::no_payload_beside_fault();
    laws::skipped_where_decoded();
    laws::cut_is_short();
    laws::faults_stay();
    let (body, rest) = split_group(*buf, number, depth)?;
    *buf = rest;
    Ok(body)
}

// The body of a group, and what follows its end tag.
fn split_group(start: &[u8], number: u32, depth: u32) -> Result<(&[u8], &[u8]), DecodeError>
    ensures ok { IfOk result (λ parts. BorrowsBody (uncounted depth) number
        parts.0.now start.now parts.1.now) }
    ensures fault { IfErr result (ListFault (uncounted depth) (by_tag number) start.now) }
{
    laws::records_one_by_one();
    laws::charges_add_up();
    let mut rest = start;
    let mut body_len = 0;
    while let Some(tag) = Tag::decode_in_group(&mut rest, number)? {
        skip_field_depth(tag, &mut rest, depth)?;
        body_len = start.len() - rest.len();
    }
    Ok((&start[..body_len], rest))
}
