//! Fields of a scalar type.
ghost use Rattle.std.specs.Prelude.{OnOk, OnErr};
ghost use Rattle.wire_codec.specs.Limits.{Limits};
ghost use Rattle.wire_codec.specs.TagView.{tag_number, tag_type};
ghost use Rattle.wire_codec.specs.Taking.{TakesRecord, IsCharged, NotTaken};
ghost use Rattle.wire_fields.specs.Presence.{sets, sets_some};
ghost use Rattle.wire_structs.specs.Flags.{flagged};

use crate::scalar::StructScalar;
use wire_codec::{DecodeError, Tag, laws};

/// Takes the record behind this tag into the value of a field of implicit presence, as `Implicit`
/// of `wire_fields`, or of a oneof, as `Always`. It is charged nothing, whatever the limits.
/// Refused as `set` of the scalar type, which leaves open what is held and the place of the buffer.
pub fn merge_value<S: StructScalar>(
    tag: Tag,
    held: &mut S::Held,
    buf: &mut S::Source,
) -> Result<(), DecodeError>
    ensures ok { (l : Limits) → OnOk result (IsCharged l l (λ c.
        TakesRecord (sets S.scalar) l (tag_number tag) (tag_type tag) (S.view held.old)
        (S.Source.unread buf.old) c (S.view held.new) (S.Source.unread buf.new))) }
    ensures err { (l : Limits) → OnErr result (NotTaken
        (TakesRecord (sets S.scalar) l (tag_number tag) (tag_type tag) (S.view held.old)
        (S.Source.unread buf.old))) }
{
    laws::grammar::limits_add_up();
    S::set(tag, held, buf)
}

/// Takes the record behind this tag into the value of a field of explicit presence, as `Optional`
/// of `wire_fields`, and sets its flag. Charged and refused as `merge_value`, which leaves open
/// what flag and value hold.
pub fn merge_optional<S: StructScalar>(
    tag: Tag,
    has: &mut bool,
    held: &mut S::Held,
    buf: &mut S::Source,
) -> Result<(), DecodeError>
    ensures ok { (l : Limits) → OnOk result (IsCharged l l (λ c.
        TakesRecord (sets_some S.scalar) l (tag_number tag) (tag_type tag)
        (flagged has.old (S.view held.old)) (S.Source.unread buf.old) c
        (flagged has.new (S.view held.new)) (S.Source.unread buf.new))) }
    ensures err { (l : Limits) → OnErr result (NotTaken
        (TakesRecord (sets_some S.scalar) l (tag_number tag) (tag_type tag)
        (flagged has.old (S.view held.old)) (S.Source.unread buf.old))) }
{
    laws::grammar::limits_add_up();
    S::set(tag, held, buf)?;
    *has = true;
    Ok(())
}
