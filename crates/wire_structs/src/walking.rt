//! Lists that are read in place, one value after another.
ghost use Rattle.std.specs.Prelude.{◌≡◌, ◌≢◌, ℕ, List, OnOk, OnErr, IfOk};
ghost use Rattle.wire_codec.specs.Folds.{Step};
ghost use Rattle.wire_codec.specs.TagView.{tag_number, tag_type};
ghost use Rattle.wire_fields.specs.Scalar.{ScalarType, ReadsScalar, NoScalar};
ghost use Rattle.wire_fields.specs.Shape.{on};
ghost use Rattle.wire_structs.specs.Walks.{GivesNext, EndsList, MakesNothing, ListOf};

use bytes::Buf;
use wire_codec::{DecodeError, RECURSION_LIMIT, Tag, laws, skip_field_depth};
use wire_read::numbers::status_of;

/// Bytes that stay where they are, as C has them: a pointer and a length.
#[repr(C)]
#[derive(Clone, Copy, Debug)]
pub struct SliceInC<'a> {
    pub bytes: &'a [u8],
}

/// A list of a message, whose values stand in a record each, and which is read in place. A list has
/// no values: it names the field where the next value is asked for.
pub trait ValueList {
    /// What is read.
    type Source: Buf;

    /// What is given of a value.
    type Held: Copy;

    /// What contracts see of it.
    ghost Item: { Type 0 };

    ghost view: { Self.Held → Item };

    ghost scalar: { ScalarType Item };

    /// The message, and what it makes of a record.
    ghost Value: { Type 0 };

    ghost takes: { Step Value };

    /// What the list has, and for which of these a value stands.
    ghost Element: { Type 0 };

    ghost list: { Value → List Element };

    ghost Means: { Item → Element → Type 0 };

    /// The field number.
    ghost number: { ℕ };

    fn number() -> u32
        ensures { result ≡ number };

    /// Reads the payload behind this tag, as `set` of the scalar type.
    fn set(tag: Tag, held: &mut Self::Held, buf: &mut Self::Source) -> Result<(), DecodeError>
        ensures ok { OnOk result (ReadsScalar scalar (tag_number tag) (tag_type tag)
            (view held.new) (Self.Source.unread buf.old) (Self.Source.unread buf.new)) }
        ensures err { OnErr result (NoScalar scalar (tag_number tag) (tag_type tag)
            (Self.Source.unread buf.old)) };

    /// The next value of the list in these bytes, and whether there is one. The bytes then begin
    /// behind its record. Records of other numbers are passed over, and not looked into. Refused
    /// where they are no records, nest more than 100 groups, or have no value, and so nowhere in
    /// bytes that were read as the message; which leaves open what is held and the place.
    final fn next(held: &mut Self::Held, buf: &mut Self::Source) -> Result<bool, DecodeError>
        ensures ok { IfOk result (λ more. on more
            (GivesNext takes list Means (Self.Source.unread buf.old) (Self.Source.unread buf.new)
            (view held.new))
            (EndsList takes list (Self.Source.unread buf.old))) }
        ensures err { OnErr result (MakesNothing takes (Self.Source.unread buf.old)) }
    {
        laws::records_in_order();
        laws::levels_and_counts();
        laws::grammar::whole_input();
        laws::grammar::no_payload_beside_fault();
        while buf.remaining() > 0 {
            let tag = Tag::decode(buf)?;
            if tag.field_number() == Self::number() {
                Self::set(tag, held, buf)?;
                return Ok(true);
            }
            skip_field_depth(tag, buf, RECURSION_LIMIT)?;
        }
        Ok(false)
    }

    /// The list is that of the records of its number.
    ghost lawful: { ListOf takes list Means number scalar };
}

/// `next`, for a caller in another language: 0 and the value, 1 where none is left, or the number
/// that `status_of` gives the error, which is from 2 on.
pub fn next_status<L: ValueList>(held: &mut L::Held, buf: &mut L::Source) -> u32
    ensures given { result ≡ 0 → GivesNext L.takes L.list L.Means (L.Source.unread buf.old)
        (L.Source.unread buf.new) (L.view held.new) }
    ensures ended { result ≡ 1 → EndsList L.takes L.list (L.Source.unread buf.old) }
    ensures other { result ≢ 0 → result ≢ 1 → MakesNothing L.takes (L.Source.unread buf.old) }
{
    match L::next(held, buf) {
        Ok(true) => 0,
        Ok(false) => 1,
        Err(error) => status_of(&error),
    }
}
