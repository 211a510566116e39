//! What is asked of message types that hold one another, to be read.
ghost use Rattle.std.specs.Prelude.{◌≡◌, ◌≢◌, ◌<◌, [], true, false, OnOk, OnErr, IfErr};
ghost use Rattle.wire_codec.specs.DecodeError.TheVariants as errors;
ghost use Rattle.wire_codec.specs.Folds.{IsSingle};
ghost use Rattle.wire_codec.specs.Limits.{NoCountGrew};
ghost use Rattle.wire_codec.specs.TagView.{tag_number, tag_type};
ghost use Rattle.wire_codec.specs.Taking.{TakesRecord, IsCharged, NotTaken};
ghost use Rattle.wire_codec.specs.TakingLaws.{OneReading};
ghost use Rattle.wire_fields.specs.Nest.{Nest, leaf_of, rows_of, with_row};
ghost use Rattle.wire_fields.specs.NestTable.{Family, IsThere, new_in, one_in, with_one};
ghost use Rattle.wire_fields.specs.NestTable.{with_more};

use super::Place;
use bytes::Buf;
use std::alloc::Global;
use wire_codec::{DecodeContext, DecodeError, Tag};

/// Message types that hold one another, as one type: an enum of them, or a type that holds itself
/// alone. What is moved out of a message, or put into it, is of that type again. Each field
/// whose message is of the family, optional or repeated, is a row of messages, which stand behind
/// their lengths, or in groups where the place of the row's number says so. All other fields, and
/// the unknown ones, are the leaf. They are read from a buffer `B`: any, or for types that borrow
/// from what is read, a slice. `RecursiveSlice` says how such messages are written.
pub trait RecursiveHeld<B: Buf>: Drop {
    /// The types, and what contracts see of the leaves.
    ghost Sort: { Type 0 };

    ghost Leaf: { Type 0 };

    ghost sort: { Self → Sort };

    ghost view: { Self → Nest Leaf };

    /// The rows of each type, and what is written and taken of its leaf.
    ghost family: { Family Sort Leaf };

    /// Where the records of a field number go.
    fn place(&self, number: u32) -> Place
        ensures is { result ≡ (family.table (sort self.now)).place number }
        ensures there { IsThere (family.table (sort self.now)) result };

    /// The message of no records, of the type of a row that has many. For any other row it is open
    /// which message it is.
    fn new_in(&self, alloc: Global, row: usize) -> Self
        ensures result { row < (family.table (sort self.now)).rows
            → (family.table (sort self.now)).once row ≡ false
            → view result ≡ new_in family (sort self.now) row }
        ensures sort { row < (family.table (sort self.now)).rows
            → (family.table (sort self.now)).once row ≡ false
            → sort result ≡ family.holds (sort self.now) row };

    /// Moves the message out of a row that has one at most, or makes a new one. For any other row
    /// it is open what is done.
    fn take(&mut self, alloc: Global, row: usize) -> Self
        ensures result { row < (family.table (sort self.old)).rows
            → (family.table (sort self.old)).once row ≡ true
            → view result ≡ one_in family (sort self.old) row (view self.old) }
        ensures sort { row < (family.table (sort self.old)).rows
            → (family.table (sort self.old)).once row ≡ true
            → sort result ≡ family.holds (sort self.old) row }
        ensures others { row < (family.table (sort self.old)).rows
            → (family.table (sort self.old)).once row ≡ true
            → with_row row [] ((family.table (sort self.old)).beside row (view self.new))
            ≡ with_row row [] ((family.table (sort self.old)).beside row (view self.old)) }
        ensures kind { sort self.new ≡ sort self.old };

    /// Makes a message the one of a row that has one at most, in place of the others of a oneof.
    /// For any other row, and a message of another type, it is open what is done. Refused where
    /// memory runs out.
    fn put(&mut self, alloc: Global, row: usize, message: Self) -> Result<(), DecodeError>
        ensures ok { row < (family.table (sort self.old)).rows
            → (family.table (sort self.old)).once row ≡ true
            → sort message ≡ family.holds (sort self.old) row
            → OnOk result (view self.new
            ≡ with_one (family.table (sort self.old)) row (view self.old) (view message)) }
        ensures kind { sort self.new ≡ sort self.old }
        ensures err { IfErr result (λ e. e ≡ errors.OutOfMemory) };

    /// Puts a message behind those of a row that has many. For any other row, and a message of
    /// another type, it is open what is done. Refused where memory runs out.
    fn push(&mut self, row: usize, message: Self) -> Result<(), DecodeError>
        ensures ok { row < (family.table (sort self.old)).rows
            → (family.table (sort self.old)).once row ≡ false
            → sort message ≡ family.holds (sort self.old) row
            → OnOk result (view self.new ≡ with_more row (view self.old) (view message)) }
        ensures kind { sort self.new ≡ sort self.old }
        ensures err { IfErr result (λ e. e ≡ errors.OutOfMemory) };

    /// Takes a record into the leaf, as `Message::merge_field`. The rows stay, but for those of a
    /// oneof of which the record sets another field.
    fn merge_leaf(
        &mut self,
        alloc: Global,
        tag: Tag,
        buf: &mut B,
        context: &mut DecodeContext,
    ) -> Result<(), DecodeError>
        ensures ok { OnOk result (IsCharged context.old context.new (λ c.
            TakesRecord (family.table (sort self.old)).takes context.old (tag_number tag)
            (tag_type tag)
            (leaf_of (view self.old)) (B.unread buf.old) c (leaf_of (view self.new))
            (B.unread buf.new))) }
        ensures rows { OnOk result (rows_of (view self.new)
            ≡ (family.table (sort self.old)).rows_beside (tag_number tag) (leaf_of
            (view self.new)) (rows_of (view self.old))) }
        ensures kind { sort self.new ≡ sort self.old }
        ensures err { IfErr result (λ e. e ≢ errors.OutOfMemory → NotTaken
            (TakesRecord (family.table (sort self.old)).takes context.old (tag_number tag)
            (tag_type tag)
            (leaf_of (view self.old)) (B.unread buf.old))) }
        ensures counts { OnErr result (NoCountGrew context.old context.new) }
        ensures kept { B.kept buf.new ≡ B.kept buf.old };

    /// A record has one charge, and one outcome for each leaf, since bytes are read in one way.
    ghost single: { OneReading → (s : Sort) → IsSingle (family.table s).takes };
}
