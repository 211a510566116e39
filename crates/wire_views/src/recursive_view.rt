//! What is a view's own where views hold one another.
ghost use Rattle.std.specs.Prelude.{◌≡◌, ◌≢◌, ◌<◌, [], true, false, OnOk, OnErr, IfErr};
ghost use Rattle.wire_codec.specs.DecodeError.TheVariants as errors;
ghost use Rattle.wire_codec.specs.Limits.{NoCountGrew};
ghost use Rattle.wire_codec.specs.TagView.{tag_number, tag_type};
ghost use Rattle.wire_codec.specs.Taking.{TakesRecord, IsCharged, NotTaken};
ghost use Rattle.wire_fields.specs.Nest.{Nest, leaf_of, rows_of, with_row};
ghost use Rattle.wire_fields.specs.NestTable.{Family, new_in, one_in, with_one, with_more};

use bytes::Buf;
use std::alloc::Global;
use wire_codec::{DecodeContext, DecodeError, Tag};

/// A view of those that hold one another: its rows and its leaf, as `RecursiveMember` has those of
/// its message. The enum of all of them, `H`, passes these calls on, for `RecursiveHeld`.
pub trait RecursiveView<H: Drop>: Drop {
    /// What is read.
    type Source: Buf;

    ghost Sort: { Type 0 };

    ghost Leaf: { Type 0 };

    /// Of which of the types this is the view.
    ghost sort: { Sort };

    ghost view: { Self → Nest Leaf };

    ghost held_sort: { H → Sort };

    ghost held_view: { H → Nest Leaf };

    ghost family: { Family Sort Leaf };

    /// As `RecursiveHeld::new_in`.
    fn new_in(alloc: Global, row: usize) -> H
        ensures result { row < (family.table sort).rows → (family.table sort).once row ≡ false
            → held_view result ≡ new_in family sort row }
        ensures sort { row < (family.table sort).rows → (family.table sort).once row ≡ false
            → held_sort result ≡ family.holds sort row };

    /// As `RecursiveHeld::take`.
    fn take(&mut self, alloc: Global, row: usize) -> H
        ensures result { row < (family.table sort).rows → (family.table sort).once row ≡ true
            → held_view result ≡ one_in family sort row (view self.old) }
        ensures sort { row < (family.table sort).rows → (family.table sort).once row ≡ true
            → held_sort result ≡ family.holds sort row }
        ensures others { row < (family.table sort).rows → (family.table sort).once row ≡ true
            → with_row row [] ((family.table sort).beside row (view self.new))
            ≡ with_row row [] ((family.table sort).beside row (view self.old)) };

    /// As `RecursiveHeld::put`.
    fn put(&mut self, alloc: Global, row: usize, message: H) -> Result<(), DecodeError>
        ensures ok { row < (family.table sort).rows → (family.table sort).once row ≡ true
            → held_sort message ≡ family.holds sort row
            → OnOk result (view self.new
            ≡ with_one (family.table sort) row (view self.old) (held_view message)) }
        ensures err { IfErr result (λ e. e ≡ errors.OutOfMemory) };

    /// As `RecursiveHeld::push`.
    fn push(&mut self, row: usize, message: H) -> Result<(), DecodeError>
        ensures ok { row < (family.table sort).rows → (family.table sort).once row ≡ false
            → held_sort message ≡ family.holds sort row
            → OnOk result (view self.new ≡ with_more row (view self.old) (held_view message)) }
        ensures err { IfErr result (λ e. e ≡ errors.OutOfMemory) };

    /// Takes a record into the leaf, as `RecursiveHeld::merge_leaf`.
    fn merge_leaf(
        &mut self,
        alloc: Global,
        tag: Tag,
        buf: &mut Self::Source,
        context: &mut DecodeContext,
    ) -> Result<(), DecodeError>
        ensures ok { OnOk result (IsCharged context.old context.new (λ c.
            TakesRecord (family.table sort).takes context.old (tag_number tag) (tag_type tag)
            (leaf_of (view self.old)) (Self.Source.unread buf.old) c (leaf_of (view self.new))
            (Self.Source.unread buf.new))) }
        ensures rows { OnOk result (rows_of (view self.new)
            ≡ (family.table sort).rows_beside (tag_number tag) (leaf_of (view self.new))
            (rows_of (view self.old))) }
        ensures err { IfErr result (λ e. e ≢ errors.OutOfMemory → NotTaken
            (TakesRecord (family.table sort).takes context.old (tag_number tag) (tag_type tag)
            (leaf_of (view self.old)) (Self.Source.unread buf.old))) }
        ensures counts { OnErr result (NoCountGrew context.old context.new) }
        ensures kept { Self.Source.kept buf.new ≡ Self.Source.kept buf.old };
}
