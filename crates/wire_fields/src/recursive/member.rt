//! What is a message type's own where several hold one another.
ghost use Rattle.std.specs.Prelude.{◌≡◌, ◌≢◌, ◌≤◌, ◌<◌, [], true, false, length, OnOk, OnErr, IfOk, IfErr};
ghost use Rattle.wire_codec.specs.DecodeError.TheVariants as errors;
ghost use Rattle.wire_codec.specs.EncodeError.TheVariants.{OutOfMemory};
ghost use Rattle.wire_codec.specs.FieldNumber.{IsFieldNumber};
ghost use Rattle.wire_codec.specs.Limits.{NoCountGrew};
ghost use Rattle.wire_codec.specs.Records.{text, text_size};
ghost use Rattle.wire_codec.specs.Sizes.{sizes};
ghost use Rattle.wire_codec.specs.TagView.{tag_number, tag_type};
ghost use Rattle.wire_codec.specs.Taking.{TakesRecord, IsCharged, NotTaken};
ghost use Rattle.wire_codec.specs.Tape.{NextAre, advanced};
ghost use Rattle.wire_codec.specs.Writes.{Writes};
ghost use Rattle.wire_fields.specs.Measuring.{Measures};
ghost use Rattle.wire_fields.specs.Nest.{Nest, leaf_of, rows_of, with_row, row_count};
ghost use Rattle.wire_fields.specs.NestTable.{Family, IsThere, is_grouped, empty_of};
ghost use Rattle.wire_fields.specs.NestTable.{new_in, one_in, with_one, with_more};

use super::Place;
use bytes::Buf;
use std::alloc::Global;
use wire_codec::{DecodeContext, DecodeError, EncodeError, EncodeSink, SizeCache, Tag};

/// A message type of those that hold one another: its rows and its leaf. The enum of all of them,
/// `H`, and that of their slices pass these calls on, for `RecursiveHeld` and `RecursiveSlice`. A
/// type that holds itself alone is in the place of both (`RecursiveAlone`).
pub trait RecursiveMember<H: Drop>: Drop {
    ghost Sort: { Type 0 };

    ghost Leaf: { Type 0 };

    /// Which of the types this is.
    ghost sort: { Sort };

    ghost view: { Self → Nest Leaf };

    ghost held_sort: { H → Sort };

    ghost held_view: { H → Nest Leaf };

    ghost family: { Family Sort Leaf };

    /// The message of no records.
    fn empty(alloc: Global) -> Self
        ensures { view result ≡ empty_of (family.table sort) };

    /// How many rows there are.
    fn rows() -> usize
        ensures { result ≡ (family.table sort).rows };

    /// The field number of a row.
    fn number(row: usize) -> u32
        requires { row < (family.table sort).rows }
        ensures is { result ≡ (family.table sort).number row }
        ensures in_range { IsFieldNumber result };

    /// Whether the messages of a row stand in groups.
    fn is_grouped(row: usize) -> bool
        requires { row < (family.table sort).rows }
        ensures { result
            ≡ is_grouped ((family.table sort).place ((family.table sort).number row)) }
    {
        Self::place(Self::number(row)).is_grouped()
    }

    /// Where the records of a field number go.
    fn place(number: u32) -> Place
        ensures is { result ≡ (family.table sort).place number }
        ensures there { IsThere (family.table sort) result };

    /// As `RecursiveHeld::new_in`.
    fn new_in(alloc: Global, row: usize) -> H
        ensures result { row < (family.table sort).rows → (family.table sort).once row ≡ false
            → held_view result ≡ new_in family sort row }
        ensures sort { row < (family.table sort).rows → (family.table sort).once row ≡ false
            → held_sort result ≡ family.holds sort row };

    /// As `RecursiveHeld::take`.
    fn take(&mut self, alloc: Global, row: usize) -> H
        ensures result { row < (family.table sort).rows → (family.table sort).once row ≡ true
            → held_view result ≡ one_in family sort row (view self.old) }
        ensures sort { row < (family.table sort).rows → (family.table sort).once row ≡ true
            → held_sort result ≡ family.holds sort row }
        ensures others { row < (family.table sort).rows → (family.table sort).once row ≡ true
            → with_row row [] ((family.table sort).beside row (view self.new))
            ≡ with_row row [] ((family.table sort).beside row (view self.old)) };

    /// As `RecursiveHeld::put`.
    fn put(&mut self, alloc: Global, row: usize, message: H) -> Result<(), DecodeError>
        ensures ok { row < (family.table sort).rows → (family.table sort).once row ≡ true
            → held_sort message ≡ family.holds sort row
            → OnOk result (view self.new
            ≡ with_one (family.table sort) row (view self.old) (held_view message)) }
        ensures err { IfErr result (λ e. e ≡ errors.OutOfMemory) };

    /// As `RecursiveHeld::push`.
    fn push(&mut self, row: usize, message: H) -> Result<(), DecodeError>
        ensures ok { row < (family.table sort).rows → (family.table sort).once row ≡ false
            → held_sort message ≡ family.holds sort row
            → OnOk result (view self.new ≡ with_more row (view self.old) (held_view message)) }
        ensures err { IfErr result (λ e. e ≡ errors.OutOfMemory) };

    /// How many bytes a run of the leaf takes, as `Parts::len`.
    fn run_len(&self, run: usize, cache: &mut SizeCache) -> Result<u64, EncodeError>
        requires { run ≤ (family.table sort).rows }
        ensures ok { IfOk result (λ len. Measures ((family.table sort).run run
            (leaf_of (view self.now))) cache.old cache.new len) }
        ensures err { IfErr result (λ e. e ≡ OutOfMemory) };

    /// Writes a run of the leaf, as `Parts::put`.
    fn put_run<S: EncodeSink>(
        &self,
        run: usize,
        cache: &mut SizeCache,
        sink: &mut S,
    ) -> Result<(), EncodeError>
        requires in_range { run ≤ (family.table sort).rows }
        requires sizes { NextAre (sizes ((family.table sort).run run (leaf_of (view self.now))))
            cache.old }
        requires size { text_size ((family.table sort).run run (leaf_of (view self.now)))
            ≤ 2147483647 }
        ensures written { Writes (text ((family.table sort).run run (leaf_of
            (view self.now))))
            (S.held sink.old) (S.held sink.new) result }
        ensures read { OnOk result (cache.new ≡ advanced cache.old
            (length (sizes ((family.table sort).run run (leaf_of (view self.now)))))) };

    /// Takes a record into the leaf, as `Message::merge_field`. The rows stay, but for those of a
    /// oneof of which the record sets another field.
    fn merge_leaf<B: Buf>(
        &mut self,
        alloc: Global,
        tag: Tag,
        buf: &mut B,
        context: &mut DecodeContext,
    ) -> Result<(), DecodeError>
        ensures ok { OnOk result (IsCharged context.old context.new (λ c.
            TakesRecord (family.table sort).takes context.old (tag_number tag) (tag_type tag)
            (leaf_of (view self.old)) (B.unread buf.old) c (leaf_of (view self.new))
            (B.unread buf.new))) }
        ensures rows { OnOk result (rows_of (view self.new)
            ≡ (family.table sort).rows_beside (tag_number tag) (leaf_of (view self.new))
            (rows_of (view self.old))) }
        ensures err { IfErr result (λ e. e ≢ errors.OutOfMemory → NotTaken
            (TakesRecord (family.table sort).takes context.old (tag_number tag) (tag_type tag)
            (leaf_of (view self.old)) (B.unread buf.old))) }
        ensures counts { OnErr result (NoCountGrew context.old context.new) }
        ensures kept { B.kept buf.new ≡ B.kept buf.old };

    /// Each message has all of the rows.
    ghost counted: { (m : Self) → row_count (view m) ≡ (family.table sort).rows };
}
