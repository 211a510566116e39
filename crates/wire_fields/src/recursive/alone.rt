//! A message type that holds itself alone, as a family of one.
ghost use Rattle.std.specs.Prelude.{◌≡◌, ◌≢◌, ◌≤◌, ◌<◌, ◌∷◌, [], ℕ, length, map, OnOk, OnErr, IfOk, IfErr};
ghost use Rattle.wire_codec.specs.DecodeError.TheVariants as errors;
ghost use Rattle.wire_codec.specs.EncodeError.TheVariants.{OutOfMemory};
ghost use Rattle.wire_codec.specs.Folds.{IsSingle};
ghost use Rattle.wire_codec.specs.Limits.{NoCountGrew};
ghost use Rattle.wire_codec.specs.Records.{text, text_size};
ghost use Rattle.wire_codec.specs.Sizes.{sizes, cut, cut_sizes};
ghost use Rattle.wire_codec.specs.TagView.{tag_number, tag_type};
ghost use Rattle.wire_codec.specs.Taking.{TakesRecord, IsCharged, NotTaken};
ghost use Rattle.wire_codec.specs.TakingLaws.{OneReading};
ghost use Rattle.wire_codec.specs.Tape.{NextAre, advanced, recorded};
ghost use Rattle.wire_codec.specs.Writes.{Writes};
ghost use Rattle.wire_fields.specs.Nest.{row_at};
ghost use Rattle.wire_fields.specs.NestTable.{family_records, family_takes};

use super::{
    Place, RecursiveHeld, RecursiveMember, RecursiveSlice, merge_held, slice_size, write_slice,
};
use bytes::Buf;
use std::alloc::Global;
use std::{mem, slice};
use wire_codec::{DecodeContext, DecodeError, EncodeError, EncodeSink, SizeCache, Tag};

/// A message type that holds itself, and no other that holds it: the one member of its family, with
/// itself in the place of the enum of all members.
pub trait RecursiveAlone: RecursiveMember<Self> {
    /// The messages of a row.
    fn row(&self, row: usize) -> &[Self]
        requires { row < (Self.family.table Self.sort).rows }
        ensures { map Self.view result.now ≡ row_at row (Self.view self.now) };

    /// As a member and as one of all members it is seen alike.
    ghost same_view: { (m : Self) → Self.held_view m ≡ Self.view m };

    ghost same_sort: { (m : Self) → Self.held_sort m ≡ Self.sort };

    /// The messages of a row are of the type itself.
    ghost holds_itself: { (row : ℕ) → Self.family.holds Self.sort row ≡ Self.sort };

    /// A record has one charge, and one outcome for each leaf, since bytes are read in one way.
    ghost single: { OneReading → (s : Self.Sort) → IsSingle (Self.family.table s).takes };
}

impl<T: RecursiveAlone, B: Buf> RecursiveHeld<B> for T {
    ghost Sort = { T.Sort };

    ghost Leaf = { T.Leaf };

    ghost sort = { λ m. T.sort };

    ghost view = { T.view };

    ghost family = { T.family };

    ghost single = { T.single };

    #[inline(always)]
    fn place(&self, number: u32) -> Place {
        <T as RecursiveMember<T>>::place(number)
    }

    #[inline(always)]
    fn new_in(&self, alloc: Global, row: usize) -> T {
        <T as RecursiveMember<T>>::new_in(alloc, row)
    }

    #[inline(always)]
    fn take(&mut self, alloc: Global, row: usize) -> T {
        <T as RecursiveMember<T>>::take(self, alloc, row)
    }

    #[inline(always)]
    fn put(&mut self, alloc: Global, row: usize, message: T) -> Result<(), DecodeError> {
        <T as RecursiveMember<T>>::put(self, alloc, row, message)
    }

    #[inline(always)]
    fn push(&mut self, row: usize, message: T) -> Result<(), DecodeError> {
        <T as RecursiveMember<T>>::push(self, row, message)
    }

    #[inline(always)]
    fn merge_leaf(
        &mut self,
        alloc: Global,
        tag: Tag,
        buf: &mut B,
        context: &mut DecodeContext,
    ) -> Result<(), DecodeError> {
        <T as RecursiveMember<T>>::merge_leaf(self, alloc, tag, buf, context)
    }
}

/// Several messages of such a type; one, to measure or write it, is a slice of one.
#[derive_where(Clone, Copy)]
pub struct Alone<'a, T>(pub &'a [T]);

impl<'a, T: RecursiveAlone> RecursiveSlice for Alone<'a, T> {
    ghost use Rattle.wire_fields.specs.NestTable.{all_counted};

    ghost Sort = { T.Sort };

    ghost Leaf = { T.Leaf };

    ghost sort = { λ messages. T.sort };

    ghost views = { λ messages. map T.view messages.0.now };

    ghost family = { T.family };

    ghost counted = { λ messages.
        all_counted (T.family.table T.sort) T.view T.counted messages.0.now };

    #[inline(always)]
    fn count(self) -> usize {
        self.0.len()
    }

    #[inline(always)]
    fn rows(self) -> usize {
        <T as RecursiveMember<T>>::rows()
    }

    #[inline(always)]
    fn number(self, row: usize) -> u32 {
        <T as RecursiveMember<T>>::number(row)
    }

    #[inline(always)]
    fn is_grouped(self, row: usize) -> bool {
        <T as RecursiveMember<T>>::is_grouped(row)
    }

    #[inline(always)]
    fn row(self, index: usize, row: usize) -> Alone<'a, T> {
        Alone(self.0[index].row(row))
    }

    #[inline(always)]
    fn run_len(self, index: usize, run: usize, cache: &mut SizeCache) -> Result<u64, EncodeError> {
        <T as RecursiveMember<T>>::run_len(&self.0[index], run, cache)
    }

    #[inline(always)]
    fn put_run<S: EncodeSink>(
        self,
        index: usize,
        run: usize,
        cache: &mut SizeCache,
        sink: &mut S,
    ) -> Result<(), EncodeError> {
        <T as RecursiveMember<T>>::put_run(&self.0[index], run, cache, sink)
    }
}
