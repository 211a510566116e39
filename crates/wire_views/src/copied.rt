//! Fields of numbers, which a view holds as its message does.
use crate::view_kind::ViewKind;
use crate::written::WrittenKind;
use bytes::Buf;
use std::alloc::Global;
use std::marker::PhantomData;
use wire_codec::{DecodeContext, DecodeError, EncodeError, EncodeSink, SizeCache, Tag};
use wire_fields::{Kind, Number, Numeric, Packed, Scalar, Unpacked, copied_numbers};

/// A field of a kind whose values are copied as numbers are, as `Implicit<Int64>`: every number,
/// `bool` and open enum, of implicit presence or optional. It calls that kind.
pub struct CopiedIn<B: Buf, K: Kind> {
    kind: PhantomData<K>,
    source: PhantomData<B>,
}

impl<B: Buf, K: Kind> ViewKind for CopiedIn<B, K>
where
    K::Held: Copy,
{
    type Source = B;

    type Held = K::Held;

    type Owned = K::Held;

    ghost Value = { K.Value };

    ghost view = { K.view };

    ghost owned = { K.view };

    ghost kind = { K.kind };

    fn empty(alloc: Global) -> K::Held {
        K::empty(alloc)
    }

    fn merge(
        alloc: Global,
        tag: Tag,
        held: &mut K::Held,
        buf: &mut B,
        context: &mut DecodeContext,
    ) -> Result<(), DecodeError> {
        K::merge(alloc, tag, held, buf, context)
    }

    fn own(_alloc: Global, held: &K::Held) -> Result<K::Held, DecodeError> {
        Ok(*held)
    }
}

impl<B: Buf, K: Kind> WrittenKind for CopiedIn<B, K>
where
    K::Held: Copy,
{
    #[inline(always)]
    fn len(number: u32, held: &K::Held, cache: &mut SizeCache) -> Result<u64, EncodeError> {
        K::len(number, held, cache)
    }

    #[inline(always)]
    fn put<E: EncodeSink>(
        number: u32,
        held: &K::Held,
        cache: &mut SizeCache,
        sink: &mut E,
    ) -> Result<(), EncodeError> {
        K::put(number, held, cache, sink)
    }
}

/// Repeated numbers in one payload, as `Packed`, which it calls: they are read into a list.
pub struct PackedIn<B: Buf, S: Scalar> {
    scalar: PhantomData<S>,
    source: PhantomData<B>,
}

impl<B: Buf, N: Number> ViewKind for PackedIn<B, Numeric<N>> {
    ghost use Rattle.std.specs.Prelude.{List};
    ghost use Rattle.wire_fields.specs.Packed.{packed_kind};

    type Source = B;

    type Held = Vec<N::Value>;

    type Owned = Vec<N::Value>;

    ghost Value = { List N.Value };

    ghost view = { λ v. v.items };

    ghost owned = { λ v. v.items };

    ghost kind = { packed_kind N.form N.map };

    fn empty(alloc: Global) -> Vec<N::Value> {
        Vec::new(alloc)
    }

    fn merge(
        alloc: Global,
        tag: Tag,
        held: &mut Vec<N::Value>,
        buf: &mut B,
        context: &mut DecodeContext,
    ) -> Result<(), DecodeError> {
        <Packed<Numeric<N>> as Kind>::merge(alloc, tag, held, buf, context)
    }

    fn own(_alloc: Global, held: &Vec<N::Value>) -> Result<Vec<N::Value>, DecodeError> {
        Ok(copied_numbers(held)?)
    }
}

impl<B: Buf, N: Number> WrittenKind for PackedIn<B, Numeric<N>> {
    #[inline(always)]
    fn len(number: u32, held: &Vec<N::Value>, cache: &mut SizeCache) -> Result<u64, EncodeError> {
        <Packed<Numeric<N>> as Kind>::len(number, held, cache)
    }

    #[inline(always)]
    fn put<E: EncodeSink>(
        number: u32,
        held: &Vec<N::Value>,
        cache: &mut SizeCache,
        sink: &mut E,
    ) -> Result<(), EncodeError> {
        <Packed<Numeric<N>> as Kind>::put(number, held, cache, sink)
    }
}

/// Repeated numbers, each in a record of its own, as `Unpacked`, which it calls.
pub struct UnpackedIn<B: Buf, S: Scalar> {
    scalar: PhantomData<S>,
    source: PhantomData<B>,
}

impl<B: Buf, N: Number> ViewKind for UnpackedIn<B, Numeric<N>> {
    ghost use Rattle.std.specs.Prelude.{List};
    ghost use Rattle.wire_fields.specs.Packed.{unpacked_kind};

    type Source = B;

    type Held = Vec<N::Value>;

    type Owned = Vec<N::Value>;

    ghost Value = { List N.Value };

    ghost view = { λ v. v.items };

    ghost owned = { λ v. v.items };

    ghost kind = { unpacked_kind N.form N.map };

    fn empty(alloc: Global) -> Vec<N::Value> {
        Vec::new(alloc)
    }

    fn merge(
        alloc: Global,
        tag: Tag,
        held: &mut Vec<N::Value>,
        buf: &mut B,
        context: &mut DecodeContext,
    ) -> Result<(), DecodeError> {
        <Unpacked<Numeric<N>> as Kind>::merge(alloc, tag, held, buf, context)
    }

    fn own(_alloc: Global, held: &Vec<N::Value>) -> Result<Vec<N::Value>, DecodeError> {
        Ok(copied_numbers(held)?)
    }
}

impl<B: Buf, N: Number> WrittenKind for UnpackedIn<B, Numeric<N>> {
    #[inline(always)]
    fn len(number: u32, held: &Vec<N::Value>, cache: &mut SizeCache) -> Result<u64, EncodeError> {
        <Unpacked<Numeric<N>> as Kind>::len(number, held, cache)
    }

    #[inline(always)]
    fn put<E: EncodeSink>(
        number: u32,
        held: &Vec<N::Value>,
        cache: &mut SizeCache,
        sink: &mut E,
    ) -> Result<(), EncodeError> {
        <Unpacked<Numeric<N>> as Kind>::put(number, held, cache, sink)
    }
}
