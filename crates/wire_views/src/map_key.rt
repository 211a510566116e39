//! Types of the keys of maps, as views read them.
ghost use Rattle.std.specs.Prelude.{◌≡◌, ◌≢◌, OnOk, IfOk, IfErr};
ghost use Rattle.std.specs.declared.cmp.Ordering.{Ordering};
ghost use Rattle.wire_codec.specs.DecodeError.TheVariants.{OutOfMemory};
ghost use Rattle.wire_codec.specs.TagView.{tag_number, tag_type};
ghost use Rattle.wire_fields.specs.Scalar.{ScalarType, ReadsScalar, NoScalar};

use crate::text::TextIn;
use crate::view_scalar::ViewScalar;
use bytes::Buf;
use std::alloc::{AllocError, Global};
use std::marker::PhantomData;
use wire_codec::{DecodeError, Tag};
use wire_fields::{Number, Numeric, Scalar};

/// A type of keys of a map: `NumberIn` of a number or `Bool`, and `TextIn`.
pub trait MapKey {
    /// What is read.
    type Source: Buf + Drop;

    /// What a view holds.
    type Held: Drop;

    /// What a message holds.
    type Owned: Drop + Ord;

    /// What contracts see of both.
    ghost Value: { Type 0 };

    ghost view: { Self.Held → Value };

    ghost owned: { Self.Owned → Value };

    ghost scalar: { ScalarType Value };

    /// The order in which a map is written.
    ghost order: { Value → Value → Ordering };

    /// The default value.
    fn empty(alloc: Global) -> Self::Held
        ensures { view result ≡ scalar.default };

    /// Reads the payload behind this tag, as `ViewScalar::set`.
    fn set(
        alloc: Global,
        tag: Tag,
        held: &mut Self::Held,
        buf: &mut Self::Source,
    ) -> Result<(), DecodeError>
        ensures ok { OnOk result (ReadsScalar scalar (tag_number tag) (tag_type tag)
            (view held.new) (Self.Source.unread buf.old) (Self.Source.unread buf.new)) }
        ensures err { IfErr result (λ e. e ≢ OutOfMemory
            → NoScalar scalar (tag_number tag) (tag_type tag) (Self.Source.unread buf.old)) }
        ensures kept { Self.Source.kept buf.new ≡ Self.Source.kept buf.old };

    /// The same value with memory of its own. Refused where memory runs out.
    fn own(alloc: Global, held: &Self::Held) -> Result<Self::Owned, AllocError>
        ensures { IfOk result (λ copy. owned copy ≡ view held.now) };

    /// A map of a message has its keys in this order.
    ghost same_order: { (k l : Self.Owned) → Self.Owned.cmp k l ≡ order (owned k) (owned l) };
}

/// A number as a key, as `NumberIn<&'a [u8], Int32>`.
pub struct NumberIn<B: Buf + Drop, S: Scalar> {
    scalar: PhantomData<S>,
    source: PhantomData<B>,
}

impl<B: Buf + Drop, N: Number> MapKey for NumberIn<B, Numeric<N>>
where
    N::Value: Ord + Drop,
{
    ghost use Rattle.std.specs.Prelude.{refl};
    ghost use Rattle.wire_fields.specs.Numbers.{numeric};

    type Source = B;

    type Held = N::Value;

    type Owned = N::Value;

    ghost Value = { N.Value };

    ghost view = { λ v. v };

    ghost owned = { λ v. v };

    ghost scalar = { numeric N.form N.map };

    ghost order = { N.Value.cmp };

    ghost same_order = { λ k l. refl };

    fn empty(alloc: Global) -> N::Value {
        <Numeric<N> as Scalar>::empty(alloc)
    }

    fn set(alloc: Global, tag: Tag, held: &mut N::Value, buf: &mut B) -> Result<(), DecodeError> {
        <Numeric<N> as Scalar>::set(alloc, tag, held, buf)
    }

    fn own(_alloc: Global, held: &N::Value) -> Result<N::Value, AllocError> {
        Ok(*held)
    }
}

impl<'a> MapKey for TextIn<'a> {
    ghost use Rattle.std.specs.Cmp.Lexicographic.{slice_cmp};
    ghost use Rattle.std.specs.Ordering.{nat_cmp};
    ghost use Rattle.std.specs.Prelude.{ℕ, List, refl, string_bytes};
    ghost use Rattle.wire_fields.specs.Texts.{string};

    type Source = &'a [u8];

    type Held = &'a str;

    type Owned = String;

    ghost Value = { List ℕ };

    ghost view = { λ s. s.now };

    ghost owned = { λ s. string_bytes s };

    ghost scalar = { string };

    ghost order = { slice_cmp nat_cmp };

    ghost same_order = { λ k l. refl };

    fn empty(_alloc: Global) -> &'a str {
        <TextIn<'a> as ViewScalar>::empty()
    }

    fn set(
        _alloc: Global,
        tag: Tag,
        held: &mut &'a str,
        buf: &mut &'a [u8],
    ) -> Result<(), DecodeError> {
        <TextIn<'a> as ViewScalar>::set(tag, held, buf)
    }

    fn own(alloc: Global, held: &&'a str) -> Result<String, AllocError> {
        <TextIn<'a> as ViewScalar>::own(alloc, held)
    }
}
