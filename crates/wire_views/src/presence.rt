//! Fields of a scalar type: of implicit presence, of explicit presence, and of a oneof.
use crate::view_kind::ViewKind;
use crate::view_scalar::ViewScalar;
use crate::written::{WrittenKind, WrittenScalar};
use std::alloc::Global;
use std::marker::PhantomData;
use wire_codec::{DecodeContext, DecodeError, EncodeError, EncodeSink, SizeCache, Tag, laws};

/// A field that is left out where it has the default value of its type, as `Implicit`.
pub struct ImplicitIn<S: ViewScalar> {
    scalar: PhantomData<S>,
}

impl<S: ViewScalar> ViewKind for ImplicitIn<S> {
    ghost use Rattle.wire_fields.specs.Presence.{implicit};

    type Source = S::Source;

    type Held = S::Held;

    type Owned = S::Owned;

    ghost Value = { S.Value };

    ghost view = { S.view };

    ghost owned = { S.owned };

    ghost kind = { (implicit S.scalar).kind };

    fn empty(_alloc: Global) -> S::Held {
        S::empty()
    }

    fn merge(
        _alloc: Global,
        tag: Tag,
        held: &mut S::Held,
        buf: &mut S::Source,
        _context: &mut DecodeContext,
    ) -> Result<(), DecodeError> {
        laws::records_in_order();
        S::set(tag, held, buf)
    }

    fn own(alloc: Global, held: &S::Held) -> Result<S::Owned, DecodeError> {
        Ok(S::own(alloc, held)?)
    }
}

impl<S: WrittenScalar> WrittenKind for ImplicitIn<S> {
    #[inline(always)]
    fn len(number: u32, held: &S::Held, _cache: &mut SizeCache) -> Result<u64, EncodeError> {
        laws::fields_are_plain();
        if S::is_default(held) {
            return Ok(0);
        }
        Ok(S::len(number, held))
    }

    #[inline(always)]
    fn put<E: EncodeSink>(
        number: u32,
        held: &S::Held,
        _cache: &mut SizeCache,
        sink: &mut E,
    ) -> Result<(), EncodeError> {
        laws::fields_are_plain();
        laws::flat_messages_have_no_sizes();
        if S::is_default(held) {
            return Ok(());
        }
        S::put(number, held, sink)
    }
}

/// A field that may be absent, as `Optional`.
pub struct OptionalIn<S: ViewScalar> {
    scalar: PhantomData<S>,
}

impl<S: ViewScalar> ViewKind for OptionalIn<S> {
    ghost use Rattle.std.specs.Prelude.{Option, option_map};
    ghost use Rattle.wire_fields.specs.Presence.{optional};

    type Source = S::Source;

    type Held = Option<S::Held>;

    type Owned = Option<S::Owned>;

    ghost Value = { Option S.Value };

    ghost view = { option_map S.view };

    ghost owned = { option_map S.owned };

    ghost kind = { (optional S.scalar).kind };

    fn empty(_alloc: Global) -> Option<S::Held> {
        None
    }

    fn merge(
        _alloc: Global,
        tag: Tag,
        held: &mut Option<S::Held>,
        buf: &mut S::Source,
        _context: &mut DecodeContext,
    ) -> Result<(), DecodeError> {
        laws::records_in_order();
        let mut value = S::empty();
        S::set(tag, &mut value, buf)?;
        *held = Some(value);
        Ok(())
    }

    fn own(alloc: Global, held: &Option<S::Held>) -> Result<Option<S::Owned>, DecodeError> {
        match held {
            Some(value) => Ok(Some(S::own(alloc, value)?)),
            None => Ok(None),
        }
    }
}

impl<S: WrittenScalar> WrittenKind for OptionalIn<S> {
    #[inline(always)]
    fn len(
        number: u32,
        held: &Option<S::Held>,
        _cache: &mut SizeCache,
    ) -> Result<u64, EncodeError> {
        laws::fields_are_plain();
        match held {
            Some(value) => Ok(S::len(number, value)),
            None => Ok(0),
        }
    }

    #[inline(always)]
    fn put<E: EncodeSink>(
        number: u32,
        held: &Option<S::Held>,
        _cache: &mut SizeCache,
        sink: &mut E,
    ) -> Result<(), EncodeError> {
        laws::fields_are_plain();
        laws::flat_messages_have_no_sizes();
        match held {
            Some(value) => S::put(number, value, sink),
            None => Ok(()),
        }
    }
}

/// A field of a oneof, as `Always`.
pub struct AlwaysIn<S: ViewScalar> {
    scalar: PhantomData<S>,
}

impl<S: ViewScalar> ViewKind for AlwaysIn<S> {
    ghost use Rattle.wire_fields.specs.Presence.{always};

    type Source = S::Source;

    type Held = S::Held;

    type Owned = S::Owned;

    ghost Value = { S.Value };

    ghost view = { S.view };

    ghost owned = { S.owned };

    ghost kind = { (always S.scalar).kind };

    fn empty(_alloc: Global) -> S::Held {
        S::empty()
    }

    fn merge(
        _alloc: Global,
        tag: Tag,
        held: &mut S::Held,
        buf: &mut S::Source,
        _context: &mut DecodeContext,
    ) -> Result<(), DecodeError> {
        laws::records_in_order();
        S::set(tag, held, buf)
    }

    fn own(alloc: Global, held: &S::Held) -> Result<S::Owned, DecodeError> {
        Ok(S::own(alloc, held)?)
    }
}

impl<S: WrittenScalar> WrittenKind for AlwaysIn<S> {
    fn len(number: u32, held: &S::Held, _cache: &mut SizeCache) -> Result<u64, EncodeError> {
        laws::fields_are_plain();
        Ok(S::len(number, held))
    }

    fn put<E: EncodeSink>(
        number: u32,
        held: &S::Held,
        _cache: &mut SizeCache,
        sink: &mut E,
    ) -> Result<(), EncodeError> {
        laws::fields_are_plain();
        laws::flat_messages_have_no_sizes();
        S::put(number, held, sink)
    }
}
