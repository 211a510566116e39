//! Fields of a scalar type: of implicit presence, of explicit presence, and always written.
use crate::kind::Kind;
use crate::scalar::Scalar;
use bytes::Buf;
use std::alloc::Global;
use std::marker::PhantomData;
use wire_codec::{DecodeContext, DecodeError, EncodeError, EncodeSink, SizeCache, Tag, laws};

/// A field that is left out where it has the default value of its type, as a field of proto3 with
/// no label. See "Field Presence" of the language's documents.
pub struct Implicit<S: Scalar> {
    scalar: PhantomData<S>,
}

impl<S: Scalar> Kind for Implicit<S> {
    ghost use Rattle.wire_fields.specs.Presence.{implicit};

    type Held = S::Held;

    ghost Value = { S.Value };

    ghost view = { S.view };

    ghost kind = { (implicit S.scalar).kind };

    fn empty(alloc: Global) -> S::Held {
        S::empty(alloc)
    }

    #[inline(always)]
    fn len(number: u32, held: &S::Held, _cache: &mut SizeCache) -> Result<u64, EncodeError> {
        laws::fields_are_plain();
        if S::is_default(held) {
            return Ok(0);
        }
        Ok(S::len(number, held))
    }

    #[inline(always)]
    fn put<E: EncodeSink>(
        number: u32,
        held: &S::Held,
        _cache: &mut SizeCache,
        sink: &mut E,
    ) -> Result<(), EncodeError> {
        laws::fields_are_plain();
        laws::flat_messages_have_no_sizes();
        if S::is_default(held) {
            return Ok(());
        }
        S::put(number, held, sink)
    }

    fn merge<B: Buf>(
        alloc: Global,
        tag: Tag,
        held: &mut S::Held,
        buf: &mut B,
        _context: &mut DecodeContext,
    ) -> Result<(), DecodeError> {
        laws::records_in_order();
        S::set(alloc, tag, held, buf)
    }

    fn clear(held: &mut S::Held) {
        S::clear(held);
    }
}

/// A field that may be absent, and is written where it is present, also with the default value, as
/// one with the label `optional`.
pub struct Optional<S: Scalar> {
    scalar: PhantomData<S>,
}

impl<S: Scalar> Kind for Optional<S> {
    ghost use Rattle.std.specs.Prelude.{Option, option_map};
    ghost use Rattle.wire_fields.specs.Presence.{optional};

    type Held = Option<S::Held>;

    ghost Value = { Option S.Value };

    ghost view = { option_map S.view };

    ghost kind = { (optional S.scalar).kind };

    fn empty(_alloc: Global) -> Option<S::Held> {
        None
    }

    fn len(
        number: u32,
        held: &Option<S::Held>,
        _cache: &mut SizeCache,
    ) -> Result<u64, EncodeError> {
        laws::fields_are_plain();
        match held {
            Some(value) => Ok(S::len(number, value)),
            None => Ok(0),
        }
    }

    fn put<E: EncodeSink>(
        number: u32,
        held: &Option<S::Held>,
        _cache: &mut SizeCache,
        sink: &mut E,
    ) -> Result<(), EncodeError> {
        laws::fields_are_plain();
        laws::flat_messages_have_no_sizes();
        match held {
            Some(value) => S::put(number, value, sink),
            None => Ok(()),
        }
    }

    fn merge<B: Buf>(
        alloc: Global,
        tag: Tag,
        held: &mut Option<S::Held>,
        buf: &mut B,
        _context: &mut DecodeContext,
    ) -> Result<(), DecodeError> {
        laws::records_in_order();
        let mut value = S::empty(alloc);
        S::set(alloc, tag, &mut value, buf)?;
        *held = Some(value);
        Ok(())
    }

    fn clear(held: &mut Option<S::Held>) {
        *held = None;
    }
}

/// A field that is always written, as one of a oneof, or the key and the value of a map's entry.
pub struct Always<S: Scalar> {
    scalar: PhantomData<S>,
}

impl<S: Scalar> Kind for Always<S> {
    ghost use Rattle.wire_fields.specs.Presence.{always};

    type Held = S::Held;

    ghost Value = { S.Value };

    ghost view = { S.view };

    ghost kind = { (always S.scalar).kind };

    fn empty(alloc: Global) -> S::Held {
        S::empty(alloc)
    }

    fn len(number: u32, held: &S::Held, _cache: &mut SizeCache) -> Result<u64, EncodeError> {
        laws::fields_are_plain();
        Ok(S::len(number, held))
    }

    fn put<E: EncodeSink>(
        number: u32,
        held: &S::Held,
        _cache: &mut SizeCache,
        sink: &mut E,
    ) -> Result<(), EncodeError> {
        laws::fields_are_plain();
        laws::flat_messages_have_no_sizes();
        S::put(number, held, sink)
    }

    fn merge<B: Buf>(
        alloc: Global,
        tag: Tag,
        held: &mut S::Held,
        buf: &mut B,
        _context: &mut DecodeContext,
    ) -> Result<(), DecodeError> {
        laws::records_in_order();
        S::set(alloc, tag, held, buf)
    }

    fn clear(held: &mut S::Held) {
        S::clear(held);
    }
}
