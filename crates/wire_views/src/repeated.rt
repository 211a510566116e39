//! Repeated fields of a scalar type, each value in a record of its own.
ghost use Rattle.std.specs.Prelude.{◌≡◌, ◌∷◌, ◌++◌, [], map, OnOk, IfOk, IfErr};
ghost use Rattle.wire_codec.specs.DecodeError.TheVariants as errors;
ghost use Rattle.wire_codec.specs.FieldNumber.{IsFieldNumber};
ghost use Rattle.wire_codec.specs.Records.{text, text_size};
ghost use Rattle.wire_codec.specs.Writes.{Writes};
ghost use Rattle.wire_fields.specs.Numbers.{in_64_bits};
ghost use Rattle.wire_fields.specs.Presence.{each_record};

use crate::view_kind::ViewKind;
use crate::view_scalar::ViewScalar;
use crate::written::{WrittenKind, WrittenScalar};
use std::alloc::Global;
use std::marker::PhantomData;
use wire_codec::{DecodeContext, DecodeError, EncodeError, EncodeSink, SizeCache, Tag, laws};

/// As many values as there are records, in order, as `Repeated`. Each is charged for so many bytes
/// of element memory: those that `Repeated` is given, 24 for a string, and not the 16 of what is
/// held, so that view and message are read within the same limits.
pub struct RepeatedIn<S: ViewScalar, const PLACE: usize> {
    scalar: PhantomData<S>,
}

impl<S: ViewScalar, const PLACE: usize> ViewKind for RepeatedIn<S, PLACE> {
    ghost use Rattle.std.specs.Prelude.{List, map};
    ghost use Rattle.wire_fields.specs.Presence.{repeated};

    type Source = S::Source;

    type Held = Vec<S::Held>;

    type Owned = Vec<S::Owned>;

    ghost Value = { List S.Value };

    ghost view = { λ v. map S.view v.items };

    ghost owned = { λ v. map S.owned v.items };

    ghost kind = { (repeated PLACE S.scalar).kind };

    fn empty(alloc: Global) -> Vec<S::Held> {
        Vec::new(alloc)
    }

    fn merge(
        _alloc: Global,
        tag: Tag,
        held: &mut Vec<S::Held>,
        buf: &mut S::Source,
        context: &mut DecodeContext,
    ) -> Result<(), DecodeError> {
        laws::levels_and_counts();
        context.register_element_memory(PLACE)?;
        let mut value = S::empty();
        S::set(tag, &mut value, buf)?;
        push::<S>(held, value)
    }

    fn own(alloc: Global, held: &Vec<S::Held>) -> Result<Vec<S::Owned>, DecodeError> {
        own_each::<S>(alloc, held)
    }
}

impl<S: WrittenScalar, const PLACE: usize> WrittenKind for RepeatedIn<S, PLACE> {
    fn len(number: u32, held: &Vec<S::Held>, _cache: &mut SizeCache) -> Result<u64, EncodeError> {
        laws::fields_are_plain();
        laws::joined_records_add_up();
        Ok(each_len::<S>(number, held))
    }

    fn put<E: EncodeSink>(
        number: u32,
        held: &Vec<S::Held>,
        _cache: &mut SizeCache,
        sink: &mut E,
    ) -> Result<(), EncodeError> {
        laws::fields_are_plain();
        laws::joined_records_add_up();
        laws::flat_messages_have_no_sizes();
        put_each::<S, E>(number, held, sink)
    }
}

// How many bytes the records of the values take.
fn each_len<S: WrittenScalar>(number: u32, values: &[S::Held]) -> u64
    requires { IsFieldNumber number }
    ensures { result ≡ in_64_bits
        (text_size (each_record S.scalar number (map S.view values.now))) }
{
    laws::joined_records_add_up();
    let mut size = 0u64;
    for value in values {
        size = size.saturating_add(S::len(number, value));
    }
    size
}

// Writes the records of the values.
fn put_each<S: WrittenScalar, E: EncodeSink>(
    number: u32,
    values: &[S::Held],
    sink: &mut E,
) -> Result<(), EncodeError>
    requires { IsFieldNumber number }
    ensures { Writes (text (each_record S.scalar number (map S.view values.now)))
        (E.held sink.old) (E.held sink.new) result }
{
    laws::joined_records_add_up();
    laws::piece_by_piece();
    for value in values {
        S::put(number, value, sink)?;
    }
    Ok(())
}

// Puts a value behind others.
fn push<S: ViewScalar>(values: &mut Vec<S::Held>, value: S::Held) -> Result<(), DecodeError>
    ensures ok { OnOk result (values.new.items ≡ values.old.items ++ value ∷ []) }
    ensures err { IfErr result (λ e. e ≡ errors.OutOfMemory) }
{
    values.push(value).map_err(|_| DecodeError::OutOfMemory)
}

// The same values with memory of their own.
fn own_each<S: ViewScalar>(alloc: Global, values: &[S::Held]) -> Result<Vec<S::Owned>, DecodeError>
    ensures ok { IfOk result (λ copies. map S.owned copies.items ≡ map S.view values.now) }
    ensures err { IfErr result (λ e. e ≡ errors.OutOfMemory) }
{
    let mut copies = Vec::with_capacity(alloc, values.len())?;
    for value in values {
        let copy = S::own(alloc, value)?;
        copies.push(copy)?;
    }
    Ok(copies)
}
