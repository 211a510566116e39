//! Repeated fields of a scalar type, each value in a record of its own.
ghost use Rattle.std.specs.Prelude.{◌≡◌, ◌≤◌, ◌∷◌, ◌++◌, [], map, OnOk, IfErr};
ghost use Rattle.wire_codec.specs.DecodeError.TheVariants as errors;
ghost use Rattle.wire_codec.specs.FieldNumber.{IsFieldNumber};
ghost use Rattle.wire_codec.specs.Records.{text, text_size};
ghost use Rattle.wire_codec.specs.Writes.{Writes};
ghost use Rattle.wire_fields.specs.Numbers.{in_64_bits};
ghost use Rattle.wire_fields.specs.Presence.{each_record};

use crate::kind::Kind;
use crate::scalar::Scalar;
use bytes::Buf;
use std::alloc::Global;
use std::marker::PhantomData;
use wire_codec::{DecodeContext, DecodeError, EncodeError, EncodeSink, SizeCache, Tag, laws};

/// As many values as there are records, in order, as repeated strings and bytes. Each is charged
/// for so many bytes of element memory, which are best the size of what is held: two bytes of the
/// wire make a string of 24.
pub struct Repeated<S: Scalar, const PLACE: usize> {
    scalar: PhantomData<S>,
}

impl<S: Scalar, const PLACE: usize> Kind for Repeated<S, PLACE> {
    ghost use Rattle.std.specs.Prelude.{List};
    ghost use Rattle.wire_fields.specs.Presence.{repeated};

    type Held = Vec<S::Held>;

    ghost Value = { List S.Value };

    ghost view = { λ v. map S.view v.items };

    ghost kind = { (repeated PLACE S.scalar).kind };

    fn empty(alloc: Global) -> Vec<S::Held> {
        Vec::new(alloc)
    }

    fn len(number: u32, held: &Vec<S::Held>, _cache: &mut SizeCache) -> Result<u64, EncodeError> {
        laws::fields_are_plain();
        laws::joined_records_add_up();
        Ok(each_len::<S>(number, held))
    }

    fn put<E: EncodeSink>(
        number: u32,
        held: &Vec<S::Held>,
        _cache: &mut SizeCache,
        sink: &mut E,
    ) -> Result<(), EncodeError> {
        laws::fields_are_plain();
        laws::joined_records_add_up();
        laws::flat_messages_have_no_sizes();
        put_each::<S, E>(number, held, sink)
    }

    fn merge<B: Buf>(
        alloc: Global,
        tag: Tag,
        held: &mut Vec<S::Held>,
        buf: &mut B,
        context: &mut DecodeContext,
    ) -> Result<(), DecodeError> {
        laws::levels_and_counts();
        context.register_element_memory(PLACE)?;
        let mut value = S::empty(alloc);
        S::set(alloc, tag, &mut value, buf)?;
        push::<S>(held, value)
    }

    fn clear(held: &mut Vec<S::Held>) {
        held.clear();
    }
}

// How many bytes the records of the values take.
pub(crate) fn each_len<S: Scalar>(number: u32, values: &[S::Held]) -> u64
    requires { IsFieldNumber number }
    ensures { result ≡ in_64_bits
        (text_size (each_record S.scalar number (map S.view values.now))) }
{
    laws::joined_records_add_up();
    let mut size = 0u64;
    for value in values {
        size = size.saturating_add(S::len(number, value));
    }
    size
}

// Writes the records of the values.
pub(crate) fn put_each<S: Scalar, E: EncodeSink>(
    number: u32,
    values: &[S::Held],
    sink: &mut E,
) -> Result<(), EncodeError>
    requires { IsFieldNumber number }
    ensures { Writes (text (each_record S.scalar number (map S.view values.now)))
        (E.held sink.old) (E.held sink.new) result }
{
    laws::joined_records_add_up();
    laws::piece_by_piece();
    for value in values {
        S::put(number, value, sink)?;
    }
    Ok(())
}

// Puts a value behind others.
fn push<S: Scalar>(values: &mut Vec<S::Held>, value: S::Held) -> Result<(), DecodeError>
    ensures ok { OnOk result (values.new.items ≡ values.old.items ++ value ∷ []) }
    ensures err { IfErr result (λ e. e ≡ errors.OutOfMemory) }
{
    values.push(value).map_err(|_| DecodeError::OutOfMemory)
}
