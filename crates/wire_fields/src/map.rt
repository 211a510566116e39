//! Maps: a record for each entry, in the order of the keys. See "Maps" of the encoding document.
ghost use Rattle.std.specs.BTreeMap.{insert_entry};
ghost use Rattle.std.specs.Prelude.{◌≡◌, ◌≤◌, length, OnOk, IfOk, IfErr};
ghost use Rattle.wire_codec.specs.DecodeError.TheVariants as errors;
ghost use Rattle.wire_codec.specs.EncodeError.TheVariants.{OutOfMemory};
ghost use Rattle.wire_codec.specs.FieldNumber.{IsFieldNumber};
ghost use Rattle.wire_codec.specs.Records.{text, text_size};
ghost use Rattle.wire_codec.specs.Sizes.{sizes};
ghost use Rattle.wire_codec.specs.Tape.{NextAre, advanced};
ghost use Rattle.wire_codec.specs.Writes.{Writes};
ghost use Rattle.wire_fields.specs.Maps.{each_entry, viewed};
ghost use Rattle.wire_fields.specs.Measuring.{Measures};

use crate::kind::Kind;
use crate::map_entry::{Entry, EntryValue, entry_len, put_entry, read_entry};
use crate::number::Number;
use crate::scalar::{Numeric, Scalar};
use crate::text::Text;
use bytes::Buf;
use std::alloc::Global;
use std::collections::BTreeMap;
use std::marker::PhantomData;
use wire_codec::{DecodeContext, DecodeError, EncodeError, EncodeSink, SizeCache, Tag, laws};

/// A map, with the last value of each key. The keys are numbers, `Bool` or `Text`; the values are of
/// a kind that is always written. A record is an entry, whose key and value have their defaults
/// where they are missing, and whose other fields are lost. Each record is charged for so many bytes
/// of element memory, which are best the size of a key and a value.
pub struct Map<K: Scalar, V: EntryValue, const PLACE: usize> {
    key: PhantomData<K>,
    value: PhantomData<V>,
}

impl<N: Number, V: EntryValue, const PLACE: usize> Kind for Map<Numeric<N>, V, PLACE>
where
    N::Value: Ord,
    V::Held: Clone + PartialEq,
{
    ghost use Rattle.std.specs.Prelude.{List};
    ghost use Rattle.wire_fields.specs.Maps.{map_kind};
    ghost use Rattle.wire_fields.specs.Numbers.{numeric};

    type Held = BTreeMap<N::Value, V::Held>;

    ghost Value = { List (N.Value × V.Value) };

    ghost view = { λ m. viewed (λ k. k) V.view m.entries };

    ghost kind = { map_kind PLACE N.Value.cmp (numeric N.form N.map) V.kind };

    fn empty(alloc: Global) -> BTreeMap<N::Value, V::Held> {
        BTreeMap::new(alloc)
    }

    fn len(
        number: u32,
        held: &BTreeMap<N::Value, V::Held>,
        cache: &mut SizeCache,
    ) -> Result<u64, EncodeError> {
        entries_len::<Numeric<N>, V>(number, held, cache)
    }

    fn put<S: EncodeSink>(
        number: u32,
        held: &BTreeMap<N::Value, V::Held>,
        cache: &mut SizeCache,
        sink: &mut S,
    ) -> Result<(), EncodeError> {
        put_entries::<Numeric<N>, V, S>(number, held, cache, sink)
    }

    fn merge<B: Buf>(
        alloc: Global,
        tag: Tag,
        held: &mut BTreeMap<N::Value, V::Held>,
        buf: &mut B,
        context: &mut DecodeContext,
    ) -> Result<(), DecodeError> {
        let entry = read_entry::<Numeric<N>, V, B>(alloc, tag, PLACE, buf, context)?;
        insert::<Numeric<N>, V>(held, entry)
    }

    fn clear(held: &mut BTreeMap<N::Value, V::Held>) {
        held.clear();
    }
}

impl<V: EntryValue, const PLACE: usize> Kind for Map<Text, V, PLACE>
where
    V::Held: Clone + PartialEq,
{
    ghost use Rattle.std.specs.Prelude.{List};
    ghost use Rattle.std.specs.Prelude.{ℕ, string_bytes};
    ghost use Rattle.std.specs.Cmp.Lexicographic.{slice_cmp};
    ghost use Rattle.std.specs.Ordering.{nat_cmp};
    ghost use Rattle.wire_fields.specs.Maps.{map_kind};
    ghost use Rattle.wire_fields.specs.Texts.{string};

    type Held = BTreeMap<String, V::Held>;

    ghost Value = { List (List ℕ × V.Value) };

    ghost view = { λ m. viewed (λ k. string_bytes k) V.view m.entries };

    ghost kind = { map_kind PLACE (slice_cmp nat_cmp) string V.kind };

    fn empty(alloc: Global) -> BTreeMap<String, V::Held> {
        BTreeMap::new(alloc)
    }

    fn len(
        number: u32,
        held: &BTreeMap<String, V::Held>,
        cache: &mut SizeCache,
    ) -> Result<u64, EncodeError> {
        entries_len::<Text, V>(number, held, cache)
    }

    fn put<S: EncodeSink>(
        number: u32,
        held: &BTreeMap<String, V::Held>,
        cache: &mut SizeCache,
        sink: &mut S,
    ) -> Result<(), EncodeError> {
        put_entries::<Text, V, S>(number, held, cache, sink)
    }

    fn merge<B: Buf>(
        alloc: Global,
        tag: Tag,
        held: &mut BTreeMap<String, V::Held>,
        buf: &mut B,
        context: &mut DecodeContext,
    ) -> Result<(), DecodeError> {
        let entry = read_entry::<Text, V, B>(alloc, tag, PLACE, buf, context)?;
        insert::<Text, V>(held, entry)
    }

    fn clear(held: &mut BTreeMap<String, V::Held>) {
        held.clear();
    }
}

// How many bytes the records of the entries take. Most messages have no entry.
#[inline(always)]
fn entries_len<K: Scalar, V: EntryValue>(
    number: u32,
    held: &BTreeMap<K::Held, V::Held>,
    cache: &mut SizeCache,
) -> Result<u64, EncodeError>
where
    K::Held: Ord,
    requires { IsFieldNumber number }
    ensures ok { IfOk result (λ len. Measures
        (each_entry K.scalar V.kind number (viewed K.view V.view held.now.entries))
        cache.old cache.new len) }
    ensures err { IfErr result (λ e. e ≡ OutOfMemory) }
{
    if held.is_empty() {
        return Ok(0);
    }
    each_entry_len::<K, V>(number, held, cache)
}

// How many bytes they take, one after another.
fn each_entry_len<K: Scalar, V: EntryValue>(
    number: u32,
    held: &BTreeMap<K::Held, V::Held>,
    cache: &mut SizeCache,
) -> Result<u64, EncodeError>
where
    K::Held: Ord,
    requires { IsFieldNumber number }
    ensures ok { IfOk result (λ len. Measures
        (each_entry K.scalar V.kind number (viewed K.view V.view held.now.entries))
        cache.old cache.new len) }
    ensures err { IfErr result (λ e. e ≡ OutOfMemory) }
{
    laws::joined_records_add_up();
    let mut size = 0u64;
    for (key, value) in held {
        size = size.saturating_add(entry_len::<K, V>(number, key, value, cache)?);
    }
    Ok(size)
}

// Writes the records of the entries. Most messages have no entry.
#[inline(always)]
fn put_entries<K: Scalar, V: EntryValue, S: EncodeSink>(
    number: u32,
    held: &BTreeMap<K::Held, V::Held>,
    cache: &mut SizeCache,
    sink: &mut S,
) -> Result<(), EncodeError>
where
    K::Held: Ord,
    requires number { IsFieldNumber number }
    requires sizes { NextAre (sizes
        (each_entry K.scalar V.kind number (viewed K.view V.view held.now.entries))) cache.old }
    requires size { text_size
        (each_entry K.scalar V.kind number (viewed K.view V.view held.now.entries)) ≤ 2147483647 }
    ensures written { Writes (text (each_entry K.scalar V.kind number (viewed K.view V.view held.now.entries)))
        (S.held sink.old) (S.held sink.new) result }
    ensures read { OnOk result (cache.new ≡ advanced cache.old (length (sizes
        (each_entry K.scalar V.kind number (viewed K.view V.view held.now.entries))))) }
{
    laws::piece_by_piece();
    if held.is_empty() {
        return Ok(());
    }
    put_each_entry::<K, V, S>(number, held, cache, sink)
}

// Writes them one after another.
fn put_each_entry<K: Scalar, V: EntryValue, S: EncodeSink>(
    number: u32,
    held: &BTreeMap<K::Held, V::Held>,
    cache: &mut SizeCache,
    sink: &mut S,
) -> Result<(), EncodeError>
where
    K::Held: Ord,
    requires number { IsFieldNumber number }
    requires sizes { NextAre (sizes
        (each_entry K.scalar V.kind number (viewed K.view V.view held.now.entries))) cache.old }
    requires size { text_size
        (each_entry K.scalar V.kind number (viewed K.view V.view held.now.entries)) ≤ 2147483647 }
    ensures written { Writes (text (each_entry K.scalar V.kind number (viewed K.view V.view held.now.entries)))
        (S.held sink.old) (S.held sink.new) result }
    ensures read { OnOk result (cache.new ≡ advanced cache.old (length (sizes
        (each_entry K.scalar V.kind number (viewed K.view V.view held.now.entries))))) }
{
    laws::joined_records_add_up();
    laws::piece_by_piece();
    for (key, value) in held {
        put_entry::<K, V, S>(number, key, value, cache, sink)?;
    }
    Ok(())
}

// Puts an entry in its place, or its value in that of the entry with the same key.
pub(crate) fn insert<K: Scalar, V: EntryValue>(
    held: &mut BTreeMap<K::Held, V::Held>,
    entry: Entry<K, V>,
) -> Result<(), DecodeError>
where
    K::Held: Ord,
    ensures ok { OnOk result (held.new.entries
        ≡ insert_entry K.Held.cmp held.old.entries entry.key entry.value) }
    ensures err { IfErr result (λ e. e ≡ errors.OutOfMemory) }
{
    let Entry { key, value } = entry;
    match held.insert(key, value) {
        Ok(_) => Ok(()),
        Err(_) => Err(DecodeError::OutOfMemory),
    }
}
