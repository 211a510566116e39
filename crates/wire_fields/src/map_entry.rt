//! Entries of maps: on the wire, messages of a key and a value.
ghost use Rattle.std.specs.Prelude.{◌≡◌, ◌≢◌, ◌≤◌, length, OnOk, OnErr, IfOk, IfErr};
ghost use Rattle.wire_codec.specs.DecodeError.TheVariants as errors;
ghost use Rattle.wire_codec.specs.EncodeError.TheVariants.{OutOfMemory};
ghost use Rattle.wire_codec.specs.FieldNumber.{IsFieldNumber};
ghost use Rattle.wire_codec.specs.Folds.{IsSingle};
ghost use Rattle.wire_codec.specs.Limits.{NoCountGrew};
ghost use Rattle.wire_codec.specs.Records.{text, text_size};
ghost use Rattle.wire_codec.specs.Sizes.{sizes, cut, cut_sizes};
ghost use Rattle.wire_codec.specs.TagView.{tag_number, tag_type};
ghost use Rattle.wire_codec.specs.Taking.{TakesRecord, IsCharged, NotTaken};
ghost use Rattle.wire_codec.specs.TakingLaws.{OneReading};
ghost use Rattle.wire_codec.specs.Tape.{NextAre, advanced, recorded};
ghost use Rattle.wire_codec.specs.Writes.{Writes};
ghost use Rattle.wire_fields.specs.Maps.{entry_default, entry_record, entry_records, reads_entry};
ghost use Rattle.wire_fields.specs.Measuring.{Measures};

use crate::dropped::{Dropped, pass_over};
use crate::encoding::{LengthPrefixed, MessageEncoding};
use crate::kind::Kind;
use crate::message_field::AlwaysMessage;
use crate::parts::{Known, measure, write};
use crate::presence::Always;
use crate::scalar::Scalar;
use crate::text::delimited_len;
use bytes::Buf;
use std::alloc::Global;
use wire_codec::{
    DecodeContext, DecodeError, EncodeError, EncodeSink, Message, MessageFields, SizeCache, Tag,
    laws, put_len_delimited_header,
};

/// A kind that a map may have for its values: `Always` of a scalar type, or `AlwaysEmbedded`.
pub trait EntryValue: Kind {
    /// A record has one charge, and makes one value.
    ghost single: { OneReading → IsSingle Self.kind.takes };
}

impl<S: Scalar> EntryValue for Always<S> {
    ghost use Rattle.wire_fields.specs.Presence.{sets_single};

    ghost single = { λ reading. sets_single S.scalar };
}

impl<M: Message, E: MessageEncoding> EntryValue for AlwaysMessage<M, E> {
    ghost use Rattle.wire_fields.specs.Messages.{inside_single};

    ghost single = { λ reading. inside_single E.encoding M.takes reading (M.single reading) };
}

/// An entry of a map, as the message that it is on the wire.
#[derive(Drop)]
#[derive_where(Clone, PartialEq; K::Held, V::Held)]
pub(crate) struct Entry<K: Scalar, V: Kind> {
    pub(crate) key: K::Held,
    pub(crate) value: V::Held,
}

impl<K: Scalar, V: EntryValue> MessageFields for Entry<K, V>
where
    K::Held: Clone + PartialEq,
    V::Held: Clone + PartialEq,
{
    ghost use Rattle.wire_fields.specs.Maps.{EntryOf, entry_records, entry_default, entry_takes, entry_single};

    ghost Value = { EntryOf K.Value V.Value };

    ghost view = { λ e. ((K.view e.key, V.view e.value), tt) };

    ghost records = { λ e. entry_records K.scalar V.kind e.0 };

    ghost default = { entry_default K.scalar V.kind };

    ghost takes = { entry_takes K.scalar V.kind };

    ghost single = { λ reading. entry_single K.scalar V.kind (V.single reading) };

    fn default_value(alloc: Global) -> Entry<K, V> {
        Entry {
            key: K::empty(alloc),
            value: V::empty(alloc),
        }
    }

    fn compute_size(&self, cache: &mut SizeCache) -> Result<u32, EncodeError> {
        measure_entry::<K, V>(&self.key, &self.value, cache)
    }

    fn write_to<S: EncodeSink>(
        &self,
        cache: &mut SizeCache,
        sink: &mut S,
    ) -> Result<(), EncodeError> {
        write_entry::<K, V, S>(&self.key, &self.value, cache, sink)
    }

    fn merge_field<B: Buf>(
        &mut self,
        alloc: Global,
        tag: Tag,
        buf: &mut B,
        context: &mut DecodeContext,
    ) -> Result<(), DecodeError> {
        match tag.field_number() {
            1 => <Always<K> as Kind>::merge(alloc, tag, &mut self.key, buf, context),
            2 => V::merge(alloc, tag, &mut self.value, buf, context),
            _ => pass_over(tag, buf, context),
        }
    }

    fn clear(&mut self) {
        K::clear(&mut self.key);
        V::clear(&mut self.value);
    }
}

// What `compute_size` answers of an entry with this key and value.
fn measure_entry<K: Scalar, V: Kind>(
    key: &K::Held,
    value: &V::Held,
    cache: &mut SizeCache,
) -> Result<u32, EncodeError>
    ensures size { IfOk result (λ answer. answer ≡ cut (text_size
        (entry_records K.scalar V.kind (K.view key.now, V.view value.now)))) }
    ensures sizes { OnOk result (cache.new ≡ recorded cache.old (cut_sizes
        (entry_records K.scalar V.kind (K.view key.now, V.view value.now)))) }
    ensures err { IfErr result (λ e. e ≡ OutOfMemory) }
{
    let first: Known<Always<K>> = Known {
        number: 1,
        held: key,
    };
    let second: Known<V> = Known {
        number: 2,
        held: value,
    };
    measure(((first, second), Dropped), cache)
}

// What `write_to` does with an entry of this key and value.
fn write_entry<K: Scalar, V: Kind, S: EncodeSink>(
    key: &K::Held,
    value: &V::Held,
    cache: &mut SizeCache,
    sink: &mut S,
) -> Result<(), EncodeError>
    requires sizes { NextAre (sizes
        (entry_records K.scalar V.kind (K.view key.now, V.view value.now))) cache.old }
    requires size { text_size
        (entry_records K.scalar V.kind (K.view key.now, V.view value.now)) ≤ 2147483647 }
    ensures written { Writes (text (entry_records K.scalar V.kind (K.view key.now, V.view value.now)))
        (S.held sink.old) (S.held sink.new) result }
    ensures read { OnOk result (cache.new ≡ advanced cache.old (length
        (sizes (entry_records K.scalar V.kind (K.view key.now, V.view value.now))))) }
{
    let first: Known<Always<K>> = Known {
        number: 1,
        held: key,
    };
    let second: Known<V> = Known {
        number: 2,
        held: value,
    };
    write(((first, second), Dropped), cache, sink)
}

/// How many bytes the record of an entry takes. The sizes of embedded messages are recorded.
pub(crate) fn entry_len<K: Scalar, V: Kind>(
    number: u32,
    key: &K::Held,
    value: &V::Held,
    cache: &mut SizeCache,
) -> Result<u64, EncodeError>
    requires { IsFieldNumber number }
    ensures ok { IfOk result (λ len. Measures
        (entry_record K.scalar V.kind number (K.view key.now, V.view value.now))
        cache.old cache.new len) }
    ensures err { IfErr result (λ e. e ≡ OutOfMemory) }
{
    let slot = cache.reserve()?;
    let len = measure_entry::<K, V>(key, value, cache)?;
    cache.set(slot, len);
    Ok(delimited_len(number, u64::from(len)))
}

/// Writes the record of an entry, with the sizes that the cache has next.
pub(crate) fn put_entry<K: Scalar, V: Kind, S: EncodeSink>(
    number: u32,
    key: &K::Held,
    value: &V::Held,
    cache: &mut SizeCache,
    sink: &mut S,
) -> Result<(), EncodeError>
    requires number { IsFieldNumber number }
    requires sizes { NextAre (sizes
        (entry_record K.scalar V.kind number (K.view key.now, V.view value.now))) cache.old }
    requires size { text_size
        (entry_record K.scalar V.kind number (K.view key.now, V.view value.now)) ≤ 2147483647 }
    ensures written { Writes (text (entry_record K.scalar V.kind number (K.view key.now, V.view value.now)))
        (S.held sink.old) (S.held sink.new) result }
    ensures read { OnOk result (cache.new ≡ advanced cache.old (length
        (sizes (entry_record K.scalar V.kind number (K.view key.now, V.view value.now))))) }
{
    laws::piece_by_piece();
    let len = cache.consume_next();
    put_len_delimited_header(number, u64::from(len), sink)?;
    write_entry::<K, V, S>(key, value, cache, sink)
}

/// Reads the entry of the payload behind this tag, and charges its place in memory.
pub(crate) fn read_entry<K: Scalar, V: EntryValue, B: Buf>(
    alloc: Global,
    tag: Tag,
    place: usize,
    buf: &mut B,
    context: &mut DecodeContext,
) -> Result<Entry<K, V>, DecodeError>
where
    K::Held: Clone + PartialEq,
    V::Held: Clone + PartialEq,
    ensures ok { IfOk result (λ e. IsCharged context.old context.new (λ c.
        TakesRecord (reads_entry place K.scalar V.kind) context.old (tag_number tag) (tag_type tag)
        (entry_default K.scalar V.kind) (B.unread buf.old) c
        ((K.view e.key, V.view e.value), tt) (B.unread buf.new))) }
    ensures err { IfErr result (λ e. e ≢ errors.OutOfMemory → NotTaken
        (TakesRecord (reads_entry place K.scalar V.kind) context.old (tag_number tag)
        (tag_type tag) (entry_default K.scalar V.kind) (B.unread buf.old))) }
    ensures counts { OnErr result (NoCountGrew context.old context.new) }
    ensures grown { OnOk result (NoCountGrew context.old context.new) }
    ensures kept { B.kept buf.new ≡ B.kept buf.old }
{
    laws::grammar::limits_add_up();
    laws::levels_and_counts();
    context.register_element_memory(place)?;
    let mut entry = <Entry<K, V> as MessageFields>::default_value(alloc);
    LengthPrefixed::merge::<Entry<K, V>, B>(alloc, tag, &mut entry, buf, context)?;
    Ok(entry)
}
