//! Fields that are measured and written one behind another.
ghost use Rattle.std.specs.Prelude.{◌≡◌, ◌≤◌, length, OnOk, IfOk, IfErr};
ghost use Rattle.wire_codec.specs.EncodeError.TheVariants.{OutOfMemory};
ghost use Rattle.wire_codec.specs.FieldNumber.{IsFieldNumber};
ghost use Rattle.wire_codec.specs.Records.{Records, joined_records, of_fields, text, text_size};
ghost use Rattle.wire_codec.specs.Sizes.{sizes, cut, cut_sizes};
ghost use Rattle.wire_codec.specs.Tape.{NextAre, advanced, recorded};
ghost use Rattle.wire_codec.specs.Writes.{Writes};
ghost use Rattle.wire_fields.specs.Measuring.{Measures};

use crate::kind::Kind;
use wire_codec::{EncodeError, EncodeSink, SizeCache, UnknownFields, laws, saturate_size};

/// Some fields of a message with their values: one, or two such parts as a pair. A message of many
/// fields is a tree of pairs, best a balanced one.
pub trait Parts {
    ghost records: { Self → Records };

    /// How many bytes the records take. The sizes of embedded messages are recorded, an outer one
    /// before its inner ones. Refused where memory runs out.
    fn len(&self, cache: &mut SizeCache) -> Result<u64, EncodeError>
        ensures ok { IfOk result (λ len. Measures (records self.now) cache.old cache.new len) }
        ensures err { IfErr result (λ e. e ≡ OutOfMemory) };

    /// Writes the records, of at most 2,147,483,647 bytes, with the sizes that the cache has next.
    /// Refused where the sink refuses a put.
    fn put<S: EncodeSink>(&self, cache: &mut SizeCache, sink: &mut S) -> Result<(), EncodeError>
        requires sizes { NextAre (sizes (records self.now)) cache.old }
        requires size { text_size (records self.now) ≤ 2147483647 }
        ensures written { Writes (text (records self.now)) (S.held sink.old)
            (S.held sink.new) result }
        ensures read { OnOk result (cache.new
            ≡ advanced cache.old (length (sizes (records self.now)))) };
}

/// A field that the type knows: its number, from 1 to `MAX_FIELD_NUMBER`, and what the message
/// holds for it.
#[derive(Drop)]
pub struct Known<'a, K: Kind> {
    pub number: u32,
    pub held: &'a K::Held,
    ghost in_range: { IsFieldNumber number },
}

impl<'a, K: Kind> Parts for Known<'a, K> {
    ghost records = { λ f. K.kind.records f.number (K.view f.held.now) };

    #[inline(always)]
    fn len(&self, cache: &mut SizeCache) -> Result<u64, EncodeError> {
        K::len(self.number, self.held, cache)
    }

    #[inline(always)]
    fn put<S: EncodeSink>(&self, cache: &mut SizeCache, sink: &mut S) -> Result<(), EncodeError> {
        K::put(self.number, self.held, cache, sink)
    }
}

impl<A: Parts, B: Parts> Parts for (A, B) {
    ghost records = { λ p. joined_records (A.records p.0) (B.records p.1) };

    #[inline(always)]
    fn len(&self, cache: &mut SizeCache) -> Result<u64, EncodeError> {
        laws::joined_records_add_up();
        let first = self.0.len(cache)?;
        let second = self.1.len(cache)?;
        Ok(first.saturating_add(second))
    }

    #[inline(always)]
    fn put<S: EncodeSink>(&self, cache: &mut SizeCache, sink: &mut S) -> Result<(), EncodeError> {
        laws::joined_records_add_up();
        laws::piece_by_piece();
        self.0.put(cache, sink)?;
        self.1.put(cache, sink)
    }
}

/// The fields that the type does not know.
#[derive(Drop)]
pub struct Rest<'a> {
    pub fields: &'a UnknownFields,
}

impl<'a> Parts for Rest<'a> {
    ghost records = { λ r. of_fields r.fields.now };

    #[inline(always)]
    fn len(&self, _cache: &mut SizeCache) -> Result<u64, EncodeError> {
        laws::fields_are_plain();
        match self.fields.encoded_len() {
            Ok(len) => Ok(len as u64),
            Err(_) => Ok(u64::MAX),
        }
    }

    #[inline(always)]
    fn put<S: EncodeSink>(&self, _cache: &mut SizeCache, sink: &mut S) -> Result<(), EncodeError> {
        laws::fields_are_plain();
        laws::flat_messages_have_no_sizes();
        self.fields.write_to(sink)
    }
}

/// What `compute_size` of a message answers, by its parts: the size of the text in bytes, cut at
/// `u32::MAX`. The sizes of embedded messages are recorded. Refused where memory runs out.
#[inline(always)]
pub fn measure<P: Parts + Drop>(parts: P, cache: &mut SizeCache) -> Result<u32, EncodeError>
    ensures size { IfOk result (λ answer. answer ≡ cut (text_size (P.records parts))) }
    ensures sizes { OnOk result (cache.new ≡ recorded cache.old (cut_sizes (P.records parts))) }
    ensures err { IfErr result (λ e. e ≡ OutOfMemory) }
{
    Ok(saturate_size(parts.len(cache)?))
}

/// What `write_to` of a message does, by its parts: writes the text, with the sizes that the cache
/// has next. Refused where the sink refuses a put.
#[inline(always)]
pub fn write<P: Parts + Drop, S: EncodeSink>(
    parts: P,
    cache: &mut SizeCache,
    sink: &mut S,
) -> Result<(), EncodeError>
    requires sizes { NextAre (sizes (P.records parts)) cache.old }
    requires size { text_size (P.records parts) ≤ 2147483647 }
    ensures written { Writes (text (P.records parts)) (S.held sink.old)
        (S.held sink.new) result }
    ensures read { OnOk result (cache.new
        ≡ advanced cache.old (length (sizes (P.records parts)))) }
{
    parts.put(cache, sink)
}
