//! Views that are written as their messages are.
ghost use Rattle.std.specs.Prelude.{◌≡◌, ◌≤◌, List, length, OnOk, IfOk, IfErr};
ghost use Rattle.wire_codec.specs.Delimited.{delimited_text};
ghost use Rattle.wire_codec.specs.EncodeError.TheVariants.{OutOfMemory};
ghost use Rattle.wire_codec.specs.Encoding.{Encodes, TriesToAnswer, TriesToWrite, WritesWithin, read_tape};
ghost use Rattle.wire_codec.specs.Records.{Records, text, text_size};
ghost use Rattle.wire_codec.specs.Sizes.{cut, cut_sizes, sizes};
ghost use Rattle.wire_codec.specs.Tape.{NextAre, recorded, advanced};
ghost use Rattle.wire_codec.specs.Writes.{Writes};
ghost use Rattle.wire_fields.specs.Measuring.{Measures};
ghost use Rattle.wire_views.specs.Rows.{in_rows, records_in_row};

use crate::message_view::MessageView;
use bytes::Bytes;
use std::alloc::Global;
use wire_codec::{
    EncodeError, EncodeSink, SizeCache, checked_encode_size, encode_varint, laws, saturate_size,
};

/// A view that is written, as the bytes that its message would be: the shortest encoding of its
/// records.
///
/// A type says how the rows of its table are measured and written; the calls are those of
/// `Message`.
pub trait WrittenView: MessageView {
    /// The records of each row of the table, in the order in which they are written; those of the
    /// unknown fields are the last.
    ghost rows: { Self → List Records };

    /// How many rows the table has.
    fn row_count(&self) -> usize
        ensures { result ≡ length (rows self.now) };

    /// How many bytes the records of the row at this place take, the first at 0, as `Kind::len`.
    /// Behind the last row there are none. Refused where memory runs out.
    fn row_len(&self, place: usize, cache: &mut SizeCache) -> Result<u64, EncodeError>
        ensures ok { IfOk result (λ len. Measures
            (records_in_row (rows self.now) place) cache.old cache.new len) }
        ensures err { IfErr result (λ e. e ≡ OutOfMemory) };

    /// Writes the records of the row at this place, of at most 2,147,483,647 bytes, with the sizes
    /// that the cache has next, as `Kind::put`. Refused where the sink refuses a put.
    fn put_row<S: EncodeSink>(
        &self,
        place: usize,
        cache: &mut SizeCache,
        sink: &mut S,
    ) -> Result<(), EncodeError>
        requires sizes { NextAre
            (sizes (records_in_row (rows self.now) place)) cache.old }
        requires size { text_size (records_in_row (rows self.now) place)
            ≤ 2147483647 }
        ensures written { Writes (text (records_in_row (rows self.now) place))
            (S.held sink.old) (S.held sink.new) result }
        ensures read { OnOk result (cache.new ≡ advanced cache.old
            (length (sizes (records_in_row (rows self.now) place)))) };

    /// Records the sizes of the embedded messages, and answers the size of the encoding in bytes,
    /// as `Message::compute_size`.
    final fn compute_size(&self, cache: &mut SizeCache) -> Result<u32, EncodeError>
        ensures size { IfOk result (λ answer. answer
            ≡ cut (text_size (Self.records (Self.view self.now)))) }
        ensures sizes { OnOk result (cache.new
            ≡ recorded cache.old (cut_sizes (Self.records (Self.view self.now)))) }
        ensures err { IfErr result (λ e. e ≡ OutOfMemory) }
    {
        laws::joined_records_add_up();
        let mut size = 0u64;
        for place in 0..self.row_count() {
            size = size.saturating_add(self.row_len(place, cache)?);
        }
        Ok(saturate_size(size))
    }

    /// Writes the shortest encoding of the records, of at most 2,147,483,647 bytes, with the sizes
    /// that the cache has next, as `Message::write_to`.
    final fn write_to<S: EncodeSink>(
        &self,
        cache: &mut SizeCache,
        sink: &mut S,
    ) -> Result<(), EncodeError>
        requires sizes { NextAre (sizes (Self.records (Self.view self.now))) cache.old }
        requires size { text_size (Self.records (Self.view self.now)) ≤ 2147483647 }
        ensures written { Writes (text (Self.records (Self.view self.now)))
            (S.held sink.old) (S.held sink.new) result }
        ensures read { OnOk result (cache.new
            ≡ advanced cache.old (length (sizes (Self.records (Self.view self.now))))) }
    {
        laws::joined_records_add_up();
        laws::piece_by_piece();
        for place in 0..self.row_count() {
            self.put_row(place, cache, sink)?;
        }
        Ok(())
    }

    /// Writes the encoding with a cache of its own, as `Message::encode`, as which each of these
    /// calls is. The size is at most 2,147,483,647 bytes, as the condition asks. Refused where
    /// memory runs out or the sink refuses a put.
    final fn encode<S: EncodeSink>(&self, alloc: Global, sink: &mut S) -> Result<(), EncodeError>
        requires { text_size (Self.records (Self.view self.now)) ≤ 2147483647 }
        ensures { Encodes (text (Self.records (Self.view self.now)))
            (S.held sink.old) (S.held sink.new) result }
    {
        self.encode_with_cache(&mut SizeCache::new(alloc), sink)
    }

    /// Writes the encoding as `encode` does, with this cache, whose sizes are cleared first.
    final fn encode_with_cache<S: EncodeSink>(
        &self,
        cache: &mut SizeCache,
        sink: &mut S,
    ) -> Result<(), EncodeError>
        requires { text_size (Self.records (Self.view self.now)) ≤ 2147483647 }
        ensures written { Encodes (text (Self.records (Self.view self.now)))
            (S.held sink.old) (S.held sink.new) result }
        ensures read { OnOk result (cache.new ≡ read_tape (Self.records (Self.view self.now))) }
    {
        cache.clear();
        self.compute_size(cache)?;
        self.write_to(cache, sink)
    }

    /// The size of the encoding in bytes, at most 2,147,483,647, as the condition asks. Refused
    /// where memory runs out.
    final fn encoded_len(&self, alloc: Global) -> Result<u32, EncodeError>
        requires { text_size (Self.records (Self.view self.now)) ≤ 2147483647 }
        ensures ok { IfOk result (λ len. len ≡ text_size (Self.records (Self.view self.now))) }
        ensures err { IfErr result (λ e. e ≡ OutOfMemory) }
    {
        self.compute_size(&mut SizeCache::new(alloc))
    }

    /// Writes the encoding as `encode` does, or answers `MessageTooLarge`, before anything is
    /// written, where it has more than 2,147,483,647 bytes and memory lasts to measure it.
    final fn try_encode<S: EncodeSink>(
        &self,
        alloc: Global,
        sink: &mut S,
    ) -> Result<(), EncodeError>
        ensures { TriesToWrite (text_size (Self.records (Self.view self.now)))
            (text (Self.records (Self.view self.now))) (S.held sink.old)
            (S.held sink.new) result }
    {
        self.try_encode_with_cache(&mut SizeCache::new(alloc), sink)
    }

    /// Writes the encoding as `try_encode` does, with this cache, whose sizes are cleared first.
    final fn try_encode_with_cache<S: EncodeSink>(
        &self,
        cache: &mut SizeCache,
        sink: &mut S,
    ) -> Result<(), EncodeError>
        ensures written { TriesToWrite (text_size (Self.records (Self.view self.now)))
            (text (Self.records (Self.view self.now))) (S.held sink.old)
            (S.held sink.new) result }
        ensures read { OnOk result (cache.new ≡ read_tape (Self.records (Self.view self.now))) }
    {
        cache.clear();
        checked_encode_size(self.compute_size(cache)?)?;
        self.write_to(cache, sink)
    }

    /// The size of the encoding in bytes. Refused where memory runs out, and else with
    /// `MessageTooLarge` where it is above 2,147,483,647.
    final fn try_encoded_len(&self, alloc: Global) -> Result<u32, EncodeError>
        ensures { TriesToAnswer result (text_size (Self.records (Self.view self.now)))
            (λ len. len ≡ text_size (Self.records (Self.view self.now))) }
    {
        checked_encode_size(self.compute_size(&mut SizeCache::new(alloc))?)
    }

    /// Writes the size of the encoding as a varint, and the encoding, of at most 2,147,483,647
    /// bytes, as the condition asks. Refused as `encode`. See "Length-Delimited Records" of the
    /// encoding document.
    final fn encode_length_delimited<S: EncodeSink>(
        &self,
        alloc: Global,
        sink: &mut S,
    ) -> Result<(), EncodeError>
        requires { text_size (Self.records (Self.view self.now)) ≤ 2147483647 }
        ensures { Encodes (delimited_text (text (Self.records (Self.view self.now))))
            (S.held sink.old) (S.held sink.new) result }
    {
        laws::two_parts();
        laws::piece_by_piece();
        let mut cache = SizeCache::new(alloc);
        let len = self.compute_size(&mut cache)?;
        encode_varint(u64::from(len), sink)?;
        self.write_to(&mut cache, sink)
    }

    /// Writes the size of the encoding as a varint, and the encoding. Refused as `try_encode`.
    final fn try_encode_length_delimited<S: EncodeSink>(
        &self,
        alloc: Global,
        sink: &mut S,
    ) -> Result<(), EncodeError>
        ensures { TriesToWrite (text_size (Self.records (Self.view self.now)))
            (delimited_text (text (Self.records (Self.view self.now)))) (S.held sink.old)
            (S.held sink.new) result }
    {
        laws::two_parts();
        laws::piece_by_piece();
        let mut cache = SizeCache::new(alloc);
        let size = self.compute_size(&mut cache)?;
        checked_encode_size(size)?;
        encode_varint(u64::from(size), sink)?;
        self.write_to(&mut cache, sink)
    }

    /// The encoding in a vector of just its length, at most 2,147,483,647 bytes, as the condition
    /// asks. Refused where memory runs out.
    final fn encode_to_vec(&self, alloc: Global) -> Result<Vec<u8>, EncodeError>
        requires { text_size (Self.records (Self.view self.now)) ≤ 2147483647 }
        ensures ok { IfOk result (λ bytes. bytes.items ≡ text (Self.records (Self.view self.now))) }
        ensures err { IfErr result (λ e. e ≡ OutOfMemory) }
    {
        let mut cache = SizeCache::new(alloc);
        let len = self.compute_size(&mut cache)?;
        let mut bytes = Vec::with_capacity(alloc, len as usize)?;
        self.write_to(&mut cache, &mut bytes)?;
        Ok(bytes)
    }

    /// The encoding in a vector of just its length. Refused where memory runs out, which comes
    /// first while it is measured, and with `MessageTooLarge` where it has more than 2,147,483,647
    /// bytes.
    final fn try_encode_to_vec(&self, alloc: Global) -> Result<Vec<u8>, EncodeError>
        ensures { TriesToAnswer result (text_size (Self.records (Self.view self.now)))
            (λ bytes. bytes.items ≡ text (Self.records (Self.view self.now))) }
    {
        let mut cache = SizeCache::new(alloc);
        let len = checked_encode_size(self.compute_size(&mut cache)?)?;
        let mut bytes = Vec::with_capacity(alloc, len as usize)?;
        self.write_to(&mut cache, &mut bytes)?;
        Ok(bytes)
    }

    /// The encoding as shared bytes, at most 2,147,483,647, as the condition asks. Refused as
    /// `encode_to_vec`.
    final fn encode_to_bytes(&self, alloc: Global) -> Result<Bytes, EncodeError>
        requires { text_size (Self.records (Self.view self.now)) ≤ 2147483647 }
        ensures ok { IfOk result (λ bytes. bytes ≡ text (Self.records (Self.view self.now))) }
        ensures err { IfErr result (λ e. e ≡ OutOfMemory) }
    {
        Ok(Bytes::from_vec(self.encode_to_vec(alloc)?)?)
    }

    /// The encoding as shared bytes. Refused as `try_encode_to_vec`.
    final fn try_encode_to_bytes(&self, alloc: Global) -> Result<Bytes, EncodeError>
        ensures { TriesToAnswer result (text_size (Self.records (Self.view self.now)))
            (λ bytes. bytes ≡ text (Self.records (Self.view self.now))) }
    {
        Ok(Bytes::from_vec(self.try_encode_to_vec(alloc)?)?)
    }

    /// Writes the encoding where it has at most `max_bytes` bytes, and answers its size in bytes.
    /// More than 2,147,483,647 are `MessageTooLarge`, and else more than `max_bytes` are
    /// `ExceedsBudget`, before anything is written. Refused else as `encode`; memory that runs out
    /// while it is measured comes first.
    final fn try_encode_bounded<S: EncodeSink>(
        &self,
        alloc: Global,
        max_bytes: u32,
        sink: &mut S,
    ) -> Result<u32, EncodeError>
        ensures { WritesWithin max_bytes (text (Self.records (Self.view self.now)))
            (S.held sink.old) (S.held sink.new) result }
    {
        self.try_encode_bounded_with_cache(max_bytes, &mut SizeCache::new(alloc), sink)
    }

    /// Writes the encoding as `try_encode_bounded` does, with this cache, whose sizes are cleared
    /// first.
    final fn try_encode_bounded_with_cache<S: EncodeSink>(
        &self,
        max_bytes: u32,
        cache: &mut SizeCache,
        sink: &mut S,
    ) -> Result<u32, EncodeError>
        ensures written { WritesWithin max_bytes (text (Self.records (Self.view self.now)))
            (S.held sink.old) (S.held sink.new) result }
        ensures read { OnOk result (cache.new ≡ read_tape (Self.records (Self.view self.now))) }
    {
        cache.clear();
        let len = checked_encode_size(self.compute_size(cache)?)?;
        if len > max_bytes {
            return Err(EncodeError::ExceedsBudget { len, max_bytes });
        }
        self.write_to(cache, sink)?;
        Ok(len)
    }

    /// The rows are the records of the value.
    ghost same_records: { (v : Self) → in_rows (rows v) ≡ Self.records (Self.view v) };
}
