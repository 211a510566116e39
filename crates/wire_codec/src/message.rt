//! Message types, and the calls that encode and decode a value of any of them.
ghost use Rattle.std.specs.Prelude.{◌≡◌, ◌≢◌, ◌≤◌, ◌<◌, [], length, Option, Some, OnOk, OnErr, IfOk, IfErr, IsErrAnd};
ghost use Rattle.wire_base.specs.declared.error.DecodeError.TheVariants as errors;
ghost use Rattle.wire_base.specs.declared.error.EncodeError.TheVariants.{OutOfMemory};
ghost use Rattle.wire_base.specs.Delimited.{DelimitedFault};
ghost use Rattle.wire_base.specs.Ending.{by_limit};
ghost use Rattle.wire_base.specs.Limits.{Charge, NoCountGrew};
ghost use Rattle.wire_base.specs.TagView.{tag_number, tag_type};
ghost use Rattle.wire_codec.specs.Folds.{Step, IsSingle};
ghost use Rattle.wire_codec.specs.Taking.{TakesRecord, TakesList, TakesAll, Decodes};
ghost use Rattle.wire_codec.specs.Taking.{IsCharged, NotTaken, NotDecoded};
ghost use Rattle.wire_codec.specs.Encoding.{Encodes, TriesToAnswer, TriesToWrite, WritesWithin, read_tape};
ghost use Rattle.wire_codec.specs.Nested.{TakesDelimited, TakesEmbedded, TakesGroup};
ghost use Rattle.wire_codec.specs.Options.{default_limits};
ghost use Rattle.wire_codec.specs.Records.{Records, text, text_size};
ghost use Rattle.wire_codec.specs.Sizes.{cut, cut_sizes, sizes};
ghost use Rattle.wire_codec.specs.TakingLaws.{OneReading};
ghost use Rattle.wire_codec.specs.Tape.{NextAre, recorded, advanced};
ghost use Rattle.wire_codec.specs.Writes.{Writes};
ghost use Rattle.wire_base.specs.Delimited.{delimited_text};

use crate::decode_options::default_context;
use crate::laws::{delimited_is_read, levels_and_counts, records_in_order};
use crate::size::{MAX_MESSAGE_BYTES, checked_encode_size};
use crate::size_cache::SizeCache;
use bytes::{Buf, Bytes};
use std::alloc::Global;
use wire_base::{
    DecodeContext, DecodeError, EncodeError, EncodeSink, Tag, decode_length, encode_varint, laws,
};

/// A type whose values are encoded as records. See "Submessages" and "Field Order" of the encoding
/// document.
///
/// A value is measured in one pass, which records the sizes of the embedded messages, and written
/// in a second one, which reads them.
///
/// A type writes the five calls without a body here, as its `MessageFields`, and has the others by
/// that. It implements this trait itself where one of the others is to have a body of its own.
pub trait Message: Clone + PartialEq + Drop {
    /// What contracts see of a value.
    ghost Value: { Type 0 };

    ghost view: { Self → Value };

    /// The records of a value, in the order in which they are written.
    ghost records: { Value → Records };

    ghost default: { Value };

    /// What a value makes of a record: what is charged for it, and the value that it becomes.
    ghost takes: { Step Value };

    /// The value of no records.
    fn default_value(alloc: Global) -> Self
        ensures { view result ≡ default };

    /// Records the sizes of the embedded messages, an outer one before its inner ones, and answers
    /// the size of the encoding in bytes. Each is cut at `u32::MAX`. Refused where memory runs out.
    fn compute_size(&self, cache: &mut SizeCache) -> Result<u32, EncodeError>
        ensures size { IfOk result (λ answer. answer ≡ cut (text_size (records (view self.now)))) }
        ensures sizes { OnOk result (cache.new
            ≡ recorded cache.old (cut_sizes (records (view self.now)))) }
        ensures err { IfErr result (λ e. e ≡ OutOfMemory) };

    /// Writes the shortest encoding of the records, of at most 2,147,483,647 bytes, with the sizes
    /// that the cache has next, which are those that `compute_size` recorded, as the conditions
    /// ask. Refused where the sink refuses a put.
    fn write_to<S: EncodeSink>(
        &self,
        cache: &mut SizeCache,
        sink: &mut S,
    ) -> Result<(), EncodeError>
        requires sizes { NextAre (sizes (records (view self.now))) cache.old }
        requires size { text_size (records (view self.now)) ≤ 2147483647 }
        ensures written { Writes (text (records (view self.now)))
            (S.held sink.old) (S.held sink.new) result }
        ensures read { OnOk result (cache.new
            ≡ advanced cache.old (length (sizes (records (view self.now))))) };

    /// Reads the payload behind this tag and takes the record into the value. An end tag has no
    /// payload, and is refused; a known field of another wire type is, by custom,
    /// `WireTypeMismatch`. Any error but `OutOfMemory` says that the type does not take the record
    /// within the limits; which one it is, is the type's. A refusal leaves open what the value
    /// holds, the place of the buffer and the depth of the context, and may have used up counts of
    /// it. See "Message Structure" and "Last One Wins" of the encoding document.
    fn merge_field<B: Buf>(
        &mut self,
        alloc: Global,
        tag: Tag,
        buf: &mut B,
        context: &mut DecodeContext,
    ) -> Result<(), DecodeError>
        ensures ok { OnOk result (IsCharged context.old context.new (λ c.
            TakesRecord takes context.old (tag_number tag) (tag_type tag) (view self.old)
            (B.unread buf.old) c (view self.new) (B.unread buf.new))) }
        ensures err { IfErr result (λ e. e ≢ errors.OutOfMemory → NotTaken
            (TakesRecord takes context.old (tag_number tag) (tag_type tag) (view self.old)
            (B.unread buf.old))) }
        ensures counts { OnErr result (NoCountGrew context.old context.new) }
        ensures kept { B.kept buf.new ≡ B.kept buf.old };

    /// Makes the value that of no records.
    fn clear(&mut self)
        ensures { view self.new ≡ default };

    /// Writes the encoding with a cache of its own. The size is at most 2,147,483,647 bytes, as the
    /// condition asks. Refused where memory runs out or the sink refuses a put. See "Encoded Proto
    /// Size Limitations" of the encoding document.
    fn encode<S: EncodeSink>(&self, alloc: Global, sink: &mut S) -> Result<(), EncodeError>
        requires { text_size (records (view self.now)) ≤ 2147483647 }
        ensures { Encodes (text (records (view self.now)))
            (S.held sink.old) (S.held sink.new) result }
    {
        self.encode_with_cache(&mut SizeCache::new(alloc), sink)
    }

    /// Writes the encoding as `encode` does, with this cache, whose sizes are cleared first.
    fn encode_with_cache<S: EncodeSink>(
        &self,
        cache: &mut SizeCache,
        sink: &mut S,
    ) -> Result<(), EncodeError>
        requires { text_size (records (view self.now)) ≤ 2147483647 }
        ensures written { Encodes (text (records (view self.now)))
            (S.held sink.old) (S.held sink.new) result }
        ensures read { OnOk result (cache.new ≡ read_tape (records (view self.now))) }
    {
        cache.clear();
        self.compute_size(cache)?;
        self.write_to(cache, sink)
    }

    /// The size of the encoding in bytes, at most 2,147,483,647, as the condition asks. Refused
    /// where memory runs out.
    fn encoded_len(&self, alloc: Global) -> Result<u32, EncodeError>
        requires { text_size (records (view self.now)) ≤ 2147483647 }
        ensures ok { IfOk result (λ len. len ≡ text_size (records (view self.now))) }
        ensures err { IfErr result (λ e. e ≡ OutOfMemory) }
    {
        self.compute_size(&mut SizeCache::new(alloc))
    }

    /// Writes the encoding as `encode` does, or answers `MessageTooLarge`, before anything is
    /// written, where it has more than 2,147,483,647 bytes and memory lasts to measure it.
    fn try_encode<S: EncodeSink>(&self, alloc: Global, sink: &mut S) -> Result<(), EncodeError>
        ensures { TriesToWrite (text_size (records (view self.now)))
            (text (records (view self.now))) (S.held sink.old)
            (S.held sink.new) result }
    {
        self.try_encode_with_cache(&mut SizeCache::new(alloc), sink)
    }

    /// Writes the encoding as `try_encode` does, with this cache, whose sizes are cleared first.
    fn try_encode_with_cache<S: EncodeSink>(
        &self,
        cache: &mut SizeCache,
        sink: &mut S,
    ) -> Result<(), EncodeError>
        ensures written { TriesToWrite (text_size (records (view self.now)))
            (text (records (view self.now))) (S.held sink.old)
            (S.held sink.new) result }
        ensures read { OnOk result (cache.new ≡ read_tape (records (view self.now))) }
    {
        cache.clear();
        checked_encode_size(self.compute_size(cache)?)?;
        self.write_to(cache, sink)
    }

    /// The size of the encoding in bytes. Refused where memory runs out, and else with
    /// `MessageTooLarge` where it is above 2,147,483,647.
    fn try_encoded_len(&self, alloc: Global) -> Result<u32, EncodeError>
        ensures { TriesToAnswer result (text_size (records (view self.now)))
            (λ len. len ≡ text_size (records (view self.now))) }
    {
        checked_encode_size(self.compute_size(&mut SizeCache::new(alloc))?)
    }

    /// Writes the size of the encoding as a varint, and the encoding, of at most 2,147,483,647
    /// bytes, as the condition asks. Refused as `encode`. See "Length-Delimited Records" of the
    /// encoding document.
    fn encode_length_delimited<S: EncodeSink>(
        &self,
        alloc: Global,
        sink: &mut S,
    ) -> Result<(), EncodeError>
        requires { text_size (records (view self.now)) ≤ 2147483647 }
        ensures { Encodes (delimited_text (text (records (view self.now))))
            (S.held sink.old) (S.held sink.new) result }
    {
        laws::two_parts();
        laws::piece_by_piece();
        let mut cache = SizeCache::new(alloc);
        let len = self.compute_size(&mut cache)?;
        encode_varint(u64::from(len), sink)?;
        self.write_to(&mut cache, sink)
    }

    /// Writes the size of the encoding as a varint, and the encoding. Refused as `try_encode`.
    fn try_encode_length_delimited<S: EncodeSink>(
        &self,
        alloc: Global,
        sink: &mut S,
    ) -> Result<(), EncodeError>
        ensures { TriesToWrite (text_size (records (view self.now)))
            (delimited_text (text (records (view self.now)))) (S.held sink.old)
            (S.held sink.new) result }
    {
        laws::two_parts();
        laws::piece_by_piece();
        let mut cache = SizeCache::new(alloc);
        let size = self.compute_size(&mut cache)?;
        checked_encode_size(size)?;
        encode_varint(u64::from(size), sink)?;
        self.write_to(&mut cache, sink)
    }

    /// The encoding in a vector of just its length, at most 2,147,483,647 bytes, as the condition
    /// asks. Refused where memory runs out.
    fn encode_to_vec(&self, alloc: Global) -> Result<Vec<u8>, EncodeError>
        requires { text_size (records (view self.now)) ≤ 2147483647 }
        ensures ok { IfOk result (λ bytes. bytes.items ≡ text (records (view self.now))) }
        ensures err { IfErr result (λ e. e ≡ OutOfMemory) }
    {
        let mut cache = SizeCache::new(alloc);
        let len = self.compute_size(&mut cache)?;
        let mut bytes = Vec::with_capacity(alloc, len as usize)?;
        self.write_to(&mut cache, &mut bytes)?;
        Ok(bytes)
    }

    /// The encoding in a vector of just its length. Refused where memory runs out, which comes
    /// first while it is measured, and with `MessageTooLarge` where it has more than 2,147,483,647
    /// bytes.
    fn try_encode_to_vec(&self, alloc: Global) -> Result<Vec<u8>, EncodeError>
        ensures { TriesToAnswer result (text_size (records (view self.now)))
            (λ bytes. bytes.items ≡ text (records (view self.now))) }
    {
        let mut cache = SizeCache::new(alloc);
        let len = checked_encode_size(self.compute_size(&mut cache)?)?;
        let mut bytes = Vec::with_capacity(alloc, len as usize)?;
        self.write_to(&mut cache, &mut bytes)?;
        Ok(bytes)
    }

    /// The encoding as shared bytes, at most 2,147,483,647, as the condition asks. Refused as
    /// `encode_to_vec`.
    fn encode_to_bytes(&self, alloc: Global) -> Result<Bytes, EncodeError>
        requires { text_size (records (view self.now)) ≤ 2147483647 }
        ensures ok { IfOk result (λ bytes. bytes ≡ text (records (view self.now))) }
        ensures err { IfErr result (λ e. e ≡ OutOfMemory) }
    {
        Ok(Bytes::from_vec(self.encode_to_vec(alloc)?)?)
    }

    /// The encoding as shared bytes. Refused as `try_encode_to_vec`.
    fn try_encode_to_bytes(&self, alloc: Global) -> Result<Bytes, EncodeError>
        ensures { TriesToAnswer result (text_size (records (view self.now)))
            (λ bytes. bytes ≡ text (records (view self.now))) }
    {
        Ok(Bytes::from_vec(self.try_encode_to_vec(alloc)?)?)
    }

    /// Writes the encoding where it has at most `max_bytes` bytes, and answers its size in bytes.
    /// More than 2,147,483,647 are `MessageTooLarge`, and else more than `max_bytes` are
    /// `ExceedsBudget`, before anything is written. Refused else as `encode`; memory that runs out
    /// while it is measured comes first.
    fn try_encode_bounded<S: EncodeSink>(
        &self,
        alloc: Global,
        max_bytes: u32,
        sink: &mut S,
    ) -> Result<u32, EncodeError>
        ensures { WritesWithin max_bytes (text (records (view self.now)))
            (S.held sink.old) (S.held sink.new) result }
    {
        self.try_encode_bounded_with_cache(max_bytes, &mut SizeCache::new(alloc), sink)
    }

    /// Writes the encoding as `try_encode_bounded` does, with this cache, whose sizes are cleared
    /// first.
    fn try_encode_bounded_with_cache<S: EncodeSink>(
        &self,
        max_bytes: u32,
        cache: &mut SizeCache,
        sink: &mut S,
    ) -> Result<u32, EncodeError>
        ensures written { WritesWithin max_bytes (text (records (view self.now)))
            (S.held sink.old) (S.held sink.new) result }
        ensures read { OnOk result (cache.new ≡ read_tape (records (view self.now))) }
    {
        cache.clear();
        let len = checked_encode_size(self.compute_size(cache)?)?;
        if len > max_bytes {
            return Err(EncodeError::ExceedsBudget { len, max_bytes });
        }
        self.write_to(cache, sink)?;
        Ok(len)
    }

    /// Takes the records of the whole buffer into the value, within the limits of the context.
    /// Refused as `merge_to_limit`.
    fn merge<B: Buf>(
        &mut self,
        alloc: Global,
        buf: &mut B,
        context: &mut DecodeContext,
    ) -> Result<(), DecodeError>
        ensures ok { OnOk result (IsCharged context.old context.new (λ c. TakesAll takes
            context.old (view self.old) (B.unread buf.old) c (view self.new))) }
        ensures rest { OnOk result (B.unread buf.new ≡ []) }
        ensures err { IfErr result (λ e. e ≢ errors.OutOfMemory
            → NotDecoded takes context.old (view self.old) (B.unread buf.old)) }
        ensures counts { OnErr result (NoCountGrew context.old context.new) }
        ensures kept { B.kept buf.new ≡ B.kept buf.old }
    {
        self.merge_to_limit(alloc, buf, context, 0)
    }

    /// Takes whole records into the value while more than `limit` bytes remain. The last of them
    /// may run past that place. Refused as `Tag::decode` and `merge_field`, at the first record
    /// that is not taken.
    fn merge_to_limit<B: Buf>(
        &mut self,
        alloc: Global,
        buf: &mut B,
        context: &mut DecodeContext,
        limit: usize,
    ) -> Result<(), DecodeError>
        ensures ok { OnOk result (IsCharged context.old context.new (λ c.
            TakesList takes context.old (by_limit limit) (view self.old) (B.unread buf.old)
            c (view self.new) (B.unread buf.new))) }
        ensures err { IfErr result (λ e. e ≢ errors.OutOfMemory → NotTaken
            (TakesList takes context.old (by_limit limit) (view self.old) (B.unread buf.old))) }
        ensures counts { OnErr result (NoCountGrew context.old context.new) }
        ensures kept { B.kept buf.new ≡ B.kept buf.old }
    {
        records_in_order();
        while buf.remaining() > limit {
            let tag = Tag::decode(buf)?;
            self.merge_field(alloc, tag, buf, context)?;
        }
        Ok(())
    }

    /// Takes the records of a length-delimited payload of at most `max` bytes into the value, at
    /// the context's own level. Refused as `decode_length`, as `merge_to_limit` at a record that
    /// begins in the payload, or with `UnexpectedEof` where one that was taken ends past it. See
    /// "Length-Delimited Records" of the encoding document.
    fn merge_delimited<B: Buf>(
        &mut self,
        alloc: Global,
        buf: &mut B,
        context: &mut DecodeContext,
        max: usize,
    ) -> Result<(), DecodeError>
        ensures ok { OnOk result (IsCharged context.old context.new (λ c.
            TakesDelimited takes context.old max (view self.old) (B.unread buf.old)
            c (view self.new) (B.unread buf.new))) }
        ensures fault { (e : DecodeError) → DelimitedFault (Some max) (B.unread buf.old) e
            → IsErrAnd result (λ f. f ≡ e) }
        ensures err { IfErr result (λ e. e ≢ errors.OutOfMemory → NotTaken
            (TakesDelimited takes context.old max (view self.old) (B.unread buf.old))) }
        ensures counts { OnErr result (NoCountGrew context.old context.new) }
        ensures kept { B.kept buf.new ≡ B.kept buf.old }
    {
        records_in_order();
        delimited_is_read();
        let len = decode_length(buf, Some(max))?;
        let rest = buf.remaining() - len;
        self.merge_to_limit(alloc, buf, context, rest)?;
        if buf.remaining() < rest {
            return Err(DecodeError::UnexpectedEof);
        }
        Ok(())
    }

    /// Takes the records of an embedded message, a length and a payload of at most 2,147,483,647
    /// bytes, into the value, one level down. Refused with `RecursionLimitExceeded` where no level
    /// is left, and else as `merge_delimited`. See "Submessages" of the encoding document.
    fn merge_length_delimited<B: Buf>(
        &mut self,
        alloc: Global,
        buf: &mut B,
        context: &mut DecodeContext,
    ) -> Result<(), DecodeError>
        ensures ok { OnOk result (IsCharged context.old context.new (λ c.
            TakesEmbedded takes context.old (view self.old) (B.unread buf.old)
            c (view self.new) (B.unread buf.new))) }
        ensures no_level { context.old.depth ≡ 0
            → IsErrAnd result (λ e. e ≡ errors.RecursionLimitExceeded) }
        ensures fault { 0 < context.old.depth → (e : DecodeError)
            → DelimitedFault (Some 2147483647) (B.unread buf.old) e
            → IsErrAnd result (λ f. f ≡ e) }
        ensures err { IfErr result (λ e. e ≢ errors.OutOfMemory → NotTaken
            (TakesEmbedded takes context.old (view self.old) (B.unread buf.old))) }
        ensures counts { OnErr result (NoCountGrew context.old context.new) }
        ensures kept { B.kept buf.new ≡ B.kept buf.old }
    {
        levels_and_counts();
        context.descend()?;
        self.merge_delimited(alloc, buf, context, MAX_MESSAGE_BYTES as usize)?;
        context.ascend();
        Ok(())
    }

    /// Takes the records of a group of this number into the value, up to its end tag, one level
    /// down. Refused with `RecursionLimitExceeded` where no level is left, and else as
    /// `Tag::decode_in_group` and `merge_field`. See "Groups" of the encoding document.
    fn merge_group<B: Buf>(
        &mut self,
        alloc: Global,
        buf: &mut B,
        context: &mut DecodeContext,
        number: u32,
    ) -> Result<(), DecodeError>
        ensures ok { OnOk result (IsCharged context.old context.new (λ c.
            TakesGroup takes context.old number (view self.old) (B.unread buf.old)
            c (view self.new) (B.unread buf.new))) }
        ensures no_level { context.old.depth ≡ 0
            → IsErrAnd result (λ e. e ≡ errors.RecursionLimitExceeded) }
        ensures err { IfErr result (λ e. e ≢ errors.OutOfMemory → NotTaken
            (TakesGroup takes context.old number (view self.old) (B.unread buf.old))) }
        ensures counts { OnErr result (NoCountGrew context.old context.new) }
        ensures kept { B.kept buf.new ≡ B.kept buf.old }
    {
        records_in_order();
        levels_and_counts();
        context.descend()?;
        while let Some(tag) = Tag::decode_in_group(buf, number)? {
            self.merge_field(alloc, tag, buf, context)?;
        }
        context.ascend();
        Ok(())
    }

    /// The value of a length-delimited payload of at most 2,147,483,647 bytes, within the limits of
    /// `decode`. Refused as `merge_delimited`.
    #[inline(always)]
    fn decode_length_delimited<B: Buf>(alloc: Global, buf: &mut B) -> Result<Self, DecodeError>
        ensures ok { IfOk result (λ message. (c : Charge) × TakesDelimited takes
            default_limits 2147483647 default (B.unread buf.old) c (view message)
            (B.unread buf.new)) }
        ensures fault { (e : DecodeError)
            → DelimitedFault (Some 2147483647) (B.unread buf.old) e
            → IsErrAnd result (λ f. f ≡ e) }
        ensures err { IfErr result (λ e. e ≢ errors.OutOfMemory → NotTaken
            (TakesDelimited takes default_limits 2147483647 default (B.unread buf.old))) }
        ensures kept { B.kept buf.new ≡ B.kept buf.old }
    {
        let mut message = Self::default_value(alloc);
        let max = MAX_MESSAGE_BYTES as usize;
        message.merge_delimited(alloc, buf, &mut default_context(), max)?;
        Ok(message)
    }

    /// The value of the records of the whole buffer, which may have any length, within 100 levels,
    /// 1,000,000 unknown fields and 33,554,432 bytes for elements. Refused as `merge`.
    #[inline(always)]
    fn decode<B: Buf>(alloc: Global, buf: &mut B) -> Result<Self, DecodeError>
        ensures ok { IfOk result (λ message. Decodes takes default_limits default
            (B.unread buf.old) (view message)) }
        ensures rest { OnOk result (B.unread buf.new ≡ []) }
        ensures err { IfErr result (λ e. e ≢ errors.OutOfMemory → NotDecoded takes
            default_limits default (B.unread buf.old)) }
        ensures kept { B.kept buf.new ≡ B.kept buf.old }
    {
        let mut message = Self::default_value(alloc);
        message.merge(alloc, buf, &mut default_context())?;
        Ok(message)
    }

    /// The value of the records of all the bytes. Limits and refusals are those of `decode`.
    #[inline(always)]
    fn decode_from_slice(alloc: Global, bytes: &[u8]) -> Result<Self, DecodeError>
        ensures ok { IfOk result (λ message. Decodes takes default_limits default bytes.now
            (view message)) }
        ensures err { IfErr result (λ e. e ≢ errors.OutOfMemory → NotDecoded takes
            default_limits default bytes.now) }
    {
        let mut buf = bytes;
        Self::decode(alloc, &mut buf)
    }

    /// Takes the records of all the bytes into the value, within the limits of `decode`. Refused as
    /// `merge`.
    fn merge_from_slice(&mut self, alloc: Global, bytes: &[u8]) -> Result<(), DecodeError>
        ensures ok { OnOk result (Decodes takes default_limits
            (view self.old) bytes.now (view self.new)) }
        ensures err { IfErr result (λ e. e ≢ errors.OutOfMemory → NotDecoded takes
            default_limits (view self.old) bytes.now) }
    {
        let mut buf = bytes;
        self.merge(alloc, &mut buf, &mut default_context())
    }

    /// A record has one charge, and one outcome for each value, since bytes are read in one way.
    ghost single: { OneReading → IsSingle takes };
}
