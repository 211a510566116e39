//! What a message type writes of itself, from which it is a `Message`.
ghost use Rattle.std.specs.Prelude.{◌≡◌, ◌≢◌, ◌≤◌, length, OnOk, OnErr, IfOk, IfErr};
ghost use Rattle.wire_base.specs.declared.error.DecodeError.TheVariants as errors;
ghost use Rattle.wire_base.specs.declared.error.EncodeError.TheVariants.{OutOfMemory};
ghost use Rattle.wire_base.specs.Limits.{NoCountGrew};
ghost use Rattle.wire_base.specs.TagView.{tag_number, tag_type};
ghost use Rattle.wire_codec.specs.Folds.{Step, IsSingle};
ghost use Rattle.wire_codec.specs.Taking.{TakesRecord, IsCharged, NotTaken};
ghost use Rattle.wire_codec.specs.Records.{Records, text, text_size};
ghost use Rattle.wire_codec.specs.Sizes.{cut, cut_sizes, sizes};
ghost use Rattle.wire_codec.specs.TakingLaws.{OneReading};
ghost use Rattle.wire_codec.specs.Tape.{NextAre, recorded, advanced};
ghost use Rattle.wire_codec.specs.Writes.{Writes};

use crate::decode_options::default_context;
use crate::message::Message;
use crate::size::MAX_MESSAGE_BYTES;
use crate::size_cache::SizeCache;
use bytes::Buf;
use std::alloc::Global;
use wire_base::{DecodeContext, DecodeError, EncodeError, EncodeSink, Tag};

/// The five calls of a message type that know its fields. A type that has them is a `Message`, with
/// all its other calls; a type that is to have one of those in a way of its own implements
/// `Message` in the place of this trait.
///
/// The calls and what contracts see of a value are those of `Message`, where they are described.
/// Import one of both traits into a module: with both, each call is named by its trait.
pub trait MessageFields: Clone + PartialEq + Drop {
    ghost Value: { Type 0 };

    ghost view: { Self → Value };

    ghost records: { Value → Records };

    ghost default: { Value };

    ghost takes: { Step Value };

    fn default_value(alloc: Global) -> Self
        ensures { view result ≡ default };

    fn compute_size(&self, cache: &mut SizeCache) -> Result<u32, EncodeError>
        ensures size { IfOk result (λ answer. answer ≡ cut (text_size (records (view self.now)))) }
        ensures sizes { OnOk result (cache.new
            ≡ recorded cache.old (cut_sizes (records (view self.now)))) }
        ensures err { IfErr result (λ e. e ≡ OutOfMemory) };

    fn write_to<S: EncodeSink>(
        &self,
        cache: &mut SizeCache,
        sink: &mut S,
    ) -> Result<(), EncodeError>
        requires sizes { NextAre (sizes (records (view self.now))) cache.old }
        requires size { text_size (records (view self.now)) ≤ 2147483647 }
        ensures written { Writes (text (records (view self.now)))
            (S.held sink.old) (S.held sink.new) result }
        ensures read { OnOk result (cache.new
            ≡ advanced cache.old (length (sizes (records (view self.now))))) };

    fn merge_field<B: Buf>(
        &mut self,
        alloc: Global,
        tag: Tag,
        buf: &mut B,
        context: &mut DecodeContext,
    ) -> Result<(), DecodeError>
        ensures ok { OnOk result (IsCharged context.old context.new (λ c.
            TakesRecord takes context.old (tag_number tag) (tag_type tag) (view self.old)
            (B.unread buf.old) c (view self.new) (B.unread buf.new))) }
        ensures err { IfErr result (λ e. e ≢ errors.OutOfMemory → NotTaken
            (TakesRecord takes context.old (tag_number tag) (tag_type tag) (view self.old)
            (B.unread buf.old))) }
        ensures counts { OnErr result (NoCountGrew context.old context.new) }
        ensures kept { B.kept buf.new ≡ B.kept buf.old };

    fn clear(&mut self)
        ensures { view self.new ≡ default };

    ghost single: { OneReading → IsSingle takes };
}

impl<T: MessageFields> Message for T {
    ghost Value = { T.Value };

    ghost view = { T.view };

    ghost records = { T.records };

    ghost default = { T.default };

    ghost takes = { T.takes };

    ghost single = { T.single };

    #[inline(always)]
    fn default_value(alloc: Global) -> T {
        <T as MessageFields>::default_value(alloc)
    }

    #[inline(always)]
    fn compute_size(&self, cache: &mut SizeCache) -> Result<u32, EncodeError> {
        <T as MessageFields>::compute_size(self, cache)
    }

    #[inline(always)]
    fn write_to<S: EncodeSink>(
        &self,
        cache: &mut SizeCache,
        sink: &mut S,
    ) -> Result<(), EncodeError> {
        <T as MessageFields>::write_to(self, cache, sink)
    }

    #[inline(always)]
    fn merge_field<B: Buf>(
        &mut self,
        alloc: Global,
        tag: Tag,
        buf: &mut B,
        context: &mut DecodeContext,
    ) -> Result<(), DecodeError> {
        <T as MessageFields>::merge_field(self, alloc, tag, buf, context)
    }

    #[inline(always)]
    fn clear(&mut self) {
        <T as MessageFields>::clear(self);
    }

    // The three that give a value stand here since a provided call is never compiled in place, and
    // a message would be moved once more for each call that it is answered through.

    #[inline(always)]
    fn decode_length_delimited<B: Buf>(alloc: Global, buf: &mut B) -> Result<T, DecodeError> {
        let mut message = <T as MessageFields>::default_value(alloc);
        let max = MAX_MESSAGE_BYTES as usize;
        message.merge_delimited(alloc, buf, &mut default_context(), max)?;
        Ok(message)
    }

    #[inline(always)]
    fn decode<B: Buf>(alloc: Global, buf: &mut B) -> Result<T, DecodeError> {
        let mut message = <T as MessageFields>::default_value(alloc);
        message.merge(alloc, buf, &mut default_context())?;
        Ok(message)
    }

    #[inline(always)]
    fn decode_from_slice(alloc: Global, bytes: &[u8]) -> Result<T, DecodeError> {
        let mut buf = bytes;
        let mut message = <T as MessageFields>::default_value(alloc);
        message.merge(alloc, &mut buf, &mut default_context())?;
        Ok(message)
    }
}
