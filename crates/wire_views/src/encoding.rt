//! The two encodings of a message inside another, as views read them.
ghost use Rattle.std.specs.Prelude.{◌≡◌, ◌≢◌, ◌≤◌, length, OnOk, OnErr, IfOk, IfErr};
ghost use Rattle.wire_codec.specs.DecodeError.TheVariants as errors;
ghost use Rattle.wire_codec.specs.EncodeError.TheVariants.{OutOfMemory};
ghost use Rattle.wire_codec.specs.FieldNumber.{IsFieldNumber};
ghost use Rattle.wire_codec.specs.Limits.{NoCountGrew};
ghost use Rattle.wire_codec.specs.Records.{text, text_size};
ghost use Rattle.wire_codec.specs.Sizes.{sizes};
ghost use Rattle.wire_codec.specs.TagView.{tag_number, tag_type};
ghost use Rattle.wire_codec.specs.Taking.{TakesRecord, IsCharged, NotTaken};
ghost use Rattle.wire_codec.specs.Tape.{NextAre, advanced};
ghost use Rattle.wire_codec.specs.Writes.{Writes};
ghost use Rattle.wire_fields.specs.Measuring.{Measures};
ghost use Rattle.wire_fields.specs.Messages.{Encoding, inside, message_record};

use crate::message_view::MessageView;
use crate::text::delimited_len;
use crate::written_view::WrittenView;
use std::alloc::Global;
use wire_codec::{
    DecodeContext, DecodeError, EncodeError, EncodeSink, SizeCache, Tag, WireType, check_wire_type,
    laws, put_group_end, put_group_start, put_len_delimited_header, varint_len,
};
use wire_fields::{Delimited, LengthPrefixed};

/// How a message stands in a record of another, `LengthPrefixed` or `Delimited`, and how a view of
/// it is read and written there.
pub trait ViewEncoding {
    ghost encoding: { Encoding };

    /// How many bytes the record of the message takes, as `MessageEncoding::len`. Refused where
    /// memory runs out.
    fn len<M: WrittenView>(
        number: u32,
        message: &M,
        cache: &mut SizeCache,
    ) -> Result<u64, EncodeError>
        requires { IsFieldNumber number }
        ensures ok { IfOk result (λ len. Measures
            (message_record encoding number (M.records (M.view message.now)))
            cache.old cache.new len) }
        ensures err { IfErr result (λ e. e ≡ OutOfMemory) };

    /// Writes the record of the message, with the sizes that the cache has next, as
    /// `MessageEncoding::put`. Refused where the sink refuses a put.
    fn put<M: WrittenView, S: EncodeSink>(
        number: u32,
        message: &M,
        cache: &mut SizeCache,
        sink: &mut S,
    ) -> Result<(), EncodeError>
        requires number { IsFieldNumber number }
        requires sizes { NextAre
            (sizes (message_record encoding number (M.records (M.view message.now)))) cache.old }
        requires size { text_size (message_record encoding number (M.records (M.view message.now)))
            ≤ 2147483647 }
        ensures written { Writes (text (message_record encoding number (M.records (M.view message.now))))
            (S.held sink.old) (S.held sink.new) result }
        ensures read { OnOk result (cache.new ≡ advanced cache.old (length
            (sizes (message_record encoding number (M.records (M.view message.now)))))) };

    /// Reads the payload behind this tag and takes its records into the view, one level down, as
    /// `MessageEncoding::merge`. Refused with `WireTypeMismatch`, `RecursionLimitExceeded`, and as
    /// the records are.
    fn merge<M: MessageView>(
        alloc: Global,
        tag: Tag,
        message: &mut M,
        buf: &mut M::Source,
        context: &mut DecodeContext,
    ) -> Result<(), DecodeError>
        ensures ok { OnOk result (IsCharged context.old context.new (λ c.
            TakesRecord (inside encoding M.takes) context.old (tag_number tag) (tag_type tag)
            (M.view message.old) (M.Source.unread buf.old) c (M.view message.new)
            (M.Source.unread buf.new))) }
        ensures err { IfErr result (λ e. e ≢ errors.OutOfMemory → NotTaken
            (TakesRecord (inside encoding M.takes) context.old (tag_number tag) (tag_type tag)
            (M.view message.old) (M.Source.unread buf.old))) }
        ensures counts { OnErr result (NoCountGrew context.old context.new) }
        ensures kept { M.Source.kept buf.new ≡ M.Source.kept buf.old };
}

impl ViewEncoding for LengthPrefixed {
    ghost use Rattle.wire_fields.specs.Messages.{length_prefixed};

    ghost encoding = { length_prefixed };

    // The message's slot stands before those of the messages in it.
    fn len<M: WrittenView>(
        number: u32,
        message: &M,
        cache: &mut SizeCache,
    ) -> Result<u64, EncodeError> {
        let slot = cache.reserve()?;
        let len = message.compute_size(cache)?;
        cache.set(slot, len);
        Ok(delimited_len(number, u64::from(len)))
    }

    fn put<M: WrittenView, S: EncodeSink>(
        number: u32,
        message: &M,
        cache: &mut SizeCache,
        sink: &mut S,
    ) -> Result<(), EncodeError> {
        laws::piece_by_piece();
        let len = cache.consume_next();
        put_len_delimited_header(number, u64::from(len), sink)?;
        message.write_to(cache, sink)
    }

    fn merge<M: MessageView>(
        alloc: Global,
        tag: Tag,
        message: &mut M,
        buf: &mut M::Source,
        context: &mut DecodeContext,
    ) -> Result<(), DecodeError> {
        laws::grammar::whole_input();
        laws::levels_and_counts();
        check_wire_type(tag, WireType::LengthDelimited)?;
        message.merge_length_delimited(alloc, buf, context)
    }
}

impl ViewEncoding for Delimited {
    ghost use Rattle.wire_fields.specs.Messages.{delimited};

    ghost encoding = { delimited };

    fn len<M: WrittenView>(
        number: u32,
        message: &M,
        cache: &mut SizeCache,
    ) -> Result<u64, EncodeError> {
        let len = message.compute_size(cache)?;
        let start = varint_len(u64::from(number) * 8 + 3) as u64;
        let end = varint_len(u64::from(number) * 8 + 4) as u64;
        Ok(u64::from(len).saturating_add(start).saturating_add(end))
    }

    fn put<M: WrittenView, S: EncodeSink>(
        number: u32,
        message: &M,
        cache: &mut SizeCache,
        sink: &mut S,
    ) -> Result<(), EncodeError> {
        laws::piece_by_piece();
        put_group_start(number, sink)?;
        message.write_to(cache, sink)?;
        put_group_end(number, sink)
    }

    fn merge<M: MessageView>(
        alloc: Global,
        tag: Tag,
        message: &mut M,
        buf: &mut M::Source,
        context: &mut DecodeContext,
    ) -> Result<(), DecodeError> {
        laws::grammar::group_is_list();
        laws::levels_and_counts();
        check_wire_type(tag, WireType::StartGroup)?;
        message.merge_group(alloc, buf, context, tag.field_number())
    }
}
