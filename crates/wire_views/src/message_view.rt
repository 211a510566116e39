//! Views of messages, and the calls that read one.
ghost use Rattle.std.specs.Prelude.{◌≡◌, ◌≢◌, ◌<◌, Some, OnOk, OnErr, IfOk, IfErr, IsErrAnd};
ghost use Rattle.wire_codec.specs.DecodeError.TheVariants as errors;
ghost use Rattle.wire_codec.specs.Delimited.{DelimitedFault};
ghost use Rattle.wire_codec.specs.Ending.{by_limit};
ghost use Rattle.wire_codec.specs.Folds.{Step, IsSingle};
ghost use Rattle.wire_codec.specs.Limits.{Charge, NoCountGrew};
ghost use Rattle.wire_codec.specs.Nested.{TakesDelimited, TakesEmbedded, TakesGroup};
ghost use Rattle.wire_codec.specs.Options.{default_limits};
ghost use Rattle.wire_codec.specs.Records.{Records};
ghost use Rattle.wire_codec.specs.TagView.{tag_number, tag_type};
ghost use Rattle.wire_codec.specs.Taking.{TakesRecord, TakesList, TakesAll, Decodes};
ghost use Rattle.wire_codec.specs.Taking.{IsCharged, NotTaken, NotDecoded};
ghost use Rattle.wire_codec.specs.TakingLaws.{OneReading};

use bytes::Buf;
use std::alloc::Global;
use wire_codec::{
    DEFAULT_ELEMENT_MEMORY_LIMIT, DEFAULT_UNKNOWN_FIELD_LIMIT, DecodeContext, DecodeError,
    MAX_MESSAGE_BYTES, RECURSION_LIMIT, Tag, decode_length, laws,
};

/// A view of a message: its strings, its bytes and its unknown fields stay where they were read.
///
/// `records`, `default` and `takes` are those of the message. So a view is read exactly where the
/// message is, within the same limits and at the same charge, and both are the same value.
pub trait MessageView: Drop {
    /// What is read.
    type Source: Buf + Drop;

    /// The message, with memory of its own.
    type Owned: Drop;

    /// What contracts see of the view and of the message.
    ghost Value: { Type 0 };

    ghost view: { Self → Value };

    ghost owned: { Self.Owned → Value };

    /// The records of a value, in the order in which its message writes them.
    ghost records: { Value → Records };

    ghost default: { Value };

    /// What a value makes of a record: what is charged for it, and the value that it becomes.
    ghost takes: { Step Value };

    /// The value of no records.
    fn default_view(alloc: Global) -> Self
        ensures { view result ≡ default };

    /// Reads the payload behind this tag and takes the record into the value, as
    /// `Message::merge_field`. A refusal leaves open what the value holds, the place of the buffer
    /// and the depth of the context, and may have used up counts of it.
    fn merge_field(
        &mut self,
        alloc: Global,
        tag: Tag,
        buf: &mut Self::Source,
        context: &mut DecodeContext,
    ) -> Result<(), DecodeError>
        ensures ok { OnOk result (IsCharged context.old context.new (λ c.
            TakesRecord takes context.old (tag_number tag) (tag_type tag) (view self.old)
            (Self.Source.unread buf.old) c (view self.new) (Self.Source.unread buf.new))) }
        ensures err { IfErr result (λ e. e ≢ errors.OutOfMemory → NotTaken
            (TakesRecord takes context.old (tag_number tag) (tag_type tag) (view self.old)
            (Self.Source.unread buf.old))) }
        ensures counts { OnErr result (NoCountGrew context.old context.new) }
        ensures kept { Self.Source.kept buf.new ≡ Self.Source.kept buf.old };

    /// The message of the same value. Refused where memory runs out.
    fn own(&self, alloc: Global) -> Result<Self::Owned, DecodeError>
        ensures ok { IfOk result (λ message. owned message ≡ view self.now) }
        ensures err { IfErr result (λ e. e ≡ errors.OutOfMemory) };

    /// The view of the records of all that is read, within the limits of the context. Refused as
    /// `Message::merge`.
    final fn decode_view(
        alloc: Global,
        source: Self::Source,
        context: &mut DecodeContext,
    ) -> Result<Self, DecodeError>
        ensures ok { IfOk result (λ message. IsCharged context.old context.new (λ c. TakesAll takes
            context.old default (Self.Source.unread source) c (view message))) }
        ensures err { IfErr result (λ e. e ≢ errors.OutOfMemory
            → NotDecoded takes context.old default (Self.Source.unread source)) }
        ensures counts { OnErr result (NoCountGrew context.old context.new) }
    {
        let mut buf = source;
        let mut message = Self::default_view(alloc);
        message.merge_to_limit(alloc, &mut buf, context, 0)?;
        Ok(message)
    }

    /// The view of the records of all that is read, within the limits of `Message::decode`: 100
    /// levels, 1,000,000 unknown fields and 33,554,432 bytes for elements.
    final fn decode_view_by_default(
        alloc: Global,
        source: Self::Source,
    ) -> Result<Self, DecodeError>
        ensures ok { IfOk result (λ message. Decodes takes default_limits default
            (Self.Source.unread source) (view message)) }
        ensures err { IfErr result (λ e. e ≢ errors.OutOfMemory
            → NotDecoded takes default_limits default (Self.Source.unread source)) }
    {
        let context = DecodeContext::new(RECURSION_LIMIT, DEFAULT_UNKNOWN_FIELD_LIMIT);
        let mut context = context.with_element_memory(DEFAULT_ELEMENT_MEMORY_LIMIT);
        Self::decode_view(alloc, source, &mut context)
    }

    /// The view of a length-delimited payload of at most 2,147,483,647 bytes, which stands at the
    /// front of what is read, within the limits of the context. Refused as `merge_delimited`.
    final fn decode_view_length_delimited(
        alloc: Global,
        buf: &mut Self::Source,
        context: &mut DecodeContext,
    ) -> Result<Self, DecodeError>
        ensures ok { IfOk result (λ message. IsCharged context.old context.new (λ c.
            TakesDelimited takes context.old 2147483647 default (Self.Source.unread buf.old) c
            (view message) (Self.Source.unread buf.new))) }
        ensures fault { (e : DecodeError)
            → DelimitedFault (Some 2147483647) (Self.Source.unread buf.old) e
            → IsErrAnd result (λ f. f ≡ e) }
        ensures err { IfErr result (λ e. e ≢ errors.OutOfMemory → NotTaken
            (TakesDelimited takes context.old 2147483647 default (Self.Source.unread buf.old))) }
        ensures counts { OnErr result (NoCountGrew context.old context.new) }
        ensures kept { Self.Source.kept buf.new ≡ Self.Source.kept buf.old }
    {
        let mut message = Self::default_view(alloc);
        message.merge_delimited(alloc, buf, context, MAX_MESSAGE_BYTES as usize)?;
        Ok(message)
    }

    /// The same within the limits of `decode_view_by_default`, as `decode_length_delimited` of the
    /// message.
    final fn decode_view_length_delimited_by_default(
        alloc: Global,
        buf: &mut Self::Source,
    ) -> Result<Self, DecodeError>
        ensures ok { IfOk result (λ message. (c : Charge) × TakesDelimited takes default_limits
            2147483647 default (Self.Source.unread buf.old) c (view message)
            (Self.Source.unread buf.new)) }
        ensures fault { (e : DecodeError)
            → DelimitedFault (Some 2147483647) (Self.Source.unread buf.old) e
            → IsErrAnd result (λ f. f ≡ e) }
        ensures err { IfErr result (λ e. e ≢ errors.OutOfMemory → NotTaken
            (TakesDelimited takes default_limits 2147483647 default
            (Self.Source.unread buf.old))) }
        ensures kept { Self.Source.kept buf.new ≡ Self.Source.kept buf.old }
    {
        let context = DecodeContext::new(RECURSION_LIMIT, DEFAULT_UNKNOWN_FIELD_LIMIT);
        let mut context = context.with_element_memory(DEFAULT_ELEMENT_MEMORY_LIMIT);
        Self::decode_view_length_delimited(alloc, buf, &mut context)
    }

    /// Takes whole records into the value while more than `limit` bytes remain, as
    /// `Message::merge_to_limit`. The last of them may run past that place.
    final fn merge_to_limit(
        &mut self,
        alloc: Global,
        buf: &mut Self::Source,
        context: &mut DecodeContext,
        limit: usize,
    ) -> Result<(), DecodeError>
        ensures ok { OnOk result (IsCharged context.old context.new (λ c.
            TakesList takes context.old (by_limit limit) (view self.old)
            (Self.Source.unread buf.old) c (view self.new) (Self.Source.unread buf.new))) }
        ensures err { IfErr result (λ e. e ≢ errors.OutOfMemory → NotTaken
            (TakesList takes context.old (by_limit limit) (view self.old)
            (Self.Source.unread buf.old))) }
        ensures counts { OnErr result (NoCountGrew context.old context.new) }
        ensures kept { Self.Source.kept buf.new ≡ Self.Source.kept buf.old }
    {
        laws::records_in_order();
        while buf.remaining() > limit {
            let tag = Tag::decode(buf)?;
            self.merge_field(alloc, tag, buf, context)?;
        }
        Ok(())
    }

    /// Takes the records of a length-delimited payload of at most `max` bytes into the value, at
    /// the context's own level. Refused as `Message::merge_delimited`.
    final fn merge_delimited(
        &mut self,
        alloc: Global,
        buf: &mut Self::Source,
        context: &mut DecodeContext,
        max: usize,
    ) -> Result<(), DecodeError>
        ensures ok { OnOk result (IsCharged context.old context.new (λ c.
            TakesDelimited takes context.old max (view self.old) (Self.Source.unread buf.old)
            c (view self.new) (Self.Source.unread buf.new))) }
        ensures fault { (e : DecodeError) → DelimitedFault (Some max) (Self.Source.unread buf.old) e
            → IsErrAnd result (λ f. f ≡ e) }
        ensures err { IfErr result (λ e. e ≢ errors.OutOfMemory → NotTaken
            (TakesDelimited takes context.old max (view self.old)
            (Self.Source.unread buf.old))) }
        ensures counts { OnErr result (NoCountGrew context.old context.new) }
        ensures kept { Self.Source.kept buf.new ≡ Self.Source.kept buf.old }
    {
        laws::records_in_order();
        laws::delimited_is_read();
        let len = decode_length(buf, Some(max))?;
        let rest = buf.remaining() - len;
        self.merge_to_limit(alloc, buf, context, rest)?;
        if buf.remaining() < rest {
            return Err(DecodeError::UnexpectedEof);
        }
        Ok(())
    }

    /// Takes the records of an embedded message, a length and a payload of at most 2,147,483,647
    /// bytes, into the value, one level down. Refused as `Message::merge_length_delimited`.
    final fn merge_length_delimited(
        &mut self,
        alloc: Global,
        buf: &mut Self::Source,
        context: &mut DecodeContext,
    ) -> Result<(), DecodeError>
        ensures ok { OnOk result (IsCharged context.old context.new (λ c.
            TakesEmbedded takes context.old (view self.old) (Self.Source.unread buf.old)
            c (view self.new) (Self.Source.unread buf.new))) }
        ensures no_level { context.old.depth ≡ 0
            → IsErrAnd result (λ e. e ≡ errors.RecursionLimitExceeded) }
        ensures fault { 0 < context.old.depth → (e : DecodeError)
            → DelimitedFault (Some 2147483647) (Self.Source.unread buf.old) e
            → IsErrAnd result (λ f. f ≡ e) }
        ensures err { IfErr result (λ e. e ≢ errors.OutOfMemory → NotTaken
            (TakesEmbedded takes context.old (view self.old) (Self.Source.unread buf.old))) }
        ensures counts { OnErr result (NoCountGrew context.old context.new) }
        ensures kept { Self.Source.kept buf.new ≡ Self.Source.kept buf.old }
    {
        laws::levels_and_counts();
        context.descend()?;
        self.merge_delimited(alloc, buf, context, MAX_MESSAGE_BYTES as usize)?;
        context.ascend();
        Ok(())
    }

    /// Takes the records of a group of this number into the value, up to its end tag, one level
    /// down. Refused as `Message::merge_group`.
    final fn merge_group(
        &mut self,
        alloc: Global,
        buf: &mut Self::Source,
        context: &mut DecodeContext,
        number: u32,
    ) -> Result<(), DecodeError>
        ensures ok { OnOk result (IsCharged context.old context.new (λ c.
            TakesGroup takes context.old number (view self.old) (Self.Source.unread buf.old)
            c (view self.new) (Self.Source.unread buf.new))) }
        ensures no_level { context.old.depth ≡ 0
            → IsErrAnd result (λ e. e ≡ errors.RecursionLimitExceeded) }
        ensures err { IfErr result (λ e. e ≢ errors.OutOfMemory → NotTaken
            (TakesGroup takes context.old number (view self.old) (Self.Source.unread buf.old))) }
        ensures counts { OnErr result (NoCountGrew context.old context.new) }
        ensures kept { Self.Source.kept buf.new ≡ Self.Source.kept buf.old }
    {
        laws::records_in_order();
        laws::levels_and_counts();
        context.descend()?;
        while let Some(tag) = Tag::decode_in_group(buf, number)? {
            self.merge_field(alloc, tag, buf, context)?;
        }
        context.ascend();
        Ok(())
    }

    /// A record has one charge, and one outcome for each value, since bytes are read in one way.
    ghost single: { OneReading → IsSingle takes };
}
