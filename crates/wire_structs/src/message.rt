//! Messages as structs, and the calls that read one.
ghost use Rattle.std.specs.Prelude.{◌≡◌, OnOk, OnErr};
ghost use Rattle.wire_codec.specs.Ending.{by_limit};
ghost use Rattle.wire_codec.specs.Folds.{Step, IsSingle};
ghost use Rattle.wire_codec.specs.Nested.{TakesDelimited, TakesEmbedded};
ghost use Rattle.wire_codec.specs.TagView.{tag_number, tag_type};
ghost use Rattle.wire_codec.specs.Taking.{TakesRecord, TakesList, TakesAll};
ghost use Rattle.wire_codec.specs.Taking.{IsCharged, NotTaken, NotDecoded};
ghost use Rattle.wire_codec.specs.TakingLaws.{OneReading};

use bytes::Buf;
use wire_codec::{DecodeContext, DecodeError, MAX_MESSAGE_BYTES, Tag, decode_length, laws};

/// A message as a struct of fixed size without memory of its own. No call asks for memory, so each
/// refusal says that the bytes are not what is asked for.
pub trait MessageStruct: Copy {
    /// What is read.
    type Source: Buf + Drop;

    /// What contracts see of the struct.
    ghost Value: { Type 0 };

    ghost view: { Self → Value };

    ghost default: { Value };

    /// What a value makes of a record: what is charged for it, and the value that it becomes.
    ghost takes: { Step Value };

    /// Each number of the struct is 0, each flag is not set, and each slice is of no bytes.
    ghost IsZero: { Self → Type 0 };

    /// The struct of no records.
    fn zero() -> Self
        ensures value { view result ≡ default }
        ensures zero { IsZero result };

    /// Reads the payload behind this tag and takes the record into the struct. A refusal leaves
    /// open what the struct holds, the place of the buffer and what is left of the limits.
    fn merge_field(
        &mut self,
        tag: Tag,
        buf: &mut Self::Source,
        context: &mut DecodeContext,
    ) -> Result<(), DecodeError>
        ensures ok { OnOk result (IsCharged context.old context.new (λ c.
            TakesRecord takes context.old (tag_number tag) (tag_type tag) (view self.old)
            (Self.Source.unread buf.old) c (view self.new) (Self.Source.unread buf.new))) }
        ensures err { OnErr result (NotTaken
            (TakesRecord takes context.old (tag_number tag) (tag_type tag) (view self.old)
            (Self.Source.unread buf.old))) };

    /// Sets the struct to what all of the bytes are, within the limits of the context, whatever it
    /// held before; where they are no such message, to zero. Refused as `merge` of the message, but
    /// never for want of memory.
    final fn read(
        &mut self,
        source: Self::Source,
        context: &mut DecodeContext,
    ) -> Result<(), DecodeError>
        ensures ok { OnOk result (IsCharged context.old context.new (λ c.
            TakesAll takes context.old default (Self.Source.unread source) c (view self.new))) }
        ensures err { OnErr result
            (NotDecoded takes context.old default (Self.Source.unread source)) }
        ensures zero { OnErr result (IsZero self.new) }
    {
        let mut buf = source;
        *self = Self::zero();
        if let Err(error) = self.merge_to_limit(&mut buf, context, 0) {
            *self = Self::zero();
            return Err(error);
        }
        Ok(())
    }

    /// Takes whole records into the struct while more than `limit` bytes remain, as
    /// `Message::merge_to_limit`. The last of them may run past that place.
    final fn merge_to_limit(
        &mut self,
        buf: &mut Self::Source,
        context: &mut DecodeContext,
        limit: usize,
    ) -> Result<(), DecodeError>
        ensures ok { OnOk result (IsCharged context.old context.new (λ c.
            TakesList takes context.old (by_limit limit) (view self.old)
            (Self.Source.unread buf.old) c (view self.new) (Self.Source.unread buf.new))) }
        ensures err { OnErr result (NotTaken
            (TakesList takes context.old (by_limit limit) (view self.old)
            (Self.Source.unread buf.old))) }
    {
        laws::records_in_order();
        while buf.remaining() > limit {
            let tag = Tag::decode(buf)?;
            self.merge_field(tag, buf, context)?;
        }
        Ok(())
    }

    /// Takes the records of a length-delimited payload of at most `max` bytes into the struct, at
    /// the context's own level. Refused as `Message::merge_delimited`.
    final fn merge_delimited(
        &mut self,
        buf: &mut Self::Source,
        context: &mut DecodeContext,
        max: usize,
    ) -> Result<(), DecodeError>
        ensures ok { OnOk result (IsCharged context.old context.new (λ c.
            TakesDelimited takes context.old max (view self.old) (Self.Source.unread buf.old)
            c (view self.new) (Self.Source.unread buf.new))) }
        ensures err { OnErr result (NotTaken
            (TakesDelimited takes context.old max (view self.old) (Self.Source.unread buf.old))) }
    {
        laws::records_in_order();
        laws::delimited_is_read();
        let len = decode_length(buf, Some(max))?;
        let rest = buf.remaining() - len;
        self.merge_to_limit(buf, context, rest)?;
        if buf.remaining() < rest {
            return Err(DecodeError::UnexpectedEof);
        }
        Ok(())
    }

    /// Takes the records of an embedded message, a length and a payload of at most 2,147,483,647
    /// bytes, into the struct, one level down. Refused as `Message::merge_length_delimited`.
    final fn merge_length_delimited(
        &mut self,
        buf: &mut Self::Source,
        context: &mut DecodeContext,
    ) -> Result<(), DecodeError>
        ensures ok { OnOk result (IsCharged context.old context.new (λ c.
            TakesEmbedded takes context.old (view self.old) (Self.Source.unread buf.old)
            c (view self.new) (Self.Source.unread buf.new))) }
        ensures err { OnErr result (NotTaken
            (TakesEmbedded takes context.old (view self.old) (Self.Source.unread buf.old))) }
    {
        laws::levels_and_counts();
        context.descend()?;
        self.merge_delimited(buf, context, MAX_MESSAGE_BYTES as usize)?;
        context.ascend();
        Ok(())
    }

    /// A record has one charge, and one outcome for each value, since bytes are read in one way.
    ghost single: { OneReading → IsSingle takes };
}
