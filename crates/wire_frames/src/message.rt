//! Messages off a stream of frames.
ghost use Rattle.std.specs.Prelude.{◌≡◌, OnErr, IfOk, IfErr, IfSome, IfNone};
ghost use Rattle.wire_frames.specs.Frames.{IsUnfinished};
ghost use Rattle.wire_frames.specs.Messages.{IsMessage, MessageFault, MessageRefusal, ReadsMessage};
ghost use Rattle.wire_frames.specs.Stream.{unread};

use crate::decoder::FrameDecoder;
use crate::error::FrameError;
use crate::frame::Frame;
use std::alloc::Global;
use thiserror::Error;
use wire_codec::{DecodeError, DecodeOptions, Message};

/// Why no message is taken off a stream.
#[derive(Clone, Debug, PartialEq, Eq, Drop, Error)]
pub enum MessageError {
    /// No frame is taken off, and the decoder stays as it was.
    #[error("{0}")]
    Frame(FrameError),

    /// The payload is compressed. The frame is taken off.
    #[error("payload of a frame is compressed")]
    Compressed,

    /// The payload is no message of the type within the limits, or there is no memory for it. The
    /// frame is taken off.
    #[error("{0}")]
    Decode(DecodeError),
}

impl From<FrameError> for MessageError {
    ghost use Rattle.wire_frames.specs.declared.message.MessageError.TheVariants as errors;

    ghost from_gives = { λ why e. e ≡ errors.Frame why };

    fn from(error: FrameError) -> MessageError {
        MessageError::Frame(error)
    }
}

impl Frame {
    /// The message that all of the payload spells, under these limits. Refused as
    /// `DecodeOptions::decode_from_slice`, and where the payload is compressed.
    pub fn message<M: Message>(
        &self,
        alloc: Global,
        options: &DecodeOptions,
    ) -> Result<M, MessageError>
        ensures ok { IfOk result (λ message.
            IsMessage M.takes options.now M.default self.now (M.view message)) }
        ensures err { IfErr result (MessageFault M.takes options.now M.default self.now) }
    {
        if self.compressed {
            return Err(MessageError::Compressed);
        }
        match options.decode_from_slice(alloc, self.payload.as_slice()) {
            Ok(message) => Ok(message),
            Err(error) => Err(MessageError::Decode(error)),
        }
    }
}

impl FrameDecoder {
    /// The message of the next frame, under these limits, or none where the bytes that were fed end
    /// before it does. Where a frame is no message the frame is gone, and the next call goes on
    /// behind it.
    pub fn next_message<M: Message>(
        &mut self,
        alloc: Global,
        options: &DecodeOptions,
    ) -> Result<Option<M>, MessageError>
        ensures message { IfOk result (λ next. IfSome next (λ message.
            ReadsMessage M.takes options.now M.default self.old self.new (M.view message))) }
        ensures none { IfOk result (λ next. IfNone next
            (IsUnfinished self.old.framing self.old.limit (unread self.old))) }
        ensures unmoved { IfOk result (λ next. IfNone next (self.new ≡ self.old)) }
        ensures refused { IfErr result
            (MessageRefusal M.takes options.now M.default self.old self.new) }
    {
        match self.next()? {
            Some(frame) => Ok(Some(frame.message(alloc, options)?)),
            None => Ok(None),
        }
    }
}
