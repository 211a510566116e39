//! Decoding under limits that the caller names.
ghost use Rattle.std.specs.Prelude.{◌≡◌, ◌≢◌, ◌<◌, ◌≤◌, [], length, Some, OnOk, IfOk, IfErr, IsErrAnd};
ghost use Rattle.wire_base.specs.declared.error.DecodeError.TheVariants.{MessageTooLarge, OutOfMemory};
ghost use Rattle.wire_base.specs.Delimited.{DelimitedFault};
ghost use Rattle.wire_base.specs.Limits.{Charge};
ghost use Rattle.wire_codec.specs.Nested.{TakesDelimited};
ghost use Rattle.wire_codec.specs.Options.{default_limits, default_options, limits_of};
ghost use Rattle.wire_codec.specs.Options.{with_recursion, with_message_size};
ghost use Rattle.wire_codec.specs.Options.{with_unknown_fields, with_element_memory};
ghost use Rattle.wire_codec.specs.Options.{with_payload_bytes};
ghost use Rattle.wire_codec.specs.Taking.{Decodes, NotTaken, NotDecoded};

use crate::message::Message;
use crate::size::MAX_MESSAGE_BYTES;
use bytes::Buf;
use std::alloc::Global;
use std::marker::Model;
use wire_base::{DEFAULT_UNKNOWN_FIELD_LIMIT, DecodeContext, DecodeError, RECURSION_LIMIT};

/// How many bytes the elements that message types charge may take in `Message::decode`, and under
/// `DecodeOptions` that name no limit.
pub const DEFAULT_ELEMENT_MEMORY_LIMIT: usize = 33_554_432;

/// Limits for decoding: levels of nesting, bytes of an input, unknown fields, bytes for the
/// elements that message types charge, and bytes of the payloads of unknown fields.
#[derive(Clone, Debug, Drop)]
pub struct DecodeOptions {
    recursion_limit: u32,
    max_message_size: usize,
    unknown_field_limit: usize,
    element_memory_limit: usize,
    unknown_byte_limit: usize,
}

impl Model for DecodeOptions {
    ghost use Rattle.std.specs.Prelude.{◌≤◌};
    ghost use Rattle.wire_codec.specs.Options.{Options};

    ghost Value = { Options };

    ghost view = { λ options. record {
      recursion_limit = options.recursion_limit;
      max_message_size = options.max_message_size;
      unknown_field_limit = options.unknown_field_limit;
      element_memory_limit = options.element_memory_limit;
      unknown_byte_limit = options.unknown_byte_limit;
    } };

    ghost invariant = { λ options. options.max_message_size ≤ 2147483647 };
}

impl DecodeOptions {
    /// 100 levels, 2,147,483,647 bytes, 1,000,000 unknown fields, 33,554,432 bytes for elements,
    /// and `usize::MAX` bytes of unknown fields.
    pub fn new() -> DecodeOptions
        ensures { result ≡ default_options }
    {
        DecodeOptions {
            recursion_limit: RECURSION_LIMIT,
            max_message_size: MAX_MESSAGE_BYTES as usize,
            unknown_field_limit: DEFAULT_UNKNOWN_FIELD_LIMIT,
            element_memory_limit: DEFAULT_ELEMENT_MEMORY_LIMIT,
            unknown_byte_limit: usize::MAX,
        }
    }

    /// How many groups and messages may stand in one another, the outermost message not counted.
    pub fn with_recursion_limit(self, limit: u32) -> DecodeOptions
        ensures { result ≡ with_recursion self limit }
    {
        DecodeOptions {
            recursion_limit: limit,
            ..self
        }
    }

    /// How many bytes an input may have. A limit above 2,147,483,647 counts as 2,147,483,647.
    pub fn with_max_message_size(self, limit: usize) -> DecodeOptions
        ensures { result ≡ with_message_size self limit }
    {
        DecodeOptions {
            max_message_size: limit.min(MAX_MESSAGE_BYTES as usize),
            ..self
        }
    }

    /// How many unknown fields may be kept.
    pub fn with_unknown_field_limit(self, limit: usize) -> DecodeOptions
        ensures { result ≡ with_unknown_fields self limit }
    {
        DecodeOptions {
            unknown_field_limit: limit,
            ..self
        }
    }

    /// How many bytes may be charged for elements.
    pub fn with_element_memory_limit(self, limit: usize) -> DecodeOptions
        ensures { result ≡ with_element_memory self limit }
    {
        DecodeOptions {
            element_memory_limit: limit,
            ..self
        }
    }

    /// How many bytes the length-delimited payloads of unknown fields may be, those in groups too.
    pub fn with_unknown_byte_limit(self, limit: usize) -> DecodeOptions
        ensures { result ≡ with_payload_bytes self limit }
    {
        DecodeOptions {
            unknown_byte_limit: limit,
            ..self
        }
    }

    /// How many groups and messages may stand in one another.
    pub fn recursion_limit(&self) -> u32
        ensures { result ≡ self.now.recursion_limit }
    {
        self.recursion_limit
    }

    /// How many bytes an input may have, which are at most 2,147,483,647.
    pub fn max_message_size(&self) -> usize
        ensures value { result ≡ self.now.max_message_size }
        ensures most { self.now.max_message_size ≤ 2147483647 }
    {
        self.max_message_size
    }

    /// How many unknown fields may be kept.
    pub fn unknown_field_limit(&self) -> usize
        ensures { result ≡ self.now.unknown_field_limit }
    {
        self.unknown_field_limit
    }

    /// How many bytes may be charged for elements.
    pub fn element_memory_limit(&self) -> usize
        ensures { result ≡ self.now.element_memory_limit }
    {
        self.element_memory_limit
    }

    /// How many bytes the payloads of unknown fields may be.
    pub fn unknown_byte_limit(&self) -> usize
        ensures { result ≡ self.now.unknown_byte_limit }
    {
        self.unknown_byte_limit
    }

    /// The value of the records of the whole buffer. An input of too many bytes is
    /// `MessageTooLarge`, before any of it is read; else refused as `Message::merge` under these
    /// limits.
    pub fn decode<M: Message, B: Buf>(&self, alloc: Global, buf: &mut B) -> Result<M, DecodeError>
        ensures within { OnOk result (length (B.unread buf.old) ≤ self.now.max_message_size) }
        ensures ok { IfOk result (λ message. Decodes M.takes (limits_of self.now) M.default
            (B.unread buf.old) (M.view message)) }
        ensures rest { OnOk result (B.unread buf.new ≡ []) }
        ensures too_large { self.now.max_message_size < length (B.unread buf.old)
            → IsErrAnd result (λ e. e ≡ MessageTooLarge) }
        ensures unchanged { self.now.max_message_size < length (B.unread buf.old)
            → B.unread buf.new ≡ B.unread buf.old }
        ensures err { length (B.unread buf.old) ≤ self.now.max_message_size
            → IfErr result (λ e. e ≢ OutOfMemory
            → NotDecoded M.takes (limits_of self.now) M.default (B.unread buf.old)) }
        ensures kept { B.kept buf.new ≡ B.kept buf.old }
    {
        let mut message = M::default_value(alloc);
        self.merge(alloc, &mut message, buf)?;
        Ok(message)
    }

    /// The value of the records of all the bytes. Refused as `decode`.
    pub fn decode_from_slice<M: Message>(
        &self,
        alloc: Global,
        bytes: &[u8],
    ) -> Result<M, DecodeError>
        ensures within { OnOk result (length bytes.now ≤ self.now.max_message_size) }
        ensures ok { IfOk result (λ message. Decodes M.takes (limits_of self.now) M.default
            bytes.now (M.view message)) }
        ensures too_large { self.now.max_message_size < length bytes.now
            → IsErrAnd result (λ e. e ≡ MessageTooLarge) }
        ensures err { length bytes.now ≤ self.now.max_message_size
            → IfErr result (λ e. e ≢ OutOfMemory
            → NotDecoded M.takes (limits_of self.now) M.default bytes.now) }
    {
        let mut buf = bytes;
        self.decode(alloc, &mut buf)
    }

    /// The value of a length-delimited payload of no more bytes than an input may have. Refused as
    /// `Message::merge_delimited` under these limits.
    pub fn decode_length_delimited<M: Message, B: Buf>(
        &self,
        alloc: Global,
        buf: &mut B,
    ) -> Result<M, DecodeError>
        ensures ok { IfOk result (λ message. (c : Charge) × TakesDelimited M.takes
            (limits_of self.now) self.now.max_message_size M.default (B.unread buf.old)
            c (M.view message) (B.unread buf.new)) }
        ensures fault { (e : DecodeError)
            → DelimitedFault (Some self.now.max_message_size) (B.unread buf.old) e
            → IsErrAnd result (λ f. f ≡ e) }
        ensures err { IfErr result (λ e. e ≢ OutOfMemory → NotTaken (TakesDelimited M.takes
            (limits_of self.now) self.now.max_message_size M.default (B.unread buf.old))) }
        ensures kept { B.kept buf.new ≡ B.kept buf.old }
    {
        let mut message = M::default_value(alloc);
        message.merge_delimited(alloc, buf, &mut self.context(), self.max_message_size())?;
        Ok(message)
    }

    /// Takes the records of the whole buffer into the value. Refused as `decode`. An input that is
    /// too long leaves the value and the buffer as they were.
    pub fn merge<M: Message, B: Buf>(
        &self,
        alloc: Global,
        message: &mut M,
        buf: &mut B,
    ) -> Result<(), DecodeError>
        ensures within { OnOk result (length (B.unread buf.old) ≤ self.now.max_message_size) }
        ensures ok { OnOk result (Decodes M.takes (limits_of self.now) (M.view message.old)
            (B.unread buf.old) (M.view message.new)) }
        ensures rest { OnOk result (B.unread buf.new ≡ []) }
        ensures too_large { self.now.max_message_size < length (B.unread buf.old)
            → IsErrAnd result (λ e. e ≡ MessageTooLarge) }
        ensures unchanged { self.now.max_message_size < length (B.unread buf.old)
            → (message.new ≡ message.old) × (B.unread buf.new ≡ B.unread buf.old) }
        ensures err { length (B.unread buf.old) ≤ self.now.max_message_size
            → IfErr result (λ e. e ≢ OutOfMemory → NotDecoded M.takes
            (limits_of self.now) (M.view message.old) (B.unread buf.old)) }
        ensures kept { B.kept buf.new ≡ B.kept buf.old }
    {
        if buf.remaining() > self.max_message_size {
            return Err(DecodeError::MessageTooLarge);
        }
        message.merge(alloc, buf, &mut self.context())
    }

    /// Takes the records of all the bytes into the value. Refused as `decode`. An input that is too
    /// long leaves the value as it was.
    pub fn merge_from_slice<M: Message>(
        &self,
        alloc: Global,
        message: &mut M,
        bytes: &[u8],
    ) -> Result<(), DecodeError>
        ensures within { OnOk result (length bytes.now ≤ self.now.max_message_size) }
        ensures ok { OnOk result (Decodes M.takes (limits_of self.now) (M.view message.old)
            bytes.now (M.view message.new)) }
        ensures too_large { self.now.max_message_size < length bytes.now
            → IsErrAnd result (λ e. e ≡ MessageTooLarge) }
        ensures unchanged { self.now.max_message_size < length bytes.now
            → message.new ≡ message.old }
        ensures err { length bytes.now ≤ self.now.max_message_size
            → IfErr result (λ e. e ≢ OutOfMemory → NotDecoded M.takes
            (limits_of self.now) (M.view message.old) bytes.now) }
    {
        let mut buf = bytes;
        self.merge(alloc, message, &mut buf)
    }

    // A context with all that the options allow.
    fn context(&self) -> DecodeContext
        ensures { result ≡ limits_of self.now }
    {
        DecodeContext::new(self.recursion_limit, self.unknown_field_limit)
            .with_element_memory(self.element_memory_limit)
            .with_unknown_bytes(self.unknown_byte_limit)
    }
}

impl Default for DecodeOptions {
    ghost is_default = { λ options. options ≡ default_options };

    fn default() -> DecodeOptions
        ensures { result ≡ default_options }
    {
        DecodeOptions::new()
    }
}

// A context with all that a caller is allowed who names no limit.
pub(crate) fn default_context() -> DecodeContext
    ensures { result ≡ default_limits }
{
    DecodeContext::new(RECURSION_LIMIT, DEFAULT_UNKNOWN_FIELD_LIMIT).with_element_memory(
        DEFAULT_ELEMENT_MEMORY_LIMIT,
    )
}
