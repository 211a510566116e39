//! Callers of `wire_text`: a name, and a string type of one's own.
ghost use Rattle.std.specs.Prelude.{string_bytes, IfOk, IfErr};
ghost use Rattle.wire_base.specs.Read.{Reads};
ghost use Rattle.wire_text.specs.FromWire.{TakesValue};
ghost use Rattle.wire_text.specs.StringPayload.{IsString, StringRefusal};
ghost use Rattle.wire_vectors.specs.ShortText.{answers_short, answers_short_by_bytes};

use bytes::Buf;
use std::alloc::Global;
use wire_base::DecodeError;
use wire_text::{ProtoString, WirePayload, decode_string, decode_string_to};

/// The name at the front of the buffer, or why there is none.
pub fn name_of<B: Buf>(alloc: Global, buf: &mut B) -> Result<String, DecodeError>
    ensures ok { IfOk result (λ name.
        Reads (B.unread buf.old) (IsString (string_bytes name)) (B.unread buf.new)) }
    ensures fault { IfErr result (StringRefusal (B.unread buf.old)) }
{
    decode_string(alloc, buf)
}

/// A text that has at most 64 bytes where it is read.
#[derive(Clone, Debug, Drop, PartialEq)]
pub struct ShortText {
    pub text: String,
}

impl ProtoString for ShortText {
    ghost text = { λ value. string_bytes value.text };

    ghost answers = { answers_short };

    ghost by_bytes = { answers_short_by_bytes };

    fn from_wire(alloc: Global, payload: WirePayload<'_>) -> Result<ShortText, DecodeError> {
        if payload.as_slice().len() > 64 {
            return Err(DecodeError::MessageTooLarge);
        }
        let text = String::from_wire(alloc, payload)?;
        Ok(ShortText { text })
    }

    fn from_text(alloc: Global, value: &str) -> Result<ShortText, DecodeError> {
        let text = String::from_text(alloc, value)?;
        Ok(ShortText { text })
    }

    fn as_str(&self) -> &str {
        self.text.as_str()
    }

    fn empty(alloc: Global) -> ShortText {
        ShortText {
            text: String::new(alloc),
        }
    }
}

/// The short text at the front of the buffer.
pub fn short_text_of<B: Buf>(alloc: Global, buf: &mut B) -> Result<ShortText, DecodeError>
    ensures ok { IfOk result (λ short. TakesValue answers_short (string_bytes short.text)
        (B.unread buf.old) (B.unread buf.new)) }
{
    decode_string_to(alloc, buf)
}
