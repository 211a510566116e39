//! Types that a string field may have, and decoding into them.
ghost use Rattle.std.specs.Prelude.{◌≡◌, ◌≤◌, ◌⊎◌, ℕ, List, [], Ok, Err, length, take, drop, OnErr, OnSome, IfSome, IfNone, string_bytes, IfOk, IfErr};
ghost use Rattle.wire_base.specs.declared.error.DecodeError.TheVariants.{OutOfMemory};
ghost use Rattle.wire_text.specs.FromWire.{Answer, IsByBytes, TakesValue, ValueRefusal, answers_text};
ghost use Rattle.wire_text.specs.FromWireLaws.{answers_text_by_bytes};
ghost use Rattle.wire_text.specs.WirePayload.{payload_bytes};

use crate::payload::into_text;
use crate::plugged::{PluggedString, decode_plugged};
use crate::wire_payload::WirePayload;
use bytes::Buf;
use std::alloc::Global;
use std::fmt::Debug;
use wire_base::DecodeError;

/// A text, made of a string field's payload. See "Length-Delimited Records" of the encoding
/// document.
pub trait ProtoString: Clone + PartialEq + Debug + Drop {
    /// The bytes of the text.
    ghost text: { Self → List ℕ };

    /// What the type makes of a payload: a text, or an error.
    ghost answers: { List ℕ → Answer → Type 0 };

    /// The text of a payload, or the error with which the type refuses it, or `OutOfMemory`.
    /// `String` refuses what is not UTF-8, with `InvalidUtf8`.
    fn from_wire(alloc: Global, payload: WirePayload<'_>) -> Result<Self, DecodeError>
        ensures ok { IfOk result (λ value. answers (payload_bytes payload.entry)
            (Ok (text value))) }
        ensures err { IfErr result (λ e. (e ≡ OutOfMemory) ⊎ answers (payload_bytes payload.entry)
            (Err e)) };

    /// A value of this text. It may be refused, for want of memory or by the type.
    fn from_text(alloc: Global, value: &str) -> Result<Self, DecodeError>
        ensures ok { IfOk result (λ made. text made ≡ value.now) };

    /// The text of the value.
    fn as_str(&self) -> &str
        ensures { result.now ≡ text self.now };

    /// The empty text.
    fn empty(alloc: Global) -> Self
        ensures { text result ≡ [] };

    /// An answer follows from the payload's bytes, lent or not.
    ghost by_bytes: { IsByBytes answers };
}

impl ProtoString for String {
    ghost text = { λ value. string_bytes value };

    ghost answers = { answers_text };

    ghost by_bytes = { answers_text_by_bytes };

    fn from_wire(alloc: Global, payload: WirePayload<'_>) -> Result<String, DecodeError> {
        let bytes = payload.into_vec(alloc)?;
        into_text(bytes)
    }

    fn from_text(alloc: Global, value: &str) -> Result<String, DecodeError>
        ensures ok { IfOk result (λ made. string_bytes made ≡ value.now) }
        ensures err { IfErr result (λ e. e ≡ OutOfMemory) }
    {
        Ok(String::from_str(alloc, value)?)
    }

    fn as_str(&self) -> &str {
        String::as_str(self)
    }

    fn empty(alloc: Global) -> String {
        String::new(alloc)
    }
}

/// What the type makes of a string field's payload. A payload that lies in one chunk is lent to it,
/// and taken from the buffer only where the type takes it; any other is taken, copied and handed
/// over, also where the type then refuses it. Refused as `decode_bytes`, or with the type's own
/// error.
pub fn decode_string_to<P: ProtoString, B: Buf>(
    alloc: Global,
    buf: &mut B,
) -> Result<P, DecodeError>
    ensures ok { IfOk result (λ value. TakesValue P.answers (P.text value)
        (B.unread buf.old) (B.unread buf.new)) }
    ensures fault { IfErr result (ValueRefusal P.answers (B.unread buf.old) (B.unread buf.new)) }
    ensures kept { B.kept buf.new ≡ B.kept buf.old }
{
    let PluggedString(value) = decode_plugged::<PluggedString<P>, B>(alloc, buf)?;
    Ok(value)
}
