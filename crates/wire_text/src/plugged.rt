//! Decoding into types that a user plugged in.
ghost use Rattle.std.specs.Prelude.{◌≡◌, ◌⊎◌, ℕ, List, Ok, Err, IfOk, IfErr};
ghost use Rattle.wire_base.specs.declared.error.DecodeError.TheVariants.{OutOfMemory};
ghost use Rattle.wire_text.specs.FromWire.{Answer, TakesValue, ValueRefusal};
ghost use Rattle.wire_text.specs.WirePayload.{payload_bytes};

use crate::proto_bytes::ProtoBytes;
use crate::proto_string::ProtoString;
use crate::wire_payload::WirePayload;
use bytes::{Buf, Bytes};
use std::alloc::Global;
use wire_base::{DecodeError, decode_length, take_bytes};

/// What plugged strings and plugged bytes have in common: a value made of a payload.
pub(crate) trait FromWire {
    ghost bytes: { Self → List ℕ };

    ghost answers: { List ℕ → Answer → Type 0 };

    fn from_wire(alloc: Global, payload: WirePayload<'_>) -> Result<Self, DecodeError>
        ensures ok { IfOk result (λ value.
            answers (payload_bytes payload.entry) (Ok (bytes value))) }
        ensures err { IfErr result (λ e. (e ≡ OutOfMemory)
            ⊎ answers (payload_bytes payload.entry) (Err e)) };
}

pub(crate) struct PluggedString<P>(pub P);

impl<P: ProtoString> FromWire for PluggedString<P> {
    ghost bytes = { λ plugged. P.text plugged.0 };

    ghost answers = { P.answers };

    fn from_wire(alloc: Global, payload: WirePayload<'_>) -> Result<Self, DecodeError> {
        Ok(PluggedString(P::from_wire(alloc, payload)?))
    }
}

pub(crate) struct PluggedBytes<P>(pub P);

impl<P: ProtoBytes> FromWire for PluggedBytes<P> {
    ghost bytes = { λ plugged. P.bytes plugged.0 };

    ghost answers = { P.answers };

    fn from_wire(alloc: Global, payload: WirePayload<'_>) -> Result<Self, DecodeError> {
        Ok(PluggedBytes(P::from_wire(alloc, payload)?))
    }
}

/// What a type makes of a length-delimited payload. One that lies in one chunk is lent to it, and
/// taken from the buffer only where the type takes it; any other is copied and handed over.
pub(crate) fn decode_plugged<T: FromWire, B: Buf>(
    alloc: Global,
    buf: &mut B,
) -> Result<T, DecodeError>
    ensures ok { IfOk result (λ value. TakesValue T.answers (T.bytes value)
        (B.unread buf.old) (B.unread buf.new)) }
    ensures fault { IfErr result (ValueRefusal T.answers (B.unread buf.old) (B.unread buf.new)) }
    ensures kept { B.kept buf.new ≡ B.kept buf.old }
{
    let len = decode_length(buf, None)?;
    let chunk = buf.chunk();
    if chunk.len() < len {
        let payload = take_bytes(alloc, buf, len)?;
        return T::from_wire(alloc, WirePayload::owned(Bytes::from_vec(payload)?));
    }
    let value = T::from_wire(alloc, WirePayload::borrowed(&chunk[..len]))?;
    buf.advance(len);
    Ok(value)
}
