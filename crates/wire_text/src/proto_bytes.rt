//! Types that a bytes field may have, and decoding into them.
ghost use Rattle.std.specs.Prelude.{◌≡◌, ◌≤◌, ◌⊎◌, ℕ, List, [], Ok, Err, length, take, drop, OnErr, OnSome, IfSome, IfNone, IsOk, IfOk, IfErr};
ghost use Rattle.wire_base.specs.declared.error.DecodeError.TheVariants.{OutOfMemory};
ghost use Rattle.wire_text.specs.FromWire.{Answer, IsByBytes, TakesValue, ValueRefusal, answers_all};
ghost use Rattle.wire_text.specs.FromWireLaws.{answers_all_by_bytes};
ghost use Rattle.wire_text.specs.WirePayload.{payload_bytes};

use crate::plugged::{PluggedBytes, decode_plugged};
use crate::wire_payload::WirePayload;
use bytes::{Buf, Bytes};
use std::alloc::Global;
use std::fmt::Debug;
use wire_base::DecodeError;

/// Bytes, made of a bytes field's payload. See "Length-Delimited Records" of the encoding document.
pub trait ProtoBytes: Clone + PartialEq + Debug + Drop {
    ghost bytes: { Self → List ℕ };

    /// What the type makes of a payload: bytes, or an error.
    ghost answers: { List ℕ → Answer → Type 0 };

    /// The bytes that the type makes of a payload, or the error with which it refuses it, or
    /// `OutOfMemory`. `Vec<u8>` and `Bytes` take all bytes.
    fn from_wire(alloc: Global, payload: WirePayload<'_>) -> Result<Self, DecodeError>
        ensures ok { IfOk result (λ value. answers (payload_bytes payload.entry)
            (Ok (bytes value))) }
        ensures err { IfErr result (λ e. (e ≡ OutOfMemory) ⊎ answers (payload_bytes payload.entry)
            (Err e)) };

    /// A value of these bytes. It may be refused, for want of memory or by the type, and the vector
    /// is then given up.
    fn from_vec(alloc: Global, value: Vec<u8>) -> Result<Self, DecodeError>
        ensures ok { IfOk result (λ made. bytes made ≡ value.items) };

    /// The bytes of the value.
    fn as_slice(&self) -> &[u8]
        ensures { result.now ≡ bytes self.now };

    /// No bytes.
    fn empty(alloc: Global) -> Self
        ensures { bytes result ≡ [] };

    /// An answer follows from the payload's bytes, lent or not.
    ghost by_bytes: { IsByBytes answers };
}

impl ProtoBytes for Vec<u8> {
    ghost bytes = { λ value. value.items };

    ghost answers = { answers_all };

    ghost by_bytes = { answers_all_by_bytes };

    fn from_wire(alloc: Global, payload: WirePayload<'_>) -> Result<Vec<u8>, DecodeError> {
        payload.into_vec(alloc)
    }

    fn from_vec(_alloc: Global, value: Vec<u8>) -> Result<Vec<u8>, DecodeError>
        ensures ok { IfOk result (λ made. made.items ≡ value.items) }
        ensures taken { IsOk result }
    {
        Ok(value)
    }

    fn as_slice(&self) -> &[u8] {
        Vec::as_slice(self)
    }

    fn empty(alloc: Global) -> Vec<u8> {
        Vec::new(alloc)
    }
}

impl ProtoBytes for Bytes {
    ghost bytes = { λ value. value };

    ghost answers = { answers_all };

    ghost by_bytes = { answers_all_by_bytes };

    fn from_wire(alloc: Global, payload: WirePayload<'_>) -> Result<Bytes, DecodeError> {
        payload.into_bytes(alloc)
    }

    fn from_vec(_alloc: Global, value: Vec<u8>) -> Result<Bytes, DecodeError>
        ensures ok { IfOk result (λ made. made ≡ value.items) }
        ensures err { IfErr result (λ e. e ≡ OutOfMemory) }
    {
        Ok(Bytes::from_vec(value)?)
    }

    fn as_slice(&self) -> &[u8] {
        Bytes::as_slice(self)
    }

    fn empty(_alloc: Global) -> Bytes {
        Bytes::new()
    }
}

/// What the type makes of a bytes field's payload. A payload that lies in one chunk is lent to it,
/// and taken from the buffer only where the type takes it; any other is taken, copied and handed
/// over, also where the type then refuses it. Refused as `decode_bytes`, or with the type's own
/// error.
pub fn decode_bytes_to<P: ProtoBytes, B: Buf>(alloc: Global, buf: &mut B) -> Result<P, DecodeError>
    ensures ok { IfOk result (λ value. TakesValue P.answers (P.bytes value)
        (B.unread buf.old) (B.unread buf.new)) }
    ensures fault { IfErr result (ValueRefusal P.answers (B.unread buf.old) (B.unread buf.new)) }
    ensures kept { B.kept buf.new ≡ B.kept buf.old }
{
    let PluggedBytes(value) = decode_plugged::<PluggedBytes<P>, B>(alloc, buf)?;
    Ok(value)
}
