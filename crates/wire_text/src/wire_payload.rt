//! What a decoder hands to a type that a user plugged in.
ghost use Rattle.std.specs.Prelude.{◌≡◌, ◌==◌, Bool, true, false, length, IsUtf8, OnOk, OnErr, IfOk, IfErr, IsOk};
ghost use Rattle.wire_base.specs.declared.error.DecodeError.TheVariants.{InvalidUtf8, OutOfMemory};

use crate::payload::from_utf8;
use bytes::Bytes;
use std::alloc::{AllocError, Global};
use wire_base::DecodeError;

/// The bytes of a payload: lent where they lie together in the input, else a run of their own. See
/// "Length-Delimited Records" of the encoding document.
#[derive(Drop)]
pub struct WirePayload<'a> {
    source: Source<'a>,
}

#[derive(Drop)]
enum Source<'a> {
    Borrowed(&'a [u8]),
    Owned(Bytes),
}

impl<'a> Clone for WirePayload<'a> {
    ghost use Rattle.wire_text.specs.WirePayload.{IsSamePayload};

    ghost is_clone = { IsSamePayload };

    fn clone(&self) -> Result<WirePayload<'a>, AllocError> {
        match &self.source {
            Source::Borrowed(bytes) => Ok(WirePayload::borrowed(bytes)),
            Source::Owned(bytes) => Ok(WirePayload::owned(bytes.clone()?)),
        }
    }
}

impl<'a> WirePayload<'a> {
    ghost use Rattle.wire_text.specs.WirePayload.{payload_bytes, is_owned_payload};

    /// A payload that is lent.
    pub fn borrowed(bytes: &'a [u8]) -> WirePayload<'a>
        ensures bytes { payload_bytes result ≡ bytes.now }
        ensures source { is_owned_payload result ≡ false }
    {
        WirePayload {
            source: Source::Borrowed(bytes),
        }
    }

    /// A payload that is handed over.
    pub fn owned(bytes: Bytes) -> WirePayload<'a>
        ensures bytes { payload_bytes result ≡ bytes }
        ensures source { is_owned_payload result ≡ true }
    {
        WirePayload {
            source: Source::Owned(bytes),
        }
    }

    /// The bytes of the payload.
    pub fn as_slice(&self) -> &[u8]
        ensures { result.now ≡ payload_bytes self.now }
    {
        match &self.source {
            Source::Borrowed(bytes) => bytes,
            Source::Owned(bytes) => bytes.as_slice(),
        }
    }

    /// How many bytes the payload has.
    pub fn len(&self) -> usize
        ensures { result ≡ length (payload_bytes self.now) }
    {
        self.as_slice().len()
    }

    /// Whether the payload has no byte.
    pub fn is_empty(&self) -> bool
        ensures { result ≡ (length (payload_bytes self.now) == 0) }
    {
        self.as_slice().is_empty()
    }

    /// Whether the payload was handed over, and not lent.
    pub fn is_owned(&self) -> bool
        ensures { result ≡ is_owned_payload self.now }
    {
        match &self.source {
            Source::Borrowed(_) => false,
            Source::Owned(_) => true,
        }
    }

    /// The bytes as a text. `InvalidUtf8` comes exactly where they are not UTF-8.
    pub fn to_str(&self) -> Result<&str, DecodeError>
        ensures ok { IfOk result (λ text. text.now ≡ payload_bytes self.now) }
        ensures utf8 { OnOk result (IsUtf8 (payload_bytes self.now)) }
        ensures err { IfErr result (λ e. e ≡ InvalidUtf8) }
        ensures not_utf8 { OnErr result (¬ IsUtf8 (payload_bytes self.now)) }
    {
        from_utf8(self.as_slice()).or(Err(DecodeError::InvalidUtf8))
    }

    /// The bytes as a run of their own. Those of a lent payload are copied, and refused with
    /// `OutOfMemory` where there is no room for them.
    pub fn into_bytes(self, alloc: Global) -> Result<Bytes, DecodeError>
        ensures ok { IfOk result (λ bytes. bytes ≡ payload_bytes self.entry) }
        ensures err { IfErr result (λ e. e ≡ OutOfMemory) }
        ensures owned { is_owned_payload self.entry ≡ true → IsOk result }
    {
        match self.source {
            Source::Borrowed(bytes) => Ok(Bytes::copy_from_slice(alloc, bytes)?),
            Source::Owned(bytes) => Ok(bytes),
        }
    }

    // The bytes as a vector. They are not copied where nobody else has them.
    pub(crate) fn into_vec(self, alloc: Global) -> Result<Vec<u8>, DecodeError>
        ensures ok { IfOk result (λ bytes. bytes.items ≡ payload_bytes self.entry) }
        ensures err { IfErr result (λ e. e ≡ OutOfMemory) }
    {
        match self.source {
            Source::Borrowed(bytes) => Ok(Vec::from_slice(alloc, bytes)?),
            Source::Owned(bytes) => match bytes.try_into_mut() {
                Ok(unique) => Ok(unique.into_vec()?),
                Err(shared) => Ok(Vec::from_slice(alloc, shared.as_slice())?),
            },
        }
    }
}
