//! Payloads that are a known number of bytes.
ghost use Rattle.std.specs.Prelude.{◌≡◌, ◌<◌, ◌≤◌, true, false, [], length, take, drop, OnOk, OnErr, IfOk, IfErr};
ghost use Rattle.std.specs.Vec.{vec_capacity};
ghost use Rattle.wire_base.specs.declared.error.DecodeError.TheVariants.{UnexpectedEof};
ghost use Rattle.wire_base.specs.Delimited.{IsDelimited, DelimitedFault};
ghost use Rattle.wire_base.specs.Limits.{HasRoom};
ghost use Rattle.wire_base.specs.Read.{Reads};
ghost use Rattle.wire_base.specs.Varint.{IsSpelling};

use crate::error::DecodeError;
use crate::varint::decode_varint;
use bytes::Buf;
use std::alloc::{AllocError, Global};

/// Reads the length of a payload that is there as a whole, and is at most `max` bytes, where there
/// is a maximum. The fault of its varint comes first, then `MessageTooLarge` for a length above
/// `max`, then `UnexpectedEof` where fewer bytes remain. See "Length-Delimited Records" of the
/// encoding document.
#[inline(always)]
pub fn decode_length<B: Buf>(buf: &mut B, max: Option<usize>) -> Result<usize, DecodeError>
    ensures ok { IfOk result (λ len. Reads (B.unread buf.old) (IsSpelling len) (B.unread buf.new)) }
    ensures within { IfOk result (λ len. HasRoom max len) }
    ensures there { IfOk result (λ len. len ≤ length (B.unread buf.new)) }
    ensures payload { IfOk result (λ len. Reads (B.unread buf.old)
        (IsDelimited (take len (B.unread buf.new))) (drop len (B.unread buf.new))) }
    ensures fault { IfErr result (DelimitedFault max (B.unread buf.old)) }
    ensures kept { B.kept buf.new ≡ B.kept buf.old }
{
    let len = decode_varint(buf)?;
    if is_above(len, max) {
        return Err(DecodeError::MessageTooLarge);
    }
    if (buf.remaining() as u64) < len {
        return Err(DecodeError::UnexpectedEof);
    }
    Ok(len as usize)
}

// Whether a length is past the maximum, where there is one.
fn is_above(len: u64, max: Option<usize>) -> bool
    ensures above { result ≡ true → ¬ HasRoom max len }
    ensures within { result ≡ false → HasRoom max len }
{
    match max {
        Some(max) => (max as u64) < len,
        None => false,
    }
}

/// Passes over so many bytes.
pub(crate) fn skip_bytes<B: Buf>(buf: &mut B, len: u64) -> Result<(), DecodeError>
    ensures ok { OnOk result (B.unread buf.new ≡ drop len (B.unread buf.old)) }
    ensures long { OnOk result (len ≤ length (B.unread buf.old)) }
    ensures err { IfErr result (λ e. e ≡ UnexpectedEof) }
    ensures short { OnErr result (length (B.unread buf.old) < len) }
    ensures kept { B.kept buf.new ≡ B.kept buf.old }
{
    if (buf.remaining() as u64) < len {
        return Err(DecodeError::UnexpectedEof);
    }
    buf.advance(len as usize);
    Ok(())
}

/// Copies so many bytes, which are there, into a vector of just their size. Refused where there is
/// no memory for them; the buffer then stays.
#[inline(always)]
pub fn take_bytes<B: Buf>(alloc: Global, buf: &mut B, len: usize) -> Result<Vec<u8>, AllocError>
    requires there { len ≤ length (B.unread buf.old) }
    ensures ok { IfOk result (λ bytes. bytes.items ≡ take len (B.unread buf.old)) }
    ensures rest { OnOk result (B.unread buf.new ≡ drop len (B.unread buf.old)) }
    ensures unchanged { OnErr result (B.unread buf.new ≡ B.unread buf.old) }
    ensures kept { B.kept buf.new ≡ B.kept buf.old }
{
    let mut bytes = Vec::with_capacity(alloc, len)?;
    copy_bytes(buf, len, &mut bytes);
    Ok(bytes)
}

/// Copies so many bytes, which are there, into an empty vector that has room for them.
pub fn copy_bytes<B: Buf>(buf: &mut B, len: usize, bytes: &mut Vec<u8>)
    requires empty { bytes.old.items ≡ [] }
    requires room { len ≤ vec_capacity bytes.old }
    requires there { len ≤ length (B.unread buf.old) }
    ensures items { bytes.new.items ≡ take len (B.unread buf.old) }
    ensures rest { B.unread buf.new ≡ drop len (B.unread buf.old) }
    ensures kept { B.kept buf.new ≡ B.kept buf.old }
{
    let chunk = buf.chunk();
    if chunk.len() < len {
        return copy_chunks(buf, len, bytes);
    }
    bytes.extend_from_slice(&chunk[..len]).unwrap();
    buf.advance(len);
}

// Copies bytes that lie in several chunks.
#[inline(never)]
fn copy_chunks<B: Buf>(buf: &mut B, len: usize, bytes: &mut Vec<u8>)
    requires empty { bytes.old.items ≡ [] }
    requires room { len ≤ vec_capacity bytes.old }
    requires there { len ≤ length (B.unread buf.old) }
    ensures items { bytes.new.items ≡ take len (B.unread buf.old) }
    ensures rest { B.unread buf.new ≡ drop len (B.unread buf.old) }
    ensures kept { B.kept buf.new ≡ B.kept buf.old }
{
    while bytes.len() < len {
        let chunk = buf.chunk();
        let count = chunk.len().min(len - bytes.len());
        bytes.extend_from_slice(&chunk[..count]).unwrap();
        buf.advance(count);
    }
}
