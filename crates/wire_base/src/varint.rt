//! Numbers to the base 128, in one to ten bytes.
ghost use Rattle.std.specs.Prelude.{◌≡◌, [], ◌∷◌, ◌++◌, length, ◌^◌, ◌<◌, ◌≤◌, drop, count_by, nat_lt, OnOk, OnErr, IfOk, IfErr};
ghost use Rattle.wire_base.specs.declared.error.DecodeError.TheVariants.{UnexpectedEof, VarintTooLong};
ghost use Rattle.wire_base.specs.Read.{Reads};
ghost use Rattle.wire_base.specs.Sink.{Writes};
ghost use Rattle.wire_base.specs.Varint.{IsSpelling, VarintFault, shortest_varint};

mod in_place;

use self::in_place::{holds_varint, varint_at_front};
use crate::encode_sink::EncodeSink;
use crate::error::{DecodeError, EncodeError};
use bytes::Buf;

/// How many bytes the shortest varint of a number has: 1 to 10.
pub fn varint_len(value: u64) -> usize
    ensures { result ≡ length (shortest_varint value) }
{
    value.max(1).ilog2() as usize / 7 + 1
}

/// Writes the shortest varint of a number. See "Base 128 Varints" of the encoding document. Refused
/// where the sink refuses a byte.
#[inline(always)]
pub fn encode_varint<S: EncodeSink>(value: u64, sink: &mut S) -> Result<(), EncodeError>
    ensures { Writes (shortest_varint value) (S.held sink.old) (S.held sink.new) result }
{
    sink.put_varint(value)
}

/// Reads a varint, padded with zeros or not, from the front of the buffer. Nine bytes of 0x80 or
/// more and then one above 1 are `VarintTooLong`, and fewer than ten bytes, all of 0x80 or more,
/// are `UnexpectedEof`. See "Base 128 Varints" of the encoding document.
#[inline(always)]
pub fn decode_varint<B: Buf>(buf: &mut B) -> Result<u64, DecodeError>
    ensures ok { IfOk result (λ v. Reads (B.unread buf.old) (IsSpelling v) (B.unread buf.new)) }
    ensures fault { IfErr result (VarintFault (B.unread buf.old)) }
    ensures kept { B.kept buf.new ≡ B.kept buf.old }
{
    let chunk = buf.chunk();
    if let Some(&byte) = chunk.first() {
        if byte < 0x80 {
            buf.advance(1);
            return Ok(u64::from(byte));
        }
        if holds_varint(chunk) {
            let second = chunk[1];
            if second < 0x80 {
                let value = u64::from(byte % 0x80) + u64::from(second) * 0x80;
                buf.advance(2);
                return Ok(value);
            }
            let (value, len) = varint_at_front(chunk);
            if len == 0 {
                return Err(DecodeError::VarintTooLong);
            }
            buf.advance(len);
            return Ok(value);
        }
    }
    if chunk.len() < buf.remaining() {
        return decode_varint_slow(buf);
    }
    let (value, len) = varint_in_whole(chunk);
    if len > 0 {
        buf.advance(len);
        return Ok(value);
    }
    if chunk.len() < MAX_BYTES {
        return Err(DecodeError::UnexpectedEof);
    }
    Err(DecodeError::VarintTooLong)
}

// How many bytes a varint has at most.
const MAX_BYTES: usize = 10;

// Reads a varint byte by byte from bytes behind which no others stand, and answers how many it has:
// 0 where none is at their front.
#[inline(never)]
fn varint_in_whole(bytes: &[u8]) -> (u64, usize)
    ensures ok { 0 < result.1 → Reads bytes.now (IsSpelling result.0) (drop result.1 bytes.now) }
    ensures there { result.1 ≤ length bytes.now }
    ensures cut { result.1 ≡ 0 → length bytes.now < 10 → VarintFault bytes.now UnexpectedEof }
    ensures long { result.1 ≡ 0 → 10 ≤ length bytes.now → VarintFault bytes.now VarintTooLong }
{
    let mut rest = bytes;
    match decode_varint_slow(&mut rest) {
        Ok(value) => (value, bytes.len() - rest.len()),
        Err(_) => (0, 0),
    }
}

// Reads a varint byte by byte.
#[inline(never)]
fn decode_varint_slow<B: Buf>(buf: &mut B) -> Result<u64, DecodeError>
    ensures ok { IfOk result (λ v. Reads (B.unread buf.old) (IsSpelling v) (B.unread buf.new)) }
    ensures fault { IfErr result (VarintFault (B.unread buf.old)) }
    ensures kept { B.kept buf.new ≡ B.kept buf.old }
{
    let mut value = 0u64;
    for index in 0..9u32 {
        let byte = next_byte(buf)?;
        value |= u64::from(byte % 0x80) << (7 * index);
        if byte < 0x80 {
            return Ok(value);
        }
    }
    let byte = next_byte(buf)?;
    if byte > 1 {
        return Err(DecodeError::VarintTooLong);
    }
    Ok(value | u64::from(byte) << 63)
}

/// How many varints end in the bytes: the number of bytes below 0x80. See "Packed Repeated Fields"
/// of the encoding document.
pub fn count_varints(payload: &[u8]) -> usize
    ensures { result ≡ count_by (λ byte. nat_lt byte 128) payload.now }
{
    let mut count = 0;
    let mut rest = payload;
    while !rest.is_empty() {
        let (block, behind) = rest.split_at(rest.len().min(BLOCK));
        count += usize::from(count_in_block(block));
        rest = behind;
    }
    count
}

// So many bytes at a time are counted, in lanes of a byte each.
const BLOCK: usize = 192;

// The same for a few bytes.
#[inline(always)]
fn count_in_block(block: &[u8]) -> u8
    requires { length block.now < 2 ^ 8 }
    ensures { result ≡ count_by (λ byte. nat_lt byte 128) block.now }
{
    let mut count = 0;
    for byte in block {
        count += u8::from(*byte < 0x80);
    }
    count
}

// Takes the byte at the front, if there is one.
fn next_byte<B: Buf>(buf: &mut B) -> Result<u8, DecodeError>
    ensures byte { IfOk result (λ byte. B.unread buf.old ≡ byte ∷ B.unread buf.new) }
    ensures end { IfErr result (λ e. (e ≡ UnexpectedEof) × (B.unread buf.old ≡ [])) }
    ensures kept { B.kept buf.new ≡ B.kept buf.old }
{
    match buf.chunk().first() {
        Some(&byte) => {
            buf.advance(1);
            Ok(byte)
        }
        None => Err(DecodeError::UnexpectedEof),
    }
}
