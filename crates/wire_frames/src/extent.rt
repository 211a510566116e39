//! Where a frame stands in bytes.
ghost use Rattle.std.specs.Prelude.{◌≡◌, IfOk, IfErr, IfSome, IfNone};
ghost use Rattle.wire_base.specs.Read.{Reads};
ghost use Rattle.wire_frames.specs.Extent.{IsExtent};
ghost use Rattle.wire_frames.specs.Frames.{FrameFault, IsUnfinished};
ghost use Rattle.wire_frames.specs.Prefix.{IsBegun, IsPrefix, PrefixFault};
ghost use Rattle.wire_frames.specs.declared.frame.Framing.TheVariants.{Delimited, Grpc};

use crate::error::FrameError;
use crate::frame::Framing;
use bytes::Buf;
use wire_base::{DecodeError, decode_varint};

/// How many bytes of a frame its prefix has, and how many the whole.
#[derive(Clone, Copy, Debug)]
pub(crate) struct Extent {
    pub(crate) compressed: bool,
    pub(crate) prefix: usize,
    pub(crate) len: usize,
}

// What a prefix tells.
#[derive(Clone, Copy, Debug)]
struct Prefix {
    compressed: bool,
    len: u64,
}

/// The frame at the front, or none where the bytes end before it does.
pub(crate) fn find_frame<B: Buf>(
    framing: Framing,
    limit: usize,
    buf: &mut B,
) -> Result<Option<Extent>, FrameError>
    ensures some { IfOk result (λ found. IfSome found (IsExtent framing limit (B.unread buf.old))) }
    ensures none { IfOk result (λ found. IfNone found
        (IsUnfinished framing limit (B.unread buf.old))) }
    ensures fault { IfErr result (FrameFault framing limit (B.unread buf.old)) }
{
    let all = buf.remaining();
    let Some(prefix) = read_prefix(framing, buf)? else {
        return Ok(None);
    };
    if prefix.len > limit as u64 {
        return Err(FrameError::FrameTooLarge(prefix.len));
    }
    let behind = buf.remaining();
    if (behind as u64) < prefix.len {
        return Ok(None);
    }
    Ok(Some(Extent {
        compressed: prefix.compressed,
        prefix: all - behind,
        len: all - behind + prefix.len as usize,
    }))
}

// Reads the prefix at the front, or none where the bytes end before it does.
fn read_prefix<B: Buf>(framing: Framing, buf: &mut B) -> Result<Option<Prefix>, FrameError>
    ensures some { IfOk result (λ found. IfSome found (λ p. Reads (B.unread buf.old)
        (IsPrefix framing p.compressed p.len) (B.unread buf.new))) }
    ensures none { IfOk result (λ found. IfNone found (IsBegun framing (B.unread buf.old))) }
    ensures fault { IfErr result (PrefixFault framing (B.unread buf.old)) }
{
    match framing {
        Framing::Delimited => read_varint_prefix(buf),
        Framing::Grpc => read_grpc_prefix(buf),
    }
}

// The same of a varint.
fn read_varint_prefix<B: Buf>(buf: &mut B) -> Result<Option<Prefix>, FrameError>
    ensures some { IfOk result (λ found. IfSome found (λ p. Reads (B.unread buf.old)
        (IsPrefix Delimited p.compressed p.len) (B.unread buf.new))) }
    ensures none { IfOk result (λ found. IfNone found (IsBegun Delimited (B.unread buf.old))) }
    ensures fault { IfErr result (PrefixFault Delimited (B.unread buf.old)) }
{
    match decode_varint(buf) {
        Ok(len) => Ok(Some(Prefix {
            compressed: false,
            len,
        })),
        Err(DecodeError::UnexpectedEof) => Ok(None),
        Err(_) => Err(FrameError::LengthTooLong),
    }
}

// The same of a flag and four bytes.
fn read_grpc_prefix<B: Buf>(buf: &mut B) -> Result<Option<Prefix>, FrameError>
    ensures some { IfOk result (λ found. IfSome found (λ p. Reads (B.unread buf.old)
        (IsPrefix Grpc p.compressed p.len) (B.unread buf.new))) }
    ensures none { IfOk result (λ found. IfNone found (IsBegun Grpc (B.unread buf.old))) }
    ensures fault { IfErr result (PrefixFault Grpc (B.unread buf.old)) }
{
    let Some(&flag) = buf.chunk().first() else {
        return Ok(None);
    };
    if flag > 1 {
        return Err(FrameError::UnknownFlag(flag));
    }
    if buf.remaining() < GRPC_PREFIX {
        return Ok(None);
    }
    buf.advance(1);
    Ok(Some(Prefix {
        compressed: flag == 1,
        len: u64::from(buf.get_u32()),
    }))
}

// How many bytes the prefix of a gRPC frame has.
const GRPC_PREFIX: usize = 5;
