//! Frames into a sink.
ghost use Rattle.std.specs.Prelude.{◌≡◌, ◌<◌, ◌^◌, ◌++◌, length, OnOk, OnErr};
ghost use Rattle.wire_base.specs.Delimited.{delimited_text};
ghost use Rattle.wire_base.specs.Sink.{Writes};
ghost use Rattle.wire_frames.specs.Encoding.{WritesFrame, grpc_text};

use wire_base::{EncodeError, EncodeSink, encode_varint, laws};
use wire_codec::MAX_MESSAGE_BYTES;

/// Writes the shortest varint of the payload's length, and the payload. A payload of more than
/// 2,147,483,647 bytes is `MessageTooLarge`, before anything is written. Else refused where the
/// sink refuses a byte of the varint or the payload, and then leaves what stands before.
pub fn put_delimited_frame<S: EncodeSink>(payload: &[u8], sink: &mut S) -> Result<(), EncodeError>
    ensures { WritesFrame 2147483647 (length payload.now) (delimited_text payload.now)
        (S.held sink.old) (S.held sink.new) result }
{
    if payload.len() > MAX_MESSAGE_BYTES as usize {
        return Err(EncodeError::MessageTooLarge);
    }
    write_delimited(payload, sink)
}

/// Writes a flag, the payload's length in four bytes, the highest first, and the payload. A payload
/// of more than 4,294,967,295 bytes is `MessageTooLarge`, before anything is written. Else refused
/// where the sink refuses one of the three, and then leaves those before.
pub fn put_grpc_frame<S: EncodeSink>(
    compressed: bool,
    payload: &[u8],
    sink: &mut S,
) -> Result<(), EncodeError>
    ensures { WritesFrame 4294967295 (length payload.now) (grpc_text compressed payload.now)
        (S.held sink.old) (S.held sink.new) result }
{
    if payload.len() > u32::MAX as usize {
        return Err(EncodeError::MessageTooLarge);
    }
    write_grpc(compressed, payload, sink)
}

// Writes a payload behind the varint of its length.
fn write_delimited<S: EncodeSink>(payload: &[u8], sink: &mut S) -> Result<(), EncodeError>
    ensures { Writes (delimited_text payload.now) (S.held sink.old) (S.held sink.new) result }
{
    laws::two_parts();
    laws::put_is_a_write();
    encode_varint(payload.len() as u64, sink)?;
    sink.put_slice(payload)
}

// Writes a payload behind a flag and its length in four bytes.
fn write_grpc<S: EncodeSink>(
    compressed: bool,
    payload: &[u8],
    sink: &mut S,
) -> Result<(), EncodeError>
    requires { length payload.now < 2 ^ 32 }
    ensures { Writes (grpc_text compressed payload.now)
        (S.held sink.old) (S.held sink.new) result }
{
    laws::two_parts();
    laws::put_is_a_write();
    let len = payload.len() as u32;
    sink.put_u8(u8::from(compressed))?;
    sink.put_slice(&len.to_be_bytes())?;
    sink.put_slice(payload)
}
