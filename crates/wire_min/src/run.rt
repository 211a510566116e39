//! One run, from all of the input to the text.
ghost use Rattle.std.specs.Prelude.{◌≡◌, ◌≢◌, ◌+◌, ◌/◌, ◌<◌, ◌≤◌, ◌⊎◌, max, Ok, Err, IfOk, IfErr, OnOk, OnErr, IfSome};
ghost use Rattle.std.specs.Io.KnownBytes.{Appends, Keeps};
ghost use Rattle.std.specs.Vec.{vec_capacity, vec_len};
ghost use Rattle.wire_codec.specs.DecodeError.{DecodeError};
ghost use Rattle.wire_min.specs.Counted.{device_of, failures_of};
ghost use Rattle.wire_min.specs.Outcome.{failed_reads, failed_writes};
ghost use Rattle.wire_min.specs.Run.{AppendsFront, HasFault, IsShortest, WritesFront, OutputsShortest};

use crate::counted::Counted;
use crate::error::RunError;
use crate::shorten::shorten;
use std::alloc::{AllocError, Global};
use std::io::{Read, Write};

const CHUNK: usize = 8 * 1024;

/// Reads all of the input, goes over it as unknown fields, writes their shortest text and flushes.
/// The first error of the reader or the writer ends it, an interrupted call too, and so does a
/// write that takes no byte. A failed run may have read a part of the input. Input that
/// `UnknownFields::decode_from_slice` refuses is `Refused`, and `OutOfMemory` where memory ran out.
/// The text takes the place of the input, so that no more is held than the input, with room for a
/// quarter more, and a chunk.
pub fn run<R: Read, W: Write>(
    alloc: Global,
    reader: &mut Counted<R>,
    writer: &mut Counted<W>,
) -> Result<(), RunError>
    requires reader_countable { failures_of reader.old < u64.MAX }
    requires writer_countable { failures_of writer.old < u64.MAX }

    ensures ok { OnOk result (IfSome (R.remaining (device_of reader.old)) (λ input.
        OutputsShortest input (W.contents (device_of writer.old))
        (W.contents (device_of writer.new)))) }
    ensures refused { (e : DecodeError) → result ≡ Err (RunError.Refused e)
        → IfSome (R.remaining (device_of reader.old)) (λ input. HasFault input e) }
    ensures front { result ≡ Err RunError.WriteFailed
        → IfSome (R.remaining (device_of reader.old)) (λ input.
        WritesFront input (W.contents (device_of writer.old))
        (W.contents (device_of writer.new))) }
    ensures unwritten { OnErr result (result ≢ Err RunError.WriteFailed
        → Keeps (W.contents (device_of writer.old)) (W.contents (device_of writer.new))) }

    // `ReadFailed` comes with one failed read, and `WriteFailed` with one failed write or flush.
    // Otherwise no call failed.
    ensures reader_failures { failures_of reader.new
        ≡ failures_of reader.old + failed_reads result }
    ensures writer_failures { failures_of writer.new
        ≡ failures_of writer.old + failed_writes result }
{
    let mut input = read_to_end(alloc, reader)?;
    let len = shorten(&mut input)?;
    send(writer, &input[..len])
}

// All that the reader has left.
fn read_to_end<R: Read>(alloc: Global, reader: &mut Counted<R>) -> Result<Vec<u8>, RunError>
    requires { failures_of reader.old < u64.MAX }
    ensures ok { IfOk result (λ bytes. IfSome (R.remaining (device_of reader.old))
        (λ input. bytes.items ≡ input)) }
    ensures cause { IfErr result (λ e. (e ≡ RunError.OutOfMemory) ⊎ (e ≡ RunError.ReadFailed)) }
    ensures failures { failures_of reader.new ≡ failures_of reader.old + failed_reads result }
{
    let mut bytes = Vec::new(alloc);
    let mut chunk = [0u8; CHUNK];
    // Each turn but the last adds a byte, and a vector holds fewer bytes than there are turns.
    for _ in 0..u64::MAX {
        let count = reader.read(&mut chunk).or(Err(RunError::ReadFailed))?;
        if count == 0 {
            return Ok(bytes);
        }
        make_room(&mut bytes, count)?;
        bytes.extend_from_slice(&chunk[..count])?;
    }
    unreachable!()
}

// Makes room for so many bytes more, where there is none: for a quarter of what is held, or for
// these alone. A vector that grows by itself doubles.
fn make_room(bytes: &mut Vec<u8>, count: usize) -> Result<(), AllocError>
    ensures items { bytes.new.items ≡ bytes.old.items }
    ensures room { OnOk result (vec_len bytes.old + count ≤ vec_capacity bytes.new) }
    ensures no_more { vec_capacity bytes.new ≤ max (vec_capacity bytes.old)
        (vec_len bytes.old + max count (vec_len bytes.old / 4)) }
{
    if bytes.capacity() - bytes.len() < count {
        bytes.reserve_exact(count.max(bytes.len() / 4))?;
    }
    Ok(())
}

// Writes all of the bytes, and flushes.
fn send<W: Write>(writer: &mut Counted<W>, bytes: &[u8]) -> Result<(), RunError>
    requires { failures_of writer.old < u64.MAX }
    ensures ok { OnOk result (Appends (W.contents (device_of writer.old))
        (W.contents (device_of writer.new)) bytes.now) }
    ensures err { OnErr result (AppendsFront (W.contents (device_of writer.old))
        (W.contents (device_of writer.new)) bytes.now) }
    ensures cause { IfErr result (λ e. e ≡ RunError.WriteFailed) }
    ensures failures { failures_of writer.new ≡ failures_of writer.old + failed_writes result }
{
    write_all(writer, bytes)?;
    writer.flush().or(Err(RunError::WriteFailed))
}

// Writes all of the bytes, in as many writes as it takes.
fn write_all<W: Write>(writer: &mut Counted<W>, bytes: &[u8]) -> Result<(), RunError>
    requires { failures_of writer.old < u64.MAX }
    ensures ok { OnOk result (Appends (W.contents (device_of writer.old))
        (W.contents (device_of writer.new)) bytes.now) }
    ensures err { OnErr result (AppendsFront (W.contents (device_of writer.old))
        (W.contents (device_of writer.new)) bytes.now) }
    ensures cause { IfErr result (λ e. e ≡ RunError.WriteFailed) }
    ensures failures { failures_of writer.new ≡ failures_of writer.old + failed_writes result }
{
    let mut rest = bytes;
    while !rest.is_empty() {
        match writer.write(rest) {
            Ok(count) if count > 0 => rest = &rest[count..],
            _ => return Err(RunError::WriteFailed),
        }
    }
    Ok(())
}
