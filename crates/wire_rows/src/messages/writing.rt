//! Messages that are written and measured, each call by its name.
use super::sample::{Sample, given};
use crate::caches::{expect_buffer, give_buffer, pool_of};
use crate::row::Row;
use crate::said::Said;
use crate::sinks::is_filled;
use wire_codec::{EncodeError, EncodeSink, Message, Room, SizeCache, SizeCachePool, laws};

// What a call answers: the size, where it tells one. What it writes is in the sink.
type Answer = Result<Option<u32>, EncodeError>;

/// Says what a call writes behind the byte 7, and the size that it answers.
pub fn tell<M: Sample + Message>(row: &Row<'_>, call: &str, said: &mut Said) -> bool {
    match call {
        "sizes" => say_sizes::<M>(row, said),
        _ if call.contains("enc") || call == "write_to" => write::<M>(row, call, said),
        _ => return false,
    }
    true
}

fn write<M: Sample + Message>(row: &Row<'_>, call: &str, said: &mut Said) {
    let Some(message) = given::<M>(row, row.bytes, said) else {
        return;
    };
    let mut sink = sink_of(row, said);
    let answer = if call.starts_with("pool_") {
        pooled(&message, row, call, &mut sink, said)
    } else if call.starts_with("try_") {
        tried(&message, row, call, &mut sink, said)
    } else {
        asked(&message, call, &mut sink, said)
    };
    match answer {
        Ok(size) => {
            if let Some(size) = size {
                said.show(&size);
                said.word(": ");
            }
            said.written(sink.get(1..).unwrap_or(&[]), row.bytes);
            if call == "try_encode" {
                into_slice(&message, &sink, sink.len(), said);
                into_slice(&message, &sink, sink.len().saturating_sub(1), said);
            }
        }
        Err(error) => {
            is_left(&message, call, &error, &sink, said);
            said.expect(row.word("room").is_none(), "memory where there is room");
            said.refuse(error);
        }
    }
}

// A sink with the byte 7, and the room that the row names.
fn sink_of(row: &Row<'_>, said: &mut Said) -> Vec<u8> {
    let sink = said.made(Vec::with_capacity(said.alloc, row.number("room").unwrap_or(1)));
    let mut sink = sink.unwrap_or(Vec::new(said.alloc));
    said.made(sink.push(7));
    sink
}

// A message behind the byte 7 in a slice of so many bytes.
fn into_slice<M: Message>(message: &M, whole: &[u8], len: usize, said: &mut Said) {
    let mut slice = said.copied(whole);
    slice.truncate(len);
    slice.fill(0);
    let mut room = Room {
        room: &mut slice,
        place: 0,
    };
    let answer = match room.put_u8(7) {
        Ok(()) => message.try_encode(said.alloc, &mut room),
        Err(error) => Err(error),
    };
    let place = room.place;
    is_filled(answer, &slice, place, whole, said);
}

// A call refused for a size leaves the sink, and one refused memory a front of the bytes.
fn is_left<M: Message>(message: &M, call: &str, error: &EncodeError, sink: &[u8], said: &mut Said) {
    if *error != EncodeError::OutOfMemory {
        return said.expect(sink == b"\x07".as_slice(), "a refused call wrote");
    }
    let mut whole = said.copied(b"\x07");
    let answer = if call.contains("length_delimited") {
        message.try_encode_length_delimited(said.alloc, &mut whole)
    } else {
        message.try_encode(said.alloc, &mut whole)
    };
    said.answered(answer);
    said.expect(!sink.is_empty() && whole.starts_with(sink), "no front");
}

// The greatest size that the row allows.
fn most(row: &Row<'_>) -> u32 {
    row.number("max").unwrap_or(u32::MAX)
}

fn tried<M: Message>(
    message: &M,
    row: &Row<'_>,
    call: &str,
    sink: &mut Vec<u8>,
    said: &mut Said,
) -> Answer {
    let (alloc, most) = (said.alloc, most(row));
    let mut cache = SizeCache::new(alloc);
    match call {
        "try_encoded_len" => return message.try_encoded_len(alloc).map(Some),
        "try_encode_bounded" => return message.try_encode_bounded(alloc, most, sink).map(Some),
        "try_encode_bounded_with_cache" => {
            let answer = message.try_encode_bounded_with_cache(most, &mut cache, sink);
            return answer.map(Some);
        }
        "try_encode" => message.try_encode(alloc, sink)?,
        "try_encode_length_delimited" => message.try_encode_length_delimited(alloc, sink)?,
        "try_encode_with_cache" => message.try_encode_with_cache(&mut cache, sink)?,
        "try_encode_to_vec" => {
            let bytes = message.try_encode_to_vec(alloc)?;
            sink.extend_from_slice(&bytes)?;
        }
        "try_encode_to_bytes" => {
            let bytes = message.try_encode_to_bytes(alloc)?;
            sink.extend_from_slice(bytes.as_slice())?;
        }
        _ => said.expect(false, "no call that writes"),
    }
    Ok(None)
}

// The calls that ask for the size condition, each once it was tested.
fn asked<M: Message>(message: &M, call: &str, sink: &mut Vec<u8>, said: &mut Said) -> Answer {
    let alloc = said.alloc;
    laws::sizes_fit();
    message.try_encoded_len(alloc)?;
    let mut cache = SizeCache::new(alloc);
    match call {
        "encoded_len" => return message.encoded_len(alloc).map(Some),
        "encode" => message.encode(alloc, sink)?,
        "encode_length_delimited" => message.encode_length_delimited(alloc, sink)?,
        "encode_with_cache" => message.encode_with_cache(&mut cache, sink)?,
        "write_to" => {
            message.compute_size(&mut cache)?;
            message.write_to(&mut cache, sink)?;
        }
        "encode_to_vec" => {
            let bytes = message.encode_to_vec(alloc)?;
            sink.extend_from_slice(&bytes)?;
        }
        "encode_to_bytes" => {
            let bytes = message.encode_to_bytes(alloc)?;
            sink.extend_from_slice(bytes.as_slice())?;
        }
        _ => said.expect(false, "no call that writes"),
    }
    Ok(None)
}

// By a pool, twice: the same answer, and the same bytes. A pool that was refused memory writes the
// bytes the next time.
fn pooled<M: Message>(
    message: &M,
    row: &Row<'_>,
    call: &str,
    sink: &mut Vec<u8>,
    said: &mut Said,
) -> Answer {
    let mut pool = pool_of(row, said);
    give_buffer(&mut pool, row, said);
    let mut again = said.copied(b"\x07");
    let first = by_pool(&mut pool, message, row, call, sink, said);
    expect_buffer(&mut pool, row, said);
    let second = by_pool(&mut pool, message, row, call, &mut again, said);
    expect_buffer(&mut pool, row, said);
    if first == Err(EncodeError::OutOfMemory) {
        let mut whole = said.copied(b"\x07");
        said.answered(message.try_encode(said.alloc, &mut whole));
        let is_nothing = again.len() == 1;
        said.expect((again == whole) | is_nothing, "other bytes the next time");
        return first;
    }
    if second != Err(EncodeError::OutOfMemory) {
        said.expect(first == second, "another answer the second time");
        said.expect(*sink == again, "other bytes the second time");
    }
    second
}

fn by_pool<M: Message>(
    pool: &mut SizeCachePool,
    message: &M,
    row: &Row<'_>,
    call: &str,
    sink: &mut Vec<u8>,
    said: &mut Said,
) -> Answer {
    match call {
        "pool_try_encoded_len" => return pool.try_encoded_len(message).map(Some),
        "pool_try_encode_bounded" => {
            return pool.try_encode_bounded(message, most(row), sink).map(Some);
        }
        "pool_try_encode" => pool.try_encode(message, sink)?,
        "pool_encoded_len" => {
            pool.try_encoded_len(message)?;
            return pool.encoded_len(message).map(Some);
        }
        "pool_encode" => {
            pool.try_encoded_len(message)?;
            pool.encode(message, sink)?;
        }
        _ => said.expect(false, "no call of a pool"),
    }
    Ok(None)
}

// The sizes of the messages that the value holds, an outer one before its inner ones.
fn say_sizes<M: Sample + Message>(row: &Row<'_>, said: &mut Said) {
    let Some(message) = given::<M>(row, row.bytes, said) else {
        return;
    };
    let mut cache = SizeCache::new(said.alloc);
    if let Some(size) = said.answered(message.compute_size(&mut cache)) {
        said.show(&size);
        said.word(":");
    }
    for _ in 0..cache.slot_count() {
        if cache.unread() > 0 {
            said.also(" ", &cache.consume_next());
        }
    }
}
