//! Caches of sizes and pools of them: in which order sizes are read, and which buffers are kept.
use crate::row::{Row, Step};
use crate::said::Said;
use wire_codec::{EncodeError, SizeCache, SizeCachePool, checked_encode_size, saturate_size};

pub fn tell(row: &Row<'_>, said: &mut Said) -> bool {
    match row.call {
        "SizeCache" => cache(row, said),
        "SizeCachePool" => pool(row, said),
        "saturate_size" => said.show(&saturate_size(row.value())),
        "checked_encode_size" => said.show(&checked_encode_size(row.value())),
        _ => return false,
    }
    true
}

// The words of a row in turn: `reserve`, `next`, `set:SLOT` of the size N behind `*`, `set-all:` of
// N for each slot in front of it, the last slot first, `clear`, `respill`; `reserve` and `next`
// with `*N` behind them for N times.
fn cache(row: &Row<'_>, said: &mut Said) {
    let mut cache = SizeCache::new(said.alloc);
    for word in row.words.split(' ') {
        cache = stepped(cache, Step::parse(word), said);
    }
    said.also("of ", &cache.slot_count());
    said.also(", ", &cache.unread());
    said.word(" unread");
}

fn stepped(mut cache: SizeCache, step: Step<'_>, said: &mut Said) -> SizeCache {
    match step.kind {
        "clear" => cache.clear(),
        "respill" => return SizeCache::with_spill_buffer(cache.into_spill_buffer()),
        "set" => set(&mut cache, step.number(), step.times),
        "set-all" => {
            for index in (0..cache.slot_count()).rev() {
                let size = u32::try_from(index).unwrap_or(0).saturating_mul(step.times);
                set(&mut cache, index, size);
            }
        }
        "reserve" => reserve(&mut cache, step.times, said),
        "next" => next(&mut cache, step.times, said),
        _ => {}
    }
    cache
}

fn set(cache: &mut SizeCache, slot: usize, size: u32) {
    if slot < cache.slot_count() {
        cache.set(slot, size);
    }
}

fn next(cache: &mut SizeCache, times: u32, said: &mut Said) {
    for _ in 0..times {
        if cache.unread() > 0 {
            said.show(&cache.consume_next());
            said.word(" ");
        }
    }
}

// Sixteen slots take no memory, and a refusal leaves those that there are.
fn reserve(cache: &mut SizeCache, times: u32, said: &mut Said) {
    for _ in 0..times {
        let slots = cache.slot_count();
        match cache.reserve() {
            Ok(slot) => said.expect(slot == slots, "another slot"),
            Err(error) => {
                said.expect(slots >= 16, "a slot inside asks for memory");
                said.expect(cache.slot_count() == slots, "a refused slot");
                said.refuse(error);
            }
        }
    }
}

// ---- pools

/// A pool of so many buffers as the row names, behind `pool=`, of at most the capacity behind
/// `most=`; a sequential one without a number of buffers.
pub fn pool_of(row: &Row<'_>, said: &Said) -> SizeCachePool {
    let most = row.number("most").unwrap_or(64);
    match row.number("pool") {
        Some(buffers) => SizeCachePool::new(said.alloc, buffers, most),
        None => SizeCachePool::sequential(said.alloc, most),
    }
}

/// Gives the pool a cache with a buffer of the capacity behind `buffer=`, where the row names one.
/// A pool that keeps none was refused memory.
pub fn give_buffer(pool: &mut SizeCachePool, row: &Row<'_>, said: &mut Said) {
    if let Some(capacity) = row.number("buffer") {
        let buffer = said.made(Vec::with_capacity(said.alloc, capacity));
        let buffer = buffer.unwrap_or(Vec::new(said.alloc));
        pool.release(SizeCache::with_spill_buffer(buffer));
        if !has_buffer(pool) {
            said.refuse(EncodeError::OutOfMemory);
        }
    }
}

/// A pool that was given a buffer has it after each call, one that was refused too.
pub fn expect_buffer(pool: &mut SizeCachePool, row: &Row<'_>, said: &mut Said) {
    if row.word("buffer").is_some() {
        said.expect(has_buffer(pool), "the pool has lost its buffer");
    }
}

// Whether the pool gives out a cache with a buffer; it has that back then.
fn has_buffer(pool: &mut SizeCachePool) -> bool {
    let buffer = pool.acquire().into_spill_buffer();
    let has_room = buffer.capacity() > 0;
    pool.release(SizeCache::with_spill_buffer(buffer));
    has_room
}

// Caches with spill buffers of the capacities that the row names are released, and then as many are
// taken: how many of these have a buffer, and that none has more than the greatest capacity.
fn pool(row: &Row<'_>, said: &mut Said) {
    let mut pool = pool_of(row, said);
    let most = row.number("most").unwrap_or(64);
    let mut released = 0u32;
    for word in row.words.split(' ') {
        let step = Step::parse(word);
        if step.kind == "release" {
            let buffer = said.made(Vec::with_capacity(said.alloc, step.number()));
            let buffer = buffer.unwrap_or(Vec::new(said.alloc));
            pool.release(SizeCache::with_spill_buffer(buffer));
            released = released.saturating_add(1);
        }
    }
    let mut kept = 0u32;
    for _ in 0..released {
        let cache = pool.acquire();
        said.expect(cache.slot_count() == 0, "a used cache");
        said.expect(cache.unread() == 0, "a cache with unread sizes");
        let capacity = cache.into_spill_buffer().capacity();
        said.expect(capacity <= most, "a large buffer is kept");
        kept = kept.saturating_add(u32::from(capacity > 0));
    }
    said.show(&kept);
    said.also(" of ", &released);
    said.word(" kept");
}
