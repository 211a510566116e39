//! Size caches that are used again.
ghost use Rattle.std.specs.Prelude.{◌≡◌, ◌≤◌, ◌⊎◌, ℕ, ◌∷◌, [], ◌++◌, length, IfOk, IfErr};
ghost use Rattle.wire_base.specs.declared.error.EncodeError.TheVariants.{OutOfMemory};
ghost use Rattle.wire_codec.specs.Encoding.{Encodes, TriesToAnswer, TriesToWrite, WritesWithin};
ghost use Rattle.wire_codec.specs.Pool.{KeepsLimits, IsWithinLimits, empty_pool};
ghost use Rattle.wire_codec.specs.Records.{text, text_size};
ghost use Rattle.wire_codec.specs.Tape.{blank};

use crate::message::Message;
use crate::size::checked_encode_size;
use crate::size_cache::SizeCache;
use std::alloc::Global;
use std::marker::Model;
use wire_base::{EncodeError, EncodeSink};

/// Memory of size caches that were given back, for the next ones. Encoding with it writes the same
/// bytes and, where memory lasts, gives the same answers as encoding with a new cache.
#[derive(Drop)]
pub struct SizeCachePool {
    buffers: Vec<Vec<u32>>,
    max_buffers: usize,
    max_capacity: usize,
}

impl Model for SizeCachePool {
    ghost use Rattle.std.specs.Prelude.{map, vec_capacity};
    ghost use Rattle.wire_codec.specs.Pool.{PoolState, pool_code, IsWithinLimits};

    ghost Value = { PoolState };

    ghost coded = { pool_code };

    ghost view = { λ pool. record {
      capacities = map (λ buffer. vec_capacity buffer) pool.buffers.items;
      max_buffers = pool.max_buffers;
      max_capacity = pool.max_capacity;
    } };

    ghost invariant = { λ pool. IsWithinLimits (record {
      capacities = map (λ buffer. vec_capacity buffer) pool.buffers.items;
      max_buffers = pool.max_buffers;
      max_capacity = pool.max_capacity;
    }) };
}

impl SizeCachePool {
    /// A pool that keeps at most so many buffers, each with room for at most so many sizes. Nothing
    /// is allocated before the first is kept.
    pub fn new(alloc: Global, max_buffers: usize, max_capacity: usize) -> SizeCachePool
        ensures { result ≡ empty_pool max_buffers max_capacity }
    {
        SizeCachePool {
            buffers: Vec::new(alloc),
            max_buffers,
            max_capacity,
        }
    }

    /// A pool of one buffer, for values that are encoded one after another.
    pub fn sequential(alloc: Global, max_capacity: usize) -> SizeCachePool
        ensures { result ≡ empty_pool 1 max_capacity }
    {
        SizeCachePool::new(alloc, 1, max_capacity)
    }

    /// An empty cache, in the memory of a kept buffer where there is one.
    pub fn acquire(&mut self) -> SizeCache
        ensures cache { result ≡ blank }
        ensures limits { KeepsLimits self.old self.new }
        ensures taken { (self.new ≡ self.old) ⊎ ((capacity : ℕ)
            × (self.old.capacities ≡ self.new.capacities ++ capacity ∷ [])) }
    {
        match self.buffers.pop() {
            Some(buffer) => SizeCache::with_spill_buffer(buffer),
            None => SizeCache::new(*self.buffers.allocator()),
        }
    }

    /// Keeps the memory of the cache where the limits allow it, shrunk where it has too much. It is
    /// given up where shrinking leaves too much or where there is no memory to keep it.
    pub fn release(&mut self, cache: SizeCache)
        ensures limits { KeepsLimits self.old self.new }
        ensures kept { (self.new ≡ self.old) ⊎ ((capacity : ℕ)
            × (self.new.capacities ≡ self.old.capacities ++ capacity ∷ [])) }
    {
        if self.buffers.len() >= self.max_buffers {
            return;
        }
        let mut buffer = cache.into_spill_buffer();
        if buffer.capacity() > self.max_capacity {
            buffer.clear();
            buffer.shrink_to(self.max_capacity);
        }
        if buffer.capacity() == 0 || buffer.capacity() > self.max_capacity {
            return;
        }
        let _ = self.buffers.push(buffer);
    }

    /// As `Message::encoded_len`.
    pub fn encoded_len<M: Message>(&mut self, message: &M) -> Result<u32, EncodeError>
        requires { text_size (M.records (M.view message.now)) ≤ 2147483647 }
        ensures ok { IfOk result (λ len. len ≡ text_size (M.records (M.view message.now))) }
        ensures err { IfErr result (λ e. e ≡ OutOfMemory) }
        ensures limits { KeepsLimits self.old self.new }
    {
        let mut cache = self.acquire();
        let answer = message.compute_size(&mut cache);
        self.release(cache);
        answer
    }

    /// As `Message::encode`.
    pub fn encode<M: Message, S: EncodeSink>(
        &mut self,
        message: &M,
        sink: &mut S,
    ) -> Result<(), EncodeError>
        requires { text_size (M.records (M.view message.now)) ≤ 2147483647 }
        ensures written { Encodes (text (M.records (M.view message.now)))
            (S.held sink.old) (S.held sink.new) result }
        ensures limits { KeepsLimits self.old self.new }
    {
        let mut cache = self.acquire();
        let answer = message.encode_with_cache(&mut cache, sink);
        self.release(cache);
        answer
    }

    /// As `Message::try_encoded_len`.
    pub fn try_encoded_len<M: Message>(&mut self, message: &M) -> Result<u32, EncodeError>
        ensures size { TriesToAnswer result (text_size (M.records (M.view message.now)))
            (λ len. len ≡ text_size (M.records (M.view message.now))) }
        ensures limits { KeepsLimits self.old self.new }
    {
        let mut cache = self.acquire();
        let answer = message.compute_size(&mut cache);
        self.release(cache);
        checked_encode_size(answer?)
    }

    /// As `Message::try_encode`.
    pub fn try_encode<M: Message, S: EncodeSink>(
        &mut self,
        message: &M,
        sink: &mut S,
    ) -> Result<(), EncodeError>
        ensures written { TriesToWrite (text_size (M.records (M.view message.now)))
            (text (M.records (M.view message.now))) (S.held sink.old)
            (S.held sink.new) result }
        ensures limits { KeepsLimits self.old self.new }
    {
        let mut cache = self.acquire();
        let answer = message.try_encode_with_cache(&mut cache, sink);
        self.release(cache);
        answer
    }

    /// As `Message::try_encode_bounded`.
    pub fn try_encode_bounded<M: Message, S: EncodeSink>(
        &mut self,
        message: &M,
        max_bytes: u32,
        sink: &mut S,
    ) -> Result<u32, EncodeError>
        ensures written { WritesWithin max_bytes (text (M.records (M.view message.now)))
            (S.held sink.old) (S.held sink.new) result }
        ensures limits { KeepsLimits self.old self.new }
    {
        let mut cache = self.acquire();
        let answer = message.try_encode_bounded_with_cache(max_bytes, &mut cache, sink);
        self.release(cache);
        answer
    }
}
