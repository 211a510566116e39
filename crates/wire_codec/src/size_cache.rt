//! The sizes of embedded messages, found in the first pass over a value and read in the second.
ghost use Rattle.std.specs.Prelude.{◌≡◌, ◌+◌, ◌<◌, [], ◌∷◌, length, slice_set};
ghost use Rattle.std.specs.Prelude.{IsOk, OnErr, IfOk, IfErr};
ghost use Rattle.wire_base.specs.declared.error.EncodeError.TheVariants.{OutOfMemory};
ghost use Rattle.wire_codec.specs.Tape.{blank, recorded, advanced, unread_of};

use std::alloc::Global;
use std::marker::Model;
use wire_base::EncodeError;

// How many slots take no memory.
const INLINE_SLOTS: usize = 16;

/// The sizes of embedded messages in the order of their tags, an outer one before its inner ones,
/// and a cursor at the next one to read. Sixteen of them take no memory; the spill vector has those
/// from the seventeenth on.
#[derive(Drop)]
pub struct SizeCache {
    inline: [u32; INLINE_SLOTS],
    spill: Vec<u32>,
    slots: usize,
    cursor: usize,
}

impl Model for SizeCache {
    ghost use Rattle.std.specs.Prelude.{◌≡◌, ◌-◌, ◌≤◌, ◌++◌, length, take};
    ghost use Rattle.wire_codec.specs.Tape.{Tape, tape_code};

    ghost Value = { Tape };

    ghost coded = { tape_code };

    ghost view = { λ cache. record {
      sizes = take cache.slots cache.inline ++ cache.spill.items;
      cursor = cache.cursor;
    } };

    ghost invariant = { λ cache. (length cache.inline ≡ 16)
        × (length cache.spill.items ≡ cache.slots - 16)
        × (cache.cursor ≤ cache.slots) };
}

impl SizeCache {
    /// A cache of no sizes. Nothing is allocated, and nothing will be before the seventeenth slot.
    pub fn new(alloc: Global) -> SizeCache
        ensures { result ≡ blank }
    {
        SizeCache::with_spill_buffer(Vec::new(alloc))
    }

    /// A cache of no sizes, whose slots from the seventeenth on are in the memory of the vector.
    pub fn with_spill_buffer(mut buffer: Vec<u32>) -> SizeCache
        ensures { result ≡ blank }
    {
        buffer.clear();
        SizeCache {
            inline: [0; INLINE_SLOTS],
            spill: buffer,
            slots: 0,
            cursor: 0,
        }
    }

    /// The memory of the slots from the seventeenth on, for another cache: none where this one came
    /// from `new` and never had so many. What the vector holds is left open.
    pub fn into_spill_buffer(self) -> Vec<u32> {
        let SizeCache {
            inline: _,
            spill,
            slots: _,
            cursor: _,
        } = self;
        spill
    }

    /// Takes all sizes out, and keeps the memory.
    pub fn clear(&mut self)
        ensures { self.new ≡ blank }
    {
        self.spill.clear();
        self.slots = 0;
        self.cursor = 0;
    }

    /// Adds a slot, which reads 0 until it is set, and answers its index. It is called before the
    /// embedded message is measured, so that the slot stands before those of the messages in it.
    /// From the seventeenth slot on it is refused where memory runs out.
    pub fn reserve(&mut self) -> Result<usize, EncodeError>
        ensures index { IfOk result (λ index. index ≡ length self.old.sizes) }
        ensures slot { IfOk result (λ _. self.new ≡ recorded self.old (0 ∷ [])) }
        ensures inline { length self.old.sizes < 16 → IsOk result }
        ensures err { IfErr result (λ e. e ≡ OutOfMemory) }
        ensures unchanged { OnErr result (self.new ≡ self.old) }
    {
        let index = self.slots;
        if index < INLINE_SLOTS {
            self.inline[index] = 0;
        } else {
            self.spill.push(0)?;
        }
        self.slots += 1;
        Ok(index)
    }

    /// Writes a size into a slot, whose index is below `slot_count`, as the condition asks.
    #[tactic(auto, using(crate::proofs::Slots::slot_laws))]
    pub fn set(&mut self, index: usize, size: u32)
        requires { index < length self.old.sizes }
        ensures { self.new ≡ record self.old { sizes = slice_set self.old.sizes index size } }
    {
        if index < INLINE_SLOTS {
            self.inline[index] = size;
        } else {
            self.spill[index - INLINE_SLOTS] = size;
        }
    }

    /// The next size, where `unread` is not 0, as the condition asks.
    pub fn consume_next(&mut self) -> u32
        requires { 0 < length (unread_of self.old) }
        ensures next { unread_of self.old ≡ result ∷ unread_of self.new }
        ensures advanced { self.new ≡ advanced self.old 1 }
    {
        let next = self.cursor;
        self.cursor += 1;
        if next < INLINE_SLOTS {
            self.inline[next]
        } else {
            self.spill[next - INLINE_SLOTS]
        }
    }

    /// How many slots there are.
    pub fn slot_count(&self) -> usize
        ensures { result ≡ length self.now.sizes }
    {
        self.slots
    }

    /// How many sizes are to be read.
    pub fn unread(&self) -> usize
        ensures { result ≡ length (unread_of self.now) }
    {
        self.slots - self.cursor
    }
}
