//! What is asked of message types that hold one another, to be written.
ghost use Rattle.std.specs.Prelude.{◌≡◌, ◌≤◌, ◌<◌, List, ℕ, length, OnOk, IfOk, IfErr};
ghost use Rattle.wire_codec.specs.EncodeError.TheVariants.{OutOfMemory};
ghost use Rattle.wire_codec.specs.FieldNumber.{IsFieldNumber};
ghost use Rattle.wire_codec.specs.Records.{text, text_size};
ghost use Rattle.wire_codec.specs.Sizes.{sizes};
ghost use Rattle.wire_codec.specs.Tape.{NextAre, advanced};
ghost use Rattle.wire_codec.specs.Writes.{Writes};
ghost use Rattle.wire_fields.specs.Measuring.{Measures};
ghost use Rattle.wire_fields.specs.Nest.{Nest, leaf_of, row_at, row_count};
ghost use Rattle.wire_fields.specs.NestTable.{Family, is_grouped, message_at};

use wire_codec::{EncodeError, EncodeSink, SizeCache};

/// Messages of one type of a family, one behind another in a slice: the slice itself, or an enum of
/// slices for types that hold one another. The leaf's fields are written in runs: before the first
/// row, behind the first, and so on, by the order of the numbers.
pub trait RecursiveSlice: Copy {
    ghost Sort: { Type 0 };

    ghost Leaf: { Type 0 };

    ghost sort: { Self → Sort };

    ghost views: { Self → List (Nest Leaf) };

    ghost family: { Family Sort Leaf };

    /// How many messages there are.
    fn count(self) -> usize
        ensures { result ≡ length (views self) };

    /// How many rows each of them has.
    fn rows(self) -> usize
        ensures { result ≡ (family.table (sort self)).rows };

    /// The field number of a row.
    fn number(self, row: usize) -> u32
        requires { row < (family.table (sort self)).rows }
        ensures is { result ≡ (family.table (sort self)).number row }
        ensures in_range { IsFieldNumber result };

    /// Whether the messages of a row stand in groups.
    fn is_grouped(self, row: usize) -> bool
        requires { row < (family.table (sort self)).rows }
        ensures { result ≡ is_grouped ((family.table (sort self)).place ((family.table
            (sort self)).number row)) };

    /// The messages of a row of the message at an index.
    fn row(self, index: usize, row: usize) -> Self
        requires message { index < length (views self) }
        requires row { row < (family.table (sort self)).rows }
        ensures messages { views result
            ≡ row_at row (message_at (family.table (sort self)) (views self) index) }
        ensures sort { sort result ≡ family.holds (sort self) row };

    /// How many bytes a run of the leaf of the message at an index takes, as `Parts::len`.
    fn run_len(self, index: usize, run: usize, cache: &mut SizeCache) -> Result<u64, EncodeError>
        requires message { index < length (views self) }
        requires run { run ≤ (family.table (sort self)).rows }
        ensures ok { IfOk result (λ len. Measures ((family.table (sort self)).run run
            (leaf_of (message_at (family.table (sort self)) (views self) index)))
            cache.old cache.new len) }
        ensures err { IfErr result (λ e. e ≡ OutOfMemory) };

    /// Writes a run of the leaf of the message at an index, as `Parts::put`.
    fn put_run<S: EncodeSink>(
        self,
        index: usize,
        run: usize,
        cache: &mut SizeCache,
        sink: &mut S,
    ) -> Result<(), EncodeError>
        requires message { index < length (views self) }
        requires in_range { run ≤ (family.table (sort self)).rows }
        requires sizes { NextAre (sizes ((family.table (sort self)).run run
            (leaf_of (message_at (family.table (sort self)) (views self) index)))) cache.old }
        requires size { text_size ((family.table (sort self)).run run
            (leaf_of (message_at (family.table (sort self)) (views self) index))) ≤ 2147483647 }
        ensures written { Writes (text ((family.table (sort self)).run run
            (leaf_of (message_at (family.table (sort self)) (views self) index))))
            (S.held sink.old)
            (S.held sink.new) result }
        ensures read { OnOk result (cache.new ≡ advanced cache.old
            (length (sizes ((family.table (sort self)).run run
            (leaf_of (message_at (family.table (sort self)) (views self) index)))))) };

    /// Each message has all of the rows.
    ghost counted: { (messages : Self) (index : ℕ)
        → row_count (message_at (family.table (sort messages)) (views messages) index)
        ≡ (family.table (sort messages)).rows };
}
