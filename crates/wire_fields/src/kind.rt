//! What a kind of field is: how its value is measured, written, and made of records.
ghost use Rattle.std.specs.Prelude.{◌≡◌, ◌≢◌, ◌≤◌, length, OnOk, OnErr, IfOk, IfErr};
ghost use Rattle.wire_codec.specs.DecodeError.TheVariants as errors;
ghost use Rattle.wire_codec.specs.EncodeError.TheVariants.{OutOfMemory};
ghost use Rattle.wire_codec.specs.FieldNumber.{IsFieldNumber};
ghost use Rattle.wire_codec.specs.Limits.{NoCountGrew};
ghost use Rattle.wire_codec.specs.Records.{text, text_size};
ghost use Rattle.wire_codec.specs.Sizes.{sizes};
ghost use Rattle.wire_codec.specs.TagView.{tag_number, tag_type};
ghost use Rattle.wire_codec.specs.Taking.{TakesRecord, IsCharged, NotTaken};
ghost use Rattle.wire_codec.specs.Tape.{NextAre, advanced};
ghost use Rattle.wire_codec.specs.Writes.{Writes};
ghost use Rattle.wire_fields.specs.Measuring.{Measures};
ghost use Rattle.wire_fields.specs.Shape.{FieldKind};

use bytes::Buf;
use std::alloc::Global;
use wire_codec::{DecodeContext, DecodeError, EncodeError, EncodeSink, SizeCache, Tag};

/// A kind of field, as `Implicit<Int32>` or `Embedded<M>`. A kind has no values: a message holds
/// plain values, and names the kind where the field is measured, written, read or cleared.
pub trait Kind {
    /// What a message holds for the field.
    type Held: Drop;

    /// What contracts see of it.
    ghost Value: { Type 0 };

    ghost view: { Self.Held → Value };

    /// The value of no records, the records of a value, and what a value makes of a record.
    ghost kind: { FieldKind Value };

    /// The value of no records.
    fn empty(alloc: Global) -> Self::Held
        ensures { view result ≡ kind.default };

    /// How many bytes the records take. The sizes of embedded messages are recorded, an outer one
    /// before its inner ones. Refused where memory runs out.
    fn len(number: u32, held: &Self::Held, cache: &mut SizeCache) -> Result<u64, EncodeError>
        requires { IsFieldNumber number }
        ensures ok { IfOk result (λ len. Measures (kind.records number (view held.now))
            cache.old cache.new len) }
        ensures err { IfErr result (λ e. e ≡ OutOfMemory) };

    /// Writes the records, of at most 2,147,483,647 bytes, with the sizes that the cache has next,
    /// which are those that `len` recorded. Refused where the sink refuses a put.
    fn put<S: EncodeSink>(
        number: u32,
        held: &Self::Held,
        cache: &mut SizeCache,
        sink: &mut S,
    ) -> Result<(), EncodeError>
        requires number { IsFieldNumber number }
        requires sizes { NextAre (sizes (kind.records number (view held.now))) cache.old }
        requires size { text_size (kind.records number (view held.now)) ≤ 2147483647 }
        ensures written { Writes (text (kind.records number (view held.now)))
            (S.held sink.old) (S.held sink.new) result }
        ensures read { OnOk result (cache.new
            ≡ advanced cache.old (length (sizes (kind.records number (view held.now))))) };

    /// Reads the payload behind this tag and takes the record into the value. A wire type that the
    /// kind does not have is `WireTypeMismatch`. Any error but `OutOfMemory` says that the kind
    /// does not take the record within the limits. A refusal leaves open what the value holds, the
    /// place of the buffer and the depth of the context, and may have used up counts of it.
    fn merge<B: Buf>(
        alloc: Global,
        tag: Tag,
        held: &mut Self::Held,
        buf: &mut B,
        context: &mut DecodeContext,
    ) -> Result<(), DecodeError>
        ensures ok { OnOk result (IsCharged context.old context.new (λ c.
            TakesRecord kind.takes context.old (tag_number tag) (tag_type tag) (view held.old)
            (B.unread buf.old) c (view held.new) (B.unread buf.new))) }
        ensures err { IfErr result (λ e. e ≢ errors.OutOfMemory → NotTaken
            (TakesRecord kind.takes context.old (tag_number tag) (tag_type tag) (view held.old)
            (B.unread buf.old))) }
        ensures counts { OnErr result (NoCountGrew context.old context.new) }
        ensures kept { B.kept buf.new ≡ B.kept buf.old };

    /// Makes the value that of no records.
    fn clear(held: &mut Self::Held)
        ensures { view held.new ≡ kind.default };
}
