//! What of a view is written: its scalar types and its kinds of field.
ghost use Rattle.std.specs.Prelude.{◌≡◌, ◌≤◌, length, OnOk, IfOk, IfErr};
ghost use Rattle.wire_codec.specs.EncodeError.TheVariants.{OutOfMemory};
ghost use Rattle.wire_codec.specs.FieldNumber.{IsFieldNumber};
ghost use Rattle.wire_codec.specs.Records.{text, text_size};
ghost use Rattle.wire_codec.specs.Sizes.{sizes};
ghost use Rattle.wire_codec.specs.Tape.{NextAre, advanced};
ghost use Rattle.wire_codec.specs.Writes.{Writes};
ghost use Rattle.wire_fields.specs.Measuring.{Measures};
ghost use Rattle.wire_fields.specs.Numbers.{in_64_bits};
ghost use Rattle.wire_fields.specs.Scalar.{scalar_record};

use crate::view_kind::ViewKind;
use crate::view_scalar::ViewScalar;
use wire_codec::{EncodeError, EncodeSink, SizeCache};

/// A scalar type of a view, as it is written: `TextIn` and `BytesIn`.
pub trait WrittenScalar: ViewScalar {
    /// Whether this is the default value, which a field of implicit presence leaves out.
    fn is_default(held: &Self::Held) -> bool
        ensures { result ≡ Self.scalar.is_default (Self.view held.now) };

    /// How many bytes the record of this value takes, or `u64::MAX` where it is more.
    fn len(number: u32, held: &Self::Held) -> u64
        requires { IsFieldNumber number }
        ensures { result ≡ in_64_bits (text_size
            (scalar_record Self.scalar number (Self.view held.now))) };

    /// Writes the record of this value. Refused where the sink refuses a put.
    fn put<E: EncodeSink>(number: u32, held: &Self::Held, sink: &mut E) -> Result<(), EncodeError>
        requires { IsFieldNumber number }
        ensures { Writes (text (scalar_record Self.scalar number (Self.view held.now)))
            (E.held sink.old) (E.held sink.new) result };
}

/// A kind of field of a view, as it is written: every kind but maps, whose entries a view holds as
/// they came.
pub trait WrittenKind: ViewKind {
    /// How many bytes the records take, as `Kind::len`. The sizes of embedded messages are
    /// recorded. Refused where memory runs out.
    fn len(number: u32, held: &Self::Held, cache: &mut SizeCache) -> Result<u64, EncodeError>
        requires { IsFieldNumber number }
        ensures ok { IfOk result (λ len. Measures (Self.kind.records number (Self.view held.now))
            cache.old cache.new len) }
        ensures err { IfErr result (λ e. e ≡ OutOfMemory) };

    /// Writes the records, of at most 2,147,483,647 bytes, with the sizes that the cache has next,
    /// as `Kind::put`. Refused where the sink refuses a put.
    fn put<E: EncodeSink>(
        number: u32,
        held: &Self::Held,
        cache: &mut SizeCache,
        sink: &mut E,
    ) -> Result<(), EncodeError>
        requires number { IsFieldNumber number }
        requires sizes { NextAre (sizes (Self.kind.records number (Self.view held.now))) cache.old }
        requires size { text_size (Self.kind.records number (Self.view held.now)) ≤ 2147483647 }
        ensures written { Writes (text (Self.kind.records number (Self.view held.now)))
            (E.held sink.old) (E.held sink.new) result }
        ensures read { OnOk result (cache.new
            ≡ advanced cache.old (length (sizes (Self.kind.records number (Self.view held.now))))) };
}
