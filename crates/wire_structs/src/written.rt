//! What of a struct is written: its scalar types, its fields, and itself.
ghost use Rattle.std.specs.Prelude.{◌≡◌, ◌<◌, ◌^◌};
ghost use Rattle.wire_codec.specs.Records.{Records, joined_records, text, text_size};
ghost use Rattle.wire_codec.specs.Writes.{Writes};
ghost use Rattle.wire_fields.specs.Numbers.{in_64_bits};
ghost use Rattle.wire_structs.specs.Payloads.{scalar_payload};

use crate::payload::ScalarPayload;
use crate::scalar::StructScalar;
use wire_codec::{EncodeError, EncodeSink, laws};

/// A scalar type of a struct, as it is written.
pub trait WrittenStructScalar: StructScalar {
    /// Whether this is the default value, which a field of implicit presence leaves out.
    fn is_default(held: &Self::Held) -> bool
        ensures { result ≡ Self.scalar.is_default (Self.view held.now) };

    /// What is written of the value. Text is not looked at: it is written as it stands.
    fn payload<'h>(held: &'h Self::Held) -> ScalarPayload<'h>
        ensures { scalar_payload result ≡ Self.scalar.payload (Self.view held.now) };
}

/// Some fields of a struct with their values: one, or two such parts as a pair. A struct of many
/// fields is a tree of pairs, as its table is.
pub trait StructPart {
    /// The records of the fields.
    ghost records: { Self → Records };

    /// How many bytes the records take, or `u64::MAX` where it is more.
    fn len(&self) -> u64
        ensures { result ≡ in_64_bits (text_size (records self.now)) };

    /// Writes the records, of fewer than `2^64` bytes. Refused where the sink refuses a put.
    fn put<E: EncodeSink>(&self, sink: &mut E) -> Result<(), EncodeError>
        requires { text_size (records self.now) < 2 ^ 64 }
        ensures { Writes (text (records self.now)) (E.held sink.old) (E.held sink.new) result };
}

impl<A: StructPart, B: StructPart> StructPart for (A, B) {
    ghost records = { λ p. joined_records (A.records p.0) (B.records p.1) };

    #[inline(always)]
    fn len(&self) -> u64 {
        laws::joined_records_add_up();
        self.0.len().saturating_add(self.1.len())
    }

    #[inline(always)]
    fn put<E: EncodeSink>(&self, sink: &mut E) -> Result<(), EncodeError> {
        laws::joined_records_add_up();
        laws::piece_by_piece();
        self.0.put(sink)?;
        self.1.put(sink)
    }
}

/// No fields.
impl StructPart for () {
    ghost use Rattle.wire_codec.specs.Records.{none};

    ghost records = { λ p. none };

    #[inline(always)]
    fn len(&self) -> u64 {
        0
    }

    #[inline(always)]
    fn put<E: EncodeSink>(&self, _sink: &mut E) -> Result<(), EncodeError> {
        laws::piece_by_piece();
        Ok(())
    }
}

/// A message as a struct, as it is written where it stands inside another.
pub trait WrittenStruct {
    /// The value of the message for which a struct stands, and its records.
    ghost Value: { Type 0 };

    ghost value: { Self → Value };

    ghost records: { Value → Records };

    /// How many bytes the records take, or `u64::MAX` where it is more.
    fn written_len(&self) -> u64
        ensures { result ≡ in_64_bits (text_size (records (value self.now))) };

    /// Writes the records, of fewer than `2^64` bytes. Refused where the sink refuses a put.
    fn put_records<E: EncodeSink>(&self, sink: &mut E) -> Result<(), EncodeError>
        requires { text_size (records (value self.now)) < 2 ^ 64 }
        ensures { Writes (text (records (value self.now))) (E.held sink.old) (E.held sink.new)
            result };
}
