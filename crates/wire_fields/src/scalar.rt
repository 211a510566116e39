//! Scalar types: values of which each stands in one record.
ghost use Rattle.std.specs.Prelude.{◌≡◌, ◌≢◌, OnOk, IfErr};
ghost use Rattle.wire_codec.specs.DecodeError.TheVariants.{OutOfMemory};
ghost use Rattle.wire_codec.specs.FieldNumber.{IsFieldNumber};
ghost use Rattle.wire_codec.specs.Records.{text, text_size};
ghost use Rattle.wire_codec.specs.TagView.{tag_number, tag_type};
ghost use Rattle.wire_codec.specs.Writes.{Writes};
ghost use Rattle.wire_fields.specs.Numbers.{in_64_bits};
ghost use Rattle.wire_fields.specs.Scalar.{ScalarType, scalar_record, ReadsScalar, NoScalar};

use crate::number::{Number, get_number, number_len, put_number};
use bytes::Buf;
use std::alloc::Global;
use std::marker::PhantomData;
use wire_codec::{DecodeError, EncodeError, EncodeSink, Tag};

/// A type of which each value stands in one record: every `Numeric`, `Text`, `Blob`, and types of a
/// user's own.
pub trait Scalar {
    /// What a message holds.
    type Held: Drop;

    /// What contracts see of it.
    ghost Value: { Type 0 };

    ghost view: { Self.Held → Value };

    ghost scalar: { ScalarType Value };

    /// The default value.
    fn empty(alloc: Global) -> Self::Held
        ensures { view result ≡ scalar.default };

    /// Whether this is the default value, which a field of implicit presence leaves out.
    fn is_default(held: &Self::Held) -> bool
        ensures { result ≡ scalar.is_default (view held.now) };

    /// How many bytes the record of this value takes, or `u64::MAX` where it is more.
    fn len(number: u32, held: &Self::Held) -> u64
        requires { IsFieldNumber number }
        ensures { result ≡ in_64_bits (text_size (scalar_record scalar number (view held.now))) };

    /// Writes the record of this value. Refused where the sink refuses a put.
    fn put<S: EncodeSink>(number: u32, held: &Self::Held, sink: &mut S) -> Result<(), EncodeError>
        requires { IsFieldNumber number }
        ensures { Writes (text (scalar_record scalar number (view held.now)))
            (S.held sink.old) (S.held sink.new) result };

    /// Reads the payload behind this tag, and puts its value in the place of the one that is held.
    /// Another wire type is `WireTypeMismatch`. Any error but `OutOfMemory` says that no value
    /// stands there. A refusal leaves open what is held, and the place of the buffer.
    fn set<B: Buf>(
        alloc: Global,
        tag: Tag,
        held: &mut Self::Held,
        buf: &mut B,
    ) -> Result<(), DecodeError>
        ensures ok { OnOk result (ReadsScalar scalar (tag_number tag) (tag_type tag)
            (view held.new) (B.unread buf.old) (B.unread buf.new)) }
        ensures err { IfErr result (λ e. e ≢ OutOfMemory
            → NoScalar scalar (tag_number tag) (tag_type tag) (B.unread buf.old)) }
        ensures kept { B.kept buf.new ≡ B.kept buf.old };

    /// Makes the value the default one.
    fn clear(held: &mut Self::Held)
        ensures { view held.new ≡ scalar.default };
}

/// A number of the format as a scalar type: `Int32` and the like are names of these.
pub struct Numeric<N: Number> {
    number: PhantomData<N>,
}

impl<N: Number> Scalar for Numeric<N> {
    ghost use Rattle.wire_fields.specs.Numbers.{numeric};

    type Held = N::Value;

    ghost Value = { N.Value };

    ghost view = { λ v. v };

    ghost scalar = { numeric N.form N.map };

    fn empty(_alloc: Global) -> N::Value {
        N::value_of(0)
    }

    fn is_default(held: &N::Value) -> bool {
        N::number_of(*held) == 0
    }

    fn len(number: u32, held: &N::Value) -> u64 {
        number_len(number, N::form(), N::number_of(*held))
    }

    fn put<S: EncodeSink>(number: u32, held: &N::Value, sink: &mut S) -> Result<(), EncodeError> {
        put_number(number, N::form(), N::number_of(*held), sink)
    }

    fn set<B: Buf>(
        _alloc: Global,
        tag: Tag,
        held: &mut N::Value,
        buf: &mut B,
    ) -> Result<(), DecodeError> {
        let x = get_number(tag, N::form(), buf)?;
        *held = N::value_of(x);
        Ok(())
    }

    fn clear(held: &mut N::Value) {
        *held = N::value_of(0);
    }
}
